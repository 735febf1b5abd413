//! Classes by their words.
ghost use Rattle.std.specs.Prelude.{◌≡◌, ◌<◌, ◌==◌, ◌||◌, ◌&&◌, nat_lt};
ghost use Rattle.std.specs.List.{list_any};
ghost use Rattle.jc_linker.specs.Classes.{extends, implements, interfaces_in, platform_interfaces, is_among, is_below, is_class, is_deep, is_listed};
ghost use Rattle.jc_linker.specs.Classes.{is_instantiable_class, is_shareable, is_told, lineage, lists_some, own_reference, class_in, reference_cell};
ghost use Rattle.jc_linker.specs.Classes.{size_of, superclass_in, extends_by};
ghost use Rattle.jc_platform.specs.Platform.{class_by_word};

use crate::lineage::MOST_CLASSES;
use crate::scope::Scope;
use jc_platform::names::PlatformClass;
use jc_transient::ClassWord;

// What the table says of an interface with a lower word.
fn is_told(table: &[bool], superinterface: ClassWord, interface: ClassWord) -> bool
    ensures { result ≡ is_told table.now superinterface interface }
{
    let place = superinterface.0 as usize;
    superinterface.0 < interface.0 && table.get(place).copied().unwrap_or(false)
}

impl Scope<'_> {
    /// This word names a class or an interface.
    #[tactic(auto, unfolding(crate::specs::Classes::is_class))]
    pub(crate) fn is_class(&self, class: ClassWord) -> bool
        ensures { result ≡ is_class self.now class }
    {
        self.loaded_class(class).is_some() || self.platform.class_by_word(class).is_some()
    }

    /// The superclass. `Object` and interfaces have none.
    #[tactic(auto, unfolding(crate::specs::Classes::superclass_in))]
    pub(crate) fn superclass(&self, class: ClassWord) -> Option<ClassWord>
        ensures { result ≡ superclass_in self.now class }
    {
        if let Some(loaded) = self.loaded_class(class) {
            return if loaded.is_interface {
                None
            } else {
                Some(loaded.superclass)
            };
        }
        let superclass = self.platform.class_by_word(class)?.superclass()?;
        Some(self.platform.class_word(superclass))
    }

    // One of these interfaces of the platform is it.
    fn names(&self, listed: &[PlatformClass], interface: ClassWord) -> bool
        ensures { result ≡ is_listed interface (platform_interfaces self.now listed.now) }
    {
        let Some((first, others)) = listed.split_first() else {
            return false;
        };
        self.platform.class_word(*first) == interface || self.names(others, interface)
    }

    // The class lists the interface.
    #[tactic(auto, unfolding(crate::specs::Classes::interfaces_in))]
    fn lists(&self, class: ClassWord, interface: ClassWord) -> bool
        ensures { result ≡ is_listed interface (interfaces_in self.now class) }
    {
        if let Some(loaded) = self.loaded_class(class) {
            return loaded.lists(interface);
        }
        match self.platform.class_by_word(class) {
            Some(named) => self.names(named.interfaces(), interface),
            None => false,
        }
    }

    // A class or an interface lists some interface.
    #[tactic(auto, using(crate::proofs::PlatformLists::length_listed), unfolding(crate::specs::Classes::interfaces_in))]
    fn lists_some(&self, class: ClassWord) -> bool
        ensures { result ≡ lists_some self.now class }
    {
        if let Some(loaded) = self.loaded_class(class) {
            return !loaded.interfaces.is_empty();
        }
        match self.platform.class_by_word(class) {
            Some(named) => !named.interfaces().is_empty(),
            None => false,
        }
    }

    // One of these interfaces of the platform comes before the interface and has a list of its own.
    fn names_deep(&self, listed: &[PlatformClass], interface: ClassWord) -> bool
        ensures { result ≡ list_any (λ i. nat_lt i.interface interface
            && lists_some self.now i.interface) (platform_interfaces self.now listed.now) }
    {
        let Some((first, others)) = listed.split_first() else {
            return false;
        };
        let word = self.platform.class_word(*first);
        (word.0 < interface.0 && self.lists_some(word)) || self.names_deep(others, interface)
    }

    // One of the interfaces that a loaded interface lists has a list of its own.
    #[tactic(auto, unfolding(crate::specs::Classes::interfaces_in))]
    fn is_deep(&self, interface: ClassWord) -> bool
        ensures { result ≡ is_deep self.now interface }
    {
        if let Some(loaded) = self.loaded_class(interface) {
            return loaded.interfaces.iter().any(|listed| listed.interface.0 < interface.0
                && self.lists_some(listed.interface));
        }
        match self.platform.class_by_word(interface) {
            Some(named) => self.names_deep(named.interfaces(), interface),
            None => false,
        }
    }

    // One of these interfaces of the platform is the other one, or the table says that it extends it.
    fn names_told(
        &self,
        listed: &[PlatformClass],
        interface: ClassWord,
        of: ClassWord,
        table: &[bool],
    ) -> bool
        ensures { result ≡ list_any (λ i. i.interface == of
            || is_told table.now i.interface interface) (platform_interfaces self.now listed.now) }
    {
        let Some((first, others)) = listed.split_first() else {
            return false;
        };
        let word = self.platform.class_word(*first);
        word == of
            || is_told(table, word, interface)
            || self.names_told(others, interface, of, table)
    }

    // It lists the interface, or one of which the table says that it extends it.
    #[tactic(auto, unfolding(crate::specs::Classes::interfaces_in))]
    fn extends_by(&self, interface: ClassWord, of: ClassWord, table: &[bool]) -> bool
        ensures { result ≡ extends_by self.now of table.now interface }
    {
        if let Some(loaded) = self.loaded_class(interface) {
            return loaded.interfaces.iter().any(|listed| listed.interface == of
                || is_told(table, listed.interface, interface));
        }
        match self.platform.class_by_word(interface) {
            Some(named) => self.names_told(named.interfaces(), interface, of, table),
            None => false,
        }
    }

    // An interface of a loaded package extends the other one: those with lower words are looked at in turn.
    fn extends_deep(&self, interface: ClassWord, of: ClassWord) -> bool
        requires { interface < 8704 }
        ensures { result ≡ extends self.now interface of }
    {
        let mut table = [false; MOST_CLASSES as usize];
        for word in 0..interface.0 {
            table[word as usize] = self.extends_by(ClassWord(word), of, &table);
        }
        self.extends_by(interface, of, &table)
    }

    // An interface extends the other one. Only where it lists interfaces that list others does it take more time than
    // its list is long.
    #[tactic(auto, using(crate::proofs::Extending::extends_listed, crate::proofs::Extending::extends_high, crate::proofs::Extending::extends_shallow))]
    fn extends(&self, interface: ClassWord, of: ClassWord) -> bool
        ensures { result ≡ extends self.now interface of }
    {
        if self.lists(interface, of) {
            return true;
        }
        if interface.0 >= MOST_CLASSES || !self.is_deep(interface) {
            return false;
        }
        self.extends_deep(interface, of)
    }

    // One of these interfaces of the platform is the other one or extends it.
    fn names_below(&self, listed: &[PlatformClass], interface: ClassWord) -> bool
        ensures { result ≡ list_any (λ i. i.interface == interface
            || extends self.now i.interface interface) (platform_interfaces self.now listed.now) }
    {
        let Some((first, others)) = listed.split_first() else {
            return false;
        };
        let word = self.platform.class_word(*first);
        word == interface || self.extends(word, interface) || self.names_below(others, interface)
    }

    // The class itself lists the interface, or one that extends it.
    #[tactic(auto, unfolding(crate::specs::Classes::implements, crate::specs::Classes::interfaces_in))]
    fn implements(&self, class: ClassWord, interface: ClassWord) -> bool
        ensures { result ≡ implements self.now class interface }
    {
        if let Some(loaded) = self.loaded_class(class) {
            return loaded.interfaces.iter().any(|listed| listed.interface == interface
                || self.extends(listed.interface, interface));
        }
        match self.platform.class_by_word(class) {
            Some(named) => self.names_below(named.interfaces(), interface),
            None => false,
        }
    }

    // The class is the other or below it, whatever they list.
    fn reaches(&self, class: ClassWord, of: ClassWord) -> bool
        ensures { result ≡ is_among of (lineage self.now class) }
    {
        let mut walk = self.lineage(class);
        while let Some(above) = walk.pop() {
            if above == of {
                return true;
            }
        }
        false
    }

    /// A subtype: the class is the other, below it, or implements it. It takes time that grows with the number of
    /// classes above, and with the interfaces that they list.
    #[tactic(auto, using(crate::proofs::Extending::among_is), unfolding(crate::specs::Classes::is_below, crate::specs::Classes::any_is))]
    pub(crate) fn is_below(&self, class: ClassWord, of: ClassWord) -> bool
        ensures { result ≡ is_below self.now class of }
    {
        if self.reaches(class, of) {
            return true;
        }
        let mut walk = self.lineage(class);
        while let Some(above) = walk.pop() {
            if above == of || self.implements(above, of) {
                return true;
            }
        }
        false
    }

    /// An interface that extends `Shareable`, or a class with such an interface.
    #[tactic(auto, unfolding(crate::specs::Classes::is_shareable))]
    pub(crate) fn is_shareable(&self, class: ClassWord) -> bool
        ensures { result ≡ is_shareable self.now class }
    {
        self.is_below(class, self.platform.class_word(PlatformClass::Shareable))
    }

    /// How many cells an instance has.
    #[tactic(auto, unfolding(crate::specs::Classes::size_of))]
    pub(crate) fn size_of(&self, class: ClassWord) -> u32
        ensures { result ≡ size_of self.now class }
    {
        if let Some(loaded) = self.loaded_class(class) {
            return loaded.cells();
        }
        match self.platform.class_by_word(class) {
            Some(named) => u32::from(named.cells()),
            None => 0,
        }
    }

    /// `new` makes instances of it.
    #[tactic(auto, unfolding(crate::specs::Classes::is_instantiable_class))]
    pub(crate) fn is_instantiable_class(&self, class: ClassWord) -> bool
        ensures { result ≡ is_instantiable_class self.now class }
    {
        if let Some(loaded) = self.loaded_class(class) {
            return !loaded.is_interface;
        }
        match self.platform.class_by_word(class) {
            Some(named) => named.is_instantiable(),
            None => false,
        }
    }

    /// A cell of an instance holds a reference.
    #[tactic(auto, unfolding(crate::specs::Classes::reference_cell, crate::specs::Classes::any_reference))]
    pub(crate) fn reference_cell(&self, class: ClassWord, cell: u16) -> bool
        ensures { result ≡ reference_cell self.now class cell }
    {
        let mut walk = self.lineage(class);
        while let Some(above) = walk.pop() {
            if self.own_reference(above, cell) {
                return true;
            }
        }
        false
    }

    // The cell belongs to this class, not to a superclass, and holds a reference.
    fn own_reference(&self, class: ClassWord, cell: u16) -> bool
        ensures { result ≡ own_reference (class_in self.now class)
            (class_by_word self.now.platform class) cell }
    {
        if let Some(loaded) = self.loaded_class(class) {
            let cell = u32::from(cell);
            return loaded.inherited_cells <= cell
                && loaded.declares_reference(cell - loaded.inherited_cells);
        }
        match self.platform.class_by_word(class) {
            Some(named) => named.holds_reference(cell),
            None => false,
        }
    }
}
