//! The packages of a card.
ghost use Rattle.std.specs.Prelude.{ℕ, ◌≡◌, ◌<◌, ◌≤◌, ◌++◌, [], ◌∷◌, Some, true, length, slice_get, IfOk, IfSome, option_copied};
ghost use Rattle.jc_linker.specs.Classes.{class_in, is_below, is_class, is_instantiable_class, is_shareable, lineage, package_in, reference_cell, size_of, superclass_in};
ghost use Rattle.jc_linker.specs.Linking.{with_package};
ghost use Rattle.jc_linker.specs.Methods.{first_decided, implementation_in, inherits_method, interface_method_at, method_at, method_below};
ghost use Rattle.jc_linker.specs.Resolve.{names_interface};

use crate::class::LinkedClass;
use crate::package::LinkedPackage;
use crate::scope::Scope;
use crate::search::Search;
use crate::target::Method;
use jc_cap::pool::VirtualToken;
use jc_platform::platform::Platform;
use jc_transient::ClassWord;
use std::alloc::{AllocError, Global};
use std::marker::Model;

/// How many packages can be loaded.
pub const MOST_PACKAGES: usize = 32;

/// The packages of a card: the platform's, and those that were loaded, whose entries all resolve.
#[derive(Drop)]
pub struct Linked {
    pub(crate) platform: Platform,
    pub(crate) loaded: Vec<LinkedPackage>,
}

impl Model for Linked {
    ghost use Rattle.std.specs.Prelude.{◌≤◌, length, vec_capacity};
    ghost use Rattle.jc_linker.specs.Values.{Packages};

    ghost Value = { Packages };

    ghost view = { λ l. record { platform = l.platform; loaded = l.loaded.items } };

    ghost invariant = { λ l. (length l.loaded.items ≤ 32) × (32 ≤ vec_capacity l.loaded) };
}

impl Linked {
    /// The platform's packages alone. There is room for all others from then on.
    pub fn new(alloc: Global, platform: Platform) -> Result<Linked, AllocError>
        ensures { IfOk result (λ linked. linked ≡ record { platform = platform; loaded = [] }) }
    {
        Ok(Linked {
            platform,
            loaded: Vec::with_capacity(alloc, MOST_PACKAGES)?,
        })
    }

    /// Adds a package that was linked against these. It gets the next number.
    pub fn add(&mut self, addition: LinkedPackage)
        requires { length self.old.loaded < 32 }
        ensures { self.new ≡ record self.old { loaded = self.old.loaded ++ addition ∷ [] } }
    {
        match self.loaded.push(addition) {
            Ok(()) => {}
            Err(_) => unreachable!(),
        }
    }

    /// The platform's packages.
    pub fn platform(&self) -> &Platform
        ensures { result.now ≡ self.now.platform }
    {
        &self.platform
    }

    /// How many packages were loaded.
    pub fn count(&self) -> usize
        ensures { result ≡ length self.now.loaded }
    {
        self.loaded.len()
    }

    /// The number of the package that was loaded last; 0 where none was.
    pub fn last(&self) -> u8
        ensures number { result ≡ length self.now.loaded }
        ensures few { result ≤ 32 }
    {
        self.loaded.len() as u8
    }

    #[tactic(auto, unfolding(crate::specs::Classes::package_in))]
    pub(crate) fn package(&self, number: u8) -> Option<&LinkedPackage>
        ensures { option_copied result ≡ package_in self.now number }
    {
        // Of number 0 this is a place that no package has.
        self.loaded.get((number as usize).wrapping_sub(1))
    }

    // The class of a loaded package with this word.
    #[tactic(auto, unfolding(crate::specs::Classes::class_in))]
    #[inline(always)]
    fn loaded_class(&self, class: ClassWord) -> Option<&LinkedClass>
        ensures { option_copied result ≡ class_in self.now class }
    {
        self.package((class.0 / 256) as u8)?
            .classes
            .get((class.0 % 256) as usize)
    }

    pub(crate) fn scope(&self) -> Scope<'_>
        ensures { result ≡ self.entry.now }
    {
        Scope {
            platform: &self.platform,
            loaded: &self.loaded,
            own: None,
        }
    }

    /// These packages, and the one that is being linked after them.
    pub(crate) fn scope_with<'a>(&'a self, own: &'a LinkedPackage) -> Scope<'a>
        ensures { result ≡ with_package self.entry.now own.entry.now }
    {
        let own = Some(own);
        Scope {
            platform: &self.platform,
            loaded: &self.loaded,
            own,
        }
    }

    /// This word names a class or an interface.
    pub fn is_class(&self, class: ClassWord) -> bool
        ensures { result ≡ is_class self.now class }
    {
        self.scope().is_class(class)
    }

    /// The superclass. `Object` and interfaces have none.
    pub fn superclass(&self, class: ClassWord) -> Option<ClassWord>
        ensures { result ≡ superclass_in self.now class }
    {
        self.scope().superclass(class)
    }

    /// A subtype: the class is the other, below it, or implements it. It takes time that grows with the number of
    /// classes above, and with the interfaces that they list.
    pub fn is_below(&self, class: ClassWord, of: ClassWord) -> bool
        ensures { result ≡ is_below self.now class of }
    {
        self.scope().is_below(class, of)
    }

    /// The class is an interface.
    pub fn names_interface(&self, class: ClassWord) -> bool
        ensures { result ≡ names_interface self.now class }
    {
        self.scope().names_interface(class)
    }

    /// An interface that extends `Shareable`, or a class with such an interface.
    pub fn is_shareable(&self, class: ClassWord) -> bool
        ensures { result ≡ is_shareable self.now class }
    {
        self.scope().is_shareable(class)
    }

    /// How many cells an instance has.
    pub fn size_of(&self, class: ClassWord) -> u32
        ensures { result ≡ size_of self.now class }
    {
        self.scope().size_of(class)
    }

    /// `new` makes instances of it.
    pub fn is_instantiable_class(&self, class: ClassWord) -> bool
        ensures { result ≡ is_instantiable_class self.now class }
    {
        self.scope().is_instantiable_class(class)
    }

    /// A cell of an instance holds a reference.
    pub fn reference_cell(&self, class: ClassWord, cell: u16) -> bool
        ensures { result ≡ reference_cell self.now class cell }
    {
        self.scope().reference_cell(class, cell)
    }

    /// The method that a call by token on an instance of a class runs, through a class of the package with this
    /// number. It takes time that grows with the number of classes above.
    #[inline(always)]
    pub fn method_at(
        &self,
        class: ClassWord,
        package_number: u8,
        token: VirtualToken,
    ) -> Option<Method>
        ensures { result ≡ method_at self.now class package_number token }
    {
        match self.own_method(class, token) {
            Some(method) => Some(method),
            None => self.scope().method_at(class, package_number, token),
        }
    }

    // The method that a loaded class itself has under a public token.
    #[tactic(auto, using(crate::proofs::AtOnce::own_found))]
    #[inline(always)]
    fn own_method(&self, class: ClassWord, token: VirtualToken) -> Option<Method>
        ensures { IfSome result (λ method. (package_number : ℕ)
            → method_at self.now class package_number token ≡ Some method) }
    {
        let VirtualToken::Public(token) = token else {
            return None;
        };
        let loaded = self.loaded_class(class)?;
        match loaded.public_methods.find((class.0 / 256) as u8, token) {
            Search::Found(method) => Some(method),
            Search::Above | Search::Nowhere => None,
        }
    }

    /// The method that a call by token runs on an instance of a class, where linking found this method for the class that
    /// the call names. It takes time that grows with the number of classes up to that one.
    pub fn method_below(
        &self,
        own: ClassWord,
        class: ClassWord,
        token: VirtualToken,
        method: Method,
    ) -> Option<Method>
        ensures { result ≡ method_below self.now own class token method }
    {
        self.scope().method_below(own, class, token, method)
    }

    /// Whether a call by this public token on an instance of the first class runs the method that linking found for the second one, since the
    /// walk up from the first class comes to the second one and no class before says anything of the token. It takes time that grows
    /// with the number of classes up to the second one.
    #[inline(always)]
    pub fn inherits_method(&self, own: ClassWord, class: ClassWord, token: u8) -> bool
        ensures { result ≡ inherits_method self.now own class token }
    {
        self.inherits_at_once(own, class, token) || self.scope().inherits_method(own, class, token)
    }

    /// The same where the first class is a loaded one right below the second one: no call is needed to know it. `false` says nothing.
    #[tactic(auto, using(crate::proofs::AtOnce::inherited_at_once))]
    #[inline(always)]
    pub fn inherits_at_once(&self, own: ClassWord, class: ClassWord, token: u8) -> bool
        ensures { result ≡ true → inherits_method self.now own class token ≡ true }
    {
        let Some(loaded) = self.loaded_class(own) else {
            return false;
        };
        if loaded.is_interface || loaded.superclass != class {
            return false;
        }
        loaded.public_methods.leaves(token)
    }

    /// The method that a call of an interface's method by token on an instance of a class runs. It takes time that
    /// grows with the number of classes above.
    #[tactic(auto, unfolding(crate::specs::Methods::interface_method_at))]
    #[inline(always)]
    pub fn interface_method_at(
        &self,
        class: ClassWord,
        interface: ClassWord,
        token: u8,
    ) -> Option<Method>
        ensures { result ≡ interface_method_at self.now class interface token }
    {
        match self.own_implementation(class, interface, token) {
            Some(own) => self.method_at(class, 0, VirtualToken::Public(own)),
            None => self.scope().interface_method_at(class, interface, token),
        }
    }

    // The token of the virtual method by which a loaded class itself carries out a method of an interface.
    #[tactic(auto, using(crate::proofs::AtOnce::implemented_at_once))]
    #[inline(always)]
    fn own_implementation(&self, class: ClassWord, interface: ClassWord, token: u8) -> Option<u8>
        ensures { IfSome result (λ own. first_decided (implementation_in self.now interface token)
            (lineage self.now class) ≡ Some own) }
    {
        let loaded = self.loaded_class(class)?;
        match loaded.implementing_token(interface, token) {
            Search::Found(own) => Some(own),
            Search::Above | Search::Nowhere => None,
        }
    }
}
