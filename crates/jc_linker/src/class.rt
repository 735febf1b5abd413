//! Linked classes.
ghost use Rattle.std.specs.Prelude.{◌≡◌, ◌+◌, ◌==◌, find, option_copied};
ghost use Rattle.jc_linker.specs.Classes.{declares_reference, is_listed};
ghost use Rattle.jc_linker.specs.Methods.{in_list, in_table, is_silent};

use crate::search::Search;
use crate::target::Method;
use jc_transient::ClassWord;
use std::marker::Model;

/// Virtual methods by token.
#[derive(Drop)]
pub struct TokenTable {
    /// The token of the first one; those below it are the superclass's.
    pub base: u8,
    /// The offset of each in the Method component, 65535 for one that is inherited.
    pub offsets: Vec<u16>,
}

impl Model for TokenTable {
    ghost use Rattle.jc_linker.specs.Values.{MethodTable};

    ghost Value = { MethodTable };

    ghost view = { λ t. record { base = t.base; offsets = t.offsets.items } };
}

/// An interface that a class implements, or a superinterface.
#[derive(Drop)]
pub struct LinkedInterface {
    pub interface: ClassWord,
    /// For each of its methods the token of the class's virtual method; none for a superinterface.
    pub tokens: Vec<u8>,
}

impl Model for LinkedInterface {
    ghost use Rattle.jc_linker.specs.Values.{Implementation};

    ghost Value = { Implementation };

    ghost view = { λ i. record { interface = i.interface; tokens = i.tokens.items } };
}

/// A class or an interface of a loaded package.
#[derive(Drop)]
pub struct LinkedClass {
    /// Where its record stands in the Class component.
    pub offset: u16,
    pub is_interface: bool,
    pub superclass: ClassWord,
    pub interfaces: Vec<LinkedInterface>,
    pub inherited_cells: u32,
    pub declared_cells: u8,
    pub first_reference: u8,
    pub reference_count: u8,
    pub public_methods: TokenTable,
    pub package_methods: TokenTable,
}

impl Model for LinkedClass {
    ghost use Rattle.std.specs.Prelude.{◌≤◌};
    ghost use Rattle.jc_linker.specs.Values.{ClassValue};

    ghost Value = { ClassValue };

    ghost view = { λ c. record {
      offset = c.offset;
      is_interface = c.is_interface;
      superclass = c.superclass;
      interfaces = c.interfaces.items;
      inherited_cells =
          c.inherited_cells;
      declared_cells = c.declared_cells;
      first_reference =
          c.first_reference;
      reference_count = c.reference_count;
      public_methods =
          c.public_methods;
      package_methods = c.package_methods;
    } };

    ghost invariant = { λ c. c.inherited_cells ≤ 65536 };
}

impl TokenTable {
    /// What the table says of a token.
    pub fn find(&self, package_number: u8, token: u8) -> Search<Method>
        ensures { result ≡ in_table package_number self.now token }
    {
        if token < self.base {
            return Search::Above;
        }
        match self.offsets.get((token - self.base) as usize).copied() {
            None => Search::Nowhere,
            Some(65535) => Search::Above,
            Some(offset) => Search::Found(Method::Code {
                package_number,
                offset,
            }),
        }
    }

    // The table leaves a token to the superclass.
    #[inline(always)]
    pub(crate) fn leaves(&self, token: u8) -> bool
        ensures { result ≡ is_silent (in_table 0 self.now token) }
    {
        if token < self.base {
            return true;
        }
        let place = usize::from(token - self.base);
        self.offsets.get(place).copied() == Some(65535)
    }
}

impl LinkedClass {
    /// How many cells an instance has.
    pub fn cells(&self) -> u32
        ensures { result ≡ self.now.inherited_cells + self.now.declared_cells }
    {
        self.inherited_cells + u32::from(self.declared_cells)
    }

    /// A field that the class declares, counted from its first, holds a reference.
    pub fn declares_reference(&self, field: u32) -> bool
        ensures { result ≡ declares_reference self.now field }
    {
        let first = u32::from(self.first_reference);
        first <= field && field < first + u32::from(self.reference_count)
    }

    /// It lists the interface.
    pub fn lists(&self, interface: ClassWord) -> bool
        ensures { result ≡ is_listed interface self.now.interfaces }
    {
        self.interfaces
            .iter()
            .any(|listed| listed.interface == interface)
    }

    /// The token of the virtual method that carries out the method of an interface with this token.
    pub fn implementing_token(&self, interface: ClassWord, token: u8) -> Search<u8>
        ensures { result ≡ in_list token (find (λ i. i.interface == interface)
            self.now.interfaces) }
    {
        let Some(listed) = self.listed_interface(interface) else {
            return Search::Above;
        };
        match listed.tokens.get(token as usize).copied() {
            None => Search::Nowhere,
            Some(own) => Search::Found(own),
        }
    }

    // What it lists of the interface.
    fn listed_interface(&self, interface: ClassWord) -> Option<&LinkedInterface>
        ensures { option_copied result ≡ find (λ i. i.interface == interface) self.now.interfaces }
    {
        self.interfaces
            .iter()
            .find(|listed| listed.interface == interface)
    }
}
