//! Whether what a package's classes name is there.
ghost use Rattle.std.specs.Prelude.{◌≡◌, ◌==◌, ◌||◌, ◌<◌, ◌≤◌, Some, length, not, slice_get};
ghost use Rattle.std.specs.List.{list_all};
ghost use Rattle.jc_linker.specs.Completeness.{are_complete, has_method, has_superclass, inherits_from, is_implemented, is_complete};

use crate::class::{LinkedClass, LinkedInterface};
use crate::scope::Scope;
use jc_cap::pool::VirtualToken;
use jc_transient::ClassWord;

impl Scope<'_> {
    /// All that these classes of the package with this number name is there.
    pub(crate) fn are_complete(&self, number: u8, classes: &[LinkedClass]) -> bool
        requires { length classes.now ≤ 256 }
        ensures { result ≡ are_complete self.now number classes.now }
    {
        for place in 0..classes.len() {
            let class = ClassWord(256 * u16::from(number) + place as u16);
            let whole = self.is_complete(number, class, class_at(classes, place));
            if !whole {
                return false;
            }
        }
        true
    }

    #[tactic(auto, unfolding(crate::specs::Completeness::is_complete))]
    fn is_complete(&self, number: u8, class: ClassWord, linked: &LinkedClass) -> bool
        ensures { result ≡ is_complete self.now number class linked.now }
    {
        let methods = &linked.public_methods;
        self.has_superclass(linked)
            && self.are_implemented(number, class, &linked.interfaces)
            && self.inherits(number, linked.superclass, methods.base, &methods.offsets)
    }

    fn has_superclass(&self, linked: &LinkedClass) -> bool
        ensures { result ≡ has_superclass self.now linked.now }
    {
        linked.is_interface
            || (self.is_class(linked.superclass) && !self.names_interface(linked.superclass))
    }

    fn are_implemented(&self, number: u8, class: ClassWord, listed: &[LinkedInterface]) -> bool
        ensures { result ≡ list_all (is_implemented self.now number class) listed.now }
    {
        listed
            .iter()
            .all(|interface| self.is_implemented(number, class, interface))
    }

    fn is_implemented(&self, number: u8, class: ClassWord, listed: &LinkedInterface) -> bool
        ensures { result ≡ is_implemented self.now number class listed.now }
    {
        self.names_interface(listed.interface) && self.has_methods(number, class, &listed.tokens)
    }

    fn has_methods(&self, number: u8, class: ClassWord, tokens: &[u8]) -> bool
        ensures { result ≡ list_all (λ token. has_method self.now number class token) tokens.now }
    {
        tokens.iter().all(|token| self.has_method(number, class, usize::from(*token)))
    }

    /// A class has a public method with this token.
    #[tactic(auto, unfolding(crate::specs::Completeness::has_method))]
    fn has_method(&self, number: u8, class: ClassWord, token: usize) -> bool
        ensures { result ≡ has_method self.now number class token }
    {
        if token > 255 {
            return false;
        }
        self.method_at(class, number, VirtualToken::Public(token as u8))
            .is_some()
    }

    // The methods from the base on that are inherited are there in the superclass.
    fn inherits(&self, number: u8, superclass: ClassWord, base: u8, offsets: &[u16]) -> bool
        ensures { result ≡ inherits_from self.now number superclass base offsets.now }
    {
        for place in 0..offsets.len() {
            let token = usize::from(base) + place;
            let there = self.is_there(number, superclass, token, offset_at(offsets, place));
            if !there {
                return false;
            }
        }
        true
    }

    // The method is the class's own, or is there in the superclass.
    fn is_there(&self, number: u8, superclass: ClassWord, token: usize, offset: u16) -> bool
        ensures { result ≡ (not (offset == 65535) || has_method self.now number superclass token) }
    {
        offset != 65535 || self.has_method(number, superclass, token)
    }
}

fn class_at(classes: &[LinkedClass], place: usize) -> &LinkedClass
    requires { place < length classes.now }
    ensures { slice_get classes.entry.now place ≡ Some result.now }
{
    &classes[place]
}

fn offset_at(offsets: &[u16], place: usize) -> u16
    requires { place < length offsets.now }
    ensures { slice_get offsets.now place ≡ Some result }
{
    offsets[place]
}
