//! The packages of a card, and one after them that is being linked.
ghost use Rattle.std.specs.Prelude.{◌≡◌, option_copied};
ghost use Rattle.jc_linker.specs.Classes.{class_in, package_in};

use crate::class::LinkedClass;
use crate::package::LinkedPackage;
use jc_platform::platform::Platform;
use jc_transient::ClassWord;
use std::marker::Model;

#[derive(Drop)]
pub(crate) struct Scope<'a> {
    pub(crate) platform: &'a Platform,
    pub(crate) loaded: &'a [LinkedPackage],
    /// The one that is being linked, which has the next number.
    pub(crate) own: Option<&'a LinkedPackage>,
}

impl<'a> Model for Scope<'a> {
    ghost use Rattle.std.specs.Prelude.{◌++◌, option_copied, option_to_list};
    ghost use Rattle.jc_linker.specs.Values.{Packages};

    ghost Value = { Packages };

    ghost view = { λ s. record {
      platform = s.platform.now;
      loaded = s.loaded.now ++ option_to_list (option_copied s.own);
    } };
}

impl Scope<'_> {
    #[tactic(auto, unfolding(crate::specs::Classes::package_in))]
    pub(crate) fn package(&self, number: u8) -> Option<&LinkedPackage>
        ensures { option_copied result ≡ package_in self.now number }
    {
        if number == 0 {
            return None;
        }
        let place = number as usize - 1;
        if place < self.loaded.len() {
            return self.loaded.get(place);
        }
        if place > self.loaded.len() {
            return None;
        }
        self.own
    }

    #[tactic(auto, unfolding(crate::specs::Classes::class_in))]
    pub(crate) fn loaded_class(&self, class: ClassWord) -> Option<&LinkedClass>
        ensures { option_copied result ≡ class_in self.now class }
    {
        self.package((class.0 / 256) as u8)?
            .classes
            .get((class.0 % 256) as usize)
    }
}
