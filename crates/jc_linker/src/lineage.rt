//! A class and the classes above it.
ghost use Rattle.std.specs.Prelude.{◌≡◌, [], ◌∷◌, MatchOption};
ghost use Rattle.jc_linker.specs.Lineage.{next_class};
ghost use Rattle.jc_linker.specs.Classes.{lineage};

use crate::scope::Scope;
use jc_transient::ClassWord;
use std::marker::Model;

/// More classes than this no card has.
pub(crate) const MOST_CLASSES: u16 = 8704;

/// Which class comes next in a walk. A superclass is looked up only as it is asked for.
#[derive(Clone, Copy)]
pub(crate) enum Next {
    /// This class.
    Class(ClassWord),
    /// The superclass of this class, if it has one.
    Above(ClassWord),
}

/// What is left of the walk from a class upwards.
#[derive(Drop)]
pub(crate) struct Lineage<'a> {
    scope: &'a Scope<'a>,
    next: Next,
    left: u16,
}

impl<'a> Model for Lineage<'a> {
    ghost use Rattle.std.specs.Prelude.{ℕ, List};
    ghost use Rattle.jc_linker.specs.Classes.{lineage_from};
    ghost use Rattle.jc_linker.specs.Lineage.{next_class};

    ghost Value = { List ℕ };

    ghost view = { λ w. lineage_from w.scope.now w.left (next_class w.scope.now w.next) };
}

impl<'a> Scope<'a> {
    pub(crate) fn lineage(&'a self, class: ClassWord) -> Lineage<'a>
        ensures { result ≡ lineage self.entry.now class }
    {
        Lineage {
            scope: self,
            next: Next::Class(class),
            left: MOST_CLASSES,
        }
    }

    // The class that comes next in a walk.
    fn next_class(&self, next: Next) -> Option<ClassWord>
        ensures { result ≡ next_class self.now next }
    {
        match next {
            Next::Class(class) => Some(class),
            Next::Above(class) => self.superclass(class),
        }
    }
}

impl<'a> Lineage<'a> {
    /// The next class.
    #[tactic(auto, unfolding(crate::specs::Classes::lineage_from))]
    pub(crate) fn pop(&mut self) -> Option<ClassWord>
        ensures { MatchOption result (self.old ≡ []) (λ class. self.old ≡ class ∷ self.new) }
    {
        if self.left == 0 {
            return None;
        }
        let class = self.scope.next_class(self.next)?;
        self.left -= 1;
        self.next = Next::Above(class);
        Some(class)
    }
}
