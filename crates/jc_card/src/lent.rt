//! A store that is lent to be read.
ghost use Rattle.std.specs.Prelude.{◌≡◌, false, None};

use jc_words::{StoreDown, WordStore};

/// The words of a store, lent: a write of them is refused.
#[derive(Drop)]
pub(crate) struct LentStore<'a, S: WordStore> {
    store: &'a S,
    down: bool,
    // How many writes were refused, and how many of these while it was up.
    refused: u64,
    faults: u64,
}

impl<'a, S: WordStore> LentStore<'a, S> {
    /// The words of this store.
    pub(crate) fn of(store: &'a S) -> LentStore<'a, S>
        ensures words { S.words result.store.now ≡ S.words store.now }
        ensures up { result.down ≡ false }
    {
        LentStore {
            store,
            down: false,
            refused: 0,
            faults: 0,
        }
    }
}

impl<'a, S: WordStore> WordStore for LentStore<'a, S> {
    ghost words = { λ l. S.words l.store.now };

    ghost down = { λ l. l.down };

    ghost passed = { λ _. 0 };

    ghost refusals = { λ l. record { count = l.refused; fuse = None; faults = l.faults } };

    fn size(&self) -> u16 {
        self.store.size()
    }

    fn read(&self, i: u16) -> u16 {
        self.store.read(i)
    }

    #[tactic(auto, unfolding(jc_words::specs::Refusals::refused_once))]
    fn write(&mut self, _i: u16, _v: u16) -> Result<(), StoreDown> {
        if !self.down {
            self.faults = self.faults.saturating_add(1);
        }
        self.refused = self.refused.saturating_add(1);
        self.down = true;
        Err(StoreDown)
    }

    fn passed_writes(&self) -> u64 {
        0
    }

    fn is_down(&self) -> bool {
        self.down
    }

    fn power_on(&mut self) {
        self.down = false;
    }
}
