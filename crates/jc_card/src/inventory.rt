//! What the first words of an image say of it.
ghost use Rattle.std.specs.Prelude.{◌≡◌, MatchResult};
ghost use Rattle.jc_card.specs.Inventory.{inventory_of};
ghost use Rattle.jc_card.specs.PowerUp.{HasHead, PowerUpRefuses, fault_of};

use jc_words::layout::{APPLETS, COUNT, PACKAGES};
use jc_words::{ImageFault, Log, WordStore, check_image};

/// What an image holds, as its words stand: nothing is recovered.
#[derive(Clone, Copy, Drop)]
pub struct Inventory {
    /// How many words there are.
    pub words: u16,
    /// How many entries of the journal count. Where it is above 0, a change was left open.
    pub journal: u16,
    /// How many entries the journal can have.
    pub capacity: u16,
    /// How many packages are there.
    pub packages: u16,
    /// How many applets are there.
    pub applets: u16,
}

impl Inventory {
    /// The inventory of a store, whose first words have to be those of an image.
    pub fn of<S: WordStore>(store: &S) -> Result<Inventory, ImageFault>
        ensures { MatchResult result
            (λ found. HasHead (S.words store.now) × (found ≡ inventory_of (S.words store.now)))
            (λ fault. PowerUpRefuses (fault_of fault) (S.words store.now)) }
    {
        check_image(store)?;
        Ok(Inventory {
            words: store.size(),
            journal: store.read(COUNT),
            capacity: Log::of(store).capacity,
            packages: store.read(PACKAGES),
            applets: store.read(APPLETS),
        })
    }
}
