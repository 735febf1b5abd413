//! Makes an image of the first version one of the version that is written.
ghost use Rattle.std.specs.Prelude.{◌≡◌, ◌≤◌, OnOk, OnErr, is_ok, length};
ghost use Rattle.jc_words.specs.Layout.{log_end};
ghost use Rattle.jc_commit.specs.Migration.{migration, migrated, IsPartOfMigration};
ghost use Rattle.jc_commit.specs.Writing.{Wrote};

use jc_words::layout::{
    CAPACITY_WORD, FIRST_VERSION, FRONT_CAPACITY, JOURNAL_WORD, LOG_START, VERSION, VERSION_WORD,
};
use jc_words::{StoreDown, WordStore};

// Writes the words that the first version does not look at, and last the version, so that the image has
// one journal however many of these writes pass.
pub(crate) fn migrate<S: WordStore>(store: &mut S) -> Result<(), StoreDown>
    requires { log_end ≤ length (S.words store.old) }
    ensures words { OnOk result (S.words store.new ≡ migrated 3 (S.words store.old)) }
    ensures part { OnErr result (IsPartOfMigration (S.words store.old) (S.words store.new)
        (S.passed store.old) (S.passed store.new)) }
    ensures wrote { Wrote S.down S.passed S.refusals (length (migration (S.words store.old)))
        (is_ok result) store.old store.new }
{
    if store.read(VERSION_WORD) != FIRST_VERSION {
        return Ok(());
    }
    store.write(CAPACITY_WORD, FRONT_CAPACITY)?;
    store.write(JOURNAL_WORD, LOG_START)?;
    store.write(VERSION_WORD, VERSION)?;
    Ok(())
}
