//! A journal over a store of words: transactions that a loss of power takes back.
#![tactic(auto)]

mod changes;
mod check;
mod index;
mod journal;
mod keep;
mod keeping_law;
mod migration;
mod recovery_law;
mod refusal;
mod undo;
mod word;

pub use changes::{LONGEST_WORD_RUN, WordChanges, WordRun};
pub use journal::Journal;
pub use keeping_law::what_changes_keep;
pub use recovery_law::recovery_may_be_interrupted;
pub use refusal::{OpenRefusal, WriteRefusal};
