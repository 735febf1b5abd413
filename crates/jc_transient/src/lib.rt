//! What a card keeps in memory alone (cells of transient objects, flags of objects, the APDU buffer), owners, and classes and owners as the words
//! of an image name them.
#![tactic(auto)]

mod area;
mod cell;
mod header_words;
mod owner;
mod ram;
mod reference;
mod sizes;

pub use cell::{CellValue, ClearEvent};
pub use header_words::{ClassWord, NO_CLASS, OwnerWord, RUNTIME_ENVIRONMENT};
pub use owner::{AppletNumber, Owner, PackageNumber};
pub use ram::Ram;
pub use reference::Ref;
pub use sizes::{BUFFER_CELLS, MOST_BUFFER, MOST_CELLS, RamSizes, USUAL_CELLS, are_sizes};
