//! Whole images: laid, sealed, opened and checked, and their packages and applets, read from the words as they stand.
#![tactic(auto)]

mod areas;
mod beginning;
mod consistency;
mod laying;
mod listing;
mod marks;
mod opening;
mod package_table;
mod references;
mod steps;
mod words;

pub use laying::{ImageRoom, first_free, lay, seal};
pub use listing::{AppletName, PackageName, applet_at, package_at};
pub use opening::OpenImage;
pub use words::ImageWords;
