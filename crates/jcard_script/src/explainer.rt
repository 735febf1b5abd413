//! Who asks what commands of a script did.

use crate::expectations::Expectations;
use crate::static_image::StaticImage;
use jcard_why::covers::Cover;
use jcard_why::explanation::{Asked, Wanted};
use jcard_why::watches::Watch;

/// Somebody who may be shown what commands did. No answer depends on it.
pub trait Explainer {
    /// What it wants to know; nothing, where it does not ask.
    fn wanted(&self) -> Option<Wanted>;

    /// A map that names methods; empty where there is none.
    fn map(&self) -> &[u8];

    /// What it wanted to know of a command.
    fn tell(&mut self, text: &[u8]);

    /// Where it counts instructions, where it wants that.
    fn cover(&mut self) -> Option<&mut Cover>;

    /// Where it watches word writes, where it wants that.
    fn watch(&self) -> Option<&Watch>;

    /// Whether it looks for arrivals of a command at places of the code.
    fn looks_for_arrivals(&self) -> bool {
        false
    }

    /// What is reported of the arrivals of a command, before which the static images were these; nothing where memory is refused.
    fn arrivals(&self, _asked: &Asked<'_>, _images: &[StaticImage]) -> Option<Vec<u8>> {
        None
    }

    /// Where it compares answers, where it wants that.
    fn expectations(&mut self) -> Option<&mut Expectations>;

    /// A remark on the script: a whole line.
    fn remark(&mut self, text: &[u8]);
}

/// Nobody asks.
#[derive(Clone, Copy, Drop)]
pub struct Unasked;

impl Explainer for Unasked {
    fn wanted(&self) -> Option<Wanted> {
        None
    }

    fn map(&self) -> &[u8] {
        b""
    }

    fn tell(&mut self, _text: &[u8]) {}

    fn cover(&mut self) -> Option<&mut Cover> {
        None
    }

    fn watch(&self) -> Option<&Watch> {
        None
    }

    fn expectations(&mut self) -> Option<&mut Expectations> {
        None
    }

    fn remark(&mut self, _text: &[u8]) {}
}
