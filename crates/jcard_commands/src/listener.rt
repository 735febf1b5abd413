//! Who is shown what the commands of a run did.

use jcard_arguments::options::{Lines, RunOptions};
use jcard_breaks::arrivals::told_arrivals;
use jcard_breaks::points::Point;
use jcard_files::remarks::Remarks;
use jcard_script::expectations::Expectations;
use jcard_script::explainer::Explainer;
use jcard_script::static_image::StaticImage;
use jcard_why::covers::Cover;
use jcard_why::explanation::{Asked, TracedLines, Wanted};
use jcard_why::watches::Watch;
use std::alloc::Global;

/// This many instructions of a command are reported at most, where the words say nothing of it.
const USUAL_LINES: u32 = 10_000;

/// Somebody who is shown what the commands of a run did. No answer depends on it.
pub trait Listener {
    /// What is reported of a command.
    fn tell(&mut self, text: &[u8]);
}

/// A listener, with what the words of a run ask for, and the names of methods.
#[derive(Drop)]
pub(crate) struct Told<'a, L> {
    listener: &'a mut L,
    names: &'a [u8],
    points: Vec<Point>,
    wanted: Wanted,
    cover: Cover,
    expect: bool,
    expectations: Expectations,
}

impl<'a, L: Listener> Told<'a, L> {
    /// Nothing is reported yet.
    pub(crate) fn new(
        alloc: Global,
        listener: &'a mut L,
        names: &'a [u8],
        points: Vec<Point>,
        options: &RunOptions<'_>,
    ) -> Self {
        Told {
            listener,
            names,
            points,
            wanted: wanted_by(options),
            cover: Cover::new(alloc),
            expect: options.expect,
            expectations: Expectations::new(),
        }
    }

    /// How often instructions were carried out.
    pub(crate) fn cover(&self) -> &Cover {
        &self.cover
    }

    /// What the script expected.
    pub(crate) fn expectations(&self) -> &Expectations {
        &self.expectations
    }
}

impl<'a, L: Listener + Remarks> Explainer for Told<'a, L> {
    // Where nothing is asked for, no notes are kept.
    fn wanted(&self) -> Option<Wanted> {
        let wanted = self.wanted;
        if wanted.why || wanted.trace.is_some() || wanted.cover || wanted.stops {
            return Some(wanted);
        }
        None
    }

    fn map(&self) -> &[u8] {
        self.names
    }

    fn tell(&mut self, text: &[u8]) {
        self.listener.tell(text);
    }

    fn cover(&mut self) -> Option<&mut Cover> {
        if self.wanted.cover {
            return Some(&mut self.cover);
        }
        None
    }

    fn watch(&self) -> Option<&Watch> {
        None
    }

    fn looks_for_arrivals(&self) -> bool {
        !self.points.is_empty()
    }

    fn arrivals(&self, asked: &Asked<'_>, images: &[StaticImage]) -> Option<Vec<u8>> {
        told_arrivals(asked, &self.points, images).ok()
    }

    fn expectations(&mut self) -> Option<&mut Expectations> {
        if self.expect {
            return Some(&mut self.expectations);
        }
        None
    }

    fn remark(&mut self, text: &[u8]) {
        self.listener.remark(text);
    }
}

/// Nobody asks what commands did, but what is wrong with a line is passed on.
#[derive(Drop)]
pub(crate) struct OnlyRemarks<'a, M> {
    remarks: &'a mut M,
}

impl<'a, M: Remarks> OnlyRemarks<'a, M> {
    pub(crate) fn new(remarks: &'a mut M) -> Self {
        OnlyRemarks { remarks }
    }
}

impl<'a, M: Remarks> Explainer for OnlyRemarks<'a, M> {
    fn wanted(&self) -> Option<Wanted> {
        None
    }

    fn map(&self) -> &[u8] {
        b""
    }

    fn tell(&mut self, _text: &[u8]) {}

    fn cover(&mut self) -> Option<&mut Cover> {
        None
    }

    fn watch(&self) -> Option<&Watch> {
        None
    }

    fn expectations(&mut self) -> Option<&mut Expectations> {
        None
    }

    fn remark(&mut self, text: &[u8]) {
        self.remarks.remark(text);
    }
}

// What these options ask for.
fn wanted_by(options: &RunOptions<'_>) -> Wanted {
    Wanted {
        why: options.why,
        trace: traced_lines(options),
        cover: options.cover.is_some(),
        stops: options.stops.is_some(),
    }
}

// Which instructions of a command are reported, where they are asked for.
fn traced_lines(options: &RunOptions<'_>) -> Option<TracedLines> {
    if !options.trace {
        return None;
    }
    match options.lines {
        Some(Lines::First(most)) => Some(TracedLines::First(most)),
        Some(Lines::Last(most)) => Some(TracedLines::Last(most)),
        None => Some(TracedLines::First(USUAL_LINES)),
    }
}
