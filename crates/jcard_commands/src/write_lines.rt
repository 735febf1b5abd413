//! What is reported of a sweep beside its text: which instruction makes the word write that a cut refuses, as the cut is made, and the words of the image.

use crate::listener::Listener;
use jcard_files::remarks::Remarks;
use jcard_sweeps::progress::Progress;
use std::alloc::Global;

/// Somebody who is shown how far a sweep has come, and at each cut where its write was made, if that is wanted.
#[derive(Drop)]
pub(crate) struct WriteLines<'a, P> {
    progress: &'a mut P,
    names: Option<&'a [u8]>,
    writes: Vec<Vec<u8>>,
    alloc: Global,
    // The words of the image before the last command that was cut.
    words: &'a mut Vec<u16>,
}

impl<'a, P> WriteLines<'a, P> {
    /// Nothing is reported yet.
    pub(crate) fn new(
        alloc: Global,
        progress: &'a mut P,
        is_wanted: bool,
        names: &'a [u8],
        words: &'a mut Vec<u16>,
    ) -> Self {
        WriteLines {
            progress,
            names: if is_wanted { Some(names) } else { None },
            writes: Vec::new(alloc),
            alloc,
            words,
        }
    }
}

impl<'a, P: Progress + Listener> Progress for WriteLines<'a, P> {
    fn tell_cut(&mut self, number: u16) {
        if let Some(text) = self.writes.get(usize::from(number)) {
            self.progress.tell(text);
        }
        self.progress.tell_cut(number);
    }

    fn names(&self) -> Option<&[u8]> {
        self.names
    }

    // Without memory for them no static field is named.
    fn tell_image(&mut self, words: &[u16]) {
        *self.words = Vec::from_slice(self.alloc, words).unwrap_or(Vec::new(self.alloc));
    }

    fn tell_writes(&mut self, writes: Vec<Vec<u8>>) {
        self.writes = writes;
    }
}

impl<'a, P: Remarks> Remarks for WriteLines<'a, P> {
    fn remark(&mut self, text: &[u8]) {
        self.progress.remark(text);
    }
}
