//! How often instructions were carried out.

use crate::text::Text;
use jc_linker::linked::Linked;
use jc_memory::{Note, Spot, Step};
use std::alloc::{AllocError, Global};

/// How often the instructions of each package were carried out.
#[derive(Drop)]
pub struct Cover {
    alloc: Global,
    packages: Vec<PackageCover>,
    left_out: u64,
}

// How often those of one were, by where they stand in its Method component.
#[derive(Drop)]
struct PackageCover {
    number: u8,
    aid: Vec<u8>,
    counts: Vec<u64>,
}

impl Cover {
    /// None was yet.
    pub fn new(alloc: Global) -> Cover {
        Cover {
            alloc,
            packages: Vec::new(alloc),
            left_out: 0,
        }
    }

    /// Counts the instructions of a command by its note. Those that there is no memory for, and those that the note has left out, are
    /// counted as left out, and those of code that came with the command are not counted.
    pub fn add(&mut self, note: &Note, linked: &Linked) {
        self.leave_out(u64::from(note.steps_left_out));
        for step in note.steps.as_slice() {
            self.add_step(*step, linked);
        }
    }

    /// The counts as lines: `package AID`, and after it `OFFSET COUNT` for each instruction that was carried out; a last line
    /// `left out COUNT` where some were left out.
    pub fn text(&self) -> Result<Vec<u8>, AllocError> {
        let mut text = Text::new(self.alloc);
        for package in self.packages.as_slice() {
            push_package(&mut text, package);
        }
        if self.left_out > 0 {
            text.push(b"left out ");
            text.push_wide(self.left_out);
            text.push(b"\n");
        }
        text.into_bytes()
    }

    fn leave_out(&mut self, count: u64) {
        self.left_out = self.left_out.saturating_add(count);
    }

    fn add_step(&mut self, step: Step, linked: &Linked) {
        let number = step.spot.package_number;
        if number == 0 {
            return;
        }
        if self.add_package(number, linked).is_err() {
            self.leave_out(1);
            return;
        }
        for package in self.packages.iter_mut() {
            if package.number == number {
                package.count(step.spot);
            }
        }
    }

    // Makes room for the counts of a package, if there is none yet.
    fn add_package(&mut self, number: u8, linked: &Linked) -> Result<(), AllocError> {
        if is_counted(&self.packages, number) {
            return Ok(());
        }
        let package = PackageCover::new(self.alloc, number, linked)?;
        self.packages.push(package)?;
        Ok(())
    }
}

// Whether there is room for the counts of a package.
fn is_counted(packages: &[PackageCover], number: u8) -> bool {
    for package in packages {
        if package.number == number {
            return true;
        }
    }
    false
}

impl PackageCover {
    // None of its instructions was carried out yet.
    fn new(alloc: Global, number: u8, linked: &Linked) -> Result<PackageCover, AllocError> {
        let aid = Vec::from_slice(alloc, linked.aid_at(number))?;
        let counts = vec![in alloc; 0u64; linked.code_at(number, 0).len()]?;
        Ok(PackageCover {
            number,
            aid,
            counts,
        })
    }

    fn count(&mut self, spot: Spot) {
        if let Some(count) = self.counts.get_mut(usize::from(spot.place)) {
            *count = count.saturating_add(1);
        }
    }
}

fn push_package(text: &mut Text, package: &PackageCover) {
    text.push(b"package ");
    text.push_hex(&package.aid);
    text.push(b"\n");
    for (offset, count) in package.counts.iter().enumerate() {
        push_count(text, offset, *count);
    }
}

fn push_count(text: &mut Text, offset: usize, count: u64) {
    if count == 0 {
        return;
    }
    text.push_wide(offset as u64);
    text.push(b" ");
    text.push_wide(count);
    text.push(b"\n");
}
