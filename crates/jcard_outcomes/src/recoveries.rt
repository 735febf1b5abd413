//! Recoveries that are cut, one after the other, after each cut of a command, and whether one made a difference.
ghost use Rattle.std.specs.Prelude.{◌≡◌, ◌++◌, OnOk};
ghost use Rattle.jcard_outcomes.specs.Recoveries.{depth_text, different_text, earlier_text, ended_number, first_difference, recoveries_text, same_text};
ghost use Rattle.jcard_outcomes.specs.Recoveries.{ways_from, ways_text, writes_text};

use crate::standing::Cut;
use crate::verdict::push_either;
use itoa::Buffer;
use jcard_texts::numbers::push_number;
use std::alloc::AllocError;

/// How many recoveries are cut, one after the other, before one comes to its end.
#[derive(Clone, Copy, PartialEq, Eq, Drop)]
pub enum Depth {
    Zero,
    One,
    Two,
    Three,
}

/// What recoveries were like that were cut after a cut of a command.
#[derive(Clone, Copy, Drop)]
pub struct Recoveries {
    /// In how many ways they were cut.
    pub ways: u64,
    /// After how many writes the last of them was cut in the first way that made a difference; the others were cut before their
    /// first write.
    pub difference: Option<u16>,
}

/// Writes what recoveries have shown after a text, if any were cut.
pub(crate) fn push_recoveries(
    text: &mut Vec<u8>,
    depth: Depth,
    cuts: &[Cut],
) -> Result<(), AllocError>
    ensures { OnOk result (text.new.items ≡ text.old.items ++ recoveries_text depth cuts.now) }
{
    if depth == Depth::Zero {
        return Ok(());
    }
    match first_difference(cuts) {
        Some((number, writes)) => push_different(text, depth, number, writes),
        None => push_same(text, depth, count_ways(cuts)),
    }
}

fn push_different(
    text: &mut Vec<u8>,
    depth: Depth,
    number: usize,
    writes: u16,
) -> Result<(), AllocError>
    ensures { OnOk result (text.new.items ≡ text.old.items ++ different_text depth number writes) }
{
    text.extend_from_slice(b"a recovery made a difference: first at cut ")?;
    push_number(text, number)?;
    push_writes(text, depth, writes)
}

fn push_writes(text: &mut Vec<u8>, depth: Depth, writes: u16) -> Result<(), AllocError>
    ensures { OnOk result (text.new.items ≡ text.old.items ++ writes_text depth writes) }
{
    text.extend_from_slice(b", recoveries cut after ")?;
    push_earlier(text, depth)?;
    push_ended_number(text, usize::from(writes))
}

fn push_ended_number(text: &mut Vec<u8>, number: usize) -> Result<(), AllocError>
    ensures { OnOk result (text.new.items ≡ text.old.items ++ ended_number number) }
{
    push_number(text, number)?;
    text.extend_from_slice(b"\n")
}

fn push_same(text: &mut Vec<u8>, depth: Depth, ways: u64) -> Result<(), AllocError>
    ensures { OnOk result (text.new.items ≡ text.old.items ++ same_text depth ways) }
{
    text.extend_from_slice(b"no recovery made a difference: ")?;
    push_ways(text, ways)?;
    push_depth(text, depth)
}

fn push_ways(text: &mut Vec<u8>, ways: u64) -> Result<(), AllocError>
    ensures { OnOk result (text.new.items ≡ text.old.items ++ ways_text ways) }
{
    let mut digits = Buffer::new();
    text.extend_from_slice(digits.format(ways).as_bytes())?;
    push_either(text, ways == 1, b" way, ", b" ways, ")
}

fn push_earlier(text: &mut Vec<u8>, depth: Depth) -> Result<(), AllocError>
    ensures { OnOk result (text.new.items ≡ text.old.items ++ earlier_text depth) }
{
    match depth {
        Depth::Zero | Depth::One => Ok(()),
        Depth::Two => text.extend_from_slice(b"0 "),
        Depth::Three => text.extend_from_slice(b"0 0 "),
    }
}

fn push_depth(text: &mut Vec<u8>, depth: Depth) -> Result<(), AllocError>
    ensures { OnOk result (text.new.items ≡ text.old.items ++ depth_text depth) }
{
    match depth {
        Depth::Zero => text.extend_from_slice(b"0 deep\n"),
        Depth::One => text.extend_from_slice(b"1 deep\n"),
        Depth::Two => text.extend_from_slice(b"2 deep\n"),
        Depth::Three => text.extend_from_slice(b"3 deep\n"),
    }
}

/// The first cut after which a recovery made a difference, and after how many writes that one was cut.
pub(crate) fn first_difference(cuts: &[Cut]) -> Option<(usize, u16)>
    ensures { result ≡ first_difference 0 cuts.now }
{
    for (number, cut) in cuts.iter().enumerate() {
        if let Some(writes) = cut.recoveries.difference {
            return Some((number, writes));
        }
    }
    None
}

// In how many ways recoveries were cut. At 2^64 - 1 the count stays.
fn count_ways(cuts: &[Cut]) -> u64
    ensures { result ≡ ways_from 0 cuts.now }
{
    let mut ways: u64 = 0;
    for cut in cuts {
        ways = ways.saturating_add(cut.recoveries.ways);
    }
    ways
}
