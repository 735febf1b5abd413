//! The lines of a part of the faults of a command, from which all parts are joined to the report.
ghost use Rattle.std.specs.Prelude.{◌≡◌, ◌++◌, ◌∷◌, [], MatchOption, OnOk, map, false};
ghost use Rattle.jcard_attack.specs.PartLines.{IsFaultLine, fault_line, fault_lines};
ghost use Rattle.jcard_attack.specs.Report.{FaultTold, fault_told, told_by};
ghost use Rattle.jcard_outcomes.specs.Part.{has};

use crate::fault_text::{ToldFault, lent, texts_of};
use crate::outcomes::Struck;
use std::alloc::{AllocError, Global};

/// Writes a line for each fault of a command of whose instructions this is reported.
pub(crate) fn push_lines(
    alloc: Global,
    text: &mut Vec<u8>,
    strikes: &[Struck],
    instructions: &[Vec<u8>],
) -> Result<(), AllocError>
    ensures { OnOk result (text.new.items ≡ text.old.items
        ++ fault_lines (map (fault_told (map (λ line. line.items) instructions.now)) strikes.now)) }
{
    for struck in strikes {
        let texts = texts_of(alloc, struck, instructions)?;
        push_line(text, lent(&texts))?;
    }
    Ok(())
}

// Writes the line of a fault: its words, with tabs between them.
fn push_line(text: &mut Vec<u8>, fault: ToldFault) -> Result<(), AllocError>
    ensures { OnOk result (text.new.items ≡ text.old.items
        ++ (fault_line (told_by fault.entry) ++ 10 ∷ [])) }
{
    push_field(text, fault.model)?;
    push_field(text, fault.number)?;
    push_field(text, fault.second)?;
    push_field(text, fault.told)?;
    text.extend_from_slice(fault.place)?;
    text.extend_from_slice(b"\n")
}

// Writes a word and a tab.
fn push_field(text: &mut Vec<u8>, field: &[u8]) -> Result<(), AllocError>
    ensures { OnOk result (text.new.items ≡ text.old.items ++ (field.now ++ 9 ∷ [])) }
{
    text.extend_from_slice(field)?;
    text.extend_from_slice(b"\t")
}

/// The fault whose line this is; nothing where it is none.
pub(crate) fn fault_of(line: &[u8]) -> Option<ToldFault<'_>>
    ensures { MatchOption result ((f : FaultTold) → IsFaultLine f line.now → ⊥)
        (λ fault. IsFaultLine (told_by fault) line.now) }
{
    let Some((model, rest)) = cut_once(line, b'\t') else {
        return None;
    };
    let Some((number, rest)) = cut_once(rest, b'\t') else {
        return None;
    };
    let Some((second, rest)) = cut_once(rest, b'\t') else {
        return None;
    };
    let Some((told, place)) = cut_once(rest, b'\t') else {
        return None;
    };
    if has_tab(place) {
        return None;
    }
    Some(ToldFault {
        model,
        number,
        second,
        told,
        place,
    })
}

/// Whether a text has a tab.
pub(crate) fn has_tab(text: &[u8]) -> bool
    ensures { result ≡ has 9 text.now }
{
    text.iter().any(|byte| *byte == b'\t')
}

/// What stands before the first byte of this kind in a text, and after it.
pub(crate) fn cut_once(text: &[u8], separator: u8) -> Option<(&[u8], &[u8])>
    ensures { MatchOption result (has separator text.now ≡ false)
        (λ r. (text.now ≡ r.0.now ++ separator ∷ r.1.now) × (has separator r.0.now ≡ false)) }
{
    for (place, byte) in text.iter().enumerate() {
        if *byte == separator {
            return Some((&text[..place], &text[place + 1..]));
        }
    }
    None
}
