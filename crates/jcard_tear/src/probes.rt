//! The lines that a card is asked after a cut.
ghost use Rattle.std.specs.Prelude.{◌≡◌, ◌<◌, ◌++◌, length, IfOk, MatchResult, OnOk};
ghost use Rattle.hex.specs.Hex.{encode_upper};
ghost use Rattle.jcard_sweeps.specs.Runs.{IsRunFault};
ghost use Rattle.jcard_tear.specs.Sweep.{IsProbe, IsSelectedBy, select_line};
ghost use Rattle.jcard_sweeps.specs.Texts.{text_of};

use jc_environment::Aid;
use jc_words::{FuseStore, MemStore};
use jcard_script::explainer::Unasked;
use jcard_script::script::{ScriptFault, run_script_selecting};
use jcard_sweeps::kept_text::KeptText;
use jcard_sweeps::runs::RunFault;
use jcard_texts::mem_text::MemText;
use std::alloc::{AllocError, Global};

/// The lines of the probe of a command that stands after this text: those that are given, or else the SELECT of the applet that is
/// selected there, over a copy of these words; none where none is.
pub(crate) fn probe_for(
    alloc: Global,
    words: &[u16],
    probe: Option<&[u8]>,
    before: &[u8],
    budget: u32,
) -> Result<Vec<u8>, RunFault>
    requires { length words.now < 65536 }
    ensures { MatchResult result (λ lines. IsProbe budget words.now (text_of probe.entry) before.now lines.items)
        (λ fault. IsRunFault budget words.now before.now fault) }
{
    match probe {
        Some(lines) => Ok(Vec::from_slice(alloc, lines)?),
        None => {
            let selected = selected_by(alloc, words, before, budget)?;
            Ok(select_line(alloc, &selected)?)
        }
    }
}

// The AID of the applet that is selected after a script was carried out on the card of a copy of these words; nothing where none is.
fn selected_by(
    alloc: Global,
    words: &[u16],
    script: &[u8],
    budget: u32,
) -> Result<Option<Aid>, RunFault>
    requires { length words.now < 65536 }
    ensures { MatchResult result
        (λ selected. IsSelectedBy budget words.now script.now selected)
        (λ fault. IsRunFault budget words.now script.now fault) }
{
    let copy = Vec::from_slice(alloc, words)?;
    let mut reader = MemText::new(alloc, script, 0)?;
    let mut writer = KeptText::new(alloc);
    let store = FuseStore::new(MemStore::of(copy));
    let (_store, ended, selected) = run_script_selecting(
        alloc,
        store,
        budget,
        &mut reader,
        &mut writer,
        &mut Unasked,
    );
    match ended {
        Ok(()) => Ok(selected),
        Err(ScriptFault::WriteFailed) => Err(RunFault::NoMemory),
        Err(fault) => Err(RunFault::Script(fault)),
    }
}

// The line of the command that selects the applet with this AID; nothing where there is none.
fn select_line(alloc: Global, selected: &Option<Aid>) -> Result<Vec<u8>, AllocError>
    ensures { IfOk result (λ line. line.items ≡ select_line selected.now) }
{
    let mut line = Vec::new(alloc);
    if let Some(aid) = selected {
        let bytes = aid.bytes();
        line.extend_from_slice(b"00A40400")?;
        push_digits(alloc, &mut line, &[bytes.len() as u8])?;
        push_digits(alloc, &mut line, bytes)?;
        line.extend_from_slice(b"\n")?;
    }
    Ok(line)
}

// Bytes in hexadecimal digits.
fn push_digits(alloc: Global, line: &mut Vec<u8>, bytes: &[u8]) -> Result<(), AllocError>
    ensures { OnOk result (line.new.items ≡ line.old.items ++ encode_upper bytes.now) }
{
    let digits = hex::encode_upper(alloc, bytes)?;
    line.extend_from_slice(digits.as_bytes())?;
    Ok(())
}
