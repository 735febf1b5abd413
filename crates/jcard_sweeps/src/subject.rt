//! What commands of a script are swept over: the words of an image, and the lines of a probe.
ghost use Rattle.std.specs.Prelude.{◌≡◌, ◌<◌, Err, MatchResult, IfOk, IfErr, false, length, option_map};
ghost use Rattle.jcard_files.specs.Effects.{ReadsFiles};
ghost use Rattle.jcard_files.specs.Fault.{is_unwritten};
ghost use Rattle.jcard_sweeps.specs.Subject.{IsCarried, IsImageRead, IsImageUnread, IsProbeRead, IsProbeUnread, IsUncarried};
ghost use Rattle.jcard_sweeps.specs.Texts.{text_of};

use crate::remarks::remark_on_script;
use crate::reported_faults::run_fault;
use crate::runs::{carried_through, copied};
use crate::script_fault::Names;
use crate::script_lines::ScriptLine;
use jcard_files::closed_store::ClosedStore;
use jcard_files::disk::Disk;
use jcard_files::fault::Fault;
use jcard_files::reading::script_of;
use jcard_files::remarks::Remarks;
use std::alloc::{AllocError, Global};

/// A script over the words of an image: the names of both, the words, the text, and its commands.
#[derive(Clone, Copy, Drop)]
pub struct Subject<'n, 'a> {
    pub names: Names<'n>,
    pub words: &'a [u16],
    pub script: &'a [u8],
    pub commands: &'a [ScriptLine<'a>],
}

/// The words of the image with this name, which is opened to read it alone.
pub fn image_words<'n, D: Disk>(disk: &mut D, image: &'n str) -> Result<Vec<u16>, Fault<'n>>
    ensures read { ReadsFiles D.does disk.old disk.new result
        (λ words. IsImageRead image.now words.items) (IsImageUnread image.now) }
    ensures short { IfOk result (λ words. length words.items < 65536) }
    ensures unwritten { IfErr result (λ fault. is_unwritten (Err fault) ≡ false) }
{
    let store = disk.open_image_to_read(image)?;
    let words = copied(disk.alloc(), &store);
    disk.close_image(image, ClosedStore::new(store));
    match words {
        Ok(words) => Ok(words),
        Err(AllocError) => Err(Fault::NoMemory),
    }
}

/// Carries the whole script out, so that a line that has no form is refused wherever it stands.
pub fn carry_through<'n, M: Remarks>(
    alloc: Global,
    subject: Subject<'n, '_>,
    budget: u32,
    remarks: &mut M,
) -> Result<(), Fault<'n>>
    requires { length subject.words.now < 65536 }
    ensures carried { MatchResult result
        (λ _. IsCarried budget subject.entry) (IsUncarried budget subject.entry) }
    ensures unwritten { IfErr result (λ fault. is_unwritten (Err fault) ≡ false) }
{
    match carried_through(alloc, subject.words, subject.script, budget) {
        Ok(()) => Ok(()),
        Err(cause) => {
            remark_on_script(alloc, subject.script, cause, remarks);
            Err(run_fault(subject.names, cause))
        }
    }
}

/// The lines of the probe with this name, if there is one.
pub fn probe_of<'n, D: Disk>(
    disk: &mut D,
    probe: Option<&'n str>,
) -> Result<Option<Vec<u8>>, Fault<'n>>
    ensures read { ReadsFiles D.does disk.old disk.new result
        (λ given. IsProbeRead (text_of probe.entry) (option_map (λ text. text.items) given))
        (IsProbeUnread (text_of probe.entry)) }
    ensures unwritten { IfErr result (λ fault. is_unwritten (Err fault) ≡ false) }
{
    let Some(name) = probe else {
        return Ok(None);
    };
    let text = script_of(disk, name)?;
    Ok(Some(text))
}

/// The lines of a probe, lent.
pub fn lent(probe: &Option<Vec<u8>>) -> Option<&[u8]>
    ensures { text_of result ≡ option_map (λ text. text.items) probe.now }
{
    match probe {
        Some(text) => Some(text.as_slice()),
        None => None,
    }
}
