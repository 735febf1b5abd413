//! The texts in files that state parts of a sweep.
ghost use Rattle.std.specs.Prelude.{◌≡◌, ◌⊎◌, Err, IfErr, map, false, length};
ghost use Rattle.jcard_files.specs.Effects.{ReadsFiles};
ghost use Rattle.jcard_files.specs.Fault.{is_unwritten};
ghost use Rattle.jcard_outcomes.specs.SweepHead.{AreOfOthers};
ghost use Rattle.jcard_sweeps.specs.PartTexts.{AreFirstRead, AreRead, AreUnread, IsOtherTold};
ghost use Rattle.jcard_sweeps.specs.Texts.{texts_of};

use jcard_files::disk::Disk;
use jcard_files::fault::Fault;
use jcard_files::reading::script_of;
use jcard_outcomes::sweep_head::HeadFault;

/// What the files with these names hold.
pub fn texts_of<'n, D: Disk>(disk: &mut D, files: &[&'n str]) -> Result<Vec<Vec<u8>>, Fault<'n>>
    ensures read { ReadsFiles D.does disk.old disk.new result
        (λ texts. AreRead (texts_of files.now) (map (λ t. t.items) texts.items))
        (λ fault deeds. ((fault ≡ Fault.NoMemory) × AreFirstRead (texts_of files.now) deeds)
        ⊎ AreUnread (texts_of files.now) fault deeds) }
    ensures unwritten { IfErr result (λ fault. is_unwritten (Err fault) ≡ false) }
{
    let mut texts = Vec::new(disk.alloc());
    for file in files {
        let text = script_of(disk, *file)?;
        if texts.push(text).is_err() {
            return Err(Fault::NoMemory);
        }
    }
    Ok(texts)
}

/// What it means that the texts of these files are not of one sweep.
pub fn head_fault<'n>(files: &[&'n str], texts: &[Vec<u8>], cause: HeadFault) -> Fault<'n>
    requires all { length files.now ≡ length texts.now }
    requires others { AreOfOthers (map (λ t. t.items) texts.now) cause }
    ensures told { IsOtherTold (texts_of files.now) cause result }
    ensures unwritten { is_unwritten (Err result) ≡ false }
{
    match cause {
        HeadFault::NoMemory => Fault::NoMemory,
        HeadFault::OtherSweep(place) => Fault::OtherPart(files[place]),
    }
}
