//! Trying a script on a new card in memory.
ghost use Rattle.jcard_arguments.specs.CommandLine.{text_of};
ghost use Rattle.jcard_commands.specs.Trial.{IsTrial, IsTriedOn};
ghost use Rattle.jcard_files.specs.Effects.{Does};
ghost use Rattle.jcard_files.specs.NewImage.{IsTable};

use crate::listener::OnlyRemarks;
use crate::script_run::outcome_of;
use jc_platform::fault::TableFault;
use jc_platform::read::read_table;
use jc_words::FuseStore;
use jcard_files::disk::Disk;
use jcard_files::extent::Extent;
use jcard_files::fault::Fault;
use jcard_files::image_size::{ImageSize, extent_of};
use jcard_files::memory_image::new_image;
use jcard_files::remarks::Remarks;
use jcard_files::table_remarks::remark_on_table;
use jcard_files::usual_table::platform_of;
use jcard_script::script::run_script_explained;
use jcard_sweeps::script_fault::Names;
use jcard_texts::std_text::StdText;
use jcard_texts::streams::TextOut;

/// What is tried: the script in the file with this name, on a new card of this size, with the platform table in the file with this
/// name, or the usual one. A command carries out at most `budget` instructions.
#[derive(Clone, Copy, Drop)]
pub struct TrialRequest<'n> {
    pub script: &'n str,
    pub size: ImageSize<'n>,
    pub table: Option<&'n str>,
    pub budget: u32,
}

// How large a new card is, and its platform table.
#[derive(Clone, Copy, Drop)]
struct NewCard<'t> {
    extent: Extent,
    table: &'t [u8],
}

/// Carries out a script on a new card in memory. No file is changed. What is wrong with the table or a line goes to `remarks`.
pub fn try_script<'n, D: Disk, W: TextOut, M: Remarks>(
    disk: &mut D,
    asked: TrialRequest<'n>,
    out: &mut W,
    remarks: &mut M,
) -> Result<(), Fault<'n>>
    ensures { Does D.does W.contents W.failures disk.old disk.new out.old out.new result
        (IsTrial asked.entry.budget asked.entry.script.now asked.entry.size.words.now
        asked.entry.size.journal.now (text_of asked.entry.size.cells)
        (text_of asked.entry.size.buffer) (text_of asked.entry.table)) }
{
    let extent = extent_of(asked.size)?;
    let text = platform_of(disk, asked.table)?;
    remark_on_table(disk.alloc(), &text, remarks);
    match read_table(&text) {
        Ok(_) => {
            let card = NewCard {
                extent,
                table: &text,
            };
            try_on(disk, asked, card, out, remarks)
        }
        Err(TableFault::BadTable(line)) => Err(Fault::BadTable(line)),
    }
}

// Carries out the script on such a new card.
fn try_on<'n, D: Disk, W: TextOut, M: Remarks>(
    disk: &mut D,
    asked: TrialRequest<'n>,
    card: NewCard<'_>,
    out: &mut W,
    remarks: &mut M,
) -> Result<(), Fault<'n>>
    requires table { IsTable card.table.now }
    ensures { Does D.does W.contents W.failures disk.old disk.new out.old out.new result
        (IsTriedOn asked.entry.budget asked.entry.script.now card.entry.extent.count
        card.entry.extent.room card.entry.table.now) }
{
    let file = disk.open_text(asked.script)?;
    let store = new_image(disk.alloc(), card.extent, card.table)?;
    // A store in memory refuses no write, so no line states the name of its image.
    let names = Names {
        image: "memory",
        script: asked.script,
    };
    let mut reader = StdText::new(file);
    let (_, carried) = run_script_explained(
        disk.alloc(),
        FuseStore::new(store),
        asked.budget,
        &mut reader,
        out,
        &mut OnlyRemarks::new(remarks),
    );
    outcome_of(names, carried)
}
