//! What cards are made from what was asked for.
ghost use Rattle.std.specs.Prelude.{ℕ, List, All, MatchResult};
ghost use Rattle.jcard_files.specs.FileDeeds.{FileDeed};
ghost use Rattle.jcard_test.specs.Planning.{IsPlanned, IsUnplanned};
ghost use Rattle.jcard_test.specs.Sources.{IsReading};

use crate::plan::Plan;
use crate::request::Asked;
use jcard_files::disk::Disk;
use jcard_files::fault::Fault;
use jcard_files::image_size::extent_of;
use jcard_files::usual_table::platform_of;

/// What the cards are that were asked for.
pub(crate) fn plan_of<'n, D: Disk>(disk: &mut D, asked: Asked<'n>) -> Result<Plan, Fault<'n>>
    ensures { (deeds : List FileDeed) × D.does disk.old deeds disk.new × All IsReading deeds
        × MatchResult result (λ plan. IsPlanned asked.entry plan deeds)
        (λ fault. IsUnplanned asked.entry fault deeds) }
{
    let extent = extent_of(asked.size)?;
    let table = platform_of(disk, asked.table)?;
    Ok(Plan {
        table,
        extent,
        budget: asked.budget,
    })
}
