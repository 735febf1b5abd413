//! What the program does.
ghost use Rattle.std.specs.Prelude.{◌≡◌, ◌++◌, ℕ, List, Bool, Result, map};
ghost use Rattle.std.specs.String.{string_bytes};
ghost use Rattle.std.specs.Io.KnownBytes.{Appends};
ghost use Rattle.jcard_arguments.specs.CommandLine.{request_by, size_asked_by};
ghost use Rattle.jcard_arguments.specs.JoinedWords.{joined};
ghost use Rattle.jcard_files.specs.Effects.{Does, Writes};
ghost use Rattle.jcard_files.specs.FileDeeds.{FileDeed};
ghost use Rattle.jcard_files.specs.Fault.{status_of, failures_of, IsLastLine};
ghost use Rattle.jcard_arguments.specs.CommandLine.{ToJoin, test_asked_by, texts_of};
ghost use Rattle.jcard_commands.specs.Commands.{IsAnswered, IsDone, IsHelped, IsPerformed, IsTestWith, size_by};
ghost use Rattle.jcard_files.specs.declared.fault.Fault.{Fault};

use crate::listener::Listener;
use crate::listing::{Listed, list};
use crate::script_run::run_with;
use crate::trial::{TrialRequest, try_script};
use jc_card::card::USUAL_BUDGET;
use jcard_arguments::arguments::{Action, NoAction, parse};
use jcard_arguments::joined_words::joined;
use jcard_arguments::options::{SizeOptions, TestOptions};
use jcard_attack::part_files::join_files;
use jcard_dump::inventory::dump_image;
use jcard_dump::shown::Shown;
use jcard_files::disk::Disk;
use jcard_files::fault::{Fault, tell};
use jcard_files::image_size::ImageSize;
use jcard_files::new_image::make_image;
use jcard_files::remarks::Remarks;
use jcard_sweeps::progress::Progress;
use jcard_test::request::Asked as TestRequest;
use jcard_test::testing::test_files;
use jcard_test::timer::Timer;
use jcard_texts::streams::{TextOut, write_all};
use std::alloc::AllocError;

/// Does what the words ask for, the program's name among them as the first, and answers the exit
/// status. What is written goes to `out`: the answers, and after a fault one last line. How far a sweep has come goes to `progress`,
/// and so does what commands of a run did, where the words ask for it, and what is wrong with the words.
pub fn run_words<D: Disk, W: TextOut, P: Progress + Listener + Remarks + Timer>(
    disk: &mut D,
    words: &[String],
    out: &mut W,
    progress: &mut P,
) -> u8
    ensures { (text last : List ℕ) × (ended : Result Unit Fault) × (deeds : List FileDeed)
        × (failed : Bool)
        × Appends (W.contents out.old) (W.contents out.new) (text ++ last)
        × IsPerformed (joined (map string_bytes words.now)) ended text deeds
        × IsLastLine ended failed last
        × (W.failures out.new ≡ failures_of (W.failures out.old) ended failed)
        × D.does disk.old deeds disk.new × (result ≡ status_of ended) }
{
    match joined(disk.alloc(), words) {
        Ok(words) => run_joined(disk, &words, out, progress),
        Err(AllocError) => tell(Err(Fault::NoMemory), out),
    }
}

// The same, where words that belong together are one.
fn run_joined<D: Disk, W: TextOut, P: Progress + Listener + Remarks + Timer>(
    disk: &mut D,
    words: &[String],
    out: &mut W,
    progress: &mut P,
) -> u8
    ensures { (text last : List ℕ) × (ended : Result Unit Fault) × (deeds : List FileDeed)
        × (failed : Bool)
        × Appends (W.contents out.old) (W.contents out.new) (text ++ last)
        × IsPerformed (map string_bytes words.now) ended text deeds × IsLastLine ended failed last
        × (W.failures out.new ≡ failures_of (W.failures out.old) ended failed)
        × D.does disk.old deeds disk.new × (result ≡ status_of ended) }
{
    let ended = perform(disk, words, out, progress);
    tell(ended, out)
}

/// Does what the words ask for.
pub(crate) fn perform<'n, D: Disk, W: TextOut, P: Progress + Listener + Remarks + Timer>(
    disk: &mut D,
    words: &'n [String],
    out: &mut W,
    progress: &mut P,
) -> Result<(), Fault<'n>>
    ensures { Does D.does W.contents W.failures disk.old disk.new out.old out.new result
        (IsPerformed (map string_bytes words.now)) }
{
    match parse(disk.alloc(), words) {
        Ok(action) => act(disk, action, out, progress),
        Err(why) => answer(why, out, progress),
    }
}

// Writes the help that is asked for, or passes on what is wrong with the words.
fn answer<'n, W: TextOut, M: Remarks>(
    why: NoAction,
    out: &mut W,
    remarks: &mut M,
) -> Result<(), Fault<'n>>
    ensures { Writes W.contents W.failures out.old out.new result (IsAnswered why) }
{
    match why {
        NoAction::Help(text) => write_help(text.as_str(), out),
        NoAction::Refused(text) => {
            remarks.remark(text.as_bytes());
            Err(Fault::BadCommandLine)
        }
        NoAction::Misused(why) => {
            remarks.remark(b"jcard: ");
            remarks.remark(why.as_bytes());
            remarks.remark(b"\n");
            Err(Fault::BadCommandLine)
        }
        NoAction::NoMemory => Err(Fault::NoMemory),
    }
}

// Writes a text of help.
fn write_help<'n, W: TextOut>(text: &str, out: &mut W) -> Result<(), Fault<'n>>
    ensures { Writes W.contents W.failures out.old out.new result (λ ended _. IsHelped ended) }
{
    match write_all(out, text.as_bytes()) {
        Ok(()) => Ok(()),
        Err(_) => Err(Fault::WriteFailed),
    }
}

fn act<'n, D: Disk, W: TextOut, P: Progress + Listener + Remarks + Timer>(
    disk: &mut D,
    action: Action<'n>,
    out: &mut W,
    progress: &mut P,
) -> Result<(), Fault<'n>>
    ensures { Does D.does W.contents W.failures disk.old disk.new out.old out.new result
        (IsDone (request_by action.entry)) }
{
    match action {
        Action::New { image, size, table } => {
            make_image(disk, image, image_size(size), table, progress)
        }
        Action::Run {
            image,
            script,
            options,
        } => run_with(disk, image, script, options, out, progress),
        Action::Dump { image } => dump_image(disk, image, out),
        Action::DumpObjects {
            image,
            all,
            secrets,
            map,
        } => {
            let shown = Shown { all, secrets };
            list(disk, Listed::Objects { image, shown }, map, out, progress)
        }
        Action::Compare {
            image,
            other,
            all,
            secrets,
            map,
        } => {
            let shown = Shown { all, secrets };
            let listed = Listed::Compared {
                image,
                other,
                shown,
            };
            list(disk, listed, map, out, progress)
        }
        Action::Try {
            script,
            size,
            table,
            instructions,
        } => {
            let asked = TrialRequest {
                script,
                size: image_size(size),
                table,
                budget: instructions.unwrap_or(USUAL_BUDGET),
            };
            try_script(disk, asked, out, progress)
        }
        Action::Tear {
            image,
            script,
            options,
        } => {
            let listed = Listed::Torn {
                image,
                script,
                options,
            };
            list(disk, listed, options.map, out, progress)
        }
        Action::Attack {
            image,
            script,
            options,
        } => {
            let listed = Listed::Attacked {
                image,
                script,
                options,
            };
            list(disk, listed, options.map, out, progress)
        }
        Action::Join { files } => join(disk, &files, out),
        Action::Test { files, options } => test(disk, &files, options, out, progress),
    }
}

// How large a new card is, as the options ask.
fn image_size<'n>(size: SizeOptions<'n>) -> ImageSize<'n>
    ensures { size_by result ≡ size_asked_by size.entry }
{
    ImageSize {
        words: size.words,
        journal: size.journal,
        cells: size.cells,
        buffer: size.buffer,
    }
}

// Joins these files, if there are any.
fn join<'n, D: Disk, W: TextOut>(
    disk: &mut D,
    files: &[&'n str],
    out: &mut W,
) -> Result<(), Fault<'n>>
    ensures { Does D.does W.contents W.failures disk.old disk.new out.old out.new result
        (IsDone (ToJoin (texts_of files.now))) }
{
    let Some((_first, _others)) = files.split_first() else {
        return Err(Fault::BadCommandLine);
    };
    join_files(disk, files, out)
}

// Answers the rows of these files, as the options ask.
fn test<'n, D: Disk, W: TextOut, T: Timer + Remarks>(
    disk: &mut D,
    files: &[&'n str],
    options: TestOptions<'n>,
    out: &mut W,
    timer: &mut T,
) -> Result<(), Fault<'n>>
    ensures { Does D.does W.contents W.failures disk.old disk.new out.old out.new result
        (IsTestWith (texts_of files.now) (test_asked_by options.entry)) }
{
    let budget = options.instructions.unwrap_or(USUAL_BUDGET);
    let asked = TestRequest {
        junit: options.junit,
        table: options.table,
        size: image_size(options.size),
        budget,
    };
    test_files(disk, files, asked, out, timer)
}
