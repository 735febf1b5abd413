//! The program, from its arguments to its exit status.
ghost use Rattle.std.specs.Prelude.{◌≡◌, ◌++◌, ℕ, List, Bool, Result, Err};
ghost use Rattle.std.specs.Io.KnownBytes.{Appends};
ghost use Rattle.jcard_files.specs.FileDeeds.{FileDeed};
ghost use Rattle.jcard_files.specs.Fault.{failures_of, status_of, IsLastLine};
ghost use Rattle.jcard_commands.specs.Commands.{IsStarted, IsUnbegun};
ghost use Rattle.jcard_files.specs.declared.fault.Fault.{Fault};

use crate::progress_line::ProgressLine;
use crate::run::perform;
use jc_words::{EmptyFile, FlushFile, LockFile, WriteAt};
use jcard_arguments::joined_words::joined;
use jcard_files::disk::SystemDisk;
use jcard_files::fault::{Fault, tell};
use jcard_texts::streams::TextOut;
use std::alloc::{AllocError, Global};
use std::env::{self, Args, Env};
use std::fs;
use std::io::{self, ErrorKind};
use std::rt::{Clock, Files};

// A folder that is opened in the place of closed standard streams: reads and writes of it fail.
const FOLDER: &str = "/";

/// Does what the program's arguments ask for, and answers the exit status. Arguments that are no
/// text are a bad command line. Before any other file is opened, standard streams that are closed
/// are opened on a folder, so that none of these files stands in their place. Where standard error is a terminal, it shows how far a
/// sweep has come.
pub fn run_program<R: Env + Files + Clock + Eprint + AllocGlobal, W: TextOut>(
    rt: &R,
    is_terminal: bool,
    out: &mut W,
) -> u8
where
    R::File: LockFile + EmptyFile + FlushFile + WriteAt,
    ensures { (text last : List ℕ) × (ended : Result Unit Fault) × (deeds : List FileDeed)
        × (failed : Bool)
        × Appends (W.contents out.old) (W.contents out.new) (text ++ last)
        × IsStarted ended text deeds × IsLastLine ended failed last
        × (W.failures out.new ≡ failures_of (W.failures out.old) ended failed)
        × (result ≡ status_of ended) }
{
    let Ok(_streams) = opened_streams(rt) else {
        return tell(Err(folder_fault()), out);
    };
    match env::args(rt) {
        Ok(args) => match words_of(rt.alloc(), args) {
            Ok(words) => {
                let mut progress = ProgressLine::new(rt, is_terminal);
                let ended = perform(&mut SystemDisk::new(rt), &words, out, &mut progress);
                progress.clear();
                let status = tell(ended, out);
                explain(rt, ended);
                progress.write_remarks();
                status
            }
            Err(error) => tell(Err(words_fault(error)), out),
        },
        Err(error) => tell(Err(arguments_fault(error.kind())), out),
    }
}

// The words of the arguments, those that belong together as one.
fn words_of(alloc: Global, args: Args) -> Result<Vec<String>, AllocError> {
    let words = args.collect::<Vec<String>>(alloc)?;
    joined(alloc, &words)
}

// As many openings of a folder as there are standard streams. The closed ones are the first to be taken.
fn opened_streams<R: Files>(rt: &R) -> io::Result<(R::File, R::File, R::File)> {
    let first = fs::open(rt, FOLDER)?;
    let second = fs::open(rt, FOLDER)?;
    let third = fs::open(rt, FOLDER)?;
    Ok((first, second, third))
}

// The folder cannot be opened.
fn folder_fault() -> Fault<'static>
    ensures { IsUnbegun (Err result) }
{
    Fault::CannotRead(FOLDER)
}

// Says on standard error what the last line leaves open.
fn explain<R: Eprint>(rt: &R, ended: Result<(), Fault>) {
    if let Err(Fault::CannotOpenToWrite(path)) = ended {
        let _ = eprintln!(rt; "jcard: {path} is not there, or cannot be written");
    }
}

// There is no memory for the words.
fn words_fault(_error: AllocError) -> Fault<'static>
    ensures { result ≡ Fault.NoMemory }
{
    Fault::NoMemory
}

// What it means that the arguments cannot be read.
fn arguments_fault(kind: ErrorKind) -> Fault<'static>
    ensures memory { kind ≡ ErrorKind.OutOfMemory → result ≡ Fault.NoMemory }
    ensures other { (kind ≡ ErrorKind.OutOfMemory → ⊥) → result ≡ Fault.BadCommandLine }
    ensures unbegun { IsUnbegun (Err result) }
{
    match kind {
        ErrorKind::OutOfMemory => Fault::NoMemory,
        _ => Fault::BadCommandLine,
    }
}
