//! Reading texts.
ghost use Rattle.std.specs.Prelude.{◌≡◌, [], false, IfOk, IfErr, IfSome, OnOk, take};
ghost use Rattle.jcard_files.specs.Effects.{ReadsFiles};
ghost use Rattle.jcard_files.specs.Images.{IsNotRead, IsUnopened};
ghost use Rattle.jcard_files.specs.Reading.{IsRead, IsUnread, IsUnreadFault, IsScriptRead};
ghost use Rattle.jcard_files.specs.Fault.{is_unwritten};

use crate::disk::Disk;
use crate::fault::Fault;
use std::alloc::Global;
use std::io::{ErrorKind, Read};

// One byte more than a table's text can have, so that a longer one is seen.
const TABLE_LIMIT: u64 = 16_385;

// The most bytes of a script that are read: one more than are carried out, so that a longer one is seen.
const MOST_READ: u64 = 16_777_217;

/// What the platform table in the file with this name holds, up to one byte more than it can have.
pub fn text_of<'n, D: Disk>(disk: &mut D, name: &'n str) -> Result<Vec<u8>, Fault<'n>>
    ensures { ReadsFiles D.does disk.old disk.new result
        (λ text. IsRead name.now text.items) (IsUnread name.now) }
{
    let mut file = disk.open_text(name)?;
    read_text(disk.alloc(), name, &mut file)
}

// What is left in the file with this name, up to the limit.
fn read_text<'a, F: Read>(alloc: Global, path: &'a str, file: &mut F) -> Result<Vec<u8>, Fault<'a>>
    ensures bytes { IfOk result (λ text. IfSome (F.remaining file.old)
        (λ bytes. text.items ≡ take 16385 bytes)) }
    ensures refused { IfErr result (λ fault. IsNotRead path.now fault) }
{
    let Ok(mut text) = Vec::with_capacity(alloc, TABLE_LIMIT as usize + 1) else {
        return Err(Fault::NoMemory);
    };
    read_into(path, file, &mut text)?;
    Ok(text)
}

// The same, into room that is there: no memory is asked for.
fn read_into<'a, F: Read>(path: &'a str, file: &mut F, text: &mut Vec<u8>) -> Result<(), Fault<'a>>
    requires empty { text.old.items ≡ [] }
    ensures bytes { OnOk result (IfSome (F.remaining file.old)
        (λ bytes. text.new.items ≡ take 16385 bytes)) }
    ensures refused { IfErr result (λ fault. IsUnopened path.now fault) }
{
    match file.take(TABLE_LIMIT).read_to_end(text) {
        Ok(_) => Ok(()),
        Err(_) => Err(Fault::CannotRead(path)),
    }
}

/// What the script with this name holds, up to one byte more than is carried out.
pub fn script_of<'n, D: Disk>(disk: &mut D, name: &'n str) -> Result<Vec<u8>, Fault<'n>>
    ensures read { ReadsFiles D.does disk.old disk.new result
        (λ text. IsScriptRead name.now text.items) (IsUnread name.now) }
    ensures unwritten { IfErr result (λ fault. is_unwritten (Err fault) ≡ false) }
{
    let mut file = disk.open_text(name)?;
    read_script(disk.alloc(), name, &mut file)
}

fn read_script<'n, F: Read>(
    alloc: Global,
    name: &'n str,
    file: &mut F,
) -> Result<Vec<u8>, Fault<'n>>
    ensures bytes { IfOk result (λ text. IfSome (F.remaining file.old)
        (λ bytes. text.items ≡ take 16777217 bytes)) }
    ensures refused { IfErr result (λ fault. IsNotRead name.now fault) }
{
    let mut text = Vec::new(alloc);
    match file.take(MOST_READ).read_to_end(&mut text) {
        Ok(_) => Ok(text),
        Err(cause) => Err(unread_fault(name, cause.kind())),
    }
}

// What it means that reading the file with this name, for which memory is asked as it grows, ended by an error of this kind.
fn unread_fault(name: &str, cause: ErrorKind) -> Fault<'_>
    ensures told { IsUnreadFault name.now cause result }
    ensures unread { IsNotRead name.now result }
{
    match cause {
        ErrorKind::OutOfMemory => Fault::NoMemory,
        _ => Fault::CannotRead(name),
    }
}
