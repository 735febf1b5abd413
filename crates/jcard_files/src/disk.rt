//! The files that the program uses.
ghost use Rattle.std.specs.Prelude.{◌≡◌, ◌⊎◌, ◌++◌, ◌*◌, ◌∷◌, [], List, Any, false, IfOk, IfErr, IfSome, length, replicate};
ghost use Rattle.jc_words.specs.File.{IsImageSize};
ghost use Rattle.jc_words.specs.Refusals.{no_refusals};
ghost use Rattle.jc_words.specs.Store.{refusals_of_file, store_value};
ghost use Rattle.jcard_files.specs.FileDeeds.{FileDeed, ClosesImage, MakesImage, OpensImage, ReadsImage, ReadsText, WritesText, told_of};
ghost use Rattle.jcard_files.specs.Images.{IsCreateFault, IsCreatedAs, IsFilled, IsHeldFault, IsNotMade, IsNotOpened, IsNotOpenedToWrite, IsNotWritten, IsOpenedAs, IsOpenFault, IsReadFault, IsReplaceFault, IsUnopened, IsUnwritten, IsWrittenAnew};
ghost use Rattle.jcard_files.specs.Operand.{IsNoOperand};

use crate::closed_store::ClosedStore;
use crate::fault::{Damage, Fault, FileKind};
use crate::operand::{Operand, operand_named};
use jc_words::{
    EmptyFile, FileCreateFault, FileLockFault, FileOpenFault, FileReadFault, FileStore, FlushFile,
    Lock, LockFault, LockFile, OpenPath, Opening, ReplaceFault, StdFile, WordStore, WriteAt,
    ZeroWords, open_to_replace,
};
use std::alloc::{AllocError, Global};
use std::fs;
use std::io::{Read, Write};
use std::os::unix::fs::MetadataExt;
use std::rt::Files;

/// The files that the program uses, by their names.
pub trait Disk {
    /// An image that is open.
    type Image: WordStore + Drop;

    /// A text that is open.
    type Text: Read + Drop;

    // what is known where from the first state to the last exactly these things were done, in this order
    ghost does: { Self → List FileDeed → Self → Type 0 };

    /// The allocator.
    fn alloc(&self) -> Global;

    /// Opens the image with this name to change it. Nobody else has it open.
    fn open_image<'n>(&mut self, image: &'n str) -> Result<Self::Image, Fault<'n>>
        ensures size { IfOk result (λ store. IsImageSize (2 * length (Self.Image.words store))) }
        ensures up { IfOk result (λ store. Self.Image.down store ≡ false) }
        ensures none_passed { IfOk result (λ store. Self.Image.passed store ≡ 0) }
        ensures none_refused { IfOk result (λ store. Self.Image.refusals store ≡ no_refusals) }
        ensures refused { IfErr result (λ fault. IsNotOpenedToWrite image.now fault) }
        ensures does { does self.old (OpensImage image.now (told_of Self.Image.words result) ∷ [])
            self.new };

    /// Opens the image with this name to read it alone. Others may read it too.
    fn open_image_to_read<'n>(&mut self, image: &'n str) -> Result<Self::Image, Fault<'n>>
        ensures size { IfOk result (λ store. IsImageSize (2 * length (Self.Image.words store))) }
        ensures up { IfOk result (λ store. Self.Image.down store ≡ false) }
        ensures none_passed { IfOk result (λ store. Self.Image.passed store ≡ 0) }
        ensures none_refused { IfOk result (λ store. Self.Image.refusals store ≡ no_refusals) }
        ensures refused { IfErr result (λ fault. IsNotOpened image.now fault) }
        ensures does { does self.old (ReadsImage image.now (told_of Self.Image.words result) ∷ [])
            self.new };

    /// Makes a file with this name and n zero words. A file that is there is replaced, unless somebody
    /// has it open.
    fn make_image<'n>(&mut self, image: &'n str, n: u16) -> Result<Self::Image, Fault<'n>>
        ensures words { IfOk result (λ store. Self.Image.words store ≡ replicate n 0) }
        ensures up { IfOk result (λ store. Self.Image.down store ≡ false) }
        ensures none_passed { IfOk result (λ store. Self.Image.passed store ≡ 0) }
        ensures none_refused { IfOk result (λ store. Self.Image.refusals store ≡ no_refusals) }
        ensures refused { IfErr result (λ fault. IsNotMade image.now fault) }
        ensures does { does self.old (MakesImage image.now n (told_of (λ _. tt) result) ∷ []) self.new };

    /// Closes the image with this name as its store is. Nobody can write to that any more.
    fn close_image(&mut self, image: &str, store: ClosedStore<Self::Image>)
        ensures { does self.old (ClosesImage image.now (store_value Self.Image.words
            Self.Image.down Self.Image.passed Self.Image.refusals store.store) ∷ []) self.new };

    /// Opens the text with this name.
    fn open_text<'n>(&mut self, name: &'n str) -> Result<Self::Text, Fault<'n>>
        ensures refused { IfErr result (λ fault. IsUnopened name.now fault) }
        ensures does { does self.old (ReadsText name.now (told_of Self.Text.remaining result) ∷ [])
            self.new };

    /// Makes a file with this name and these bytes, in place of what a file with that name holds: but for one of these, which the command
    /// names besides, for an image, and for a file that somebody has open.
    fn write_text<'n>(
        &mut self,
        name: &'n str,
        operands: &[Operand],
        bytes: &[u8],
    ) -> Result<(), Fault<'n>>
        ensures spared { IfOk result (λ _. IsNoOperand name.now operands.now) }
        ensures refused { IfErr result (λ fault. IsUnwritten name.now fault) }
        ensures does { does self.old (WritesText name.now bytes.now result ∷ []) self.new };

    // nothing changes where nothing is done
    ghost none: { (disk : Self) → does disk [] disk };

    // some things are done, and then others
    ghost then: { (first between last : Self) (deeds more : List FileDeed)
        → does first deeds between → does between more last → does first (deeds ++ more) last };
}

/// The files of a runtime. What was done with them it does not say.
#[derive(Drop)]
pub struct SystemDisk<'a, R: Files + AllocGlobal> {
    rt: &'a R,
}

impl<'a, R: Files + AllocGlobal> SystemDisk<'a, R> {
    /// The files of this runtime.
    pub fn new(rt: &'a R) -> Self {
        SystemDisk { rt }
    }
}

impl<'a, R: Files + AllocGlobal> SystemDisk<'a, R>
where
    R::File: LockFile + EmptyFile + FlushFile + WriteAt,
{
    // Makes a file with this name and these zero words. No memory is asked for.
    fn make_of<'n>(
        &mut self,
        image: &'n str,
        zeros: ZeroWords,
    ) -> Result<FileStore<StdFile<R::File>>, Fault<'n>>
        ensures created { IsCreatedAs (IsCreateFault image.now)
            (⟦<R as OpenPath>⟧.open_gives self.old.rt.now image.now Opening.ToMake)
            R.File.lock_gives R.File.empties R.File.contents R.File.flushes zeros result }
        ensures refused { IfErr result (λ fault. IsNotMade image.now fault) }
    {
        match FileStore::create(self.rt, image, zeros) {
            Ok(store) => Ok(store),
            Err(cause) => Err(create_fault(image, cause)),
        }
    }
}

impl<'a, R: Files + AllocGlobal> Disk for SystemDisk<'a, R>
where
    R::File: LockFile + EmptyFile + FlushFile + WriteAt,
{
    type Image = FileStore<StdFile<R::File>>;

    type Text = R::File;

    ghost does = { λ _ _ _. Unit {0} };

    ghost none = { λ _. tt };

    ghost then = { λ _ _ _ _ _ _ _. tt };

    fn alloc(&self) -> Global {
        self.rt.alloc()
    }

    fn open_image<'n>(&mut self, image: &'n str) -> Result<Self::Image, Fault<'n>>
        ensures size { IfOk result (λ store. IsImageSize (2 * length store.words)) }
        ensures up { IfOk result (λ store. store.down ≡ false) }
        ensures none_passed { IfOk result (λ store. store.passed ≡ 0) }
        ensures none_refused { IfOk result (λ store. refusals_of_file store ≡ no_refusals) }
        ensures refused { IfErr result (λ fault. IsNotOpenedToWrite image.now fault) }
        ensures does { Unit {0} }
        ensures opened { IsOpenedAs (IsOpenFault image.now)
            (⟦<R as OpenPath>⟧.open_gives self.old.rt.now image.now Opening.ToChange)
            R.File.lock_gives R.File.remaining Lock.Exclusive result }
    {
        match FileStore::open(self.rt, image) {
            Ok(store) => Ok(store),
            Err(unopened) => Err(open_fault(image, unopened.fault)),
        }
    }

    fn open_image_to_read<'n>(&mut self, image: &'n str) -> Result<Self::Image, Fault<'n>>
        ensures size { IfOk result (λ store. IsImageSize (2 * length store.words)) }
        ensures up { IfOk result (λ store. store.down ≡ false) }
        ensures none_passed { IfOk result (λ store. store.passed ≡ 0) }
        ensures none_refused { IfOk result (λ store. refusals_of_file store ≡ no_refusals) }
        ensures refused { IfErr result (λ fault. IsNotOpened image.now fault) }
        ensures does { Unit {0} }
        ensures opened { IsOpenedAs (IsReadFault image.now)
            (⟦<R as OpenPath>⟧.open_gives self.old.rt.now image.now Opening.ToRead)
            R.File.lock_gives R.File.remaining Lock.Shared result }
    {
        match FileStore::open_to_read(self.rt, image) {
            Ok(store) => Ok(store),
            Err(unopened) => Err(read_fault(image, unopened.fault)),
        }
    }

    fn make_image<'n>(&mut self, image: &'n str, n: u16) -> Result<Self::Image, Fault<'n>>
        ensures words { IfOk result (λ store. store.words ≡ replicate n 0) }
        ensures up { IfOk result (λ store. store.down ≡ false) }
        ensures none_passed { IfOk result (λ store. store.passed ≡ 0) }
        ensures none_refused { IfOk result (λ store. refusals_of_file store ≡ no_refusals) }
        ensures refused { IfErr result (λ fault. IsNotMade image.now fault) }
        ensures does { Unit {0} }
        ensures created { IsCreatedAs (IsCreateFault image.now)
            (⟦<R as OpenPath>⟧.open_gives self.old.rt.now image.now Opening.ToMake)
            R.File.lock_gives R.File.empties R.File.contents R.File.flushes n result
            ⊎ (result ≡ Err Fault.NoMemory) }
    {
        match ZeroWords::new(self.rt.alloc(), n) {
            Ok(zeros) => self.make_of(image, zeros),
            Err(AllocError) => Err(Fault::NoMemory),
        }
    }

    fn close_image(&mut self, _image: &str, _store: ClosedStore<Self::Image>)
        ensures { Unit {0} }
    {}

    fn open_text<'n>(&mut self, name: &'n str) -> Result<Self::Text, Fault<'n>> {
        match fs::open(self.rt, name) {
            Ok(file) => Ok(file),
            Err(_) => Err(Fault::CannotRead(name)),
        }
    }

    fn write_text<'n>(
        &mut self,
        name: &'n str,
        operands: &[Operand],
        bytes: &[u8],
    ) -> Result<(), Fault<'n>>
        ensures spared { IfOk result (λ _. IsNoOperand name.now operands.now) }
        ensures refused { IfErr result (λ fault. IsUnwritten name.now fault) }
        ensures does { Unit {0} }
    {
        match operand_named(name, operands) {
            Some(kind) => Err(Fault::NotReplaced(name, kind)),
            None => write_spared(self.rt, name, operands, bytes),
        }
    }
}

// Writes a text with this name, unless that is another name of one of these files.
fn write_spared<'n, R: Files + AllocGlobal>(
    rt: &R,
    name: &'n str,
    operands: &[Operand],
    bytes: &[u8],
) -> Result<(), Fault<'n>>
where
    R::File: LockFile + EmptyFile,
    ensures { IfErr result (λ fault. IsUnwritten name.now fault) }
{
    if let Some(kind) = operand_at(rt, name, operands) {
        return Err(Fault::NotReplaced(name, kind));
    }
    if is_no_regular_file(rt, name) {
        return written_to(rt, name, bytes);
    }
    written_anew(rt, name, bytes)
}

// Writes these bytes in place of what the file with this name holds. It is locked so that no other has it open, and only then looked at: one
// that begins as an image is left as it is, and any other is emptied. A file is made where there is none.
fn written_anew<'n, F, R>(rt: &R, name: &'n str, bytes: &[u8]) -> Result<(), Fault<'n>>
where
    F: Read + Write + LockFile + EmptyFile + Drop,
    R: OpenPath<File = F> + AllocGlobal,
    ensures anew { IsWrittenAnew name.now (R.open_gives rt.now name.now Opening.ToMake) F.lock_gives F.remaining
        F.empties F.contents bytes.now result }
    ensures refused { IfErr result (λ fault. IsUnwritten name.now fault) }
{
    match open_to_replace(rt, name) {
        Ok(file) => filled(name, file, bytes),
        Err(cause) => Err(replace_fault(name, cause)),
    }
}

// Writes these bytes to the file with this name.
fn filled<'n, F: Write + Drop>(name: &'n str, mut file: F, bytes: &[u8]) -> Result<(), Fault<'n>>
    ensures filled { IsFilled name.now F.contents bytes.now file result }
    ensures refused { IfErr result (λ fault. IsUnwritten name.now fault) }
{
    if file.write_all(bytes).is_err() || file.flush().is_err() {
        return Err(Fault::CannotWrite(name));
    }
    Ok(())
}

// What the file at this path is to a command that names these files, if it is one of them, under any name.
fn operand_at<R: Files>(rt: &R, path: &str, operands: &[Operand]) -> Option<FileKind>
    ensures { IfSome result (λ kind. Any (λ o. o.kind ≡ kind) operands.now) }
{
    for operand in operands {
        if is_same_file(rt, path, operand.name) {
            return Some(operand.kind);
        }
    }
    None
}

// Whether two paths lead to one file.
fn is_same_file<R: Files>(rt: &R, path: &str, other: &str) -> bool {
    match (fs::metadata(rt, path), fs::metadata(rt, other)) {
        (Ok(one), Ok(two)) => one.dev() == two.dev() && one.ino() == two.ino(),
        _ => false,
    }
}

// Whether a pipe or a device stands at this path, which has nothing to lose.
fn is_no_regular_file<R: Files>(rt: &R, path: &str) -> bool {
    match fs::metadata(rt, path) {
        Ok(found) => !found.is_file(),
        Err(_) => false,
    }
}

// Writes these bytes to a pipe or a device.
fn written_to<'n, R: Files>(rt: &R, path: &'n str, bytes: &[u8]) -> Result<(), Fault<'n>>
    ensures { IfErr result (λ fault. IsNotWritten path.now fault) }
{
    match fs::write(rt, path, bytes) {
        Ok(()) => Ok(()),
        Err(_) => Err(Fault::CannotWrite(path)),
    }
}

// What it means that a text with this name was not written.
fn replace_fault(name: &str, cause: ReplaceFault) -> Fault<'_>
    ensures told { IsReplaceFault name.now cause result }
    ensures unwritten { IsUnwritten name.now result }
{
    match cause {
        ReplaceFault::NotHeld(cause) => held_fault(name, cause),
        ReplaceFault::NotRead(FileReadFault::NoMemory) => Fault::NoMemory,
        ReplaceFault::NotRead(FileReadFault::CannotRead) | ReplaceFault::NotEmptied => {
            Fault::CannotWrite(name)
        }
        ReplaceFault::IsImage => Fault::NotReplaced(name, FileKind::Image),
    }
}

// What it means that the image with this name was not opened to change it.
fn open_fault(image: &str, cause: FileOpenFault) -> Fault<'_>
    ensures { IsOpenFault image.now cause result }
{
    match cause {
        FileOpenFault::CannotOpen => Fault::CannotOpenToWrite(image),
        FileOpenFault::InUse => Fault::ImageInUse,
        FileOpenFault::CannotRead => Fault::CannotRead(image),
        FileOpenFault::BadSize => Fault::BadImage(Damage::Size),
        FileOpenFault::NoMemory => Fault::NoMemory,
    }
}

// What it means that it was not opened to read it alone.
fn read_fault(image: &str, cause: FileOpenFault) -> Fault<'_>
    ensures { IsReadFault image.now cause result }
{
    match cause {
        FileOpenFault::CannotOpen => Fault::CannotRead(image),
        cause => open_fault(image, cause),
    }
}

// What it means that a file with this name was not made.
fn create_fault(image: &str, cause: FileCreateFault) -> Fault<'_>
    ensures told { IsCreateFault image.now cause result }
    ensures unmade { IsNotMade image.now result }
{
    match cause {
        FileCreateFault::NotHeld(cause) => held_fault(image, cause),
        FileCreateFault::NotWritten => Fault::CannotWrite(image),
    }
}

// What it means that it was not opened and locked to write it.
fn held_fault(name: &str, cause: FileLockFault) -> Fault<'_>
    ensures told { IsHeldFault name.now cause result }
    ensures unwritten { IsUnwritten name.now result }
    ensures unmade { IsNotMade name.now result }
{
    match cause {
        FileLockFault::NotLocked(LockFault::InUse) => Fault::ImageInUse,
        FileLockFault::NotLocked(LockFault::CannotLock) | FileLockFault::NotOpened => {
            Fault::CannotWrite(name)
        }
    }
}
