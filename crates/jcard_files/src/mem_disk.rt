//! A disk in memory, of which all is known that is done with its files.
ghost use Rattle.std.specs.String.{string_bytes};
ghost use Rattle.std.specs.Prelude.{◌≡◌, ◌<◌, ◌*◌, ◌∷◌, ◌++◌, [], false, length, refl, replicate, IfErr, IfOk, IfSome, OnErr};
ghost use Rattle.jc_words.specs.File.{IsImageSize};
ghost use Rattle.jc_words.specs.Refusals.{no_refusals};
ghost use Rattle.jcard_files.specs.FileDeeds.{ClosesImage, MakesImage, OpensImage, ReadsImage, ReadsText, WritesText, told_of};
ghost use Rattle.jcard_files.specs.Images.{IsNotMade, IsNotOpened, IsNotOpenedToWrite, IsUnopened, IsUnwritten};
ghost use Rattle.jcard_files.specs.Operand.{IsNoOperand};
ghost use Rattle.jcard_files.specs.MemDisk.{AreDeeds, deeds_then, image_place, images_with, text_place};

use crate::closed_store::ClosedStore;
use crate::disk::Disk;
use crate::fault::{Fault, FileKind};
use crate::image_file::ImageFile;
use crate::operand::{Operand, operand_named};
use crate::text_file::{TextFile, WrittenText};
use jc_words::MemStore;
use std::alloc::{AllocError, Global};
use std::marker::Model;

/// Texts that stand, images that are made and changed, and texts that are written, which nobody reads here.
#[derive(Drop)]
pub struct MemDisk<'a> {
    alloc: Global,
    texts: &'a [TextFile<'a>],
    images: Vec<ImageFile>,
    written: Vec<WrittenText>,
}

impl<'a> Model for MemDisk<'a> {
    ghost use Rattle.jcard_files.specs.MemDisk.{MemDiskValue};

    ghost Value = { MemDiskValue };

    ghost view = { λ d. record {
      texts = d.texts.now;
      images = d.images.items;
      written = d.written.items;
    } };
}

impl<'a> MemDisk<'a> {
    /// A disk with these texts and images.
    pub fn new(alloc: Global, texts: &'a [TextFile<'a>], images: Vec<ImageFile>) -> MemDisk<'a>
        ensures { result ≡ record {
          texts = texts.entry.now;
          images = images.items;
          written = [];
        } }
    {
        MemDisk {
            alloc,
            texts,
            images,
            written: Vec::new(alloc),
        }
    }

    /// The images.
    pub fn images(&self) -> &[ImageFile]
        ensures { result.now ≡ self.now.images }
    {
        &self.images
    }

    /// The texts that were written, in the order in which they were.
    pub fn written(&self) -> &[WrittenText]
        ensures { result.now ≡ self.now.written }
    {
        &self.written
    }

    // Keeps a text that is written.
    fn keep_text(&mut self, text: WrittenText) -> Result<(), AllocError>
        ensures kept { IfOk result (λ _. self.new
            ≡ record self.old { written = self.old.written ++ text ∷ [] }) }
        ensures refused { OnErr result (self.new ≡ self.old) }
    {
        self.written.push(text)?;
        Ok(())
    }

    // Keeps a text with this name that is written, unless it is an image's.
    fn write_new<'n>(&mut self, name: &'n str, bytes: &[u8]) -> Result<(), Fault<'n>>
        ensures refused { IfErr result (λ fault. IsUnwritten name.now fault) }
        ensures does { AreDeeds (WritesText name.now bytes.now result ∷ []) self.old self.new }
    {
        match place_of_image(self.images.as_slice(), name) {
            Some(_) => Err(Fault::NotReplaced(name, FileKind::Image)),
            None => self.keep_new(name, bytes),
        }
    }

    // Keeps a text with this name that is written, which is no image's.
    fn keep_new<'n>(&mut self, name: &'n str, bytes: &[u8]) -> Result<(), Fault<'n>>
        requires { image_place name.now self.old.images ≡ None }
        ensures refused { IfErr result (λ fault. IsUnwritten name.now fault) }
        ensures does { AreDeeds (WritesText name.now bytes.now result ∷ []) self.old self.new }
    {
        let Ok(text) = written_text(self.alloc, name, bytes) else {
            return Err(Fault::NoMemory);
        };
        match self.keep_text(text) {
            Ok(()) => Ok(()),
            Err(AllocError) => Err(Fault::NoMemory),
        }
    }

    // Keeps an image in the place of the one with its name, or after all others.
    fn keep(&mut self, image: ImageFile) -> Result<(), AllocError>
        ensures kept { IfOk result (λ _. self.new ≡ record self.old {
          images = images_with image
              (image_place image.name self.old.images) self.old.images;
        }) }
        ensures refused { OnErr result (self.new ≡ self.old) }
    {
        match place_of_image(self.images.as_slice(), image.name()) {
            Some(i) => {
                self.images[i] = image;
                Ok(())
            }
            None => {
                self.images.push(image)?;
                Ok(())
            }
        }
    }
}

// Where the image with this name stands.
fn place_of_image(images: &[ImageFile], name: &str) -> Option<usize>
    ensures place { result ≡ image_place name.now images.now }
    ensures within { IfSome result (λ i. i < length images.now) }
{
    images.iter().position(|image| image.name() == name)
}

// Where the text with this name stands.
fn place_of_text(texts: &[TextFile], name: &str) -> Option<usize>
    ensures place { result ≡ text_place name.now texts.now }
    ensures within { IfSome result (λ i. i < length texts.now) }
{
    texts.iter().position(|text| text.name == name)
}

impl<'a> Disk for MemDisk<'a> {
    type Image = MemStore;

    type Text = &'a [u8];

    ghost does = { λ old deeds new. AreDeeds deeds old new };

    ghost none = { λ disk. refl };

    ghost then = { λ first between last deeds more. deeds_then deeds more first between last };

    fn alloc(&self) -> Global {
        self.alloc
    }

    fn open_image<'n>(&mut self, image: &'n str) -> Result<MemStore, Fault<'n>>
        ensures size { IfOk result (λ store. IsImageSize (2 * length store.words)) }
        ensures up { IfOk result (λ store. false ≡ false) }
        ensures none_passed { IfOk result (λ store. store.passed ≡ 0) }
        ensures none_refused { IfOk result (λ store. no_refusals ≡ no_refusals) }
        ensures refused { IfErr result (λ fault. IsNotOpenedToWrite image.now fault) }
        ensures does { AreDeeds (OpensImage image.now (told_of (λ store. store.words) result) ∷ [])
            self.old self.new }
    {
        match place_of_image(self.images.as_slice(), image) {
            Some(i) => self.images[i].open(self.alloc),
            None => Err(Fault::CannotOpenToWrite(image)),
        }
    }

    fn open_image_to_read<'n>(&mut self, image: &'n str) -> Result<MemStore, Fault<'n>>
        ensures size { IfOk result (λ store. IsImageSize (2 * length store.words)) }
        ensures up { IfOk result (λ store. false ≡ false) }
        ensures none_passed { IfOk result (λ store. store.passed ≡ 0) }
        ensures none_refused { IfOk result (λ store. no_refusals ≡ no_refusals) }
        ensures refused { IfErr result (λ fault. IsNotOpened image.now fault) }
        ensures does { AreDeeds (ReadsImage image.now (told_of (λ store. store.words) result) ∷ [])
            self.old self.new }
    {
        match place_of_image(self.images.as_slice(), image) {
            Some(i) => self.images[i].open(self.alloc),
            None => Err(Fault::CannotRead(image)),
        }
    }

    fn make_image<'n>(&mut self, image: &'n str, n: u16) -> Result<MemStore, Fault<'n>>
        ensures words { IfOk result (λ store. store.words ≡ replicate n 0) }
        ensures up { IfOk result (λ store. false ≡ false) }
        ensures none_passed { IfOk result (λ store. store.passed ≡ 0) }
        ensures none_refused { IfOk result (λ store. no_refusals ≡ no_refusals) }
        ensures refused { IfErr result (λ fault. IsNotMade image.now fault) }
        ensures does { AreDeeds (MakesImage image.now n (told_of (λ _. tt) result) ∷ [])
            self.old self.new }
    {
        let Ok(store) = MemStore::new(self.alloc, n) else {
            return Err(Fault::NoMemory);
        };
        let Ok(made) = ImageFile::zeros(self.alloc, image, n) else {
            return Err(Fault::NoMemory);
        };
        match self.keep(made) {
            Ok(()) => Ok(store),
            Err(AllocError) => Err(Fault::NoMemory),
        }
    }

    fn close_image(&mut self, image: &str, store: ClosedStore<MemStore>)
        ensures { AreDeeds (ClosesImage image.now (record {
          words = store.store.words;
          down = false;
          passed = store.store.passed;
          refused = 0;
        }) ∷ []) self.old self.new }
    {
        if let Some(i) = place_of_image(self.images.as_slice(), image) {
            self.images[i].close(&store);
        }
    }

    fn open_text<'n>(&mut self, name: &'n str) -> Result<&'a [u8], Fault<'n>>
        ensures refused { IfErr result (λ fault. IsUnopened name.now fault) }
        ensures does { AreDeeds (ReadsText name.now (told_of (λ text. Some text.now) result) ∷ [])
            self.old self.new }
    {
        match place_of_text(self.texts, name) {
            Some(i) => Ok(self.texts[i].bytes),
            None => Err(Fault::CannotRead(name)),
        }
    }

    fn write_text<'n>(
        &mut self,
        name: &'n str,
        operands: &[Operand],
        bytes: &[u8],
    ) -> Result<(), Fault<'n>>
        ensures spared { IfOk result (λ _. IsNoOperand name.now operands.now) }
        ensures refused { IfErr result (λ fault. IsUnwritten name.now fault) }
        ensures does { AreDeeds (WritesText name.now bytes.now result ∷ [])
            self.old self.new }
    {
        match operand_named(name, operands) {
            Some(kind) => Err(Fault::NotReplaced(name, kind)),
            None => self.write_new(name, bytes),
        }
    }
}

// A text with this name and these bytes.
fn written_text(alloc: Global, name: &str, bytes: &[u8]) -> Result<WrittenText, AllocError>
    ensures name { IfOk result (λ text. string_bytes text.name ≡ name.now) }
    ensures bytes { IfOk result (λ text. text.bytes.items ≡ bytes.now) }
{
    Ok(WrittenText {
        name: String::from_str(alloc, name)?,
        bytes: Vec::from_slice(alloc, bytes)?,
    })
}
