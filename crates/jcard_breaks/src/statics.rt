//! Static images as a command goes on.

use jcard_script::static_image::StaticImage;
use std::alloc::{AllocError, Global};

/// The static images of the packages of a card, and what they were as the transaction began that is open, if one is.
#[derive(Drop)]
pub(crate) struct Statics {
    alloc: Global,
    images: Vec<StaticImage>,
    saved: Option<Vec<StaticImage>>,
}

impl Statics {
    /// Those before a command.
    pub(crate) fn of(alloc: Global, images: &[StaticImage]) -> Result<Statics, AllocError> {
        Ok(Statics {
            alloc,
            images: copied(alloc, images)?,
            saved: None,
        })
    }

    /// The byte of a package's image at an offset.
    pub(crate) fn byte(&self, package_number: u8, offset: u32) -> Option<u8> {
        for image in self.images.as_slice() {
            if image.package_number == package_number {
                return image.bytes.get(offset as usize).copied();
            }
        }
        None
    }

    /// A byte is set.
    pub(crate) fn set(&mut self, package_number: u8, offset: u32, value: u8) {
        for image in self.images.iter_mut() {
            if image.package_number == package_number {
                if let Some(byte) = image.bytes.get_mut(offset as usize) {
                    *byte = value;
                }
            }
        }
    }

    /// A transaction begins.
    pub(crate) fn begin(&mut self) -> Result<(), AllocError> {
        self.saved = Some(copied(self.alloc, &self.images)?);
        Ok(())
    }

    /// It is committed.
    pub(crate) fn commit(&mut self) {
        self.saved = None;
    }

    /// It is taken back.
    pub(crate) fn abort(&mut self) {
        if let Some(saved) = self.saved.take() {
            self.images = saved;
        }
    }
}

fn copied(alloc: Global, images: &[StaticImage]) -> Result<Vec<StaticImage>, AllocError> {
    let mut copies = Vec::new(alloc);
    for image in images {
        copies.push(StaticImage {
            package_number: image.package_number,
            bytes: Vec::from_slice(alloc, &image.bytes)?,
        })?;
    }
    Ok(copies)
}
