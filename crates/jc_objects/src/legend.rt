//! What the cells of an image's objects are read by: its platform, and its packages.
ghost use Rattle.std.specs.Prelude.{◌≡◌, Some, None, IfOk, MatchResult};
ghost use Rattle.jc_objects.specs.Legend.{ArePackagesIn, IsLegend, IsNotLinked, holds_reference, static_references};

use crate::image_objects::{opened, whole_of};
use jc_linker::linked::Linked;
use jc_packages::fault::ReadFault;
use jc_packages::reading::read_packages;
use jc_platform::platform::Platform;
use jc_transient::ClassWord;
use std::alloc::{AllocError, Global};

/// The platform of an image and, where it is whole and they link, the packages that it has once it is recovered.
#[derive(Drop)]
pub struct Legend {
    pub platform: Platform,
    pub packages: Option<Linked>,
}

/// What the cells of an image of these words are read by, whose table text as it stands is this platform's.
pub fn legend_of(alloc: Global, platform: Platform, words: Vec<u16>) -> Result<Legend, AllocError>
    ensures { IfOk result (λ legend. IsLegend platform words.items legend) }
{
    match linked_in(alloc, platform.table().platform(), words) {
        Ok(linked) => Ok(Legend {
            platform,
            packages: Some(linked),
        }),
        Err(fault) => without_packages(platform, fault),
    }
}

// The legend of an image whose packages are not known, unless memory was refused for them.
fn without_packages(platform: Platform, fault: ReadFault) -> Result<Legend, AllocError>
    ensures { IfOk result (λ legend. (legend.platform ≡ platform) × (legend.packages ≡ None)
        × (fault ≡ ReadFault.Damaged)) }
{
    match fault {
        ReadFault::Damaged => Ok(Legend {
            platform,
            packages: None,
        }),
        ReadFault::NoMemory => Err(AllocError),
    }
}

// The packages of an image of these words, linked after those of a platform.
fn linked_in(alloc: Global, platform: Platform, words: Vec<u16>) -> Result<Linked, ReadFault>
    ensures { MatchResult result (λ linked. ArePackagesIn platform words.items (Some linked))
        (λ fault. IsNotLinked platform words.items fault) }
{
    let image = opened(words)?;
    let (_, heap) = whole_of(alloc, image)?;
    let linked = read_packages(alloc, platform, &heap)?;
    Ok(linked)
}

impl Legend {
    /// A cell of an instance holds a reference, by the records of its class and those above it.
    pub fn holds_reference(&self, class: ClassWord, cell: u16) -> bool
        ensures { result ≡ holds_reference self.now class cell }
    {
        match &self.packages {
            Some(linked) => linked.reference_cell(class, cell),
            None => false,
        }
    }

    /// How many references the static image of the package with this number begins with, as its StaticField component says.
    pub fn static_references(&self, number: u16) -> u16
        ensures { result ≡ static_references self.now number }
    {
        match &self.packages {
            Some(linked) if number < 256 => linked.statics_at(number as u8).1,
            _ => 0,
        }
    }
}
