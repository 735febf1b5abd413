//! The packages and the applets that an image lists, read from its words as they stand: nothing is recovered.
ghost use Rattle.std.specs.Prelude.{◌≡◌, ◌<◌, ◌≤◌, ◌+◌, ◌/◌, length};
ghost use Rattle.jc_words.specs.Layout.{text_start};
ghost use Rattle.jc_image.specs.Listing.{applet_at, applet_in, byte_in, bytes_in, name_in, package_name_at, package_at};

use arrayvec::ArrayVec;
use jc_cap::header::read_header;
use jc_cap::tags;
use jc_heap::layout::{HEADER, LENGTH};
use jc_heap::registry_layout::{ENTRY_PACKAGE, entry_start};
use jc_words::WordStore;
use jc_words::layout::{ADDRESSES, MOST_APPLETS, MOST_PACKAGES, REGISTRY};
use std::marker::Model;

/// How many bytes the info of a Header component has at most: magic, format, flags, the package's version and AID, and its
/// name.
const MOST_HEADER: usize = 282;

/// How many bytes an AID has at least and at most.
const LEAST_AID: u16 = 5;

const MOST_AID: usize = 16;

/// The tag of a Header component, which comes first in a package's record.
const HEADER_COMPONENT: u16 = tags::HEADER as u16;

/// Where a record's first component has its tag, the number of its bytes, and these.
const TAG: u16 = 1;

const COUNT: u16 = 2;

const BYTES: u16 = 3;

/// The first word of a persistent instance.
const PERSISTENT_INSTANCE: u16 = 1;

/// Where an object's header counts the cells, and where these begin.
const CELL_COUNT: u16 = LENGTH;

const FIRST_CELL: u16 = HEADER;

/// How many cells an AID object has: the AID's length, then its bytes, two a cell.
const AID_CELLS: u16 = 9;

/// The version and the AID of a package.
#[derive(Drop)]
pub struct PackageName {
    minor_version: u8,
    major_version: u8,
    aid: ArrayVec<u8, MOST_AID>,
}

impl Model for PackageName {
    ghost use Rattle.jc_cap.specs.Packages.{NamedPackage};

    ghost Value = { NamedPackage };

    ghost view = { λ n. record {
      minor_version = n.minor_version;
      major_version = n.major_version;
      aid = n.aid.items;
    } };
}

impl PackageName {
    /// The minor version.
    pub fn minor_version(&self) -> u8
        ensures { result ≡ self.now.minor_version }
    {
        self.minor_version
    }

    /// The major version.
    pub fn major_version(&self) -> u8
        ensures { result ≡ self.now.major_version }
    {
        self.major_version
    }

    /// The AID.
    pub fn aid(&self) -> &[u8]
        ensures value { result.now ≡ self.now.aid }
        ensures long { length result.now ≤ 16 }
    {
        self.aid.as_slice()
    }
}

/// The AID of an applet, and the number of its package.
#[derive(Drop)]
pub struct AppletName {
    aid: ArrayVec<u8, MOST_AID>,
    package_number: u16,
}

impl Model for AppletName {
    ghost use Rattle.jc_image.specs.Listing.{NamedApplet};

    ghost Value = { NamedApplet };

    ghost view = { λ n. record { aid = n.aid.items; package_number = n.package_number } };
}

impl AppletName {
    /// The AID.
    pub fn aid(&self) -> &[u8]
        ensures value { result.now ≡ self.now.aid }
        ensures long { length result.now ≤ 16 }
    {
        self.aid.as_slice()
    }

    /// The number of its package.
    pub fn package_number(&self) -> u16
        ensures { result ≡ self.now.package_number }
    {
        self.package_number
    }
}

// A byte of words, two a word, the high one first.
fn byte_in<S: WordStore>(store: &S, at: u16, i: u16) -> u8
    requires { at + i / 2 < length (S.words store.now) }
    ensures { result ≡ byte_in (S.words store.now) at i }
{
    let _ = store.size(); // so that the proof knows that there are fewer than 65,536 words
    let word = store.read(at + i / 2);
    if i % 2 == 0 {
        (word / 256) as u8
    } else {
        (word % 256) as u8
    }
}

// `count` bytes from a word on.
fn bytes_in<const MOST: usize, S: WordStore>(store: &S, at: u16, count: u16) -> ArrayVec<u8, MOST>
    requires few { count ≤ MOST }
    requires there { at + (count + 1) / 2 ≤ length (S.words store.now) }
    ensures { result.items ≡ bytes_in (S.words store.now) at count }
{
    let mut bytes = ArrayVec::new();
    for i in 0..count {
        bytes.push(byte_in(store, at, i));
    }
    bytes
}

// The name that the info of a Header component holds.
fn name_in(info: &[u8]) -> Option<PackageName>
    requires { length info.now ≤ 282 }
    ensures { result ≡ name_in info.now }
{
    match read_header(info) {
        Ok(header) => {
            let named = header.this_package;
            let mut aid = ArrayVec::new();
            let _ = aid.try_extend_from_slice(named.aid);
            Some(PackageName {
                minor_version: named.minor_version,
                major_version: named.major_version,
                aid,
            })
        }
        Err(_) => None,
    }
}

// The name of the package whose record begins at a word, with a whole Header component.
#[tactic(auto, unfolding(crate::specs::Listing::package_name_at))]
fn named_at<S: WordStore>(store: &S, at: u16) -> Option<PackageName>
    ensures { result ≡ package_name_at (S.words store.now) at }
{
    let size = u32::from(store.size());
    if u32::from(at) + u32::from(COUNT) >= size {
        return None;
    }
    let tag = store.read(at + TAG);
    let count = store.read(at + COUNT);
    if tag != HEADER_COMPONENT || count > MOST_HEADER as u16 {
        return None;
    }
    if u32::from(at) + u32::from(BYTES) + (u32::from(count) + 1) / 2 > size {
        return None;
    }
    name_in(bytes_in::<MOST_HEADER, S>(store, at + BYTES, count).as_slice())
}

/// The name of the package with this number, from 1 on; `None` where the words hold none.
#[tactic(auto, unfolding(crate::specs::Listing::package_at))]
pub fn package_at<S: WordStore>(store: &S, number: u16) -> Option<PackageName>
    requires { text_start ≤ length (S.words store.now) }
    ensures { result ≡ package_at (S.words store.now) number }
{
    if number == 0 || number > MOST_PACKAGES {
        return None;
    }
    named_at(store, store.read(ADDRESSES + (number - 1)))
}

// The applet of an AID object at a word.
#[tactic(auto, unfolding(crate::specs::Listing::applet_in))]
fn applet_in<S: WordStore>(store: &S, at: u16, package_number: u16) -> Option<AppletName>
    ensures { result ≡ applet_in (S.words store.now) at package_number }
{
    if u32::from(at) + u32::from(FIRST_CELL + AID_CELLS) > u32::from(store.size()) {
        return None;
    }
    let kind = store.read(at);
    let cells = store.read(at + CELL_COUNT);
    let count = store.read(at + FIRST_CELL);
    if kind != PERSISTENT_INSTANCE
        || cells != AID_CELLS
        || count < LEAST_AID
        || count > MOST_AID as u16
    {
        return None;
    }
    Some(AppletName {
        aid: bytes_in(store, at + FIRST_CELL + 1, count),
        package_number,
    })
}

/// The name of the applet with this number, from 1 on; `None` where the words hold none.
#[tactic(auto, unfolding(crate::specs::Listing::applet_at))]
pub fn applet_at<S: WordStore>(store: &S, number: u16) -> Option<AppletName>
    requires { text_start ≤ length (S.words store.now) }
    ensures { result ≡ applet_at (S.words store.now) number }
{
    if number == 0 || number > MOST_APPLETS {
        return None;
    }
    let at = REGISTRY + entry_start(number - 1);
    applet_in(store, store.read(at), store.read(at + ENTRY_PACKAGE))
}
