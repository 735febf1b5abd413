//! How the classes of objects are reported.
ghost use Rattle.std.specs.Prelude.{◌≡◌, ◌≤◌, ◌++◌, decimal, length, OnOk};
ghost use Rattle.jc_words.specs.Layout.{text_start};
ghost use Rattle.jc_objects.specs.ClassTexts.{class_text, kind_text, loaded_text};

use itoa::Buffer;
use jc_heap::Kind;
use jc_image::{PackageName, package_at};
use jc_platform::platform::Platform;
use jc_transient::ClassWord;
use jc_words::WordStore;
use std::alloc::{AllocError, Global};

/// Writes the class that a word names after a text: by its name, if it is one of the platform; else by its package's AID and its
/// number in it, as the words of an image have them.
pub fn push_class<S: WordStore>(
    alloc: Global,
    text: &mut Vec<u8>,
    platform: &Platform,
    store: &S,
    class: ClassWord,
) -> Result<(), AllocError>
    requires { text_start ≤ length (S.words store.now) }
    ensures { OnOk result (text.new.items ≡ text.old.items
        ++ class_text platform.now (S.words store.now) class) }
{
    match platform.class_by_word(class) {
        Some(named) => text.extend_from_slice(named.name()),
        None => push_loaded(alloc, text, package_at(store, class.0 / 256), class.0),
    }
}

/// Writes what an object of a kind and a class is after a text.
pub fn push_kind<S: WordStore>(
    alloc: Global,
    text: &mut Vec<u8>,
    platform: &Platform,
    store: &S,
    kind: Kind,
    class: ClassWord,
) -> Result<(), AllocError>
    requires { text_start ≤ length (S.words store.now) }
    ensures { OnOk result (text.new.items ≡ text.old.items
        ++ kind_text platform.now (S.words store.now) kind class) }
{
    match kind {
        Kind::Instance => push_class(alloc, text, platform, store, class),
        Kind::BooleanArray => text.extend_from_slice(b"boolean[]"),
        Kind::ByteArray => text.extend_from_slice(b"byte[]"),
        Kind::ShortArray => text.extend_from_slice(b"short[]"),
        Kind::ReferenceArray => {
            push_class(alloc, text, platform, store, class)?;
            text.extend_from_slice(b"[]")
        }
    }
}

// Writes a class of a package that was loaded.
fn push_loaded(
    alloc: Global,
    text: &mut Vec<u8>,
    found: Option<PackageName>,
    class: u16,
) -> Result<(), AllocError>
    ensures { OnOk result (text.new.items ≡ text.old.items ++ loaded_text found class) }
{
    let Some(named) = found else {
        return push_number(text, class);
    };
    let aid = hex::encode_upper(alloc, named.aid())?;
    text.extend_from_slice(aid.as_bytes())?;
    text.extend_from_slice(b".")?;
    push_number(text, class % 256)
}

/// Writes a number in decimal digits after a text.
pub fn push_number(text: &mut Vec<u8>, number: u16) -> Result<(), AllocError>
    ensures { OnOk result (text.new.items ≡ text.old.items ++ decimal number) }
{
    let mut digits = Buffer::new();
    text.extend_from_slice(digits.format(number).as_bytes())
}
