//! The Export component.
ghost use Rattle.std.specs.Prelude.{◌≡◌, ◌∷◌, [], ◌<◌, List, length, Some, None, Ok, IfOk, MatchOption, slice_get};
ghost use Rattle.jc_cap.specs.Reading.{ParsesAs, rest_after, many_at, value_of_whole, IsReadable};
ghost use Rattle.jc_cap.specs.declared.exports.ExportedClass.{ExportedClass};
ghost use Rattle.jc_cap.specs.Exports.{exported_class_at, exports_at, IsExports};

use crate::counted::{Part, seek, skip_many};
use crate::fault::CapFault;
use crate::fields::{u1, u2};
use crate::lists::{U2List, u2_list};
use std::marker::Model;

/// A class or an interface that other packages may name by its token.
#[derive(Drop)]
pub struct ExportedClass<'a> {
    /// Where its record begins in the Class component's info.
    pub class_offset: u16,
    /// Where its static fields lie in the static image, by their tokens.
    pub static_field_offsets: U2List<'a>,
    /// Where its static methods begin in the Method component's info, by their tokens.
    pub static_method_offsets: U2List<'a>,
}

#[tactic(auto, unfolding(crate::specs::Exports::exported_class_at))]
fn exported_class(bytes: &[u8]) -> Result<(ExportedClass<'_>, &[u8]), CapFault>
    ensures { ParsesAs (λ x. (x.0, x.1.now)) result (exported_class_at bytes.now) }
{
    let (class_offset, rest) = u2(bytes)?;
    let (fields, rest) = u1(rest)?;
    let (methods, rest) = u1(rest)?;
    let (static_field_offsets, rest) = u2_list(fields as u16, rest)?;
    let (static_method_offsets, rest) = u2_list(methods as u16, rest)?;
    let exported = ExportedClass {
        class_offset,
        static_field_offsets,
        static_method_offsets,
    };
    Ok((exported, rest))
}

struct ExportedPart;

impl Part for ExportedPart {
    ghost use Rattle.jc_cap.specs.declared.exports.ExportedClass.{ExportedClass};
    ghost use Rattle.jc_cap.specs.Exports.{exported_class_at};

    ghost Said = { ExportedClass };

    ghost at = { exported_class_at };

    fn skip(bytes: &[u8]) -> Result<&[u8], CapFault> {
        let (_, rest) = exported_class(bytes)?;
        Ok(rest)
    }
}

/// The classes that a package exports, by their tokens. They are lent from the component.
#[derive(Drop)]
pub struct Exports<'a> {
    count: u8,
    bytes: &'a [u8],
}

impl<'a> Model for Exports<'a> {
    ghost use Rattle.std.specs.Prelude.{List};
    ghost use Rattle.jc_cap.specs.declared.exports.ExportedClass.{ExportedClass};
    ghost use Rattle.jc_cap.specs.Exports.{exported_class_at};
    ghost use Rattle.jc_cap.specs.Reading.{many_at, list_or_empty};
    ghost use Rattle.jc_cap.specs.Places.{IsList};

    ghost Value = { List ExportedClass };

    ghost view = { λ a. list_or_empty (many_at exported_class_at a.count a.bytes.now) };

    ghost invariant = { λ a. IsList exported_class_at a.count a.bytes.now };
}

#[tactic(auto, unfolding(crate::specs::Exports::exports_at))]
fn exports_of(bytes: &[u8]) -> Result<(Exports<'_>, &[u8]), CapFault>
    ensures { ParsesAs (λ x. (x.0, x.1.now)) result (exports_at bytes.now) }
{
    let (count, bytes) = u1(bytes)?;
    let rest = skip_many::<ExportedPart>(count as u16, bytes)?;
    Ok((Exports { count, bytes }, rest))
}

fn whole_exports(info: &[u8]) -> Result<Exports<'_>, CapFault>
    ensures { ParsesAs (λ y. y) result (value_of_whole (exports_at info.now)) }
{
    let (exports, rest) = exports_of(info)?;
    if !rest.is_empty() {
        return Err(CapFault::Trailing);
    }
    Ok(exports)
}

/// The exported classes in an info.
pub fn read_exports(info: &[u8]) -> Result<Exports<'_>, CapFault>
    // What is read stands in the info.
    ensures found { IfOk result (λ x. IsExports x info.now) }
    // Exports that the info is are read.
    ensures only { (x : List ExportedClass) → IsExports x info.now
        → ParsesAs (λ y. y) result (Ok x) }
    // Otherwise the fault is the first one from the left.
    ensures exact { ParsesAs (λ y. y) result (value_of_whole (exports_at info.now)) }
{
    whole_exports(info)
}

impl<'a> Exports<'a> {
    /// The classes in an info which was read before. They are found again without reading it.
    pub fn found_in(info: &'a [u8]) -> Exports<'a>
        requires { IsReadable (value_of_whole (exports_at info.now)) }
        ensures { value_of_whole (exports_at info.now) ≡ Ok result }
    {
        match u1(info) {
            Ok((count, bytes)) => Exports { count, bytes },
            Err(_) => unreachable!(),
        }
    }

    /// How many there are.
    pub fn count(&self) -> u8
        ensures { result ≡ length self.now }
    {
        self.count
    }

    /// The first class, and the others.
    pub fn split_first(&self) -> Option<(ExportedClass<'a>, Exports<'a>)>
        ensures { MatchOption result (self.now ≡ []) (λ x. self.now ≡ x.0 ∷ x.1) }
    {
        if self.count == 0 {
            return None;
        }
        match exported_class(self.bytes) {
            Ok((value, rest)) => Some((
                value,
                Exports {
                    count: self.count - 1,
                    bytes: rest,
                },
            )),
            Err(_) => unreachable!(),
        }
    }

    /// The class with this token. Those before it are passed over.
    pub fn get(&self, index: u8) -> ExportedClass<'a>
        requires { index < length self.now }
        ensures { slice_get self.now index ≡ Some result }
    {
        let place = seek::<ExportedPart>(index as u16, self.count as u16, self.bytes);
        match exported_class(place) {
            Ok((value, _)) => value,
            Err(_) => unreachable!(),
        }
    }
}
