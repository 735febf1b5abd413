//! The initialised arrays of a StaticField component.
ghost use Rattle.std.specs.Prelude.{◌≡◌, ◌∷◌, [], ◌<◌, length, Some, None, Ok, IfOk, IfSome, MatchOption, slice_get};
ghost use Rattle.jc_cap.specs.Reading.{ParsesAs, many_at, rest_after, list_or_empty};
ghost use Rattle.jc_cap.specs.Places.{IsList};
ghost use Rattle.jc_cap.specs.StaticReading.{element_type_at, element_size, static_array_at, static_arrays_at, values_size};
ghost use Rattle.jc_cap.specs.StaticViews.{static_array};

use crate::counted::{Part, skip_many};
use crate::fault::CapFault;
use crate::fields::{run, u1, u2};
use std::marker::Model;

/// What an initialised array holds.
#[derive(Clone, Copy, Drop)]
pub enum ElementType {
    Boolean,
    Byte,
    Short,
}

impl ElementType {
    /// How many bytes an element has in the component.
    pub fn size(self) -> u16
        ensures { result ≡ element_size self }
    {
        match self {
            ElementType::Boolean => 1,
            ElementType::Byte => 1,
            ElementType::Short => 2,
        }
    }
}

/// An initialised array (`array_init_info` of the Java Card CAP format). Its bytes are lent from the component.
#[derive(Clone, Copy, Drop)]
pub struct ArrayInit<'a> {
    pub element_type: ElementType,
    /// The elements, one after the other; a short has its high byte first.
    pub values: &'a [u8],
}

#[tactic(auto, unfolding(crate::specs::StaticReading::element_type_at))]
fn read_element_type(bytes: &[u8]) -> Result<(ElementType, &[u8]), CapFault>
    ensures { ParsesAs (λ x. (x.0, x.1.now)) result (element_type_at bytes.now) }
{
    let (number, rest) = u1(bytes)?;
    match number {
        2 => Ok((ElementType::Boolean, rest)),
        3 => Ok((ElementType::Byte, rest)),
        4 => Ok((ElementType::Short, rest)),
        _ => Err(CapFault::BadOffset),
    }
}

#[tactic(auto, unfolding(crate::specs::StaticReading::static_array_at))]
fn read_array(bytes: &[u8]) -> Result<(ArrayInit<'_>, &[u8]), CapFault>
    ensures read { ParsesAs (λ x. (static_array x.0, x.1.now)) result (static_array_at bytes.now) }
    ensures small { IfOk result (λ x. length x.0.values.now < 65536) }
{
    let (element_type, rest) = read_element_type(bytes)?;
    let (count, rest) = u2(rest)?;
    let size = element_type.size();
    if count % size != 0 {
        return Err(CapFault::BadOffset);
    }
    let (values, rest) = run(count as usize, rest)?;
    let array = ArrayInit {
        element_type,
        values,
    };
    Ok((array, rest))
}

struct StaticArrayPart;

impl Part for StaticArrayPart {
    ghost use Rattle.jc_cap.specs.StaticValues.{StaticArray};
    ghost use Rattle.jc_cap.specs.StaticReading.{static_array_at};

    ghost Said = { StaticArray };

    ghost at = { static_array_at };

    fn skip(bytes: &[u8]) -> Result<&[u8], CapFault> {
        let (_, rest) = read_array(bytes)?;
        Ok(rest)
    }
}

/// The initialised arrays of a package, one for each of the first references of its image. They are lent from the
/// component.
#[derive(Drop)]
pub struct ArrayInits<'a> {
    count: u16,
    bytes: &'a [u8],
}

impl<'a> Model for ArrayInits<'a> {
    ghost use Rattle.std.specs.Prelude.{List};
    ghost use Rattle.jc_cap.specs.StaticValues.{StaticArray};
    ghost use Rattle.jc_cap.specs.StaticReading.{static_array_at};
    ghost use Rattle.jc_cap.specs.Reading.{many_at, list_or_empty};
    ghost use Rattle.jc_cap.specs.Places.{IsList};

    ghost Value = { List StaticArray };

    ghost view = { λ a. list_or_empty (many_at static_array_at a.count a.bytes.now) };

    ghost invariant = { λ a. IsList static_array_at a.count a.bytes.now };
}

#[tactic(auto, unfolding(crate::specs::StaticReading::static_arrays_at))]
pub(crate) fn read_arrays(
    references: u16,
    bytes: &[u8],
) -> Result<(ArrayInits<'_>, &[u8]), CapFault>
    ensures { ParsesAs (λ x. (x.0, x.1.now)) result (static_arrays_at references bytes.now) }
{
    let (count, bytes) = u2(bytes)?;
    if references < count {
        return Err(CapFault::BadOffset);
    }
    let rest = skip_many::<StaticArrayPart>(count, bytes)?;
    Ok((ArrayInits { count, bytes }, rest))
}

/// The number of bytes that the arrays have together.
fn size_of_all(count: u16, bytes: &[u8]) -> usize
    requires { IsList static_array_at count bytes.now }
    ensures { result ≡ values_size (list_or_empty (many_at static_array_at count bytes.now)) }
{
    let mut rest = bytes;
    let mut size = 0;
    for _ in 0..count {
        match read_array(rest) {
            Ok((array, next)) => {
                size += array.values.len();
                rest = next;
            }
            Err(_) => unreachable!(),
        }
    }
    size
}

impl<'a> ArrayInits<'a> {
    /// As many arrays as are counted, with which bytes begin that were read before.
    pub(crate) fn found_in(count: u16, bytes: &'a [u8]) -> ArrayInits<'a>
        requires { IsList static_array_at count bytes.now }
        ensures { result ≡ list_or_empty (many_at static_array_at count bytes.now) }
    {
        ArrayInits { count, bytes }
    }

    /// How many there are.
    pub fn count(&self) -> u16
        ensures { result ≡ length self.now }
    {
        self.count
    }

    /// The number of bytes that the values of all of them have together.
    pub fn values_size(&self) -> usize
        ensures { result ≡ values_size self.now }
    {
        size_of_all(self.count, self.bytes)
    }

    /// The first array, whose number of bytes stands in two bytes, and the others.
    pub fn split_first(&self) -> Option<(ArrayInit<'a>, ArrayInits<'a>)>
        ensures first { MatchOption result (self.now ≡ [])
            (λ x. self.now ≡ static_array x.0 ∷ x.1) }
        ensures small { IfSome result (λ x. length x.0.values.now < 65536) }
    {
        if self.count == 0 {
            return None;
        }
        match read_array(self.bytes) {
            Ok((array, rest)) => {
                let others = ArrayInits {
                    count: self.count - 1,
                    bytes: rest,
                };
                Some((array, others))
            }
            Err(_) => unreachable!(),
        }
    }
}
