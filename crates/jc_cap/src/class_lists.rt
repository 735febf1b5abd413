//! The lists of a class record: superinterfaces and implemented interfaces.
ghost use Rattle.std.specs.Prelude.{◌≡◌, ◌∷◌, [], ◌<◌, length, Some, None, Ok, MatchOption, slice_get};
ghost use Rattle.jc_cap.specs.Reading.{ParsesAs, many_at, list_or_empty, rest_after};
ghost use Rattle.jc_cap.specs.Places.{IsList};
ghost use Rattle.jc_cap.specs.ClassRefs.{class_ref_at};
ghost use Rattle.jc_cap.specs.ClassLists.{implemented_at, implemented_value};

use crate::class_refs::{ClassRef, class_ref};
use crate::counted::{Part, skip_many};
use crate::fault::CapFault;
use crate::fields::{run, u1};
use std::marker::Model;

/// The superinterfaces of an interface. They are lent from the component.
#[derive(Drop)]
pub struct ClassRefs<'a> {
    count: u8,
    bytes: &'a [u8],
}

impl<'a> Model for ClassRefs<'a> {
    ghost use Rattle.std.specs.Prelude.{List};
    ghost use Rattle.jc_cap.specs.declared.class_refs.ClassRef.{ClassRef};
    ghost use Rattle.jc_cap.specs.ClassRefs.{class_ref_at};
    ghost use Rattle.jc_cap.specs.Reading.{many_at, list_or_empty};
    ghost use Rattle.jc_cap.specs.Places.{IsList};

    ghost Value = { List ClassRef };

    ghost view = { λ a. list_or_empty (many_at class_ref_at a.count a.bytes.now) };

    ghost invariant = { λ a. IsList class_ref_at a.count a.bytes.now };
}

impl<'a> ClassRefs<'a> {
    /// The list that the bytes begin with.
    pub(crate) fn of(count: u8, bytes: &'a [u8]) -> ClassRefs<'a>
        requires { IsList class_ref_at count bytes.now }
        ensures { result ≡ list_or_empty (many_at class_ref_at count bytes.now) }
    {
        ClassRefs { count, bytes }
    }

    /// How many there are.
    pub fn count(&self) -> u8
        ensures { result ≡ length self.now }
    {
        self.count
    }

    /// The reference with this index.
    pub fn get(&self, index: u8) -> ClassRef
        requires { index < length self.now }
        ensures { slice_get self.now index ≡ Some result }
    {
        let (_, rest) = self.bytes.split_at(index as usize * 2);
        match class_ref(rest) {
            Ok((class, _)) => class,
            Err(_) => unreachable!(),
        }
    }
}

/// An interface that a class implements (`implemented_interface_info` of the Java Card CAP format).
#[derive(Clone, Copy, Drop)]
pub struct ImplementedInterface<'a> {
    pub interface: ClassRef,
    /// For each method of the interface, by its token, the token of the class's virtual method.
    pub tokens: &'a [u8],
}

#[tactic(auto, unfolding(crate::specs::ClassLists::implemented_at))]
fn read_implemented(bytes: &[u8]) -> Result<(ImplementedInterface<'_>, &[u8]), CapFault>
    ensures { ParsesAs (λ x. (implemented_value x.0, x.1.now)) result (implemented_at bytes.now) }
{
    let (interface, rest) = class_ref(bytes)?;
    let (count, rest) = u1(rest)?;
    let (tokens, rest) = run(count as usize, rest)?;
    Ok((ImplementedInterface { interface, tokens }, rest))
}

struct ImplementedPart;

impl Part for ImplementedPart {
    ghost use Rattle.jc_cap.specs.ClassLists.{Implemented, implemented_at};

    ghost Said = { Implemented };

    ghost at = { implemented_at };

    fn skip(bytes: &[u8]) -> Result<&[u8], CapFault> {
        let (_, rest) = read_implemented(bytes)?;
        Ok(rest)
    }
}

/// The interfaces that a class implements. They are lent from the component.
#[derive(Drop)]
pub struct ImplementedInterfaces<'a> {
    count: u8,
    bytes: &'a [u8],
}

impl<'a> Model for ImplementedInterfaces<'a> {
    ghost use Rattle.std.specs.Prelude.{List};
    ghost use Rattle.jc_cap.specs.ClassLists.{Implemented, implemented_at};
    ghost use Rattle.jc_cap.specs.Reading.{many_at, list_or_empty};
    ghost use Rattle.jc_cap.specs.Places.{IsList};

    ghost Value = { List Implemented };

    ghost view = { λ a. list_or_empty (many_at implemented_at a.count a.bytes.now) };

    ghost invariant = { λ a. IsList implemented_at a.count a.bytes.now };
}

pub(crate) fn read_interfaces(
    count: u8,
    bytes: &[u8],
) -> Result<(ImplementedInterfaces<'_>, &[u8]), CapFault>
    ensures { ParsesAs (λ x. (x.0, x.1.now)) result (many_at implemented_at count bytes.now) }
{
    let rest = skip_many::<ImplementedPart>(count as u16, bytes)?;
    Ok((ImplementedInterfaces { count, bytes }, rest))
}

impl<'a> ImplementedInterfaces<'a> {
    /// How many there are.
    pub fn count(&self) -> u8
        ensures { result ≡ length self.now }
    {
        self.count
    }

    /// The first interface, and the others.
    pub fn split_first(&self) -> Option<(ImplementedInterface<'a>, ImplementedInterfaces<'a>)>
        ensures { MatchOption result (self.now ≡ []) (λ x. self.now ≡ implemented_value x.0 ∷ x.1) }
    {
        if self.count == 0 {
            return None;
        }
        match read_implemented(self.bytes) {
            Ok((first, rest)) => {
                let others = ImplementedInterfaces {
                    count: self.count - 1,
                    bytes: rest,
                };
                Some((first, others))
            }
            Err(_) => unreachable!(),
        }
    }
}
