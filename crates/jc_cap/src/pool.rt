//! The ConstantPool component.
ghost use Rattle.std.specs.Prelude.{◌≡◌, ◌<◌, ◌∷◌, ◌==◌, if◌then◌else◌, List, length, Some, Ok, IfOk, slice_get};
ghost use Rattle.jc_cap.specs.Reading.{ParsesAs, rest_after, many_at, value_of_whole, IsReadable};
ghost use Rattle.jc_cap.specs.declared.pool.Entry.{Entry};
ghost use Rattle.jc_cap.specs.Pool.{virtual_token_at, static_ref_at, entry_at, pool_at, IsPool};

use crate::class_refs::{ClassRef, class_ref};
use crate::counted::{Part, skip_many};
use crate::fault::CapFault;
use crate::fields::{u1, u2};
use std::marker::Model;

/// The token of a virtual method, 0 to 127, and who may see the method.
#[derive(Clone, Copy, Drop)]
pub enum VirtualToken {
    /// It is public or protected.
    Public(u8),
    /// It is visible in its package alone.
    PackageVisible(u8),
}

/// A static field or a static method.
#[derive(Clone, Copy, Drop)]
pub enum StaticRef {
    /// In this package: its offset in the static image or in the Method component's info.
    Internal(u16),
    /// In an imported package: the tokens of the package (0 to 127), of the class and of the field or method.
    External {
        package_token: u8,
        class_token: u8,
        token: u8,
    },
}

/// An entry of the constant pool.
#[derive(Clone, Copy, Drop)]
pub enum Entry {
    /// A class or an interface.
    Class(ClassRef),
    /// A field of the instances of a class.
    InstanceField {
        class: ClassRef,
        token: u8,
    },
    /// A method that is looked up from the class.
    VirtualMethod {
        class: ClassRef,
        token: VirtualToken,
    },
    /// A method that is looked up from the superclass of the class.
    SuperMethod {
        class: ClassRef,
        token: VirtualToken,
    },
    StaticField(StaticRef),
    StaticMethod(StaticRef),
}

#[tactic(auto, unfolding(crate::specs::Pool::virtual_token_at))]
fn virtual_token(bytes: &[u8]) -> Result<(VirtualToken, &[u8]), CapFault>
    ensures { ParsesAs (λ x. (x.0, x.1.now)) result (virtual_token_at bytes.now) }
{
    let (token, rest) = u1(bytes)?;
    if token < 128 {
        return Ok((VirtualToken::Public(token), rest));
    }
    Ok((VirtualToken::PackageVisible(token - 128), rest))
}

#[tactic(auto, unfolding(crate::specs::Pool::static_ref_at))]
fn static_ref(bytes: &[u8]) -> Result<(StaticRef, &[u8]), CapFault>
    ensures { ParsesAs (λ x. (x.0, x.1.now)) result (static_ref_at bytes.now) }
{
    let (high, rest) = u1(bytes)?;
    if high == 0 {
        let (offset, rest) = u2(rest)?;
        return Ok((StaticRef::Internal(offset), rest));
    }
    if high < 128 {
        return Err(CapFault::BadOffset);
    }
    let (class_token, rest) = u1(rest)?;
    let (token, rest) = u1(rest)?;
    let external = StaticRef::External {
        package_token: high - 128,
        class_token,
        token,
    };
    Ok((external, rest))
}

// A class, or a field of its instances.
#[inline(always)]
#[tactic(auto, unfolding(crate::specs::Pool::entry_at))]
fn field_entry(tag: u8, bytes: &[u8]) -> Result<(Entry, &[u8]), CapFault>
    ensures { ParsesAs (λ x. (x.0, x.1.now)) result (entry_at
        ((if tag == 1 then 1 else 2) ∷ bytes.now)) }
{
    let (class, rest) = class_ref(bytes)?;
    let (token, rest) = u1(rest)?;
    if tag == 1 {
        return Ok((Entry::Class(class), rest));
    }
    Ok((Entry::InstanceField { class, token }, rest))
}

// A method of a class or of its superclass.
#[inline(always)]
#[tactic(auto, unfolding(crate::specs::Pool::entry_at))]
fn method_entry(tag: u8, bytes: &[u8]) -> Result<(Entry, &[u8]), CapFault>
    ensures { ParsesAs (λ x. (x.0, x.1.now)) result (entry_at
        ((if tag == 3 then 3 else 4) ∷ bytes.now)) }
{
    let (class, rest) = class_ref(bytes)?;
    let (token, rest) = virtual_token(rest)?;
    if tag == 3 {
        return Ok((Entry::VirtualMethod { class, token }, rest));
    }
    Ok((Entry::SuperMethod { class, token }, rest))
}

// A static field or a static method.
#[inline(always)]
#[tactic(auto, unfolding(crate::specs::Pool::entry_at))]
fn static_entry(tag: u8, bytes: &[u8]) -> Result<(Entry, &[u8]), CapFault>
    ensures { ParsesAs (λ x. (x.0, x.1.now)) result (entry_at
        ((if tag == 5 then 5 else 6) ∷ bytes.now)) }
{
    let (place, rest) = static_ref(bytes)?;
    if tag == 5 {
        return Ok((Entry::StaticField(place), rest));
    }
    Ok((Entry::StaticMethod(place), rest))
}

#[inline(always)]
#[tactic(auto, unfolding(crate::specs::Pool::entry_at))]
fn entry_of(bytes: &[u8]) -> Result<(Entry, &[u8]), CapFault>
    ensures { ParsesAs (λ x. (x.0, x.1.now)) result (entry_at bytes.now) }
{
    let (tag, rest) = u1(bytes)?;
    match tag {
        1 | 2 => field_entry(tag, rest),
        3 | 4 => method_entry(tag, rest),
        5 | 6 => static_entry(tag, rest),
        _ => Err(CapFault::BadOffset),
    }
}

struct EntryPart;

impl Part for EntryPart {
    ghost use Rattle.jc_cap.specs.declared.pool.Entry.{Entry};
    ghost use Rattle.jc_cap.specs.Pool.{entry_at};

    ghost Said = { Entry };

    ghost at = { entry_at };

    fn skip(bytes: &[u8]) -> Result<&[u8], CapFault> {
        let (_, rest) = entry_of(bytes)?;
        Ok(rest)
    }
}

/// The entries of a constant pool, by their indices. They are lent from the component.
#[derive(Drop)]
pub struct ConstantPool<'a> {
    count: u16,
    bytes: &'a [u8],
}

impl<'a> Model for ConstantPool<'a> {
    ghost use Rattle.std.specs.Prelude.{List};
    ghost use Rattle.jc_cap.specs.declared.pool.Entry.{Entry};
    ghost use Rattle.jc_cap.specs.Pool.{entry_at};
    ghost use Rattle.jc_cap.specs.Reading.{many_at, list_or_empty};
    ghost use Rattle.jc_cap.specs.Places.{IsList};

    ghost Value = { List Entry };

    ghost view = { λ a. list_or_empty (many_at entry_at a.count a.bytes.now) };

    ghost invariant = { λ a. IsList entry_at a.count a.bytes.now };
}

#[tactic(auto, unfolding(crate::specs::Pool::pool_at))]
fn constant_pool(bytes: &[u8]) -> Result<(ConstantPool<'_>, &[u8]), CapFault>
    ensures { ParsesAs (λ x. (x.0, x.1.now)) result (pool_at bytes.now) }
{
    let (count, bytes) = u2(bytes)?;
    let rest = skip_many::<EntryPart>(count, bytes)?;
    Ok((ConstantPool { count, bytes }, rest))
}

fn whole_pool(info: &[u8]) -> Result<ConstantPool<'_>, CapFault>
    ensures { ParsesAs (λ y. y) result (value_of_whole (pool_at info.now)) }
{
    let (pool, rest) = constant_pool(info)?;
    if !rest.is_empty() {
        return Err(CapFault::Trailing);
    }
    Ok(pool)
}

/// The constant pool in an info.
pub fn read_pool(info: &[u8]) -> Result<ConstantPool<'_>, CapFault>
    // What is read stands in the info.
    ensures found { IfOk result (λ x. IsPool x info.now) }
    // A pool that the info is is read.
    ensures only { (x : List Entry) → IsPool x info.now → ParsesAs (λ y. y) result (Ok x) }
    // Otherwise the fault is the first one from the left.
    ensures exact { ParsesAs (λ y. y) result (value_of_whole (pool_at info.now)) }
{
    whole_pool(info)
}

impl<'a> ConstantPool<'a> {
    /// The entries in an info which was read before. They are found again without reading it.
    pub fn found_in(info: &'a [u8]) -> ConstantPool<'a>
        requires { IsReadable (value_of_whole (pool_at info.now)) }
        ensures { value_of_whole (pool_at info.now) ≡ Ok result }
    {
        match u2(info) {
            Ok((count, bytes)) => ConstantPool { count, bytes },
            Err(_) => unreachable!(),
        }
    }

    /// How many there are.
    pub fn count(&self) -> u16
        ensures { result ≡ length self.now }
    {
        self.count
    }

    /// The entry with this index.
    pub fn get(&self, index: u16) -> Entry
        requires { index < length self.now }
        ensures { slice_get self.now index ≡ Some result }
    {
        let (_, place) = self.bytes.split_at(index as usize * 4);
        match entry_of(place) {
            Ok((value, _)) => value,
            Err(_) => unreachable!(),
        }
    }
}
