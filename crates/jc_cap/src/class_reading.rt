//! Reading one record of the Class component.
ghost use Rattle.std.specs.Prelude.{◌≡◌};
ghost use Rattle.jc_cap.specs.Reading.{ParsesAs, rest_after, many_at};
ghost use Rattle.jc_cap.specs.ClassReading.{is_among, is_earlier, super_at, references_at, table_sizes_at, tables_at, class_at, interface_at, flags_of};
ghost use Rattle.jc_cap.specs.ClassReading.{record_at, is_known_class};

use crate::class_lists::{ClassRefs, read_interfaces};
use crate::class_records::{
    ClassInfo, ClassRecord, InterfaceInfo, MethodTables, RecordFlags, ReferenceFields,
};
use crate::class_refs::{ClassRef, class_ref};
use crate::fault::CapFault;
use crate::fields::u1;
use crate::lists::u2_list;

/// The bases and the lengths of a class's method tables.
#[derive(Clone, Copy, Drop)]
pub(crate) struct TableSizes {
    public_base: u8,
    public_count: u8,
    /// Without its high bit.
    package_base: u8,
    package_count: u8,
}

/// Which classes may be named as a superclass or a superinterface.
#[derive(Clone, Copy, Drop)]
pub(crate) enum Known<'a> {
    /// Those of other packages, and those of this one at these offsets.
    Earlier(&'a [u16]),
    /// All: the record was read before.
    Any,
}

pub(crate) fn is_among(offset: u16, before: &[u16]) -> bool
    ensures { result ≡ is_among offset before.now }
{
    before.contains(&offset)
}

fn is_earlier(before: &[u16], class: ClassRef) -> bool
    ensures { result ≡ is_earlier before.now class }
{
    match class {
        ClassRef::Internal(offset) => is_among(offset, before),
        ClassRef::External { .. } => true,
    }
}

fn is_known_class(known: Known<'_>, class: ClassRef) -> bool
    ensures { result ≡ is_known_class known.entry class }
{
    match known {
        Known::Earlier(before) => is_earlier(before, class),
        Known::Any => true,
    }
}

#[tactic(auto, unfolding(crate::specs::ClassReading::super_at))]
fn read_super<'a>(known: Known<'_>, bytes: &'a [u8]) -> Result<(ClassRef, &'a [u8]), CapFault>
    ensures { ParsesAs (λ x. (x.0, x.1.now)) result (super_at
        (is_known_class known.entry) bytes.now) }
{
    let (class, rest) = class_ref(bytes)?;
    if !is_known_class(known, class) {
        return Err(CapFault::BadOffset);
    }
    Ok((class, rest))
}

#[tactic(auto, unfolding(crate::specs::ClassReading::references_at))]
fn read_references(size: u8, bytes: &[u8]) -> Result<(ReferenceFields, &[u8]), CapFault>
    ensures { ParsesAs (λ x. (x.0, x.1.now)) result (references_at size bytes.now) }
{
    let (first_token, rest) = u1(bytes)?;
    let (count, rest) = u1(rest)?;
    if count == 0 {
        return Ok((ReferenceFields { first_token, count }, rest));
    }
    if (size as u16) < first_token as u16 + count as u16 {
        return Err(CapFault::BadOffset);
    }
    Ok((ReferenceFields { first_token, count }, rest))
}

fn after_supers<'a>(known: Known<'_>, count: u8, bytes: &'a [u8]) -> Result<&'a [u8], CapFault>
    ensures { ParsesAs (λ x. x.now) result (rest_after
        (many_at (super_at (is_known_class known.entry)) count bytes.now)) }
{
    let mut rest = bytes;
    for _ in 0..count {
        let (_, next) = read_super(known, rest)?;
        rest = next;
    }
    Ok(rest)
}

#[tactic(auto, unfolding(crate::specs::ClassReading::flags_of))]
fn read_flags(bits: u8) -> Result<RecordFlags, CapFault>
    ensures { ParsesAs (λ x. x) result (flags_of bits) }
{
    match bits {
        0 => Ok(RecordFlags {
            interface: false,
            shareable: false,
        }),
        4 => Ok(RecordFlags {
            interface: false,
            shareable: true,
        }),
        8 => Ok(RecordFlags {
            interface: true,
            shareable: false,
        }),
        12 => Ok(RecordFlags {
            interface: true,
            shareable: true,
        }),
        _ => {
            if bits / 2 % 2 == 1 {
                return Err(CapFault::Remote);
            }
            Err(CapFault::BadOffset)
        }
    }
}

fn read_supers<'a>(
    known: Known<'_>,
    count: u8,
    bytes: &'a [u8],
) -> Result<(ClassRefs<'a>, &'a [u8]), CapFault>
    ensures { ParsesAs (λ x. (x.0, x.1.now)) result (many_at
        (super_at (is_known_class known.entry)) count bytes.now) }
{
    let rest = after_supers(known, count, bytes)?;
    Ok((ClassRefs::of(count, bytes), rest))
}

#[tactic(auto, unfolding(crate::specs::ClassReading::interface_at))]
fn read_interface<'a>(
    known: Known<'_>,
    shareable: bool,
    count: u8,
    bytes: &'a [u8],
) -> Result<(InterfaceInfo<'a>, &'a [u8]), CapFault>
    ensures { ParsesAs (λ x. (x.0, x.1.now)) result (interface_at
        (is_known_class known.entry) shareable count bytes.now) }
{
    let (superinterfaces, rest) = read_supers(known, count, bytes)?;
    let interface = InterfaceInfo {
        shareable,
        superinterfaces,
    };
    Ok((interface, rest))
}

#[tactic(auto, unfolding(crate::specs::ClassReading::table_sizes_at))]
fn read_table_sizes(bytes: &[u8]) -> Result<(TableSizes, &[u8]), CapFault>
    ensures { ParsesAs (λ x. (x.0, x.1.now)) result (table_sizes_at bytes.now) }
{
    let (public_base, rest) = u1(bytes)?;
    let (public_count, rest) = u1(rest)?;
    let (package_base, rest) = u1(rest)?;
    let (package_count, rest) = u1(rest)?;
    let sizes = TableSizes {
        public_base,
        public_count,
        package_base: package_base % 128,
        package_count,
    };
    Ok((sizes, rest))
}

#[tactic(auto, unfolding(crate::specs::ClassReading::tables_at))]
fn read_tables(bytes: &[u8]) -> Result<(MethodTables<'_>, &[u8]), CapFault>
    ensures { ParsesAs (λ x. (x.0, x.1.now)) result (tables_at bytes.now) }
{
    let (sizes, rest) = read_table_sizes(bytes)?;
    let (public_methods, rest) = u2_list(sizes.public_count as u16, rest)?;
    let (package_methods, rest) = u2_list(sizes.package_count as u16, rest)?;
    let tables = MethodTables {
        public_base: sizes.public_base,
        public_methods,
        package_base: sizes.package_base,
        package_methods,
    };
    Ok((tables, rest))
}

#[tactic(auto, unfolding(crate::specs::ClassReading::class_at))]
fn read_class_info<'a>(
    known: Known<'_>,
    shareable: bool,
    count: u8,
    bytes: &'a [u8],
) -> Result<(ClassInfo<'a>, &'a [u8]), CapFault>
    ensures { ParsesAs (λ x. (x.0, x.1.now)) result (class_at
        (is_known_class known.entry) shareable count bytes.now) }
{
    let (superclass, rest) = read_super(known, bytes)?;
    let (declared_instance_size, rest) = u1(rest)?;
    let (references, rest) = read_references(declared_instance_size, rest)?;
    let (tables, rest) = read_tables(rest)?;
    let (interfaces, rest) = read_interfaces(count, rest)?;
    let class = ClassInfo {
        shareable,
        superclass,
        declared_instance_size,
        references,
        tables,
        interfaces,
    };
    Ok((class, rest))
}

/// The record that the bytes begin with, and the bytes after it.
#[tactic(auto, unfolding(crate::specs::ClassReading::record_at))]
pub(crate) fn read_record<'a>(
    known: Known<'_>,
    bytes: &'a [u8],
) -> Result<(ClassRecord<'a>, &'a [u8]), CapFault>
    ensures { ParsesAs (λ x. (x.0, x.1.now)) result (record_at
        (is_known_class known.entry) bytes.now) }
{
    let (first, rest) = u1(bytes)?;
    let flags = read_flags(first / 16)?;
    let count = first % 16;
    if flags.interface {
        let (interface, rest) = read_interface(known, flags.shareable, count, rest)?;
        return Ok((ClassRecord::Interface(interface), rest));
    }
    let (class, rest) = read_class_info(known, flags.shareable, count, rest)?;
    Ok((ClassRecord::Class(class), rest))
}
