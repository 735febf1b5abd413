//! The fields that entries of a constant pool name.
ghost use Rattle.std.specs.Prelude.{◌≡◌, option_copied};
ghost use Rattle.std.specs.Option.{option_and_then};
ghost use Rattle.jc_instructions.specs.FieldNames.{is_type_of_cell, has_field, field_named, static_named, field_of, static_of};

use jc_frames::instr::ValueType;
use jc_linker::linked::Linked;
use jc_linker::target::Target;
use jc_transient::ClassWord;

/// A field of instances: the class that declares it, and its cell.
#[derive(Clone, Copy)]
pub struct FieldOfClass {
    pub class: ClassWord,
    pub cell: u32,
}

/// A static field: the package in whose image it lies, and its offset there.
#[derive(Clone, Copy)]
pub struct FieldOfImage {
    pub package_number: u8,
    pub offset: u16,
}

// Whether a cell of this kind holds values of this type.
#[inline(always)]
fn is_type_of_cell(of_type: ValueType, is_reference: bool) -> bool
    ensures { result ≡ is_type_of_cell of_type is_reference }
{
    match of_type {
        ValueType::Reference => is_reference,
        ValueType::Byte => !is_reference,
        ValueType::Short => !is_reference,
    }
}

// The field of instances that an entry names, if it names one that holds values of this type.
#[inline(always)]
fn field_of(of_type: ValueType, entry: Option<&Target>) -> Option<FieldOfClass>
    ensures { result ≡ option_and_then (field_of of_type) (option_copied entry.entry) }
{
    match entry {
        Some(
            Target::InstanceField {
                class,
                cell,
                is_reference,
            },
        ) => {
            if is_type_of_cell(of_type, *is_reference) {
                Some(FieldOfClass {
                    class: *class,
                    cell: *cell,
                })
            } else {
                None
            }
        }
        _ => None,
    }
}

/// The field of instances that an entry of a package's pool names, if it names one that holds values of this type.
#[inline(always)]
#[tactic(auto, unfolding(crate::specs::FieldNames::field_named))]
pub(crate) fn field_named(
    of_type: ValueType,
    linked: &Linked,
    package_number: u8,
    index: u16,
) -> Option<FieldOfClass>
    ensures { result ≡ field_named of_type linked.now package_number index }
{
    field_of(of_type, linked.target_at(package_number, index))
}

// Whether an image of this many bytes that begins with this many references has a field of this type at an offset.
fn has_field(of_type: ValueType, size: u16, references: u16, offset: u16) -> bool
    ensures { result ≡ has_field of_type size references offset }
{
    let behind_references = 2 * u32::from(references) <= u32::from(offset);
    match of_type {
        ValueType::Reference => offset % 2 == 0 && offset / 2 < references,
        ValueType::Byte => behind_references && offset < size,
        ValueType::Short => behind_references && u32::from(offset) + 1 < u32::from(size),
    }
}

// The static field that an entry names, if it names one that holds values of this type.
fn static_of(of_type: ValueType, linked: &Linked, entry: Option<&Target>) -> Option<FieldOfImage>
    ensures { result ≡ option_and_then (static_of of_type linked.now) (option_copied entry.entry) }
{
    match entry {
        Some(
            Target::StaticField {
                package_number,
                offset,
            },
        ) => {
            let (size, references) = linked.statics_at(*package_number);
            if has_field(of_type, size, references, *offset) {
                Some(FieldOfImage {
                    package_number: *package_number,
                    offset: *offset,
                })
            } else {
                None
            }
        }
        _ => None,
    }
}

/// The static field that an entry of a package's pool names, if it names one that holds values of this type.
#[tactic(auto, unfolding(crate::specs::FieldNames::static_named))]
pub(crate) fn static_named(
    of_type: ValueType,
    linked: &Linked,
    package_number: u8,
    index: u16,
) -> Option<FieldOfImage>
    ensures { result ≡ static_named of_type linked.now package_number index }
{
    static_of(of_type, linked, linked.target_at(package_number, index))
}
