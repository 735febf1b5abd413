//! Types that objects are tested against.
ghost use Rattle.std.specs.Prelude.{◌≡◌};
ghost use Rattle.jc_instructions.specs.ObjectTypes.{access_to, access_to_class, is_of_type, is_primitives, is_references, is_subtype, type_named};

use jc_firewall::access::Access;
use jc_frames::instr::{PrimitiveArray, TestedType};
use jc_heap::{Facts, Kind};
use jc_linker::linked::Linked;
use jc_transient::ClassWord;
use jc_world::types::{class_named, is_a, is_object_class};

/// A type that an object may have.
#[derive(Clone, Copy)]
pub enum ObjectType {
    /// A class or an interface.
    Class(ClassWord),
    /// Arrays of numbers.
    Primitives(PrimitiveArray),
    /// Arrays of references to instances of a class or an interface.
    References(ClassWord),
}

/// The type that an instruction of a package names. `None` where it names an entry of the pool that is no class.
#[tactic(auto, unfolding(crate::specs::ObjectTypes::type_named))]
pub(crate) fn type_named(
    tested: TestedType,
    linked: &Linked,
    package_number: u8,
) -> Option<ObjectType>
    ensures { result ≡ type_named tested linked.now package_number }
{
    match tested {
        TestedType::OfClass(index) => {
            let class = class_named(linked, package_number, index)?;
            Some(ObjectType::Class(class))
        }
        TestedType::OfPrimitives(elements) => Some(ObjectType::Primitives(elements)),
        TestedType::OfReferences(index) => {
            let class = class_named(linked, package_number, index)?;
            Some(ObjectType::References(class))
        }
    }
}

// Whether it is an array of these numbers.
fn is_primitives(elements: PrimitiveArray, kind: Kind) -> bool
    ensures { result ≡ is_primitives elements kind }
{
    match elements {
        PrimitiveArray::Booleans => match kind {
            Kind::BooleanArray => true,
            _ => false,
        },
        PrimitiveArray::Bytes => match kind {
            Kind::ByteArray => true,
            _ => false,
        },
        PrimitiveArray::Shorts => match kind {
            Kind::ShortArray => true,
            _ => false,
        },
    }
}

// Whether it is an array of references.
fn is_references(kind: Kind) -> bool
    ensures { result ≡ is_references kind }
{
    match kind {
        Kind::ReferenceArray => true,
        _ => false,
    }
}

// Whether instances of a class or an interface are instances of another one.
fn is_subtype(class: ClassWord, of: ClassWord, linked: &Linked) -> bool
    ensures { result ≡ is_subtype linked.now class of }
{
    is_object_class(of, linked) || linked.is_below(class, of)
}

/// Whether an object with this header is of a type.
#[tactic(auto, unfolding(crate::specs::ObjectTypes::is_of_type))]
pub(crate) fn is_of_type(object_type: &ObjectType, linked: &Linked, facts: Facts) -> bool
    ensures { result ≡ is_of_type object_type.now linked.now facts }
{
    match object_type {
        ObjectType::Class(class) => is_a(facts, *class, linked),
        ObjectType::Primitives(elements) => is_primitives(*elements, facts.kind),
        ObjectType::References(class) => {
            is_references(facts.kind) && is_subtype(facts.class(), *class, linked)
        }
    }
}

// What the firewall is asked about a test against a class or an interface.
fn access_to_class(linked: &Linked, class: ClassWord) -> Access
    ensures { result ≡ access_to_class linked.now class }
{
    if !linked.names_interface(class) {
        Access::CastToClass
    } else if linked.is_shareable(class) {
        Access::CastToShareableInterface
    } else {
        Access::CastToStandardInterface
    }
}

/// What the firewall is asked about a test against a type.
pub(crate) fn access_to(linked: &Linked, object_type: &ObjectType) -> Access
    ensures { result ≡ access_to linked.now object_type.now }
{
    match object_type {
        ObjectType::Class(class) => access_to_class(linked, *class),
        ObjectType::Primitives(_) => Access::CastToClass,
        ObjectType::References(_) => Access::CastToClass,
    }
}
