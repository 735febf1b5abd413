//! The records of the Class component.

use crate::class_lists::{ClassRefs, ImplementedInterfaces};
use crate::class_refs::ClassRef;
use crate::lists::U2List;

/// The flags of a record. A remote interface (ACC_REMOTE) has no record here, since it is refused.
#[derive(Clone, Copy, Drop)]
pub struct RecordFlags {
    /// ACC_INTERFACE.
    pub interface: bool,
    /// ACC_SHAREABLE: an interface that extends Shareable, or a class that implements such a one.
    pub shareable: bool,
}

/// Which of a class's declared fields hold references.
#[derive(Clone, Copy, Drop)]
pub struct ReferenceFields {
    /// The token of the first one; 255 where there is none.
    pub first_token: u8,
    /// How many there are, in consecutive fields.
    pub count: u8,
}

/// The virtual methods of a class: the public ones, and those that are visible in its package alone.
///
/// A table has the offset of each method in the Method component, by its token. Tokens below the base of a table are looked
/// up in the superclass.
#[derive(Drop)]
pub struct MethodTables<'a> {
    /// The token of the first public method.
    pub public_base: u8,
    /// The offsets of the public methods; 65535 for one that is inherited from another package's class.
    pub public_methods: U2List<'a>,
    /// The token of the first package method, without its high bit.
    pub package_base: u8,
    pub package_methods: U2List<'a>,
}

/// An interface (`interface_info` of the Java Card CAP format).
#[derive(Drop)]
pub struct InterfaceInfo<'a> {
    pub shareable: bool,
    pub superinterfaces: ClassRefs<'a>,
}

/// A class (`class_info` of the Java Card CAP format).
#[derive(Drop)]
pub struct ClassInfo<'a> {
    pub shareable: bool,
    pub superclass: ClassRef,
    /// How many cells the fields take that the class itself declares.
    pub declared_instance_size: u8,
    pub references: ReferenceFields,
    pub tables: MethodTables<'a>,
    pub interfaces: ImplementedInterfaces<'a>,
}

/// A record of the Class component.
#[derive(Drop)]
pub enum ClassRecord<'a> {
    Interface(InterfaceInfo<'a>),
    Class(ClassInfo<'a>),
}
