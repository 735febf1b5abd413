//! What the entry of a constant pool resolves to.

use jc_cap::pool::VirtualToken;
use jc_platform::names::PlatformMethod;
use jc_transient::ClassWord;

/// A method.
#[derive(Clone, Copy)]
pub enum Method {
    /// One in bytecode: its header begins at this offset of the Method component of the package with this number.
    Code { package_number: u8, offset: u16 },
    /// One of the platform.
    Native(PlatformMethod),
}

/// What an entry of a constant pool resolves to.
#[derive(Clone, Copy)]
pub enum Target {
    /// A class or an interface.
    Class(ClassWord),
    /// A field of a class's instances: the number of its cell, and whether it holds a reference.
    InstanceField {
        class: ClassWord,
        cell: u32,
        is_reference: bool,
    },
    /// A virtual method of this class, which may be another one in a receiver's class below it.
    VirtualMethod {
        class: ClassWord,
        token: VirtualToken,
        method: Method,
    },
    /// A method of a superclass, called on an instance of this class.
    SuperMethod {
        class: ClassWord,
        method: Method,
    },
    /// A field in the static image of the package with this number, at this offset.
    StaticField {
        package_number: u8,
        offset: u16,
    },
    /// A static method, a constructor or a private method; its class, where the entry names it.
    StaticMethod {
        class: Option<ClassWord>,
        method: Method,
    },
}
