//! The tags of components (virtual machine specification, 6.2).

pub const HEADER: u8 = 1;

pub const DIRECTORY: u8 = 2;

pub const APPLET: u8 = 3;

pub const IMPORT: u8 = 4;

pub const CONSTANT_POOL: u8 = 5;

pub const CLASS: u8 = 6;

pub const METHOD: u8 = 7;

pub const STATIC_FIELD: u8 = 8;

pub const REFERENCE_LOCATION: u8 = 9;

pub const EXPORT: u8 = 10;

pub const DESCRIPTOR: u8 = 11;

pub const DEBUG: u8 = 12;

/// The least tag of a custom component; the tags between Debug's and this one are no component's.
pub const FIRST_CUSTOM: u8 = 128;
