//! The Header component.
ghost use Rattle.std.specs.Prelude.{◌≡◌, Ok, IfOk};
ghost use Rattle.jc_cap.specs.Reading.{ParsesAs, value_of_whole, IsReadable};
ghost use Rattle.jc_cap.specs.Header.{HeaderValue, magic_at, format_of, version_at, flags_at, name_at, header_at, IsHeader};
ghost use Rattle.jc_cap.specs.ComponentViews.{head};

use crate::fault::CapFault;
use crate::fields::{run, u1};
use crate::formats::Format;
use crate::packages::{PackageInfo, package_info};

/// What a package says of itself. That it does without int is checked as it is read.
#[derive(Clone, Copy, Drop)]
pub struct Header<'a> {
    /// The format of its components.
    pub format: Format,
    /// It has an Export component (ACC_EXPORT).
    pub exports: bool,
    /// It has an Applet component (ACC_APPLET).
    pub has_applets: bool,
    /// The package's own version and AID.
    pub this_package: PackageInfo<'a>,
    /// The package's name, which is not looked at; empty in format 2.1, which has none.
    pub name: &'a [u8],
}

/// The bytes after the magic number.
fn after_magic(bytes: &[u8]) -> Result<&[u8], CapFault>
    ensures { ParsesAs (λ x. x.now) result (magic_at bytes.now) }
{
    match bytes {
        [a, b, c, d, rest @ ..] => {
            if *a != 0xDE {
                return Err(CapFault::BadMagic);
            }
            if *b != 0xCA {
                return Err(CapFault::BadMagic);
            }
            if *c != 0xFF {
                return Err(CapFault::BadMagic);
            }
            if *d != 0xED {
                return Err(CapFault::BadMagic);
            }
            Ok(rest)
        }
        _ => Err(CapFault::Truncated),
    }
}

/// The format with this minor version; the major version of all is 2.
fn format_of(minor: u8) -> Result<Format, CapFault>
    ensures { ParsesAs (λ x. x) result (format_of minor) }
{
    match minor {
        1 => Ok(Format::V2_1),
        2 => Ok(Format::V2_2),
        _ => Err(CapFault::BadVersion),
    }
}

/// The format.
#[tactic(auto, unfolding(crate::specs::Header::version_at))]
fn version(bytes: &[u8]) -> Result<(Format, &[u8]), CapFault>
    ensures { ParsesAs (λ x. (x.0, x.1.now)) result (version_at bytes.now) }
{
    let (minor, rest) = u1(bytes)?;
    let format = format_of(minor)?;
    let (major, rest) = u1(rest)?;
    if major != 2 {
        return Err(CapFault::BadVersion);
    }
    Ok((format, rest))
}

/// Whether the package exports, and whether it has applets.
#[tactic(auto, unfolding(crate::specs::Header::flags_at))]
fn flags(bytes: &[u8]) -> Result<((bool, bool), &[u8]), CapFault>
    ensures { ParsesAs (λ x. (x.0, x.1.now)) result (flags_at bytes.now) }
{
    let (flags, rest) = u1(bytes)?;
    if flags % 2 == 1 {
        return Err(CapFault::UsesInt);
    }
    if flags > 7 {
        return Err(CapFault::BadOffset);
    }
    let exports = flags / 2 % 2 == 1;
    let has_applets = flags > 3;
    Ok(((exports, has_applets), rest))
}

/// The package's name after its length, which format 2.2 alone has.
#[tactic(auto, unfolding(crate::specs::Header::name_at))]
fn name(format: Format, bytes: &[u8]) -> Result<(&[u8], &[u8]), CapFault>
    ensures { ParsesAs (λ x. (x.0.now, x.1.now)) result (name_at format bytes.now) }
{
    match format {
        Format::V2_1 => Ok((&[], bytes)),
        Format::V2_2 => {
            let (count, rest) = u1(bytes)?;
            run(count as usize, rest)
        }
    }
}

#[tactic(auto, unfolding(crate::specs::Header::header_at))]
fn header_of(bytes: &[u8]) -> Result<(Header<'_>, &[u8]), CapFault>
    ensures { ParsesAs (λ x. (head x.0, x.1.now)) result (header_at bytes.now) }
{
    let rest = after_magic(bytes)?;
    let (format, rest) = version(rest)?;
    let ((exports, has_applets), rest) = flags(rest)?;
    let (this_package, rest) = package_info(rest)?;
    let (name, rest) = name(format, rest)?;
    let header = Header {
        format,
        exports,
        has_applets,
        this_package,
        name,
    };
    Ok((header, rest))
}

fn whole_header(info: &[u8]) -> Result<Header<'_>, CapFault>
    ensures { ParsesAs head result (value_of_whole (header_at info.now)) }
{
    let (header, rest) = header_of(info)?;
    if !rest.is_empty() {
        return Err(CapFault::Trailing);
    }
    Ok(header)
}

/// The header in an info. It states its format.
pub fn read_header(info: &[u8]) -> Result<Header<'_>, CapFault>
    // What is read stands in the info.
    ensures found { IfOk result (λ x. IsHeader (head x) info.now) }
    // A header that the info is is read.
    ensures only { (x : HeaderValue) → IsHeader x info.now → ParsesAs head result (Ok x) }
    // Otherwise the fault is the first one from the left.
    ensures exact { ParsesAs head result (value_of_whole (header_at info.now)) }
{
    whole_header(info)
}

/// The format with this minor version, which is known.
fn format_found(minor: u8) -> Format
    requires { IsReadable (format_of minor) }
    ensures { format_of minor ≡ Ok result }
{
    match minor {
        1 => Format::V2_1,
        _ => Format::V2_2,
    }
}

/// The name after the package's version and AID.
fn name_found(format: Format, bytes: &[u8]) -> &[u8]
    requires { IsReadable (value_of_whole (name_at format bytes.now)) }
    ensures { value_of_whole (name_at format bytes.now) ≡ Ok result.now }
{
    match format {
        Format::V2_1 => &[],
        Format::V2_2 => {
            let (_, name) = bytes.split_at(1);
            name
        }
    }
}

impl<'a> Header<'a> {
    /// The header in an info which was read before. Its fields are taken from their places, and nothing is tested again.
    pub fn found_in(info: &'a [u8]) -> Header<'a>
        requires { IsReadable (value_of_whole (header_at info.now)) }
        ensures { value_of_whole (header_at info.now) ≡ Ok (head result) }
    {
        match info {
            [
                _,
                _,
                _,
                _,
                minor,
                _,
                flags,
                minor_version,
                major_version,
                size,
                rest @ ..,
            ] => {
                let format = format_found(*minor);
                let (aid, behind) = rest.split_at(*size as usize);
                Header {
                    format,
                    exports: *flags / 2 % 2 == 1,
                    has_applets: *flags > 3,
                    this_package: PackageInfo {
                        minor_version: *minor_version,
                        major_version: *major_version,
                        aid,
                    },
                    name: name_found(format, behind),
                }
            }
            _ => unreachable!(),
        }
    }
}
