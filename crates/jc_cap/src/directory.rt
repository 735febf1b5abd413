//! The Directory component.
ghost use Rattle.std.specs.Prelude.{◌≡◌, ◌+◌, ◌*◌, Ok, IfOk};
ghost use Rattle.jc_cap.specs.Reading.{ParsesAs, value_of_whole, IsReadable};
ghost use Rattle.jc_cap.specs.declared.directory.Directory.{Directory};
ghost use Rattle.jc_cap.specs.Directory.{sizes_of, static_field_size_at, directory_at, IsDirectory};

use crate::customs::{CustomComponents, custom_components};
use crate::fault::CapFault;
use crate::fields::{u1, u2};
use crate::formats::Format;
use crate::lists::{U2List, u2_list};

/// What the package says of its static image (`static_field_size_info` of the Java Card CAP format).
#[derive(Clone, Copy, Drop)]
pub struct StaticFieldSize {
    /// How many bytes the static image has.
    pub image_size: u16,
    /// How many static arrays are initialised.
    pub array_init_count: u16,
    /// The sum of the byte counts of these arrays.
    pub array_init_size: u16,
}

#[tactic(auto, unfolding(crate::specs::Directory::static_field_size_at))]
fn static_field_size(bytes: &[u8]) -> Result<(StaticFieldSize, &[u8]), CapFault>
    ensures { ParsesAs (λ x. (x.0, x.1.now)) result (static_field_size_at bytes.now) }
{
    let (image_size, rest) = u2(bytes)?;
    let (array_init_count, rest) = u2(rest)?;
    let (array_init_size, rest) = u2(rest)?;
    let size = StaticFieldSize {
        image_size,
        array_init_count,
        array_init_size,
    };
    Ok((size, rest))
}

/// What the package says of its components.
#[derive(Drop)]
pub struct Directory<'a> {
    /// The sizes of the components' infos, tag 1 first; 0 where one is absent. There are eleven, in format 2.2 twelve.
    pub component_sizes: U2List<'a>,
    pub static_field_size: StaticFieldSize,
    pub import_count: u8,
    pub applet_count: u8,
    pub custom_components: CustomComponents<'a>,
}

/// How many sizes a directory has.
fn size_count(format: Format) -> u16
    ensures { result ≡ sizes_of format }
{
    match format {
        Format::V2_1 => 11,
        Format::V2_2 => 12,
    }
}

#[tactic(auto, unfolding(crate::specs::Directory::directory_at))]
fn directory_of(format: Format, bytes: &[u8]) -> Result<(Directory<'_>, &[u8]), CapFault>
    ensures { ParsesAs (λ x. (x.0, x.1.now)) result (directory_at format bytes.now) }
{
    let (component_sizes, rest) = u2_list(size_count(format), bytes)?;
    let (static_field_size, rest) = static_field_size(rest)?;
    let (import_count, rest) = u1(rest)?;
    let (applet_count, rest) = u1(rest)?;
    let (custom_count, rest) = u1(rest)?;
    let (custom_components, rest) = custom_components(custom_count, rest)?;
    let directory = Directory {
        component_sizes,
        static_field_size,
        import_count,
        applet_count,
        custom_components,
    };
    Ok((directory, rest))
}

fn whole_directory(format: Format, info: &[u8]) -> Result<Directory<'_>, CapFault>
    ensures { ParsesAs (λ y. y) result (value_of_whole (directory_at format info.now)) }
{
    let (directory, rest) = directory_of(format, info)?;
    if !rest.is_empty() {
        return Err(CapFault::Trailing);
    }
    Ok(directory)
}

/// The directory in an info.
pub fn read_directory(format: Format, info: &[u8]) -> Result<Directory<'_>, CapFault>
    // What is read stands in the info.
    ensures found { IfOk result (λ x. IsDirectory format x info.now) }
    // A directory that the info is is read.
    ensures only { (x : Directory) → IsDirectory format x info.now
        → ParsesAs (λ y. y) result (Ok x) }
    // Otherwise the fault is the first one from the left.
    ensures exact { ParsesAs (λ y. y) result (value_of_whole (directory_at format info.now)) }
{
    whole_directory(format, info)
}

/// The number that two bytes are, the high one first.
fn number(high: u8, low: u8) -> u16
    ensures { result ≡ high * 256 + low }
{
    u16::from(high) * 256 + u16::from(low)
}

impl<'a> Directory<'a> {
    /// The directory in an info which was read before in this format. Its fields are taken from their places, and nothing
    /// is tested again.
    pub fn found_in(format: Format, info: &'a [u8]) -> Directory<'a>
        requires { IsReadable (value_of_whole (directory_at format info.now)) }
        ensures { value_of_whole (directory_at format info.now) ≡ Ok result }
    {
        let count = size_count(format);
        let (_, behind) = info.split_at(2 * usize::from(count));
        match behind {
            [a, b, c, d, e, f, imports, applets, customs, rest @ ..] => Directory {
                component_sizes: U2List::found_in(count, info),
                static_field_size: StaticFieldSize {
                    image_size: number(*a, *b),
                    array_init_count: number(*c, *d),
                    array_init_size: number(*e, *f),
                },
                import_count: *imports,
                applet_count: *applets,
                custom_components: CustomComponents::found_in(*customs, rest),
            },
            _ => unreachable!(),
        }
    }
}
