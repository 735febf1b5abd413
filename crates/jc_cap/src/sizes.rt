//! Whether a package's Directory component agrees with the components that came.
ghost use Rattle.std.specs.Prelude.{◌≡◌, ◌<◌};
ghost use Rattle.jc_cap.specs.Sizes.{size_of, size_if_present, directory_size_of, agrees_if_present, optional_sizes_agree, required_sizes_agree, counts_agree};
ghost use Rattle.jc_cap.specs.Sizes.{count_if_present, sizes_agree};
ghost use Rattle.jc_cap.specs.Views.{package_contents};

use crate::applets::Applets;
use crate::component::{AppletComponent, ExportComponent};
use crate::contents::Contents;
use crate::lists::U2List;
use crate::tags;
use crate::texts::PackageBytes;

fn size_of(bytes: &[u8]) -> usize
    ensures { result ≡ size_of bytes.now }
{
    bytes.len().saturating_sub(3)
}

fn size_of_applets(component: &Option<AppletComponent>) -> usize
    ensures { result ≡ size_if_present component.now }
{
    match component {
        Some(component) => size_of(component.bytes()),
        None => 0,
    }
}

fn size_of_exports(component: &Option<ExportComponent>) -> usize
    ensures { result ≡ size_if_present component.now }
{
    match component {
        Some(component) => size_of(component.bytes()),
        None => 0,
    }
}

/// The size that a directory gives for the component with this tag.
fn directory_size_of(sizes: &U2List<'_>, tag: u8) -> usize
    requires { 0 < tag }
    ensures { result ≡ directory_size_of sizes.now tag }
{
    let number = u16::from(tag);
    if number > sizes.count() {
        return 0;
    }
    sizes.get(number - 1) as usize
}

/// Whether the size of a component that came is the one that the directory gives. An absent one is not compared.
fn agrees_if_present(sizes: &U2List<'_>, tag: u8, size: Option<u16>) -> bool
    requires { 0 < tag }
    ensures { result ≡ agrees_if_present sizes.now tag size }
{
    match size {
        Some(size) => directory_size_of(sizes, tag) == size as usize,
        None => true,
    }
}

/// The sizes of the components that every package has.
fn required_sizes_agree(texts: &PackageBytes, sizes: &U2List<'_>) -> bool
    ensures { result ≡ required_sizes_agree texts.now sizes.now }
{
    directory_size_of(sizes, tags::HEADER) == size_of(texts.header.bytes())
        && directory_size_of(sizes, tags::DIRECTORY) == size_of(texts.directory.bytes())
        && directory_size_of(sizes, tags::IMPORT) == size_of(texts.imports.bytes())
        && directory_size_of(sizes, tags::CONSTANT_POOL) == size_of(texts.pool.bytes())
        && directory_size_of(sizes, tags::CLASS) == size_of(texts.classes.bytes())
        && directory_size_of(sizes, tags::METHOD) == size_of(texts.methods.bytes())
        && directory_size_of(sizes, tags::STATIC_FIELD) == size_of(texts.statics.bytes())
}

/// The sizes of the others: 0 where an Applet or an Export component is absent.
fn optional_sizes_agree(texts: &PackageBytes, sizes: &U2List<'_>) -> bool
    ensures { result ≡ optional_sizes_agree texts.now sizes.now }
{
    directory_size_of(sizes, tags::APPLET) == size_of_applets(&texts.applets)
        && directory_size_of(sizes, tags::EXPORT) == size_of_exports(&texts.exports)
        && agrees_if_present(sizes, tags::REFERENCE_LOCATION, texts.reference_location)
        && agrees_if_present(sizes, tags::DESCRIPTOR, texts.descriptor)
}

fn applet_count(applets: &Option<Applets<'_>>) -> u8
    ensures { result ≡ count_if_present applets.now }
{
    match applets {
        Some(applets) => applets.count(),
        None => 0,
    }
}

/// What the directory says of the static image, and its counts.
fn counts_agree(contents: &Contents<'_>) -> bool
    ensures { result ≡ counts_agree (package_contents contents.now) }
{
    let size = contents.directory.static_field_size;
    let statics = &contents.statics;
    size.image_size == statics.image_size
        && size.array_init_count == statics.arrays.count()
        && size.array_init_size as usize == statics.arrays.values_size()
        && contents.directory.import_count == contents.imports.count()
        && contents.directory.applet_count == applet_count(&contents.applets)
}

/// Whether what the directory says agrees with the components.
pub(crate) fn sizes_agree(texts: &PackageBytes, contents: &Contents<'_>) -> bool
    ensures { result ≡ sizes_agree texts.now (package_contents contents.now) }
{
    required_sizes_agree(texts, &contents.directory.component_sizes)
        && optional_sizes_agree(texts, &contents.directory.component_sizes)
        && counts_agree(contents)
}
