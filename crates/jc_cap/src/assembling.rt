//! A package is put together of the components that came.
ghost use Rattle.std.specs.Prelude.{◌≡◌, Ok, IfOk};
ghost use Rattle.jc_cap.specs.Reading.{ParsesAs, IsReadable};
ghost use Rattle.jc_cap.specs.KeptComponents.{IsReadAs};
ghost use Rattle.jc_cap.specs.Assembling.{required_component, flagged_component, flags_in, required_components, checked_package, assembly_of, IsPackage};
ghost use Rattle.jc_cap.specs.PackageReading.{contents_of};
ghost use Rattle.jc_cap.specs.Views.{package_contents};

use crate::component::HeaderComponent;
use crate::contents::{Contents, contents_of};
use crate::fault::CapFault;
use crate::fitting::offsets_fit;
use crate::sizes::sizes_agree;
use crate::tags;
use crate::texts::{LoadedComponents, PackageBytes};
use std::marker::Model;

fn required_component<T>(tag: u8, component: &Option<T>) -> Result<&T, CapFault>
    ensures { ParsesAs (λ x. x.now) result (required_component tag component.now) }
{
    match component {
        Some(component) => Ok(component),
        None => Err(CapFault::Missing(tag)),
    }
}

fn flagged_component<T>(tag: u8, flag: bool, component: &Option<T>) -> Result<(), CapFault>
    ensures { ParsesAs (λ _. component.now) result (flagged_component tag flag component.now) }
{
    if flag && component.is_none() {
        return Err(CapFault::Missing(tag));
    }
    Ok(())
}

/// Which components the header asks for: Export, and Applet.
fn flags_in(header: &HeaderComponent) -> (bool, bool)
    ensures { flags_in header.now ≡ Ok result }
{
    let header = header.header();
    (header.exports, header.has_applets)
}

/// Whether all components came that a package needs: Missing with the lowest tag of one that did not come.
#[tactic(auto, unfolding(crate::specs::Assembling::required_components))]
fn check_required(load: &LoadedComponents) -> Result<(), CapFault>
    ensures { IsReadAs result (required_components load.now) }
{
    let header = required_component(tags::HEADER, &load.header)?;
    required_component(tags::DIRECTORY, &load.directory)?;
    let (exports, has_applets) = flags_in(header);
    flagged_component(tags::APPLET, has_applets, &load.applets)?;
    required_component(tags::IMPORT, &load.imports)?;
    required_component(tags::CONSTANT_POOL, &load.pool)?;
    required_component(tags::CLASS, &load.classes)?;
    required_component(tags::METHOD, &load.methods)?;
    required_component(tags::STATIC_FIELD, &load.statics)?;
    flagged_component(tags::EXPORT, exports, &load.exports)
}

/// All components that a package needs, which came.
fn required_components(load: LoadedComponents) -> PackageBytes
    requires { IsReadable (required_components load) }
    ensures { required_components load ≡ Ok result }
{
    PackageBytes {
        header: load.header.unwrap(),
        directory: load.directory.unwrap(),
        applets: load.applets,
        imports: load.imports.unwrap(),
        pool: load.pool.unwrap(),
        classes: load.classes.unwrap(),
        methods: load.methods.unwrap(),
        statics: load.statics.unwrap(),
        exports: load.exports,
        reference_location: load.reference_location,
        descriptor: load.descriptor,
    }
}

/// Whether the components of a package can be read in the header's format, and agree with each other.
#[tactic(auto, unfolding(crate::specs::Assembling::checked_package))]
fn check(texts: &PackageBytes) -> Result<(), CapFault>
    ensures { ParsesAs (λ x. x) result (checked_package texts.now) }
{
    let contents = contents_of(texts)?;
    if !sizes_agree(texts, &contents) {
        return Err(CapFault::SizesDisagree);
    }
    if !offsets_fit(&contents) {
        return Err(CapFault::BadOffset);
    }
    Ok(())
}

/// A package: components that agree with each other. Each was read as it came, and what it says is found again in its bytes.
#[derive(Drop)]
pub struct Package {
    texts: PackageBytes,
}

impl Model for Package {
    ghost use Rattle.std.specs.Prelude.{◌≡◌, Ok};
    ghost use Rattle.jc_cap.specs.declared.texts.PackageBytes.{PackageBytes};
    ghost use Rattle.jc_cap.specs.Assembling.{checked_package};

    ghost Value = { PackageBytes };

    ghost view = { λ a. a.texts };

    ghost invariant = { λ a. checked_package a.texts ≡ Ok tt };
}

#[tactic(auto, unfolding(crate::specs::Assembling::assembly_of))]
fn assembled(load: LoadedComponents) -> Result<Package, CapFault>
    ensures { ParsesAs (λ x. x) result (assembly_of load) }
{
    check_required(&load)?;
    let texts = required_components(load);
    check(&texts)?;
    Ok(Package { texts })
}

impl Package {
    /// The package of the components that came. They are moved, and no memory is taken.
    ///
    /// The first of these is answered: Missing with the lowest tag of a component that every package needs, or that the
    /// header's flags ask for, and that did not come; the fault of a component that cannot be read in the header's format;
    /// SizesDisagree where the directory does not agree with them; BadOffset where an offset names no record or no method.
    pub fn of(load: LoadedComponents) -> Result<Package, CapFault>
        // What is put together is a package.
        ensures found { IfOk result (λ p. IsPackage p) }
        // It is the one of these components; otherwise the fault is the first one, in the order above.
        ensures exact { ParsesAs (λ x. x) result (assembly_of load) }
    {
        assembled(load)
    }

    /// The components' bytes.
    pub fn texts(&self) -> &PackageBytes
        ensures { result.now ≡ self.now }
    {
        &self.texts
    }

    /// What the components say. It is found again in their bytes, without a fault.
    pub fn contents(&self) -> Contents<'_>
        ensures read { contents_of self.now ≡ Ok (package_contents result) }
        ensures sound { IsPackage self.now }
    {
        match contents_of(&self.texts) {
            Ok(contents) => contents,
            Err(_) => unreachable!(),
        }
    }
}
