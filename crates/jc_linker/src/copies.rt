//! Lists of components, copied.
ghost use Rattle.std.specs.Prelude.{◌≡◌, ◌≤◌, [], length, map, IfOk};
ghost use Rattle.jc_cap.specs.ClassValues.{offsets_of};
ghost use Rattle.jc_cap.specs.ComponentViews.{applet_info};
ghost use Rattle.jc_cap.specs.Views.{package_contents};
ghost use Rattle.jc_linker.specs.Outlines.{all_of, applet_of, components_of, export_of, outline_of, package_outline};

use crate::class::{LinkedClass, TokenTable};
use crate::package::{Applet, ExportedClass, LinkedPackage};
use jc_cap::applets::{AppletInfo, Applets};
use jc_cap::classes::Classes;
use jc_cap::contents::Contents;
use jc_cap::exports::{ExportedClass as Exported, Exports};
use jc_cap::lists::U2List;
use jc_transient::NO_CLASS;
use std::alloc::{AllocError, Global};

impl LinkedPackage {
    /// Copies what these contents say into a package without targets, before its classes are linked and its entries resolved. Its Method
    /// component has this info.
    pub(crate) fn outline(
        &mut self,
        alloc: Global,
        contents: &Contents<'_>,
        methods: &[u8],
    ) -> Result<(), AllocError>
        requires few { length contents.now.classes ≤ 256 }
        requires bare { self.old.targets ≡ [] }
        ensures { IfOk result (λ _. self.new ≡ package_outline
            (components_of methods.now (package_contents contents.now)) self.old.imports) }
    {
        let name = contents.header.this_package;
        self.name.aid = bytes(alloc, name.aid)?;
        self.name.minor_version = name.minor_version;
        self.name.major_version = name.major_version;
        self.classes = outlines(alloc, &contents.classes)?;
        self.exports = all_exports(alloc, &contents.exports)?;
        self.methods = bytes(alloc, methods)?;
        self.applets = all_applets(alloc, &contents.applets)?;
        self.image_size = contents.statics.image_size;
        self.image_references = contents.statics.reference_count;
        Ok(())
    }
}

/// The numbers of a list, copied.
pub fn numbers(alloc: Global, list: &U2List<'_>) -> Result<Vec<u16>, AllocError>
    ensures { IfOk result (λ copy. copy.items ≡ list.now) }
{
    let mut copy = Vec::new(alloc);
    for place in 0..list.count() {
        copy.push(list.get(place))?;
    }
    Ok(copy)
}

/// A class of which no more is known than where its record stands.
pub fn outline(alloc: Global, offset: u16) -> LinkedClass
    ensures { result ≡ outline_of offset }
{
    LinkedClass {
        offset,
        is_interface: false,
        superclass: NO_CLASS,
        interfaces: Vec::new(alloc),
        inherited_cells: 0,
        declared_cells: 0,
        first_reference: 0,
        reference_count: 0,
        public_methods: TokenTable {
            base: 0,
            offsets: Vec::new(alloc),
        },
        package_methods: TokenTable {
            base: 0,
            offsets: Vec::new(alloc),
        },
    }
}

fn outlines(alloc: Global, classes: &Classes<'_>) -> Result<Vec<LinkedClass>, AllocError>
    requires { length classes.now ≤ 256 }
    ensures copy { IfOk result (λ copy. copy.items ≡ map outline_of (offsets_of classes.now)) }
    ensures few { IfOk result (λ copy. length copy.items ≤ 256) }
{
    let mut copy = Vec::new(alloc);
    for number in 0..classes.count() {
        copy.push(outline(alloc, classes.offset(number)))?;
    }
    Ok(copy)
}

fn all_exports(
    alloc: Global,
    exports: &Option<Exports<'_>>,
) -> Result<Vec<ExportedClass>, AllocError>
    ensures { IfOk result (λ copy. copy.items ≡ map export_of (all_of exports.now)) }
{
    match exports {
        Some(exports) => copied_exports(alloc, exports),
        None => Ok(Vec::new(alloc)),
    }
}

fn copied_exports(alloc: Global, exports: &Exports<'_>) -> Result<Vec<ExportedClass>, AllocError>
    ensures { IfOk result (λ copy. copy.items ≡ map export_of exports.now) }
{
    let mut copy = Vec::new(alloc);
    for token in 0..exports.count() {
        let export = copied_export(alloc, &exports.get(token))?;
        copy.push(export)?;
    }
    Ok(copy)
}

fn copied_export(alloc: Global, exported: &Exported<'_>) -> Result<ExportedClass, AllocError>
    ensures { IfOk result (λ copy. copy ≡ export_of exported.now) }
{
    Ok(ExportedClass {
        class_offset: exported.class_offset,
        field_offsets: numbers(alloc, &exported.static_field_offsets)?,
        method_offsets: numbers(alloc, &exported.static_method_offsets)?,
    })
}

fn all_applets(alloc: Global, applets: &Option<Applets<'_>>) -> Result<Vec<Applet>, AllocError>
    ensures { IfOk result (λ copy. copy.items ≡ map applet_of (all_of applets.now)) }
{
    match applets {
        Some(applets) => copied_applets(alloc, applets),
        None => Ok(Vec::new(alloc)),
    }
}

fn copied_applets(alloc: Global, applets: &Applets<'_>) -> Result<Vec<Applet>, AllocError>
    ensures { IfOk result (λ copy. copy.items ≡ map applet_of applets.now) }
{
    let mut copy = Vec::new(alloc);
    for entry in 0..applets.count() {
        let applet = copied_applet(alloc, applets.get(entry))?;
        copy.push(applet)?;
    }
    Ok(copy)
}

fn copied_applet(alloc: Global, info: AppletInfo<'_>) -> Result<Applet, AllocError>
    ensures { IfOk result (λ copy. copy ≡ applet_of (applet_info info.entry)) }
{
    Ok(Applet {
        aid: bytes(alloc, info.aid)?,
        install_offset: info.install_method_offset,
    })
}

/// Bytes, copied.
pub fn bytes(alloc: Global, lent: &[u8]) -> Result<Vec<u8>, AllocError>
    ensures { IfOk result (λ copy. copy.items ≡ lent.now) }
{
    let copy = lent.to_vec(alloc)?;
    Ok(copy)
}
