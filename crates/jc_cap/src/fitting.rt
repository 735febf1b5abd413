//! Whether the offsets of a package's components name records and methods.
ghost use Rattle.std.specs.Prelude.{◌≡◌};
ghost use Rattle.jc_cap.specs.Fitting.{all_if_present, class_fits, method_fits, entry_fits, applet_fits, export_fits, offsets_fit};
ghost use Rattle.jc_cap.specs.Views.{package_contents};
ghost use Rattle.jc_cap.specs.MethodReading.{has_room};
ghost use Rattle.jc_cap.specs.Tables.{all_of_list};
ghost use Rattle.jc_cap.specs.MethodViews.{method_parts};

use crate::applets::Applets;
use crate::class_refs::ClassRef;
use crate::classes::Classes;
use crate::contents::Contents;
use crate::exports::{ExportedClass, Exports};
use crate::lists::U2List;
use crate::methods::Methods;
use crate::pool::{ConstantPool, Entry, StaticRef};
use crate::tables::tables_fit;

fn all_methods(methods: &Methods<'_>, offsets: &U2List<'_>) -> bool
    ensures { result ≡ all_of_list (has_room (method_parts methods.now)) offsets.now }
{
    for i in 0..offsets.count() {
        let offset = offsets.get(i);
        if !methods.has_room(offset) {
            return false;
        }
    }
    true
}

fn class_fits(classes: &Classes<'_>, class: ClassRef) -> bool
    ensures { result ≡ class_fits classes.now class }
{
    match class {
        ClassRef::Internal(offset) => classes.begins_record(offset),
        ClassRef::External { .. } => true,
    }
}

fn method_fits(methods: &Methods<'_>, method: StaticRef) -> bool
    ensures { result ≡ method_fits (method_parts methods.now) method }
{
    match method {
        StaticRef::Internal(offset) => methods.has_room(offset),
        StaticRef::External { .. } => true,
    }
}

fn entry_fits(classes: &Classes<'_>, methods: &Methods<'_>, entry: Entry) -> bool
    ensures { result ≡ entry_fits classes.now (method_parts methods.now) entry }
{
    match entry {
        Entry::Class(class) => class_fits(classes, class),
        Entry::InstanceField { class, .. } => class_fits(classes, class),
        Entry::VirtualMethod { class, .. } => class_fits(classes, class),
        Entry::SuperMethod { class, .. } => class_fits(classes, class),
        Entry::StaticField(_) => true,
        Entry::StaticMethod(method) => method_fits(methods, method),
    }
}

fn pool_fits(pool: &ConstantPool<'_>, classes: &Classes<'_>, methods: &Methods<'_>) -> bool
    ensures { result ≡ all_of_list (entry_fits classes.now (method_parts methods.now)) pool.now }
{
    for i in 0..pool.count() {
        let entry = pool.get(i);
        if !entry_fits(classes, methods, entry) {
            return false;
        }
    }
    true
}

fn applets_fit(applets: &Applets<'_>, methods: &Methods<'_>) -> bool
    ensures { result ≡ all_of_list (applet_fits (method_parts methods.now)) applets.now }
{
    match applets.split_first() {
        None => true,
        Some((applet, others)) => {
            methods.has_room(applet.install_method_offset) && applets_fit(&others, methods)
        }
    }
}

fn export_fits(exported: &ExportedClass<'_>, classes: &Classes<'_>, methods: &Methods<'_>) -> bool
    ensures { result ≡ export_fits classes.now (method_parts methods.now) exported.now }
{
    classes.begins_record(exported.class_offset)
        && all_methods(methods, &exported.static_method_offsets)
}

fn exports_fit(exports: &Exports<'_>, classes: &Classes<'_>, methods: &Methods<'_>) -> bool
    ensures { result ≡ all_of_list (export_fits classes.now (method_parts methods.now))
        exports.now }
{
    match exports.split_first() {
        None => true,
        Some((exported, others)) => {
            export_fits(&exported, classes, methods) && exports_fit(&others, classes, methods)
        }
    }
}

fn applets_there_fit(applets: &Option<Applets<'_>>, methods: &Methods<'_>) -> bool
    ensures { result ≡ all_if_present (applet_fits (method_parts methods.now)) applets.now }
{
    match applets {
        Some(applets) => applets_fit(applets, methods),
        None => true,
    }
}

fn exports_there_fit(
    exports: &Option<Exports<'_>>,
    classes: &Classes<'_>,
    methods: &Methods<'_>,
) -> bool
    ensures { result ≡ all_if_present (export_fits classes.now (method_parts methods.now))
        exports.now }
{
    match exports {
        Some(exports) => exports_fit(exports, classes, methods),
        None => true,
    }
}

/// Whether each Class offset names a record and each Method offset a method.
pub(crate) fn offsets_fit(contents: &Contents<'_>) -> bool
    ensures { result ≡ offsets_fit (package_contents contents.now) }
{
    applets_there_fit(&contents.applets, &contents.methods)
        && pool_fits(&contents.pool, &contents.classes, &contents.methods)
        && tables_fit(&contents.methods, &contents.classes)
        && exports_there_fit(&contents.exports, &contents.classes, &contents.methods)
}
