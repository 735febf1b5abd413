//! Whether the method tables of the Class component name methods.
ghost use Rattle.std.specs.Prelude.{◌≡◌};
ghost use Rattle.jc_cap.specs.ClassValues.{contents_of};
ghost use Rattle.jc_cap.specs.MethodViews.{method_parts};
ghost use Rattle.jc_cap.specs.Tables.{all_of_list, entry_fits, table_fits, record_fits, tables_fit};

use crate::class_records::ClassRecord;
use crate::classes::Classes;
use crate::lists::U2List;
use crate::methods::Methods;

/// Whether an entry is the offset of a method, or says that the method is inherited from another package.
fn entry_fits(methods: &Methods<'_>, inherits: bool, offset: u16) -> bool
    ensures { result ≡ entry_fits (method_parts methods.now) inherits offset }
{
    if inherits && offset == 65535 {
        return true;
    }
    methods.has_room(offset)
}

fn table_fits(methods: &Methods<'_>, inherits: bool, offsets: &U2List<'_>) -> bool
    ensures { result ≡ table_fits (method_parts methods.now) inherits offsets.now }
{
    for i in 0..offsets.count() {
        let offset = offsets.get(i);
        if !entry_fits(methods, inherits, offset) {
            return false;
        }
    }
    true
}

fn record_fits(methods: &Methods<'_>, contents: &ClassRecord<'_>) -> bool
    ensures { result ≡ record_fits (method_parts methods.now) contents.now }
{
    match contents {
        ClassRecord::Interface(_) => true,
        ClassRecord::Class(class) => {
            table_fits(methods, true, &class.tables.public_methods)
                && table_fits(methods, false, &class.tables.package_methods)
        }
    }
}

/// Whether each entry of both method tables of each class is the offset of a method in the Method component.
///
/// In a public table an entry may also be 65535, for a method that is inherited from another package's class.
pub fn tables_fit(methods: &Methods<'_>, classes: &Classes<'_>) -> bool
    ensures { result ≡ tables_fit (method_parts methods.now) classes.now }
{
    for number in 0..classes.count() {
        let contents = classes.get(number);
        if !record_fits(methods, &contents) {
            return false;
        }
    }
    true
}
