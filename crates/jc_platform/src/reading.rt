//! What the lines so far say.

ghost use Rattle.std.specs.Prelude.{◌≡◌, [], ◌∷◌, List, MatchOption, Some, map, slice_set, unwrap_or};
ghost use Rattle.jc_platform.specs.Rows.{above, class_row, has_class_token, has_method_token, is_package, may_be_class, may_be_extended, may_be_method, method_row};
ghost use Rattle.std.specs.List.{list_all};
ghost use Rattle.jc_platform.specs.Rows.{has_class, has_needed_packages, has_superclass, has_supertypes, may_be_package};
ghost use Rattle.jc_platform.specs.Rows.{allows, bytes_of, extended_row, may_be_random, package_row, random_row, row_of_line};
ghost use Rattle.jc_platform.specs.Numbers.{package_number};
ghost use Rattle.jc_platform.specs.PackedEntry.{class_entry, method_entry, package_entry, row_of_entry, row_of_kind};
ghost use Rattle.jc_platform.specs.Table.{AreThoseOf, IsMissing, has_needed_classes, has_needed_methods, has_needed_of};
ghost use Rattle.jc_platform.specs.Reading.{above_of};
ghost use Rattle.jc_platform.specs.RowValues.{class_value, method_value};
ghost use Rattle.jc_platform.specs.declared.row.Row.{Row};

use crate::lookup::{
    aids_rows, all_classes, all_packages, apdus_rows, applets_rows, ciphers_rows, class_named,
    classes_of, ec_interfaces_rows, ec_keys_rows, engines_rows, events_rows, exceptions_rows,
    key_interfaces_rows, key_pairs_rows, keys_rows, method_named, methods_of, objects_rows,
    package_with, pins_rows, rsa_interfaces_rows, rsa_keys_rows, system_rows, utilities_rows,
};
use crate::names::{
    CLASS_COUNT, METHOD_COUNT, MethodKind, PACKAGE_COUNT, PlatformClass, PlatformMethod,
    PlatformPackage,
};
use crate::row::{RANDOM_SIZE, Row, Version};
use crate::rows::{ClassRow, MethodRow};
use crate::table::Table;
use crate::words::{is_token, kind, number, random_bytes, split_once};

/// What stands above the next line.
#[derive(Drop)]
pub struct Reading {
    /// The first line allows names of the second list.
    extended: bool,
    /// The package that the next class stands in.
    home: Option<PlatformPackage>,
    /// The class that the next method stands in.
    class: Option<PlatformClass>,
    /// The package that stands first.
    first: Option<PlatformPackage>,
    versions: [Option<Version>; PACKAGE_COUNT],
    class_tokens: [Option<u8>; CLASS_COUNT],
    method_tokens: [Option<u8>; METHOD_COUNT],
    /// The bytes that random data are made from.
    random: Option<[u8; RANDOM_SIZE]>,
}

impl Reading {
    /// Before the first line.
    pub fn new() -> Self
        ensures { above_of result ≡ above [] }
    {
        Reading {
            extended: false,
            home: None,
            class: None,
            first: None,
            versions: [None; PACKAGE_COUNT],
            class_tokens: [None; CLASS_COUNT],
            method_tokens: [None; METHOD_COUNT],
            random: None,
        }
    }

    /// The row that a line gives, if it may stand here.
    pub fn row(&self, line: &[u8]) -> Option<Row>
        ensures { result ≡ row_of_line (above_of self.now) line.now }
    {
        let Some((keyword, rest)) = split_once(line, b' ') else {
            return self.extended_row(line);
        };
        let Some((second, rest)) = split_once(rest, b' ') else {
            return self.random_row(keyword, rest);
        };
        let Some((third, fourth)) = split_once(rest, b' ') else {
            if keyword == b"class".as_slice() {
                return self.class_row(second, rest);
            }
            return self.method_row(keyword, second, rest);
        };
        if split_once(fourth, b' ').is_some() {
            return None;
        }
        if keyword != b"package".as_slice() {
            return None;
        }
        self.package_row(second, third, fourth)
    }

    /// The row that an entry of a packed table gives, if it may stand here.
    pub(crate) fn entry(&self, entry: &[u8]) -> Option<Row>
        ensures { result ≡ row_of_entry (above_of self.now) entry.now }
    {
        match entry {
            [kind, number, second, third] => self.entry_of_kind(*kind, *number, *second, *third),
            _ => None,
        }
    }

    /// The row of an entry of this kind.
    fn entry_of_kind(&self, kind: u8, number: u8, second: u8, third: u8) -> Option<Row>
        ensures { result ≡ row_of_kind (above_of self.now) kind number second third }
    {
        match kind {
            0 => self.extended_entry(number, second, third),
            1 => self.package_entry(number, second, third),
            2 if third == 0 => self.class_entry(number, second),
            3 if third == 0 => self.method_entry(number, second),
            _ => None,
        }
    }

    /// The version of a package that stands above.
    fn version(&self, named: PlatformPackage) -> Option<Version>
        ensures { result ≡ (above_of self.now).version named }
    {
        self.versions[named.index()]
    }

    /// The token of a class that stands above.
    fn class_token(&self, class: PlatformClass) -> Option<u8>
        ensures { result ≡ (above_of self.now).class_token class }
    {
        self.class_tokens[class.index()]
    }

    /// The token of a method that stands above.
    fn method_token(&self, method: PlatformMethod) -> Option<u8>
        ensures { result ≡ (above_of self.now).method_token method }
    {
        self.method_tokens[method.index()]
    }

    fn extended_row(&self, word: &[u8]) -> Option<Row>
        ensures { result ≡ extended_row (above_of self.now) word.now }
    {
        if word == b"extended".as_slice() && self.may_be_extended() {
            return Some(Row::Extended);
        }
        None
    }

    fn random_row(&self, keyword: &[u8], digits: &[u8]) -> Option<Row>
        ensures { result ≡ random_row (above_of self.now) keyword.now digits.now }
    {
        if keyword != b"random".as_slice() {
            return None;
        }
        let bytes = random_bytes(digits)?;
        if !self.may_be_random() {
            return None;
        }
        Some(Row::Random(bytes))
    }

    fn package_row(&self, aid: &[u8], major: &[u8], minor: &[u8]) -> Option<Row>
        ensures { result ≡ package_row (above_of self.now) aid.now major.now minor.now }
    {
        let entry = package_with(aid)?;
        let major = number(major)?;
        let minor = number(minor)?;
        if !self.may_be_package(entry.package_id) {
            return None;
        }
        Some(Row::Package(entry.package_id, Version { major, minor }))
    }

    fn class_row(&self, token: &[u8], name: &[u8]) -> Option<Row>
        ensures { result ≡ class_row (above_of self.now) token.now name.now }
    {
        let token = number(token)?;
        let entry = class_named(name)?;
        if !self.may_be_class(&entry, token) {
            return None;
        }
        Some(Row::Class(entry.class, token))
    }

    fn method_row(&self, keyword: &[u8], token: &[u8], name: &[u8]) -> Option<Row>
        ensures { result ≡ method_row (above_of self.now) keyword.now token.now name.now }
    {
        let kind = kind(keyword)?;
        let token = number(token)?;
        let class = self.class?;
        let entry = method_named(class, kind, name)?;
        if !self.may_be_method(&entry, token) {
            return None;
        }
        Some(Row::Method(entry.method, token))
    }

    fn extended_entry(&self, number: u8, second: u8, third: u8) -> Option<Row>
        ensures { result ≡ row_of_kind (above_of self.now) 0 number second third }
    {
        if number == 0 && second == 0 && third == 0 && self.may_be_extended() {
            return Some(Row::Extended);
        }
        None
    }

    /// The package with this number.
    fn package_entry(&self, number: u8, major: u8, minor: u8) -> Option<Row>
        ensures { result ≡ package_entry (above_of self.now) number major minor }
    {
        let entry = all_packages().get(usize::from(number))?;
        if !self.may_be_package(entry.package_id) {
            return None;
        }
        Some(Row::Package(entry.package_id, Version { major, minor }))
    }

    /// The class with this number among those of the package above.
    fn class_entry(&self, number: u8, token: u8) -> Option<Row>
        ensures { result ≡ class_entry (above_of self.now) number token }
    {
        let home = self.home?;
        let entry = classes_of(home).get(usize::from(number))?;
        if !self.may_be_class(entry, token) {
            return None;
        }
        Some(Row::Class(entry.class, token))
    }

    /// The method with this number among those of the class above.
    fn method_entry(&self, number: u8, token: u8) -> Option<Row>
        ensures { result ≡ method_entry (above_of self.now) number token }
    {
        let class = self.class?;
        let entry = methods_of(class).get(usize::from(number))?;
        if !self.may_be_method(entry, token) {
            return None;
        }
        Some(Row::Method(entry.method, token))
    }

    /// The line `extended` may stand here: nothing stands above.
    fn may_be_extended(&self) -> bool
        ensures { result ≡ may_be_extended (above_of self.now) }
    {
        !self.extended && self.first.is_none()
    }

    /// The line `random` may stand here: in an extended table, and no other stands above.
    fn may_be_random(&self) -> bool
        ensures { result ≡ may_be_random (above_of self.now) }
    {
        self.extended && self.random.is_none()
    }

    /// Both packages that each table has stand above.
    fn has_needed_packages(&self) -> bool
        ensures { result ≡ has_needed_packages (above_of self.now) }
    {
        self.version(PlatformPackage::JavaLang).is_some()
            && self.version(PlatformPackage::JavacardFramework).is_some()
    }

    /// A package may stand here: it stands nowhere above, and one that not each table has stands in an extended table,
    /// after those that each has.
    fn may_be_package(&self, named: PlatformPackage) -> bool
        ensures { result ≡ may_be_package (above_of self.now) named }
    {
        self.version(named).is_none()
            && (named.is_needed() || self.extended && self.has_needed_packages())
    }

    /// The table may have a name that each table has, or, where it is extended, another.
    fn allows(&self, needed: bool) -> bool
        ensures { result ≡ allows (above_of self.now) needed }
    {
        needed || self.extended
    }

    /// A class is one that each table has, or stands above.
    fn has_class(&self, class: PlatformClass) -> bool
        ensures { result ≡ has_class (above_of self.now) class }
    {
        class.row().needed || self.class_token(class).is_some()
    }

    /// A superclass, where there is one, is one that each table has, or stands above.
    fn has_superclass(&self, superclass: Option<PlatformClass>) -> bool
        ensures { result ≡ has_superclass (above_of self.now) superclass }
    {
        match superclass {
            Some(class) => self.has_class(class),
            None => true,
        }
    }

    /// Each of these classes is one that each table has, or stands above.
    fn has_classes(&self, classes: &[PlatformClass]) -> bool
        ensures { result ≡ list_all (has_class (above_of self.now)) classes.now }
    {
        classes.iter().all(|class| self.has_class(*class))
    }

    /// The superclass of a class and its interfaces are classes that each table has, or stand above.
    fn has_supertypes(&self, class: PlatformClass) -> bool
        ensures { result ≡ has_supertypes (above_of self.now) class }
    {
        self.has_superclass(class.superclass()) && self.has_classes(class.interfaces())
    }

    /// A class may stand here: in a table that may have it, in its own package, where the table has its superclass and
    /// its interfaces, nowhere above, and with a token of its own.
    fn may_be_class(&self, entry: &ClassRow, token: u8) -> bool
        ensures { result ≡ may_be_class (above_of self.now) (class_value entry.now) token }
    {
        self.allows(entry.needed)
            && is_package(self.home, entry.home)
            && self.has_supertypes(entry.class)
            && self.class_token(entry.class).is_none()
            && !self.has_class_token(entry.home, token)
    }

    /// A method may stand here, in its own class: in a table that may have it, nowhere above, and with a token of its
    /// own that its kind may have.
    fn may_be_method(&self, entry: &MethodRow, token: u8) -> bool
        ensures { result ≡ may_be_method (above_of self.now) (method_value entry.now) token }
    {
        self.allows(entry.needed)
            && token <= entry.kind.largest_token()
            && self.method_token(entry.method).is_none()
            && !self.has_method_token(entry.class, entry.kind, token)
    }

    /// A class of the package has the token.
    fn has_class_token(&self, home: PlatformPackage, token: u8) -> bool
        ensures { result ≡ has_class_token (above_of self.now) home token }
    {
        all_classes().iter().any(|entry| {
            entry.home == home && is_token(self.class_token(entry.class), token)
        })
    }

    /// A method of the class and the kind has the token.
    fn has_method_token(&self, class: PlatformClass, kind: MethodKind, token: u8) -> bool
        ensures { result ≡ has_method_token (above_of self.now) class kind token }
    {
        methods_of(class).iter().any(|entry| {
            entry.kind.is(kind) && is_token(self.method_token(entry.method), token)
        })
    }

    /// Takes a row in.
    pub fn put(&mut self, row: Row)
        ensures { (rows : List Row) → above_of self.old ≡ above rows
            → above_of self.new ≡ above (row ∷ rows) }
    {
        match row {
            Row::Extended => self.put_extended(),
            Row::Random(bytes) => self.put_random(bytes),
            Row::Package(named, version) => self.put_package(named, version),
            Row::Class(class, token) => self.put_class(class, token),
            Row::Method(method, token) => self.put_method(method, token),
        }
    }

    fn put_extended(&mut self)
        ensures { (rows : List Row) → above_of self.old ≡ above rows
            → above_of self.new ≡ above (Row.Extended ∷ rows) }
    {
        self.extended = true;
    }

    fn put_random(&mut self, bytes: [u8; RANDOM_SIZE])
        ensures { (rows : List Row) → above_of self.old ≡ above rows
            → above_of self.new ≡ above (Row.Random bytes ∷ rows) }
    {
        self.random = Some(bytes);
    }

    fn put_package(&mut self, named: PlatformPackage, version: Version)
        ensures { (rows : List Row) → above_of self.old ≡ above rows
            → above_of self.new ≡ above (Row.Package named version ∷ rows) }
    {
        self.home = Some(named);
        self.class = None;
        self.first = Some(first_of(self.first, named));
        put_version(&mut self.versions, named, version);
    }

    fn put_class(&mut self, class: PlatformClass, token: u8)
        ensures { (rows : List Row) → above_of self.old ≡ above rows
            → above_of self.new ≡ above (Row.Class class token ∷ rows) }
    {
        self.class = Some(class);
        self.class_tokens[class.index()] = Some(token);
    }

    fn put_method(&mut self, method: PlatformMethod, token: u8)
        ensures { (rows : List Row) → above_of self.old ≡ above rows
            → above_of self.new ≡ above (Row.Method method token ∷ rows) }
    {
        self.method_tokens[method.index()] = Some(token);
    }

    /// Each class that each table has stands above.
    fn has_needed_classes(&self) -> bool
        ensures { result ≡ has_needed_classes (above_of self.now) }
    {
        all_classes().iter().all(|entry| !entry.needed || self.class_token(entry.class).is_some())
    }

    /// Each method that each table has stands above.
    fn has_needed_methods(&self) -> bool
        ensures { result ≡ has_needed_methods (above_of self.now) }
    {
        self.has_needed_of(objects_rows())
            && self.has_needed_of(exceptions_rows())
            && self.has_needed_of(utilities_rows())
            && self.has_needed_of(system_rows())
            && self.has_needed_of(aids_rows())
            && self.has_needed_of(pins_rows())
            && self.has_needed_of(applets_rows())
            && self.has_needed_of(apdus_rows())
            && self.has_needed_of(events_rows())
            && self.has_needed_of(engines_rows())
            && self.has_needed_of(keys_rows())
            && self.has_needed_of(key_interfaces_rows())
            && self.has_needed_of(ciphers_rows())
            && self.has_needed_of(rsa_keys_rows())
            && self.has_needed_of(ec_keys_rows())
            && self.has_needed_of(rsa_interfaces_rows())
            && self.has_needed_of(ec_interfaces_rows())
            && self.has_needed_of(key_pairs_rows())
    }

    /// Each of these methods that each table has stands above.
    fn has_needed_of(&self, rows: &[MethodRow]) -> bool
        ensures { result ≡ has_needed_of (above_of self.now) (map method_value rows.now) }
    {
        rows.iter().all(|entry| !entry.needed || self.method_token(entry.method).is_some())
    }

    /// The table, if every package and name that each table has stands above.
    pub(crate) fn finish(&self) -> Option<Table>
        ensures { MatchOption result (IsMissing (above_of self.now))
            (λ t. AreThoseOf (above_of self.now) t) }
    {
        let first = self.first?;
        if !self.has_needed_packages() {
            return None;
        }
        if !self.has_needed_classes() {
            return None;
        }
        if !self.has_needed_methods() {
            return None;
        }
        Some(Table::new(
            first,
            self.versions,
            self.class_tokens,
            self.method_tokens,
            self.random.unwrap_or([0; RANDOM_SIZE]),
        ))
    }
}

/// Sets the version of a package.
fn put_version(
    versions: &mut [Option<Version>; PACKAGE_COUNT],
    named: PlatformPackage,
    version: Version,
)
    ensures { versions.new ≡ slice_set versions.old (package_number named) (Some version) }
{
    versions[named.index()] = Some(version);
}

/// The package that stands first, with one more below.
fn first_of(first: Option<PlatformPackage>, named: PlatformPackage) -> PlatformPackage
    ensures { result ≡ unwrap_or first named }
{
    match first {
        Some(first) => first,
        None => named,
    }
}

/// The package is there, and it is this one.
fn is_package(found: Option<PlatformPackage>, wanted: PlatformPackage) -> bool
    ensures { result ≡ is_package found wanted }
{
    match found {
        Some(other) => other == wanted,
        None => false,
    }
}
