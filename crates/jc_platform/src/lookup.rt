//! Looking rows up.

ghost use Rattle.std.specs.Prelude.{◌≡◌, ◌≤◌, ◌-◌, ◌&&◌, drop, find, length, map, take};
ghost use Rattle.std.specs.Option.{option_map};
ghost use Rattle.std.specs.Str.{bytes_eq};
ghost use Rattle.jc_platform.specs.NamePlaces.{entry_of_class, entry_of_method, room_place, room_rows};
ghost use Rattle.jc_platform.specs.Names.{classes, packages};
ghost use Rattle.jc_platform.specs.Names.{objects_rows, exceptions_rows, utilities_rows, system_rows, aids_rows, pins_rows, applets_rows, apdus_rows, events_rows, engines_rows};
ghost use Rattle.jc_platform.specs.Names.{keys_rows, key_interfaces_rows, ciphers_rows};
ghost use Rattle.jc_platform.specs.Names.{rsa_keys_rows, ec_keys_rows, rsa_interfaces_rows, ec_interfaces_rows, key_pairs_rows};
ghost use Rattle.jc_platform.specs.Lookup.{rows_of};
ghost use Rattle.jc_platform.specs.Rows.{classes_of, method_named, methods_of};
ghost use Rattle.jc_platform.specs.RowValues.{class_value, method_value, package_value};

use crate::names::{MethodKind, PlatformClass, PlatformMethod, PlatformPackage};
use crate::rows::{
    AIDS, APDUS, APPLETS, CIPHERS, CLASSES, ClassRow, EC_INTERFACES, EC_KEYS, ENGINES, EVENTS,
    EXCEPTIONS, FIRST_CLASSES, KEY_INTERFACES, KEY_PAIRS, KEYS, MethodRow, OBJECTS, PACKAGES, PINS,
    PackageRow, RSA_INTERFACES, RSA_KEYS, Room, STRETCHES, SYSTEM, Stretch, UTILITIES,
};

/// Every package.
pub(crate) fn all_packages() -> &'static [PackageRow]
    ensures { map package_value result.now ≡ packages }
{
    &PACKAGES
}

/// Every class, in the order of `PlatformClass`.
pub fn all_classes() -> &'static [ClassRow]
    ensures { map class_value result.now ≡ classes }
{
    &CLASSES
}

/// The classes of a package.
pub fn classes_of(home: PlatformPackage) -> &'static [ClassRow]
    ensures { map class_value result.now ≡ classes_of home }
{
    let place = home.index();
    &all_classes()[FIRST_CLASSES[place]..FIRST_CLASSES[place + 1]]
}

/// The methods of `java.lang`.
pub(crate) fn objects_rows() -> &'static [MethodRow]
    ensures { map method_value result.now ≡ objects_rows }
{
    &OBJECTS
}

/// The methods of an exception of the card.
pub(crate) fn exceptions_rows() -> &'static [MethodRow]
    ensures { map method_value result.now ≡ exceptions_rows }
{
    &EXCEPTIONS
}

/// The methods of `Util`.
pub(crate) fn utilities_rows() -> &'static [MethodRow]
    ensures { map method_value result.now ≡ utilities_rows }
{
    &UTILITIES
}

/// The methods of `JCSystem`.
pub(crate) fn system_rows() -> &'static [MethodRow]
    ensures { map method_value result.now ≡ system_rows }
{
    &SYSTEM
}

/// The methods of `AID`.
pub(crate) fn aids_rows() -> &'static [MethodRow]
    ensures { map method_value result.now ≡ aids_rows }
{
    &AIDS
}

/// The methods of `PIN` and `OwnerPIN`.
pub(crate) fn pins_rows() -> &'static [MethodRow]
    ensures { map method_value result.now ≡ pins_rows }
{
    &PINS
}

/// The methods of `Applet`.
pub(crate) fn applets_rows() -> &'static [MethodRow]
    ensures { map method_value result.now ≡ applets_rows }
{
    &APPLETS
}

/// The methods of `APDU`.
pub(crate) fn apdus_rows() -> &'static [MethodRow]
    ensures { map method_value result.now ≡ apdus_rows }
{
    &APDUS
}

/// The methods of `MultiSelectable` and `AppletEvent`.
pub(crate) fn events_rows() -> &'static [MethodRow]
    ensures { map method_value result.now ≡ events_rows }
{
    &EVENTS
}

/// The methods of `MessageDigest`, `Checksum`, `RandomData` and `InitializedMessageDigest`.
pub(crate) fn engines_rows() -> &'static [MethodRow]
    ensures { map method_value result.now ≡ engines_rows }
{
    &ENGINES
}

/// The methods of `KeyBuilder` and the classes of keys.
pub(crate) fn keys_rows() -> &'static [MethodRow]
    ensures { map method_value result.now ≡ keys_rows }
{
    &KEYS
}

/// The methods of the interfaces of keys.
pub(crate) fn key_interfaces_rows() -> &'static [MethodRow]
    ensures { map method_value result.now ≡ key_interfaces_rows }
{
    &KEY_INTERFACES
}

/// The methods of `Cipher` and `Signature`.
pub(crate) fn ciphers_rows() -> &'static [MethodRow]
    ensures { map method_value result.now ≡ ciphers_rows }
{
    &CIPHERS
}

/// The methods of the classes of RSA keys.
pub(crate) fn rsa_keys_rows() -> &'static [MethodRow]
    ensures { map method_value result.now ≡ rsa_keys_rows }
{
    &RSA_KEYS
}

/// The methods of the classes of keys on elliptic curves.
pub(crate) fn ec_keys_rows() -> &'static [MethodRow]
    ensures { map method_value result.now ≡ ec_keys_rows }
{
    &EC_KEYS
}

/// The methods of the interfaces of public keys, of private keys and of RSA keys.
pub(crate) fn rsa_interfaces_rows() -> &'static [MethodRow]
    ensures { map method_value result.now ≡ rsa_interfaces_rows }
{
    &RSA_INTERFACES
}

/// The methods of the interfaces of keys on elliptic curves.
pub(crate) fn ec_interfaces_rows() -> &'static [MethodRow]
    ensures { map method_value result.now ≡ ec_interfaces_rows }
{
    &EC_INTERFACES
}

/// The methods of `KeyPair` and `KeyAgreement`.
pub(crate) fn key_pairs_rows() -> &'static [MethodRow]
    ensures { map method_value result.now ≡ key_pairs_rows }
{
    &KEY_PAIRS
}

impl Room {
    /// Its methods.
    pub(crate) fn rows(self) -> &'static [MethodRow]
        ensures { map method_value result.now ≡ rows_of self }
    {
        match self {
            Room::Objects => objects_rows(),
            Room::Exceptions => exceptions_rows(),
            Room::Utilities => utilities_rows(),
            Room::System => system_rows(),
            Room::Aids => aids_rows(),
            Room::Pins => pins_rows(),
            Room::Applets => applets_rows(),
            Room::Apdus => apdus_rows(),
            Room::Events => events_rows(),
            Room::Engines => engines_rows(),
            Room::Keys => keys_rows(),
            Room::KeyInterfaces => key_interfaces_rows(),
            Room::Ciphers => ciphers_rows(),
            Room::RsaKeys => rsa_keys_rows(),
            Room::EcKeys => ec_keys_rows(),
            Room::RsaInterfaces => rsa_interfaces_rows(),
            Room::EcInterfaces => ec_interfaces_rows(),
            Room::KeyPairs => key_pairs_rows(),
        }
    }
}

/// The methods of a class.
pub fn methods_of(class: PlatformClass) -> &'static [MethodRow]
    ensures { map method_value result.now ≡ methods_of class }
{
    let stretch = stretch_of(class);
    &stretch.room.rows()[stretch.first..stretch.end]
}

// Where they stand.
#[inline(always)]
fn stretch_of(class: PlatformClass) -> Stretch
    ensures order { result.first ≤ result.end }
    ensures within { result.end ≤ length (rows_of result.room) }
    ensures together { take (result.end - result.first) (drop result.first (rows_of result.room))
        ≡ methods_of class }
{
    STRETCHES[class.index()]
}

impl PlatformClass {
    /// Its row.
    #[inline(always)]
    pub(crate) fn row(self) -> &'static ClassRow
        ensures { class_value result.now ≡ entry_of_class self }
    {
        &all_classes()[self.index()]
    }
}

impl PlatformMethod {
    // The methods of its room.
    #[inline(always)]
    fn room_rows(self) -> &'static [MethodRow]
        ensures { map method_value result.now ≡ room_rows self }
    {
        match self {
            PlatformMethod::Objects(_) => objects_rows(),
            PlatformMethod::Exceptions(_) => exceptions_rows(),
            PlatformMethod::Utilities(_) => utilities_rows(),
            PlatformMethod::System(_) => system_rows(),
            PlatformMethod::Aids(_) => aids_rows(),
            PlatformMethod::Pins(_) => pins_rows(),
            PlatformMethod::Applets(_) => applets_rows(),
            PlatformMethod::Apdus(_) => apdus_rows(),
            PlatformMethod::Events(_) => events_rows(),
            PlatformMethod::Engines(_) => engines_rows(),
            PlatformMethod::Keys(_) => keys_rows(),
            PlatformMethod::KeyInterfaces(_) => key_interfaces_rows(),
            PlatformMethod::Ciphers(_) => ciphers_rows(),
            PlatformMethod::RsaKeys(_) => rsa_keys_rows(),
            PlatformMethod::EcKeys(_) => ec_keys_rows(),
            PlatformMethod::RsaInterfaces(_) => rsa_interfaces_rows(),
            PlatformMethod::EcInterfaces(_) => ec_interfaces_rows(),
            PlatformMethod::KeyPairs(_) => key_pairs_rows(),
        }
    }

    // Its place in its room.
    #[inline(always)]
    fn room_place(self) -> usize
        ensures { result ≡ room_place self }
    {
        match self {
            PlatformMethod::Objects(method) => method.index(),
            PlatformMethod::Exceptions(method) => method.index(),
            PlatformMethod::Utilities(method) => method.index(),
            PlatformMethod::System(method) => method.index(),
            PlatformMethod::Aids(method) => method.index(),
            PlatformMethod::Pins(method) => method.index(),
            PlatformMethod::Applets(method) => method.index(),
            PlatformMethod::Apdus(method) => method.index(),
            PlatformMethod::Events(method) => method.index(),
            PlatformMethod::Engines(method) => method.index(),
            PlatformMethod::Keys(method) => method.index(),
            PlatformMethod::KeyInterfaces(method) => method.index(),
            PlatformMethod::Ciphers(method) => method.index(),
            PlatformMethod::RsaKeys(method) => method.index(),
            PlatformMethod::EcKeys(method) => method.index(),
            PlatformMethod::RsaInterfaces(method) => method.index(),
            PlatformMethod::EcInterfaces(method) => method.index(),
            PlatformMethod::KeyPairs(method) => method.index(),
        }
    }

    /// Its row.
    #[inline(always)]
    pub(crate) fn row(self) -> &'static MethodRow
        ensures { method_value result.now ≡ entry_of_method self }
    {
        &self.room_rows()[self.room_place()]
    }
}

/// The package whose AID this is, in upper case hexadecimal.
pub(crate) fn package_with(aid: &[u8]) -> Option<PackageRow>
    ensures { option_map package_value result ≡ find (λ e. bytes_eq e.aid_text aid.now) packages }
{
    all_packages()
        .iter()
        .find(|entry| entry.aid_text == aid)
        .copied()
}

/// The class with this name.
pub(crate) fn class_named(name: &[u8]) -> Option<ClassRow>
    ensures { option_map class_value result ≡ find (λ e. bytes_eq e.name name.now) classes }
{
    all_classes()
        .iter()
        .find(|entry| entry.name == name)
        .copied()
}

/// The method of the class with this kind and name.
pub(crate) fn method_named(class: PlatformClass, kind: MethodKind, name: &[u8]) -> Option<MethodRow>
    ensures { option_map method_value result ≡ method_named class kind name.now }
{
    methods_of(class)
        .iter()
        .find(|entry| entry.kind.is(kind) && entry.name == name)
        .copied()
}
