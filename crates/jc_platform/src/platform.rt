//! The platform's packages as other packages name them: what AIDs, numbers and tokens stand for.

ghost use Rattle.std.specs.Prelude.{◌≡◌, ◌&&◌, find};
ghost use Rattle.std.specs.Option.{option_map};
ghost use Rattle.jc_platform.specs.NamePlaces.{class_word};
ghost use Rattle.jc_platform.specs.Names.{classes, methods};
ghost use Rattle.jc_platform.specs.Numbers.{same_class, same_kind, same_package};
ghost use Rattle.jc_platform.specs.Platform.{aid_of, class_by_token, class_by_word, method_by_token, package_by_aid, package_by_number};
ghost use Rattle.jc_platform.specs.Rows.{is_token};
ghost use Rattle.jc_platform.specs.RowValues.{class_value, method_value};
ghost use Rattle.jc_platform.specs.Tokens.{method_token, number_in, token_of_class, token_of_method, version_of_package};

use crate::lookup::{classes_of, methods_of};
use crate::names::{MethodKind, PlatformClass, PlatformMethod, PlatformPackage};
use crate::row::Version;
use crate::rows::{ClassRow, MethodRow};
use crate::table::Table;
use crate::words::is_token;
use jc_transient::ClassWord;
use std::marker::Model;

/// The packages of the platform with their tokens.
#[derive(Drop)]
pub struct Platform {
    table: Table,
}

impl Model for Platform {
    ghost use Rattle.jc_platform.specs.Tokens.{Tokens};

    ghost Value = { Tokens };

    ghost view = { λ p. p.table };
}

impl PlatformPackage {
    /// Its AID.
    #[tactic(auto, unfolding(crate::specs::Platform::aid_of))]
    pub const fn aid(self) -> &'static [u8]
        ensures { result.now ≡ aid_of self }
    {
        match self {
            PlatformPackage::JavaLang => &[0xA0, 0, 0, 0, 0x62, 0, 1],
            PlatformPackage::JavacardFramework => &[0xA0, 0, 0, 0, 0x62, 1, 1],
            PlatformPackage::JavacardxApdu => &[0xA0, 0, 0, 0, 0x62, 2, 9],
            PlatformPackage::JavacardSecurity => &[0xA0, 0, 0, 0, 0x62, 1, 2],
            PlatformPackage::JavacardxCrypto => &[0xA0, 0, 0, 0, 0x62, 2, 1],
        }
    }
}

impl Platform {
    pub(crate) fn new(table: Table) -> Self
        ensures { result ≡ table }
    {
        Platform { table }
    }

    /// Another platform with the same tokens.
    pub fn copy(&self) -> Self
        ensures { result ≡ self.now }
    {
        let table = self.table.copy();
        Platform { table }
    }

    /// The table that gives the tokens.
    pub fn table(&self) -> &Table
        ensures { result.now ≡ self.now }
    {
        &self.table
    }

    /// The version of a package that the table has.
    pub fn version(&self, named: PlatformPackage) -> Option<Version>
        ensures { result ≡ version_of_package self.now named }
    {
        self.table.version(named)
    }

    /// The package with this AID, of those that the table has.
    #[tactic(auto, unfolding(crate::specs::Platform::package_by_aid))]
    pub fn package_with_aid(&self, aid: &[u8]) -> Option<PlatformPackage>
        ensures { result ≡ package_by_aid self.now aid.now }
    {
        if aid == PlatformPackage::JavaLang.aid() {
            Some(PlatformPackage::JavaLang)
        } else if aid == PlatformPackage::JavacardFramework.aid() {
            Some(PlatformPackage::JavacardFramework)
        } else if aid == PlatformPackage::JavacardxApdu.aid()
            && self.version(PlatformPackage::JavacardxApdu).is_some()
        {
            Some(PlatformPackage::JavacardxApdu)
        } else if aid == PlatformPackage::JavacardSecurity.aid()
            && self.version(PlatformPackage::JavacardSecurity).is_some()
        {
            Some(PlatformPackage::JavacardSecurity)
        } else if aid == PlatformPackage::JavacardxCrypto.aid()
            && self.version(PlatformPackage::JavacardxCrypto).is_some()
        {
            Some(PlatformPackage::JavacardxCrypto)
        } else {
            None
        }
    }

    /// The number of a package: 64 and 65 of those that each table has, in its order; 66 of `javacardx.apdu`, 67 of
    /// `javacard.security`, and 68 of `javacardx.crypto`.
    pub fn number(&self, named: PlatformPackage) -> u8
        ensures { result ≡ number_in self.now named }
    {
        self.table.package_number(named)
    }

    /// The package with this number.
    #[tactic(auto, unfolding(crate::specs::Platform::package_by_number))]
    pub fn package(&self, number: u8) -> Option<PlatformPackage>
        ensures { result ≡ package_by_number self.now number }
    {
        if number == self.number(PlatformPackage::JavaLang) {
            Some(PlatformPackage::JavaLang)
        } else if number == self.number(PlatformPackage::JavacardFramework) {
            Some(PlatformPackage::JavacardFramework)
        } else if number == self.number(PlatformPackage::JavacardxApdu) {
            Some(PlatformPackage::JavacardxApdu)
        } else if number == self.number(PlatformPackage::JavacardSecurity) {
            Some(PlatformPackage::JavacardSecurity)
        } else if number == self.number(PlatformPackage::JavacardxCrypto) {
            Some(PlatformPackage::JavacardxCrypto)
        } else {
            None
        }
    }

    /// The class as an object's header names it.
    pub fn class_word(&self, class: PlatformClass) -> ClassWord
        ensures { result ≡ class_word self.now class }
    {
        self.table.class_word(class)
    }

    /// The token of a method in its class, of those that each table has; 0 for another that the table lacks.
    pub fn method_token(&self, named: PlatformMethod) -> u8
        ensures { result ≡ method_token self.now named }
    {
        self.table.method_token(named)
    }

    /// The class of a package with this token.
    #[tactic(auto, unfolding(crate::specs::Platform::class_by_token))]
    pub fn class_by_token(&self, home: PlatformPackage, token: u8) -> Option<PlatformClass>
        ensures { result ≡ class_by_token self.now home token }
    {
        Some(self.class_entry(home, token)?.class)
    }

    /// The class that an object's header names so.
    #[tactic(auto, unfolding(crate::specs::Platform::class_by_word))]
    pub fn class_by_word(&self, word: ClassWord) -> Option<PlatformClass>
        ensures { result ≡ class_by_word self.now word }
    {
        let home = self.package((word.0 / 256) as u8)?;
        self.class_by_token(home, (word.0 % 256) as u8)
    }

    /// The method of a class with this kind and token.
    #[tactic(auto, unfolding(crate::specs::Platform::method_by_token))]
    pub fn method_by_token(
        &self,
        class: PlatformClass,
        kind: MethodKind,
        token: u8,
    ) -> Option<PlatformMethod>
        ensures { result ≡ method_by_token self.now class kind token }
    {
        Some(self.method_entry(class, kind, token)?.method)
    }

    fn class_entry(&self, home: PlatformPackage, token: u8) -> Option<ClassRow>
        ensures { option_map class_value result ≡ find
            (λ e. same_package e.home home && is_token
            (token_of_class self.now e.class) token) classes }
    {
        classes_of(home)
            .iter()
            .find(|entry| is_token(self.table.token_of_class(entry.class), token))
            .copied()
    }

    fn method_entry(&self, class: PlatformClass, kind: MethodKind, token: u8) -> Option<MethodRow>
        ensures { option_map method_value result ≡ find
            (λ e. same_class e.class class && same_kind e.kind kind && is_token
            (token_of_method self.now e.method) token) methods }
    {
        methods_of(class)
            .iter()
            .find(|entry| entry.kind.is(kind)
                && is_token(self.table.token_of_method(entry.method), token))
            .copied()
    }
}
