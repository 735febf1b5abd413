//! The platform table.

ghost use Rattle.std.specs.Prelude.{◌≡◌};
ghost use Rattle.jc_platform.specs.NamePlaces.{class_word};
ghost use Rattle.jc_platform.specs.Tokens.{Tokens, class_token, method_token, number_in, token_of_class, token_of_method, version_of_package};

use crate::names::{
    CLASS_COUNT, METHOD_COUNT, PACKAGE_COUNT, PlatformClass, PlatformMethod, PlatformPackage,
};
use crate::platform::Platform;
use crate::row::{RANDOM_SIZE, Version};
use jc_transient::ClassWord;
use std::marker::Model;

/// The tokens of the platform's classes and methods that stand in it, and its packages' versions and order.
#[derive(Drop)]
pub struct Table {
    /// The package that stands first.
    first: PlatformPackage,
    versions: [Option<Version>; PACKAGE_COUNT],
    class_tokens: [Option<u8>; CLASS_COUNT],
    method_tokens: [Option<u8>; METHOD_COUNT],
    random: [u8; RANDOM_SIZE],
}

impl Model for Table {
    ghost Value = { Tokens };

    ghost view = { λ t. record {
      first = t.first;
      versions = t.versions;
      class_tokens = t.class_tokens;
      method_tokens = t.method_tokens;
      random = t.random;
    } };
}

impl Table {
    /// The number of the package that stands first; that of the other one that each table has is the next.
    pub const FIRST_PACKAGE: u8 = 64;

    pub(crate) fn new(
        first: PlatformPackage,
        versions: [Option<Version>; PACKAGE_COUNT],
        class_tokens: [Option<u8>; CLASS_COUNT],
        method_tokens: [Option<u8>; METHOD_COUNT],
        random: [u8; RANDOM_SIZE],
    ) -> Self
        ensures { result ≡ record {
          first = first;
          versions = versions;
          class_tokens = class_tokens;
          method_tokens = method_tokens;
          random = random;
        } }
    {
        Table {
            first,
            versions,
            class_tokens,
            method_tokens,
            random,
        }
    }

    /// Another table with the same tokens.
    pub(crate) fn copy(&self) -> Self
        ensures { result ≡ self.now }
    {
        Table {
            first: self.first,
            versions: self.versions,
            class_tokens: self.class_tokens,
            method_tokens: self.method_tokens,
            random: self.random,
        }
    }

    /// The token of a class that the table has, by which packages name it.
    pub fn token_of_class(&self, class: PlatformClass) -> Option<u8>
        ensures { result ≡ token_of_class self.now class }
    {
        self.class_tokens[class.index()]
    }

    /// The token of a method that the table has, among those of its class and kind.
    pub fn token_of_method(&self, method: PlatformMethod) -> Option<u8>
        ensures { result ≡ token_of_method self.now method }
    {
        self.method_tokens[method.index()]
    }

    /// The token of a class, of those that each table has; 0 for another that the table lacks. It is the class's number
    /// in its package too.
    pub fn class_token(&self, class: PlatformClass) -> u8
        ensures { result ≡ class_token self.now class }
    {
        self.token_of_class(class).unwrap_or(0)
    }

    /// The token of a method, of those that each table has; 0 for another that the table lacks.
    pub fn method_token(&self, method: PlatformMethod) -> u8
        ensures { result ≡ method_token self.now method }
    {
        self.token_of_method(method).unwrap_or(0)
    }

    /// The version of a package that the table has.
    pub fn version(&self, named: PlatformPackage) -> Option<Version>
        ensures { result ≡ version_of_package self.now named }
    {
        self.versions[named.index()]
    }

    /// The bytes that random data are made from: those of the line `random`, else zeros.
    pub fn random(&self) -> &[u8; RANDOM_SIZE]
        ensures { result.now ≡ self.now.random }
    {
        &self.random
    }

    /// The number of a package: 64 and 65 of those that each table has, in its order; 66 of `javacardx.apdu`, 67 of
    /// `javacard.security`, and 68 of `javacardx.crypto`.
    pub fn package_number(&self, named: PlatformPackage) -> u8
        ensures { result ≡ number_in self.now named }
    {
        match named {
            PlatformPackage::JavacardxApdu => Self::FIRST_PACKAGE + 2,
            PlatformPackage::JavacardSecurity => Self::FIRST_PACKAGE + 3,
            PlatformPackage::JavacardxCrypto => Self::FIRST_PACKAGE + 4,
            _ if named == self.first => Self::FIRST_PACKAGE,
            _ => Self::FIRST_PACKAGE + 1,
        }
    }

    /// The class as an object's header names it: the number of its package times 256, and its token; of a class that the table
    /// lacks a word that names none.
    pub fn class_word(&self, class: PlatformClass) -> ClassWord
        ensures { result ≡ class_word self.now class }
    {
        let number = u16::from(self.package_number(class.home()));
        match self.token_of_class(class) {
            Some(token) => ClassWord(256 * number + u16::from(token)),
            None => ClassWord(u16::MAX),
        }
    }

    /// The packages of the platform, as other packages name them.
    pub fn platform(&self) -> Platform
        ensures { result ≡ self.now }
    {
        let table = Table::new(
            self.first,
            self.versions,
            self.class_tokens,
            self.method_tokens,
            self.random,
        );
        Platform::new(table)
    }
}
