//! The methods of the platform's classes and interfaces of RSA and EC keys and of key pairs.

ghost use Rattle.std.specs.Prelude.{◌≡◌, ◌<◌};
ghost use Rattle.jc_platform.specs.Numbers.{rsa_keys_number, ec_keys_number, rsa_interfaces_number, ec_interfaces_number, key_pairs_number};

/// A method of a class of RSA keys.
#[derive(Clone, Copy)]
pub enum RsaKeysMethod {
    RsaKeyObjectSetModulus,
    RsaKeyObjectSetExponent,
    RsaKeyObjectGetModulus,
    RsaKeyObjectGetExponent,
    RsaPrivateCrtKeyObjectSetP,
    RsaPrivateCrtKeyObjectSetQ,
    RsaPrivateCrtKeyObjectSetDp1,
    RsaPrivateCrtKeyObjectSetDq1,
    RsaPrivateCrtKeyObjectSetPq,
    RsaPrivateCrtKeyObjectGetP,
    RsaPrivateCrtKeyObjectGetQ,
    RsaPrivateCrtKeyObjectGetDp1,
    RsaPrivateCrtKeyObjectGetDq1,
    RsaPrivateCrtKeyObjectGetPq,
}

/// A method of a class of keys on elliptic curves.
#[derive(Clone, Copy)]
pub enum EcKeysMethod {
    EcKeyObjectSetFieldFp,
    EcKeyObjectSetFieldF2m,
    EcKeyObjectSetFieldF2mOfThree,
    EcKeyObjectSetA,
    EcKeyObjectSetB,
    EcKeyObjectSetG,
    EcKeyObjectSetR,
    EcKeyObjectSetK,
    EcKeyObjectGetField,
    EcKeyObjectGetA,
    EcKeyObjectGetB,
    EcKeyObjectGetG,
    EcKeyObjectGetR,
    EcKeyObjectGetK,
    EcKeyObjectCopyDomainParametersFrom,
    EcPublicKeyObjectSetW,
    EcPublicKeyObjectGetW,
    EcPrivateKeyObjectSetS,
    EcPrivateKeyObjectGetS,
}

/// A method of an interface of public, private or RSA keys.
#[derive(Clone, Copy)]
pub enum RsaInterfacesMethod {
    PrivateKeyClearKey,
    PrivateKeyGetSize,
    PrivateKeyGetType,
    PrivateKeyIsInitialized,
    PublicKeyClearKey,
    PublicKeyGetSize,
    PublicKeyGetType,
    PublicKeyIsInitialized,
    RsaPublicKeyClearKey,
    RsaPublicKeyGetSize,
    RsaPublicKeyGetType,
    RsaPublicKeyIsInitialized,
    RsaPublicKeySetModulus,
    RsaPublicKeySetExponent,
    RsaPublicKeyGetModulus,
    RsaPublicKeyGetExponent,
    RsaPrivateKeyClearKey,
    RsaPrivateKeyGetSize,
    RsaPrivateKeyGetType,
    RsaPrivateKeyIsInitialized,
    RsaPrivateKeySetModulus,
    RsaPrivateKeySetExponent,
    RsaPrivateKeyGetModulus,
    RsaPrivateKeyGetExponent,
    RsaPrivateCrtKeyClearKey,
    RsaPrivateCrtKeyGetSize,
    RsaPrivateCrtKeyGetType,
    RsaPrivateCrtKeyIsInitialized,
    RsaPrivateCrtKeySetP,
    RsaPrivateCrtKeySetQ,
    RsaPrivateCrtKeySetDp1,
    RsaPrivateCrtKeySetDq1,
    RsaPrivateCrtKeySetPq,
    RsaPrivateCrtKeyGetP,
    RsaPrivateCrtKeyGetQ,
    RsaPrivateCrtKeyGetDp1,
    RsaPrivateCrtKeyGetDq1,
    RsaPrivateCrtKeyGetPq,
}

/// A method of an interface of keys on elliptic curves.
#[derive(Clone, Copy)]
pub enum EcInterfacesMethod {
    EcKeySetFieldFp,
    EcKeySetFieldF2m,
    EcKeySetFieldF2mOfThree,
    EcKeySetA,
    EcKeySetB,
    EcKeySetG,
    EcKeySetR,
    EcKeySetK,
    EcKeyGetField,
    EcKeyGetA,
    EcKeyGetB,
    EcKeyGetG,
    EcKeyGetR,
    EcKeyGetK,
    EcKeyCopyDomainParametersFrom,
    EcPublicKeyClearKey,
    EcPublicKeyGetSize,
    EcPublicKeyGetType,
    EcPublicKeyIsInitialized,
    EcPublicKeySetFieldFp,
    EcPublicKeySetFieldF2m,
    EcPublicKeySetFieldF2mOfThree,
    EcPublicKeySetA,
    EcPublicKeySetB,
    EcPublicKeySetG,
    EcPublicKeySetR,
    EcPublicKeySetK,
    EcPublicKeyGetField,
    EcPublicKeyGetA,
    EcPublicKeyGetB,
    EcPublicKeyGetG,
    EcPublicKeyGetR,
    EcPublicKeyGetK,
    EcPublicKeyCopyDomainParametersFrom,
    EcPublicKeySetW,
    EcPublicKeyGetW,
    EcPrivateKeyClearKey,
    EcPrivateKeyGetSize,
    EcPrivateKeyGetType,
    EcPrivateKeyIsInitialized,
    EcPrivateKeySetFieldFp,
    EcPrivateKeySetFieldF2m,
    EcPrivateKeySetFieldF2mOfThree,
    EcPrivateKeySetA,
    EcPrivateKeySetB,
    EcPrivateKeySetG,
    EcPrivateKeySetR,
    EcPrivateKeySetK,
    EcPrivateKeyGetField,
    EcPrivateKeyGetA,
    EcPrivateKeyGetB,
    EcPrivateKeyGetG,
    EcPrivateKeyGetR,
    EcPrivateKeyGetK,
    EcPrivateKeyCopyDomainParametersFrom,
    EcPrivateKeySetS,
    EcPrivateKeyGetS,
}

/// A method of `KeyPair` or `KeyAgreement`.
#[derive(Clone, Copy)]
pub enum KeyPairsMethod {
    KeyPairInit,
    KeyPairInitOfKeys,
    KeyPairGenKeyPair,
    KeyPairGetPublic,
    KeyPairGetPrivate,
    KeyAgreementGetInstance,
    KeyAgreementInit,
    KeyAgreementGenerateSecret,
    KeyAgreementGetAlgorithm,
}

/// How many methods the room `RsaKeys` has.
pub(crate) const RSA_KEYS_COUNT: usize = 14;

/// How many methods the room `EcKeys` has.
pub(crate) const EC_KEYS_COUNT: usize = 19;

/// How many methods the room `RsaInterfaces` has.
pub(crate) const RSA_INTERFACES_COUNT: usize = 38;

/// How many methods the room `EcInterfaces` has.
pub(crate) const EC_INTERFACES_COUNT: usize = 57;

/// How many methods the room `KeyPairs` has.
pub(crate) const KEY_PAIRS_COUNT: usize = 9;

impl RsaKeysMethod {
    /// Its place in its room.
    pub(crate) const fn index(self) -> usize
        ensures place { result ≡ rsa_keys_number self }
        ensures bound { result < RSA_KEYS_COUNT }
    {
        self as usize
    }
}

impl EcKeysMethod {
    /// Its place in its room.
    pub(crate) const fn index(self) -> usize
        ensures place { result ≡ ec_keys_number self }
        ensures bound { result < EC_KEYS_COUNT }
    {
        self as usize
    }
}

impl RsaInterfacesMethod {
    /// Its place in its room.
    pub(crate) const fn index(self) -> usize
        ensures place { result ≡ rsa_interfaces_number self }
        ensures bound { result < RSA_INTERFACES_COUNT }
    {
        self as usize
    }
}

impl EcInterfacesMethod {
    /// Its place in its room.
    pub(crate) const fn index(self) -> usize
        ensures place { result ≡ ec_interfaces_number self }
        ensures bound { result < EC_INTERFACES_COUNT }
    {
        self as usize
    }
}

impl KeyPairsMethod {
    /// Its place in its room.
    pub(crate) const fn index(self) -> usize
        ensures place { result ≡ key_pairs_number self }
        ensures bound { result < KEY_PAIRS_COUNT }
    {
        self as usize
    }
}
