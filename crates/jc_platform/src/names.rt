//! The names of the platform: its packages, classes and methods.

ghost use Rattle.std.specs.Prelude.{◌≡◌, ◌<◌};
ghost use Rattle.jc_platform.specs.Numbers.{class_number, kind_number, method_number, package_number, same_class, same_kind, same_package};
ghost use Rattle.jc_platform.specs.Numbers.{objects_number, exceptions_number, utilities_number, system_number, aids_number, pins_number, applets_number, apdus_number, events_number};
ghost use Rattle.jc_platform.specs.Numbers.{engines_number, keys_number, key_interfaces_number, ciphers_number, is_needed_package};
ghost use Rattle.jc_platform.specs.Rows.{largest_token};

use crate::key_methods::{
    EC_INTERFACES_COUNT, EC_KEYS_COUNT, EcInterfacesMethod, EcKeysMethod, KEY_PAIRS_COUNT,
    KeyPairsMethod, RSA_INTERFACES_COUNT, RSA_KEYS_COUNT, RsaInterfacesMethod, RsaKeysMethod,
};

/// A package of the platform.
#[derive(Clone, Copy, PartialEq, Eq)]
pub enum PlatformPackage {
    /// `java.lang`
    JavaLang,
    /// `javacard.framework`
    JavacardFramework,
    /// `javacardx.apdu`, which an extended table may have
    JavacardxApdu,
    /// `javacard.security`, which an extended table may have
    JavacardSecurity,
    /// `javacardx.crypto`, which an extended table may have
    JavacardxCrypto,
}

/// A class or an interface of the platform, in Rust's spelling of its name: `Pin` is `PIN`.
#[derive(Clone, Copy, PartialEq, Eq)]
pub enum PlatformClass {
    Object,
    Throwable,
    Exception,
    RuntimeException,
    IndexOutOfBoundsException,
    ArithmeticException,
    ArrayIndexOutOfBoundsException,
    ArrayStoreException,
    ClassCastException,
    NegativeArraySizeException,
    NullPointerException,
    SecurityException,
    Shareable,
    Pin,
    Applet,
    Apdu,
    Aid,
    JcSystem,
    Util,
    OwnerPin,
    CardException,
    CardRuntimeException,
    IsoException,
    PinException,
    SystemException,
    TransactionException,
    ApduException,
    UserException,
    Iso7816,
    MultiSelectable,
    AppletEvent,
    ExtendedLength,
    CryptoException,
    MessageDigest,
    Checksum,
    RandomData,
    InitializedMessageDigest,
    Key,
    SecretKey,
    DesKey,
    AesKey,
    HmacKey,
    KeyBuilder,
    KeyObject,
    DesKeyObject,
    AesKeyObject,
    HmacKeyObject,
    Signature,
    PrivateKey,
    PublicKey,
    RsaPublicKey,
    RsaPrivateKey,
    RsaPrivateCrtKey,
    EcKey,
    EcPublicKey,
    EcPrivateKey,
    KeyPair,
    KeyAgreement,
    RsaKeyObject,
    RsaPublicKeyObject,
    RsaPrivateKeyObject,
    RsaPrivateCrtKeyObject,
    EcKeyObject,
    EcPublicKeyObject,
    EcPrivateKeyObject,
    Cipher,
}

/// What kind of method a name stands for. Constructors are static here, as their tokens are.
#[derive(Clone, Copy)]
pub enum MethodKind {
    Static,
    Virtual,
    Interface,
}

/// A method of `java.lang`.
#[derive(Clone, Copy)]
pub enum ObjectsMethod {
    ObjectInit,
    ObjectEquals,
    ThrowableInit,
    ExceptionInit,
    RuntimeExceptionInit,
    IndexOutOfBoundsExceptionInit,
    ArithmeticExceptionInit,
    ArrayIndexOutOfBoundsExceptionInit,
    ArrayStoreExceptionInit,
    ClassCastExceptionInit,
    NegativeArraySizeExceptionInit,
    NullPointerExceptionInit,
    SecurityExceptionInit,
}

/// A method of an exception of the card.
#[derive(Clone, Copy)]
pub enum ExceptionsMethod {
    CardExceptionInit,
    CardExceptionThrowIt,
    CardExceptionGetReason,
    CardExceptionSetReason,
    CardRuntimeExceptionInit,
    CardRuntimeExceptionThrowIt,
    CardRuntimeExceptionGetReason,
    CardRuntimeExceptionSetReason,
    IsoExceptionInit,
    IsoExceptionThrowIt,
    PinExceptionInit,
    PinExceptionThrowIt,
    SystemExceptionInit,
    SystemExceptionThrowIt,
    TransactionExceptionInit,
    TransactionExceptionThrowIt,
    ApduExceptionInit,
    ApduExceptionThrowIt,
    UserExceptionInit,
    UserExceptionThrowIt,
    UserExceptionInitWithoutReason,
    CryptoExceptionInit,
    CryptoExceptionThrowIt,
}

/// A method of `Util`.
#[derive(Clone, Copy)]
pub enum UtilitiesMethod {
    UtilArrayCompare,
    UtilArrayCopy,
    UtilGetShort,
    UtilMakeShort,
    UtilSetShort,
    UtilArrayFill,
    UtilArrayCopyNonAtomic,
    UtilArrayFillNonAtomic,
}

/// A method of `JCSystem`.
#[derive(Clone, Copy)]
pub enum SystemMethod {
    JcSystemAbortTransaction,
    JcSystemBeginTransaction,
    JcSystemCommitTransaction,
    JcSystemGetAid,
    JcSystemGetAppletShareableInterfaceObject,
    JcSystemGetMaxCommitCapacity,
    JcSystemGetPreviousContextAid,
    JcSystemGetTransactionDepth,
    JcSystemGetUnusedCommitCapacity,
    JcSystemIsTransient,
    JcSystemLookupAid,
    JcSystemMakeTransientBooleanArray,
    JcSystemMakeTransientByteArray,
    JcSystemMakeTransientObjectArray,
    JcSystemMakeTransientShortArray,
    JcSystemGetVersion,
    JcSystemGetAvailableMemory,
    JcSystemGetAvailableMemoryShorts,
    JcSystemRequestObjectDeletion,
    JcSystemIsObjectDeletionSupported,
    JcSystemIsAppletActive,
    JcSystemGetAssignedChannel,
}

/// A method of `AID`.
#[derive(Clone, Copy)]
pub enum AidsMethod {
    AidInit,
    AidEquals,
    AidEqualsBytes,
    AidGetBytes,
    AidRidEquals,
    AidPartialEquals,
    AidGetPartialBytes,
}

/// A method of `PIN` or `OwnerPIN`.
#[derive(Clone, Copy)]
pub enum PinsMethod {
    PinCheck,
    PinGetTriesRemaining,
    PinIsValidated,
    PinReset,
    OwnerPinInit,
    OwnerPinCheck,
    OwnerPinGetTriesRemaining,
    OwnerPinIsValidated,
    OwnerPinReset,
    OwnerPinResetAndUnblock,
    OwnerPinUpdate,
    OwnerPinGetValidatedFlag,
    OwnerPinSetValidatedFlag,
}

/// A method of `Applet`.
#[derive(Clone, Copy)]
pub enum AppletsMethod {
    AppletInit,
    AppletDeselect,
    AppletGetShareableInterfaceObject,
    AppletRegister,
    AppletRegisterBytes,
    AppletSelect,
    AppletSelectingApplet,
    AppletProcess,
    AppletReSelectingApplet,
}

/// A method of `APDU`.
#[derive(Clone, Copy)]
pub enum ApdusMethod {
    ApduGetBuffer,
    ApduReceiveBytes,
    ApduSendBytes,
    ApduSetIncomingAndReceive,
    ApduSetOutgoing,
    ApduSetOutgoingAndSend,
    ApduSetOutgoingLength,
    ApduGetIncomingLength,
    ApduGetOffsetCdata,
    ApduSendBytesLong,
    ApduGetCurrentState,
    ApduGetProtocol,
    ApduGetNad,
    ApduGetClaChannel,
    ApduGetInBlockSize,
    ApduGetOutBlockSize,
    ApduIsIsoInterindustryCla,
    ApduIsCommandChainingCla,
    ApduIsSecureMessagingCla,
    ApduIsValidCla,
    ApduSetOutgoingNoChaining,
    ApduWaitExtension,
    ApduGetCurrentApdu,
    ApduGetCurrentApduBuffer,
}

/// A method of `MultiSelectable` or `AppletEvent`.
#[derive(Clone, Copy)]
pub enum EventsMethod {
    MultiSelectableSelect,
    MultiSelectableDeselect,
    AppletEventUninstall,
}

/// A method of `MessageDigest`, `Checksum`, `RandomData` or `InitializedMessageDigest`.
#[derive(Clone, Copy)]
pub enum EnginesMethod {
    MessageDigestGetInstance,
    MessageDigestGetAlgorithm,
    MessageDigestGetLength,
    MessageDigestUpdate,
    MessageDigestDoFinal,
    MessageDigestReset,
    MessageDigestGetInitializedMessageDigestInstance,
    ChecksumGetInstance,
    ChecksumGetAlgorithm,
    ChecksumInit,
    ChecksumUpdate,
    ChecksumDoFinal,
    RandomDataGetInstance,
    RandomDataGenerateData,
    RandomDataNextBytes,
    RandomDataSetSeed,
    RandomDataGetAlgorithm,
    InitializedMessageDigestSetInitialDigest,
}

/// A method of `KeyBuilder` or the class of a key.
#[derive(Clone, Copy)]
pub enum KeysMethod {
    KeyBuilderBuildKey,
    KeyObjectClearKey,
    KeyObjectGetSize,
    KeyObjectGetType,
    KeyObjectIsInitialized,
    KeyObjectGetKey,
    KeyObjectSetKey,
    HmacKeyObjectSetKey,
}

/// A method of an interface of keys.
#[derive(Clone, Copy)]
pub enum KeyInterfacesMethod {
    KeyClearKey,
    KeyGetSize,
    KeyGetType,
    KeyIsInitialized,
    SecretKeyClearKey,
    SecretKeyGetSize,
    SecretKeyGetType,
    SecretKeyIsInitialized,
    DesKeyClearKey,
    DesKeyGetSize,
    DesKeyGetType,
    DesKeyIsInitialized,
    DesKeyGetKey,
    DesKeySetKey,
    AesKeyClearKey,
    AesKeyGetSize,
    AesKeyGetType,
    AesKeyIsInitialized,
    AesKeyGetKey,
    AesKeySetKey,
    HmacKeyClearKey,
    HmacKeyGetSize,
    HmacKeyGetType,
    HmacKeyIsInitialized,
    HmacKeyGetKey,
    HmacKeySetKey,
}

/// A method of `Cipher` or `Signature`.
#[derive(Clone, Copy)]
pub enum CiphersMethod {
    CipherGetInstance,
    CipherGetInstanceOfCipherAndPadding,
    CipherInit,
    CipherInitWithVector,
    CipherUpdate,
    CipherDoFinal,
    CipherGetAlgorithm,
    CipherGetCipherAlgorithm,
    CipherGetPaddingAlgorithm,
    SignatureGetInstance,
    SignatureGetInstanceOfDigestCipherAndPadding,
    SignatureInit,
    SignatureInitWithVector,
    SignatureUpdate,
    SignatureSign,
    SignatureVerify,
    SignatureGetAlgorithm,
    SignatureGetMessageDigestAlgorithm,
    SignatureGetCipherAlgorithm,
    SignatureGetPaddingAlgorithm,
    SignatureGetLength,
}

/// A method of the platform, by its room: an enum of some classes' methods. Each is named by its class and its name:
/// `OwnerPinCheck` is `check` of `OwnerPIN`, and `ObjectInit` the constructor `<init>` of `Object`.
#[derive(Clone, Copy)]
pub enum PlatformMethod {
    Objects(ObjectsMethod),
    Exceptions(ExceptionsMethod),
    Utilities(UtilitiesMethod),
    System(SystemMethod),
    Aids(AidsMethod),
    Pins(PinsMethod),
    Applets(AppletsMethod),
    Apdus(ApdusMethod),
    Events(EventsMethod),
    Engines(EnginesMethod),
    Keys(KeysMethod),
    KeyInterfaces(KeyInterfacesMethod),
    Ciphers(CiphersMethod),
    RsaKeys(RsaKeysMethod),
    EcKeys(EcKeysMethod),
    RsaInterfaces(RsaInterfacesMethod),
    EcInterfaces(EcInterfacesMethod),
    KeyPairs(KeyPairsMethod),
}

/// How many packages there are.
pub(crate) const PACKAGE_COUNT: usize = 5;

/// How many classes and interfaces there are.
pub(crate) const CLASS_COUNT: usize = 66;

/// How many methods the room `Objects` has.
pub(crate) const OBJECTS_COUNT: usize = 13;

/// How many methods the room `Exceptions` has.
pub(crate) const EXCEPTIONS_COUNT: usize = 23;

/// How many methods the room `Utilities` has.
pub(crate) const UTILITIES_COUNT: usize = 8;

/// How many methods the room `System` has.
pub(crate) const SYSTEM_COUNT: usize = 22;

/// How many methods the room `Aids` has.
pub(crate) const AIDS_COUNT: usize = 7;

/// How many methods the room `Pins` has.
pub(crate) const PINS_COUNT: usize = 13;

/// How many methods the room `Applets` has.
pub(crate) const APPLETS_COUNT: usize = 9;

/// How many methods the room `Apdus` has.
pub(crate) const APDUS_COUNT: usize = 24;

/// How many methods the room `Events` has.
pub(crate) const EVENTS_COUNT: usize = 3;

/// How many methods the room `Engines` has.
pub(crate) const ENGINES_COUNT: usize = 18;

/// How many methods the room `Keys` has.
pub(crate) const KEYS_COUNT: usize = 8;

/// How many methods the room `KeyInterfaces` has.
pub(crate) const KEY_INTERFACES_COUNT: usize = 26;

/// How many methods the room `Ciphers` has.
pub(crate) const CIPHERS_COUNT: usize = 21;

const EXCEPTIONS_FIRST: usize = OBJECTS_COUNT;

const UTILITIES_FIRST: usize = EXCEPTIONS_FIRST + EXCEPTIONS_COUNT;

const SYSTEM_FIRST: usize = UTILITIES_FIRST + UTILITIES_COUNT;

const AIDS_FIRST: usize = SYSTEM_FIRST + SYSTEM_COUNT;

const PINS_FIRST: usize = AIDS_FIRST + AIDS_COUNT;

const APPLETS_FIRST: usize = PINS_FIRST + PINS_COUNT;

const APDUS_FIRST: usize = APPLETS_FIRST + APPLETS_COUNT;

const EVENTS_FIRST: usize = APDUS_FIRST + APDUS_COUNT;

const ENGINES_FIRST: usize = EVENTS_FIRST + EVENTS_COUNT;

const KEYS_FIRST: usize = ENGINES_FIRST + ENGINES_COUNT;

const KEY_INTERFACES_FIRST: usize = KEYS_FIRST + KEYS_COUNT;

const CIPHERS_FIRST: usize = KEY_INTERFACES_FIRST + KEY_INTERFACES_COUNT;

const RSA_KEYS_FIRST: usize = CIPHERS_FIRST + CIPHERS_COUNT;

const EC_KEYS_FIRST: usize = RSA_KEYS_FIRST + RSA_KEYS_COUNT;

const RSA_INTERFACES_FIRST: usize = EC_KEYS_FIRST + EC_KEYS_COUNT;

const EC_INTERFACES_FIRST: usize = RSA_INTERFACES_FIRST + RSA_INTERFACES_COUNT;

const KEY_PAIRS_FIRST: usize = EC_INTERFACES_FIRST + EC_INTERFACES_COUNT;

/// How many methods there are.
pub(crate) const METHOD_COUNT: usize = KEY_PAIRS_FIRST + KEY_PAIRS_COUNT;

impl PlatformPackage {
    /// Whether the two are one, by their places.
    pub(crate) const fn is(self, other: PlatformPackage) -> bool
        ensures { result ≡ same_package self other }
    {
        self.index() == other.index()
    }

    /// Its place among the packages.
    pub(crate) const fn index(self) -> usize
        ensures place { result ≡ package_number self }
        ensures bound { result < PACKAGE_COUNT }
    {
        self as usize
    }

    /// Each table has it.
    pub(crate) const fn is_needed(self) -> bool
        ensures { result ≡ is_needed_package self }
    {
        match self {
            PlatformPackage::JavaLang | PlatformPackage::JavacardFramework => true,
            PlatformPackage::JavacardxApdu
            | PlatformPackage::JavacardSecurity
            | PlatformPackage::JavacardxCrypto => false,
        }
    }
}

impl PlatformClass {
    /// Whether the two are one class.
    pub const fn is(self, other: PlatformClass) -> bool
        ensures { result ≡ same_class self other }
    {
        let place = self.index();
        place == other.index()
    }

    /// Its place among the classes.
    pub(crate) const fn index(self) -> usize
        ensures place { result ≡ class_number self }
        ensures bound { result < CLASS_COUNT }
    {
        self as usize
    }
}

impl ObjectsMethod {
    /// Its place in its room.
    pub(crate) const fn index(self) -> usize
        ensures place { result ≡ objects_number self }
        ensures bound { result < OBJECTS_COUNT }
    {
        self as usize
    }
}

impl ExceptionsMethod {
    /// Its place in its room.
    pub(crate) const fn index(self) -> usize
        ensures place { result ≡ exceptions_number self }
        ensures bound { result < EXCEPTIONS_COUNT }
    {
        self as usize
    }
}

impl UtilitiesMethod {
    /// Its place in its room.
    pub(crate) const fn index(self) -> usize
        ensures place { result ≡ utilities_number self }
        ensures bound { result < UTILITIES_COUNT }
    {
        self as usize
    }
}

impl SystemMethod {
    /// Its place in its room.
    pub(crate) const fn index(self) -> usize
        ensures place { result ≡ system_number self }
        ensures bound { result < SYSTEM_COUNT }
    {
        self as usize
    }
}

impl AidsMethod {
    /// Its place in its room.
    pub(crate) const fn index(self) -> usize
        ensures place { result ≡ aids_number self }
        ensures bound { result < AIDS_COUNT }
    {
        self as usize
    }
}

impl PinsMethod {
    /// Its place in its room.
    pub(crate) const fn index(self) -> usize
        ensures place { result ≡ pins_number self }
        ensures bound { result < PINS_COUNT }
    {
        self as usize
    }
}

impl AppletsMethod {
    /// Its place in its room.
    pub(crate) const fn index(self) -> usize
        ensures place { result ≡ applets_number self }
        ensures bound { result < APPLETS_COUNT }
    {
        self as usize
    }
}

impl ApdusMethod {
    /// Its place in its room.
    pub(crate) const fn index(self) -> usize
        ensures place { result ≡ apdus_number self }
        ensures bound { result < APDUS_COUNT }
    {
        self as usize
    }
}

impl EventsMethod {
    /// Its place in its room.
    pub(crate) const fn index(self) -> usize
        ensures place { result ≡ events_number self }
        ensures bound { result < EVENTS_COUNT }
    {
        self as usize
    }
}

impl EnginesMethod {
    /// Its place in its room.
    pub(crate) const fn index(self) -> usize
        ensures place { result ≡ engines_number self }
        ensures bound { result < ENGINES_COUNT }
    {
        self as usize
    }
}

impl KeysMethod {
    /// Its place in its room.
    pub(crate) const fn index(self) -> usize
        ensures place { result ≡ keys_number self }
        ensures bound { result < KEYS_COUNT }
    {
        self as usize
    }
}

impl KeyInterfacesMethod {
    /// Its place in its room.
    pub(crate) const fn index(self) -> usize
        ensures place { result ≡ key_interfaces_number self }
        ensures bound { result < KEY_INTERFACES_COUNT }
    {
        self as usize
    }
}

impl CiphersMethod {
    /// Its place in its room.
    pub(crate) const fn index(self) -> usize
        ensures place { result ≡ ciphers_number self }
        ensures bound { result < CIPHERS_COUNT }
    {
        self as usize
    }
}

impl PlatformMethod {
    /// Its place among the methods, room after room.
    #[inline(always)]
    pub const fn index(self) -> usize
        ensures place { result ≡ method_number self }
        ensures bound { result < METHOD_COUNT }
    {
        match self {
            PlatformMethod::Objects(method) => method.index(),
            PlatformMethod::Exceptions(method) => EXCEPTIONS_FIRST + method.index(),
            PlatformMethod::Utilities(method) => UTILITIES_FIRST + method.index(),
            PlatformMethod::System(method) => SYSTEM_FIRST + method.index(),
            PlatformMethod::Aids(method) => AIDS_FIRST + method.index(),
            PlatformMethod::Pins(method) => PINS_FIRST + method.index(),
            PlatformMethod::Applets(method) => APPLETS_FIRST + method.index(),
            PlatformMethod::Apdus(method) => APDUS_FIRST + method.index(),
            PlatformMethod::Events(method) => EVENTS_FIRST + method.index(),
            PlatformMethod::Engines(method) => ENGINES_FIRST + method.index(),
            PlatformMethod::Keys(method) => KEYS_FIRST + method.index(),
            PlatformMethod::KeyInterfaces(method) => KEY_INTERFACES_FIRST + method.index(),
            PlatformMethod::Ciphers(method) => CIPHERS_FIRST + method.index(),
            PlatformMethod::RsaKeys(method) => RSA_KEYS_FIRST + method.index(),
            PlatformMethod::EcKeys(method) => EC_KEYS_FIRST + method.index(),
            PlatformMethod::RsaInterfaces(method) => RSA_INTERFACES_FIRST + method.index(),
            PlatformMethod::EcInterfaces(method) => EC_INTERFACES_FIRST + method.index(),
            PlatformMethod::KeyPairs(method) => KEY_PAIRS_FIRST + method.index(),
        }
    }
}

impl MethodKind {
    /// Whether the two are one, by their places.
    pub(crate) const fn is(self, other: MethodKind) -> bool
        ensures { result ≡ same_kind self other }
    {
        self.index() == other.index()
    }

    /// Its place among the kinds.
    const fn index(self) -> usize
        ensures { result ≡ kind_number self }
    {
        self as usize
    }

    /// The largest token that a method of this kind may have.
    pub(crate) const fn largest_token(self) -> u8
        ensures { result ≡ largest_token self }
    {
        match self {
            MethodKind::Static => 255,
            MethodKind::Virtual | MethodKind::Interface => 127,
        }
    }
}
