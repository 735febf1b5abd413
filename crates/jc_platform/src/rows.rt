//! The rows: what is known of each package, class and method.

use crate::key_methods::{
    EC_INTERFACES_COUNT, EC_KEYS_COUNT, EcInterfacesMethod, EcKeysMethod, KEY_PAIRS_COUNT,
    KeyPairsMethod, RSA_INTERFACES_COUNT, RSA_KEYS_COUNT, RsaInterfacesMethod, RsaKeysMethod,
};
use crate::kinds::{Answer, ClassForm, InstanceCells, ParameterKind, Receiver};
use crate::names::{
    AIDS_COUNT, APDUS_COUNT, APPLETS_COUNT, AidsMethod, ApdusMethod, AppletsMethod, CIPHERS_COUNT,
    CLASS_COUNT, CiphersMethod, ENGINES_COUNT, EVENTS_COUNT, EXCEPTIONS_COUNT, EnginesMethod,
    EventsMethod, ExceptionsMethod, KEY_INTERFACES_COUNT, KEYS_COUNT, KeyInterfacesMethod,
    KeysMethod, MethodKind, OBJECTS_COUNT, ObjectsMethod, PACKAGE_COUNT, PINS_COUNT, PinsMethod,
    PlatformClass, PlatformMethod, PlatformPackage, SYSTEM_COUNT, SystemMethod, UTILITIES_COUNT,
    UtilitiesMethod,
};

/// A package with the text of its AID, in upper case hexadecimal.
#[derive(Clone, Copy)]
pub(crate) struct PackageRow {
    pub(crate) package_id: PlatformPackage,
    pub(crate) aid_text: &'static [u8],
}

/// What is known of a class.
#[derive(Clone, Copy)]
pub struct ClassRow {
    pub class: PlatformClass,
    pub home: PlatformPackage,
    /// Its name in platform tables.
    pub name: &'static [u8],
    /// Each table has it.
    pub needed: bool,
    pub superclass: Option<PlatformClass>,
    /// The interfaces that it implements, those that they extend among them.
    pub interfaces: &'static [PlatformClass],
    pub form: ClassForm,
    /// What the cells of an instance hold.
    pub cells: InstanceCells,
    /// Code may make instances of it by `new`.
    pub instantiable: bool,
    /// The runtime environment has an instance of its own, which it throws.
    pub thrown: bool,
}

/// What is known of a method.
#[derive(Clone, Copy)]
pub struct MethodRow {
    pub method: PlatformMethod,
    pub class: PlatformClass,
    pub kind: MethodKind,
    /// Its name in platform tables.
    pub name: &'static [u8],
    /// Each table has it.
    pub needed: bool,
    /// Its parameters after its receiver.
    pub parameters: &'static [ParameterKind],
    pub answer: Answer,
    pub receiver: Receiver,
    /// Of an interface's method: the one that carries it out.
    pub implementation: Option<PlatformMethod>,
}

macro_rules! class {
    ($package:ident $class:ident $name:literal [] [$($interface:ident)*] $form:ident $cells:ident $instantiable:literal $thrown:literal) => {
        ClassRow {
            class: PlatformClass::$class,
            home: PlatformPackage::$package,
            name: $name,
            needed: true,
            superclass: None,
            interfaces: &[$(PlatformClass::$interface),*],
            form: ClassForm::$form,
            cells: InstanceCells::$cells,
            instantiable: $instantiable,
            thrown: $thrown,
        }
    };
    ($package:ident $class:ident $name:literal [$superclass:ident] [$($interface:ident)*] $form:ident $cells:ident $instantiable:literal $thrown:literal) => {
        ClassRow {
            class: PlatformClass::$class,
            home: PlatformPackage::$package,
            name: $name,
            needed: true,
            superclass: Some(PlatformClass::$superclass),
            interfaces: &[$(PlatformClass::$interface),*],
            form: ClassForm::$form,
            cells: InstanceCells::$cells,
            instantiable: $instantiable,
            thrown: $thrown,
        }
    };
}

macro_rules! optional_class {
    ($package:ident $class:ident $name:literal [] [$($interface:ident)*] $form:ident $cells:ident $instantiable:literal $thrown:literal) => {
        ClassRow {
            class: PlatformClass::$class,
            home: PlatformPackage::$package,
            name: $name,
            needed: false,
            superclass: None,
            interfaces: &[$(PlatformClass::$interface),*],
            form: ClassForm::$form,
            cells: InstanceCells::$cells,
            instantiable: $instantiable,
            thrown: $thrown,
        }
    };
    ($package:ident $class:ident $name:literal [$superclass:ident] [$($interface:ident)*] $form:ident $cells:ident $instantiable:literal $thrown:literal) => {
        ClassRow {
            class: PlatformClass::$class,
            home: PlatformPackage::$package,
            name: $name,
            needed: false,
            superclass: Some(PlatformClass::$superclass),
            interfaces: &[$(PlatformClass::$interface),*],
            form: ClassForm::$form,
            cells: InstanceCells::$cells,
            instantiable: $instantiable,
            thrown: $thrown,
        }
    };
}

macro_rules! method {
    ($room:ident $methods:ident $class:ident $kind:ident $method:ident $name:literal [$($parameter:ident $(($wanted:ident))?)*] $answer:ident $receiver:ident) => {
        MethodRow {
            method: PlatformMethod::$room($methods::$method),
            class: PlatformClass::$class,
            kind: MethodKind::$kind,
            name: $name,
            needed: true,
            parameters: &[$(ParameterKind::$parameter $((PlatformClass::$wanted))?),*],
            answer: Answer::$answer,
            receiver: Receiver::$receiver,
            implementation: None,
        }
    };
}

macro_rules! optional_method {
    ($room:ident $methods:ident $class:ident $kind:ident $method:ident $name:literal [$($parameter:ident $(($wanted:ident))?)*] $answer:ident $receiver:ident) => {
        MethodRow {
            method: PlatformMethod::$room($methods::$method),
            class: PlatformClass::$class,
            kind: MethodKind::$kind,
            name: $name,
            needed: false,
            parameters: &[$(ParameterKind::$parameter $((PlatformClass::$wanted))?),*],
            answer: Answer::$answer,
            receiver: Receiver::$receiver,
            implementation: None,
        }
    };
}

macro_rules! implemented_method {
    ($room:ident $methods:ident $class:ident $kind:ident $method:ident $name:literal [$($parameter:ident $(($wanted:ident))?)*] $answer:ident $receiver:ident $implementation:ident) => {
        MethodRow {
            method: PlatformMethod::$room($methods::$method),
            class: PlatformClass::$class,
            kind: MethodKind::$kind,
            name: $name,
            needed: true,
            parameters: &[$(ParameterKind::$parameter $((PlatformClass::$wanted))?),*],
            answer: Answer::$answer,
            receiver: Receiver::$receiver,
            implementation: Some(PlatformMethod::$room($methods::$implementation)),
        }
    };
}

macro_rules! optional_implemented_method {
    ($room:ident $methods:ident $class:ident $kind:ident $method:ident $name:literal [$($parameter:ident $(($wanted:ident))?)*] $answer:ident $receiver:ident $other_room:ident $other_methods:ident $implementation:ident) => {
        MethodRow {
            method: PlatformMethod::$room($methods::$method),
            class: PlatformClass::$class,
            kind: MethodKind::$kind,
            name: $name,
            needed: false,
            parameters: &[$(ParameterKind::$parameter $((PlatformClass::$wanted))?),*],
            answer: Answer::$answer,
            receiver: Receiver::$receiver,
            implementation: Some(PlatformMethod::$other_room($other_methods::$implementation)),
        }
    };
}

/// Every package.
pub(crate) static PACKAGES: [PackageRow; PACKAGE_COUNT] = [
    PackageRow {
        package_id: PlatformPackage::JavaLang,
        aid_text: b"A0000000620001",
    },
    PackageRow {
        package_id: PlatformPackage::JavacardFramework,
        aid_text: b"A0000000620101",
    },
    PackageRow {
        package_id: PlatformPackage::JavacardxApdu,
        aid_text: b"A0000000620209",
    },
    PackageRow {
        package_id: PlatformPackage::JavacardSecurity,
        aid_text: b"A0000000620102",
    },
    PackageRow {
        package_id: PlatformPackage::JavacardxCrypto,
        aid_text: b"A0000000620201",
    },
];

/// Every class, in the order of `PlatformClass`: package, class, name, superclass, interfaces, form, cells, whether code may make instances, whether the runtime environment throws one of its own.
pub(crate) static CLASSES: [ClassRow; CLASS_COUNT] = [
    class!(JavaLang Object b"Object" [] [] Object Empty true false),
    class!(JavaLang Throwable b"Throwable" [Object] [] Exception Empty true false),
    class!(JavaLang Exception b"Exception" [Throwable] [] Exception Empty true false),
    class!(JavaLang RuntimeException b"RuntimeException" [Exception] [] Exception Empty true false),
    class!(JavaLang IndexOutOfBoundsException b"IndexOutOfBoundsException" [RuntimeException] [] Exception Empty true false),
    class!(JavaLang ArithmeticException b"ArithmeticException" [RuntimeException] [] Exception Empty true true),
    class!(JavaLang ArrayIndexOutOfBoundsException b"ArrayIndexOutOfBoundsException" [IndexOutOfBoundsException] [] Exception Empty true true),
    class!(JavaLang ArrayStoreException b"ArrayStoreException" [RuntimeException] [] Exception Empty true true),
    class!(JavaLang ClassCastException b"ClassCastException" [RuntimeException] [] Exception Empty true true),
    class!(JavaLang NegativeArraySizeException b"NegativeArraySizeException" [RuntimeException] [] Exception Empty true true),
    class!(JavaLang NullPointerException b"NullPointerException" [RuntimeException] [] Exception Empty true true),
    class!(JavaLang SecurityException b"SecurityException" [RuntimeException] [] Exception Empty true true),
    class!(JavacardFramework Shareable b"Shareable" [] [] Interface Empty false false),
    class!(JavacardFramework Pin b"PIN" [] [] Interface Empty false false),
    class!(JavacardFramework Applet b"Applet" [Object] [] Object Empty false false),
    class!(JavacardFramework Apdu b"APDU" [Object] [] Object Empty false false),
    class!(JavacardFramework Aid b"AID" [Object] [] Object Aid true false),
    class!(JavacardFramework JcSystem b"JCSystem" [Object] [] Static Empty false false),
    class!(JavacardFramework Util b"Util" [Object] [] Static Empty false false),
    class!(JavacardFramework OwnerPin b"OwnerPIN" [Object] [Pin] Object Pin true false),
    class!(JavacardFramework CardException b"CardException" [Exception] [] Exception Reason true true),
    class!(JavacardFramework CardRuntimeException b"CardRuntimeException" [RuntimeException] [] Exception Reason true true),
    class!(JavacardFramework IsoException b"ISOException" [CardRuntimeException] [] Exception Reason true true),
    class!(JavacardFramework PinException b"PINException" [CardRuntimeException] [] Exception Reason true true),
    class!(JavacardFramework SystemException b"SystemException" [CardRuntimeException] [] Exception Reason true true),
    class!(JavacardFramework TransactionException b"TransactionException" [CardRuntimeException] [] Exception Reason true true),
    class!(JavacardFramework ApduException b"APDUException" [CardRuntimeException] [] Exception Reason true true),
    class!(JavacardFramework UserException b"UserException" [CardException] [] Exception Reason true true),
    optional_class!(JavacardFramework Iso7816 b"ISO7816" [] [] Interface Empty false false),
    optional_class!(JavacardFramework MultiSelectable b"MultiSelectable" [] [] Interface Empty false false),
    optional_class!(JavacardFramework AppletEvent b"AppletEvent" [] [] Interface Empty false false),
    optional_class!(JavacardxApdu ExtendedLength b"ExtendedLength" [] [] Interface Empty false false),
    optional_class!(JavacardSecurity CryptoException b"CryptoException" [CardRuntimeException] [] Exception Reason true true),
    optional_class!(JavacardSecurity MessageDigest b"MessageDigest" [Object] [] Object Engine false false),
    optional_class!(JavacardSecurity Checksum b"Checksum" [Object] [] Object Engine false false),
    optional_class!(JavacardSecurity RandomData b"RandomData" [Object] [] Object Engine false false),
    optional_class!(JavacardSecurity InitializedMessageDigest b"InitializedMessageDigest" [MessageDigest] [] Object Engine false false),
    optional_class!(JavacardSecurity Key b"Key" [] [] Interface Empty false false),
    optional_class!(JavacardSecurity SecretKey b"SecretKey" [] [Key] Interface Empty false false),
    optional_class!(JavacardSecurity DesKey b"DESKey" [] [SecretKey Key] Interface Empty false false),
    optional_class!(JavacardSecurity AesKey b"AESKey" [] [SecretKey Key] Interface Empty false false),
    optional_class!(JavacardSecurity HmacKey b"HMACKey" [] [SecretKey Key] Interface Empty false false),
    optional_class!(JavacardSecurity KeyBuilder b"KeyBuilder" [Object] [] Static Empty false false),
    optional_class!(JavacardSecurity KeyObject b"KeyObject" [Object] [Key] Object Engine false false),
    optional_class!(JavacardSecurity DesKeyObject b"DESKeyObject" [KeyObject] [DesKey SecretKey Key] Object Engine false false),
    optional_class!(JavacardSecurity AesKeyObject b"AESKeyObject" [KeyObject] [AesKey SecretKey Key] Object Engine false false),
    optional_class!(JavacardSecurity HmacKeyObject b"HMACKeyObject" [KeyObject] [HmacKey SecretKey Key] Object Engine false false),
    optional_class!(JavacardSecurity Signature b"Signature" [Object] [] Object Cipher false false),
    optional_class!(JavacardSecurity PrivateKey b"PrivateKey" [] [Key] Interface Empty false false),
    optional_class!(JavacardSecurity PublicKey b"PublicKey" [] [Key] Interface Empty false false),
    optional_class!(JavacardSecurity RsaPublicKey b"RSAPublicKey" [] [PublicKey Key] Interface Empty false false),
    optional_class!(JavacardSecurity RsaPrivateKey b"RSAPrivateKey" [] [PrivateKey Key] Interface Empty false false),
    optional_class!(JavacardSecurity RsaPrivateCrtKey b"RSAPrivateCrtKey" [] [PrivateKey Key] Interface Empty false false),
    optional_class!(JavacardSecurity EcKey b"ECKey" [] [] Interface Empty false false),
    optional_class!(JavacardSecurity EcPublicKey b"ECPublicKey" [] [PublicKey Key EcKey] Interface Empty false false),
    optional_class!(JavacardSecurity EcPrivateKey b"ECPrivateKey" [] [PrivateKey Key EcKey] Interface Empty false false),
    optional_class!(JavacardSecurity KeyPair b"KeyPair" [Object] [] Object Pair true false),
    optional_class!(JavacardSecurity KeyAgreement b"KeyAgreement" [Object] [] Object Pair false false),
    optional_class!(JavacardSecurity RsaKeyObject b"RSAKeyObject" [KeyObject] [Key] Object Engine false false),
    optional_class!(JavacardSecurity RsaPublicKeyObject b"RSAPublicKeyObject" [RsaKeyObject] [RsaPublicKey PublicKey Key] Object Engine false false),
    optional_class!(JavacardSecurity RsaPrivateKeyObject b"RSAPrivateKeyObject" [RsaKeyObject] [RsaPrivateKey PrivateKey Key] Object Engine false false),
    optional_class!(JavacardSecurity RsaPrivateCrtKeyObject b"RSAPrivateCrtKeyObject" [KeyObject] [RsaPrivateCrtKey PrivateKey Key] Object Engine false false),
    optional_class!(JavacardSecurity EcKeyObject b"ECKeyObject" [KeyObject] [EcKey Key] Object Engine false false),
    optional_class!(JavacardSecurity EcPublicKeyObject b"ECPublicKeyObject" [EcKeyObject] [EcPublicKey PublicKey Key EcKey] Object Engine false false),
    optional_class!(JavacardSecurity EcPrivateKeyObject b"ECPrivateKeyObject" [EcKeyObject] [EcPrivateKey PrivateKey Key EcKey] Object Engine false false),
    optional_class!(JavacardxCrypto Cipher b"Cipher" [Object] [] Object Cipher false false),
];

/// The methods of `java.lang`, in the order of `ObjectsMethod`: class, kind, method, name, parameters, what is returned, the receiver.
pub(crate) static OBJECTS: [MethodRow; OBJECTS_COUNT] = [
    method!(Objects ObjectsMethod Object Static ObjectInit b"<init>" [] Void Kept),
    method!(Objects ObjectsMethod Object Virtual ObjectEquals b"equals" [Anything] Boolean Kept),
    method!(Objects ObjectsMethod Throwable Static ThrowableInit b"<init>" [] Void Kept),
    method!(Objects ObjectsMethod Exception Static ExceptionInit b"<init>" [] Void Kept),
    method!(Objects ObjectsMethod RuntimeException Static RuntimeExceptionInit b"<init>" [] Void Kept),
    method!(Objects ObjectsMethod IndexOutOfBoundsException Static IndexOutOfBoundsExceptionInit b"<init>" [] Void Kept),
    method!(Objects ObjectsMethod ArithmeticException Static ArithmeticExceptionInit b"<init>" [] Void Kept),
    method!(Objects ObjectsMethod ArrayIndexOutOfBoundsException Static ArrayIndexOutOfBoundsExceptionInit b"<init>" [] Void Kept),
    method!(Objects ObjectsMethod ArrayStoreException Static ArrayStoreExceptionInit b"<init>" [] Void Kept),
    method!(Objects ObjectsMethod ClassCastException Static ClassCastExceptionInit b"<init>" [] Void Kept),
    method!(Objects ObjectsMethod NegativeArraySizeException Static NegativeArraySizeExceptionInit b"<init>" [] Void Kept),
    method!(Objects ObjectsMethod NullPointerException Static NullPointerExceptionInit b"<init>" [] Void Kept),
    method!(Objects ObjectsMethod SecurityException Static SecurityExceptionInit b"<init>" [] Void Kept),
];

/// The methods of an exception of the card, in the order of `ExceptionsMethod`: class, kind, method, name, parameters, what is returned, the receiver.
pub(crate) static EXCEPTIONS: [MethodRow; EXCEPTIONS_COUNT] = [
    method!(Exceptions ExceptionsMethod CardException Static CardExceptionInit b"<init>" [Short] Void Changed),
    method!(Exceptions ExceptionsMethod CardException Static CardExceptionThrowIt b"throwIt" [Short] Void Absent),
    method!(Exceptions ExceptionsMethod CardException Virtual CardExceptionGetReason b"getReason" [] Short Kept),
    method!(Exceptions ExceptionsMethod CardException Virtual CardExceptionSetReason b"setReason" [Short] Void Changed),
    method!(Exceptions ExceptionsMethod CardRuntimeException Static CardRuntimeExceptionInit b"<init>" [Short] Void Changed),
    method!(Exceptions ExceptionsMethod CardRuntimeException Static CardRuntimeExceptionThrowIt b"throwIt" [Short] Void Absent),
    method!(Exceptions ExceptionsMethod CardRuntimeException Virtual CardRuntimeExceptionGetReason b"getReason" [] Short Kept),
    method!(Exceptions ExceptionsMethod CardRuntimeException Virtual CardRuntimeExceptionSetReason b"setReason" [Short] Void Changed),
    method!(Exceptions ExceptionsMethod IsoException Static IsoExceptionInit b"<init>" [Short] Void Changed),
    method!(Exceptions ExceptionsMethod IsoException Static IsoExceptionThrowIt b"throwIt" [Short] Void Absent),
    method!(Exceptions ExceptionsMethod PinException Static PinExceptionInit b"<init>" [Short] Void Changed),
    method!(Exceptions ExceptionsMethod PinException Static PinExceptionThrowIt b"throwIt" [Short] Void Absent),
    method!(Exceptions ExceptionsMethod SystemException Static SystemExceptionInit b"<init>" [Short] Void Changed),
    method!(Exceptions ExceptionsMethod SystemException Static SystemExceptionThrowIt b"throwIt" [Short] Void Absent),
    method!(Exceptions ExceptionsMethod TransactionException Static TransactionExceptionInit b"<init>" [Short] Void Changed),
    method!(Exceptions ExceptionsMethod TransactionException Static TransactionExceptionThrowIt b"throwIt" [Short] Void Absent),
    method!(Exceptions ExceptionsMethod ApduException Static ApduExceptionInit b"<init>" [Short] Void Changed),
    method!(Exceptions ExceptionsMethod ApduException Static ApduExceptionThrowIt b"throwIt" [Short] Void Absent),
    method!(Exceptions ExceptionsMethod UserException Static UserExceptionInit b"<init>" [Short] Void Changed),
    method!(Exceptions ExceptionsMethod UserException Static UserExceptionThrowIt b"throwIt" [Short] Void Absent),
    optional_method!(Exceptions ExceptionsMethod UserException Static UserExceptionInitWithoutReason b"<init>WithoutReason" [] Void Changed),
    optional_method!(Exceptions ExceptionsMethod CryptoException Static CryptoExceptionInit b"<init>" [Short] Void Changed),
    optional_method!(Exceptions ExceptionsMethod CryptoException Static CryptoExceptionThrowIt b"throwIt" [Short] Void Absent),
];

/// The methods of `Util`, in the order of `UtilitiesMethod`: class, kind, method, name, parameters, what is returned, the receiver.
pub(crate) static UTILITIES: [MethodRow; UTILITIES_COUNT] = [
    method!(Utilities UtilitiesMethod Util Static UtilArrayCompare b"arrayCompare" [Bytes Short Bytes Short Short] Byte Absent),
    method!(Utilities UtilitiesMethod Util Static UtilArrayCopy b"arrayCopy" [Bytes Short Bytes Short Short] Short Absent),
    method!(Utilities UtilitiesMethod Util Static UtilGetShort b"getShort" [Bytes Short] Short Absent),
    method!(Utilities UtilitiesMethod Util Static UtilMakeShort b"makeShort" [Byte Byte] Short Absent),
    method!(Utilities UtilitiesMethod Util Static UtilSetShort b"setShort" [Bytes Short Short] Short Absent),
    optional_method!(Utilities UtilitiesMethod Util Static UtilArrayFill b"arrayFill" [Bytes Short Short Byte] Short Absent),
    optional_method!(Utilities UtilitiesMethod Util Static UtilArrayCopyNonAtomic b"arrayCopyNonAtomic" [Bytes Short Bytes Short Short] Short Absent),
    optional_method!(Utilities UtilitiesMethod Util Static UtilArrayFillNonAtomic b"arrayFillNonAtomic" [Bytes Short Short Byte] Short Absent),
];

/// The methods of `JCSystem`, in the order of `SystemMethod`: class, kind, method, name, parameters, what is returned, the receiver.
pub(crate) static SYSTEM: [MethodRow; SYSTEM_COUNT] = [
    method!(System SystemMethod JcSystem Static JcSystemAbortTransaction b"abortTransaction" [] Void Absent),
    method!(System SystemMethod JcSystem Static JcSystemBeginTransaction b"beginTransaction" [] Void Absent),
    method!(System SystemMethod JcSystem Static JcSystemCommitTransaction b"commitTransaction" [] Void Absent),
    method!(System SystemMethod JcSystem Static JcSystemGetAid b"getAID" [] Reference Absent),
    method!(System SystemMethod JcSystem Static JcSystemGetAppletShareableInterfaceObject b"getAppletShareableInterfaceObject" [Instance(Aid) Byte] Reference Absent),
    method!(System SystemMethod JcSystem Static JcSystemGetMaxCommitCapacity b"getMaxCommitCapacity" [] Short Absent),
    method!(System SystemMethod JcSystem Static JcSystemGetPreviousContextAid b"getPreviousContextAID" [] Reference Absent),
    method!(System SystemMethod JcSystem Static JcSystemGetTransactionDepth b"getTransactionDepth" [] Byte Absent),
    method!(System SystemMethod JcSystem Static JcSystemGetUnusedCommitCapacity b"getUnusedCommitCapacity" [] Short Absent),
    method!(System SystemMethod JcSystem Static JcSystemIsTransient b"isTransient" [Anything] Byte Absent),
    method!(System SystemMethod JcSystem Static JcSystemLookupAid b"lookupAID" [Bytes Short Byte] Reference Absent),
    method!(System SystemMethod JcSystem Static JcSystemMakeTransientBooleanArray b"makeTransientBooleanArray" [Short Byte] Reference Absent),
    method!(System SystemMethod JcSystem Static JcSystemMakeTransientByteArray b"makeTransientByteArray" [Short Byte] Reference Absent),
    method!(System SystemMethod JcSystem Static JcSystemMakeTransientObjectArray b"makeTransientObjectArray" [Short Byte] Reference Absent),
    method!(System SystemMethod JcSystem Static JcSystemMakeTransientShortArray b"makeTransientShortArray" [Short Byte] Reference Absent),
    optional_method!(System SystemMethod JcSystem Static JcSystemGetVersion b"getVersion" [] Short Absent),
    optional_method!(System SystemMethod JcSystem Static JcSystemGetAvailableMemory b"getAvailableMemory" [Byte] Short Absent),
    optional_method!(System SystemMethod JcSystem Static JcSystemGetAvailableMemoryShorts b"getAvailableMemoryShorts" [Shorts Short Byte] Void Absent),
    optional_method!(System SystemMethod JcSystem Static JcSystemRequestObjectDeletion b"requestObjectDeletion" [] Void Absent),
    optional_method!(System SystemMethod JcSystem Static JcSystemIsObjectDeletionSupported b"isObjectDeletionSupported" [] Boolean Absent),
    optional_method!(System SystemMethod JcSystem Static JcSystemIsAppletActive b"isAppletActive" [Instance(Aid)] Boolean Absent),
    optional_method!(System SystemMethod JcSystem Static JcSystemGetAssignedChannel b"getAssignedChannel" [] Byte Absent),
];

/// The methods of `AID`, in the order of `AidsMethod`: class, kind, method, name, parameters, what is returned, the receiver.
pub(crate) static AIDS: [MethodRow; AIDS_COUNT] = [
    method!(Aids AidsMethod Aid Static AidInit b"<init>" [Bytes Short Byte] Void Changed),
    method!(Aids AidsMethod Aid Virtual AidEquals b"equals" [Anything] Boolean Kept),
    method!(Aids AidsMethod Aid Virtual AidEqualsBytes b"equalsBytes" [Bytes Short Byte] Boolean Kept),
    method!(Aids AidsMethod Aid Virtual AidGetBytes b"getBytes" [Bytes Short] Byte Kept),
    optional_method!(Aids AidsMethod Aid Virtual AidRidEquals b"RIDEquals" [Instance(Aid)] Boolean Kept),
    optional_method!(Aids AidsMethod Aid Virtual AidPartialEquals b"partialEquals" [Bytes Short Byte] Boolean Kept),
    optional_method!(Aids AidsMethod Aid Virtual AidGetPartialBytes b"getPartialBytes" [Short Bytes Short Byte] Byte Kept),
];

/// The methods of `PIN` and `OwnerPIN`, in the order of `PinsMethod`: class, kind, method, name, parameters, what is returned, the receiver.
pub(crate) static PINS: [MethodRow; PINS_COUNT] = [
    implemented_method!(Pins PinsMethod Pin Interface PinCheck b"check" [Bytes Short Byte] Boolean Kept OwnerPinCheck),
    implemented_method!(Pins PinsMethod Pin Interface PinGetTriesRemaining b"getTriesRemaining" [] Byte Kept OwnerPinGetTriesRemaining),
    implemented_method!(Pins PinsMethod Pin Interface PinIsValidated b"isValidated" [] Boolean Kept OwnerPinIsValidated),
    implemented_method!(Pins PinsMethod Pin Interface PinReset b"reset" [] Void Kept OwnerPinReset),
    method!(Pins PinsMethod OwnerPin Static OwnerPinInit b"<init>" [Byte Byte] Void Changed),
    method!(Pins PinsMethod OwnerPin Virtual OwnerPinCheck b"check" [Bytes Short Byte] Boolean Changed),
    method!(Pins PinsMethod OwnerPin Virtual OwnerPinGetTriesRemaining b"getTriesRemaining" [] Byte Kept),
    method!(Pins PinsMethod OwnerPin Virtual OwnerPinIsValidated b"isValidated" [] Boolean Kept),
    method!(Pins PinsMethod OwnerPin Virtual OwnerPinReset b"reset" [] Void Changed),
    method!(Pins PinsMethod OwnerPin Virtual OwnerPinResetAndUnblock b"resetAndUnblock" [] Void Changed),
    method!(Pins PinsMethod OwnerPin Virtual OwnerPinUpdate b"update" [Bytes Short Byte] Void Changed),
    optional_method!(Pins PinsMethod OwnerPin Virtual OwnerPinGetValidatedFlag b"getValidatedFlag" [] Boolean Kept),
    optional_method!(Pins PinsMethod OwnerPin Virtual OwnerPinSetValidatedFlag b"setValidatedFlag" [Boolean] Void Changed),
];

/// The methods of `Applet`, in the order of `AppletsMethod`: class, kind, method, name, parameters, what is returned, the receiver.
pub(crate) static APPLETS: [MethodRow; APPLETS_COUNT] = [
    method!(Applets AppletsMethod Applet Static AppletInit b"<init>" [] Void Kept),
    method!(Applets AppletsMethod Applet Virtual AppletDeselect b"deselect" [] Void Kept),
    method!(Applets AppletsMethod Applet Virtual AppletGetShareableInterfaceObject b"getShareableInterfaceObject" [Instance(Aid) Byte] Reference Kept),
    method!(Applets AppletsMethod Applet Virtual AppletRegister b"register" [] Void Registered),
    method!(Applets AppletsMethod Applet Virtual AppletRegisterBytes b"registerBytes" [Bytes Short Byte] Void Registered),
    method!(Applets AppletsMethod Applet Virtual AppletSelect b"select" [] Boolean Kept),
    method!(Applets AppletsMethod Applet Virtual AppletSelectingApplet b"selectingApplet" [] Boolean Kept),
    method!(Applets AppletsMethod Applet Virtual AppletProcess b"process" [Instance(Apdu)] Void Kept),
    optional_method!(Applets AppletsMethod Applet Virtual AppletReSelectingApplet b"reSelectingApplet" [] Boolean Kept),
];

/// The methods of `APDU`, in the order of `ApdusMethod`: class, kind, method, name, parameters, what is returned, the receiver.
pub(crate) static APDUS: [MethodRow; APDUS_COUNT] = [
    method!(Apdus ApdusMethod Apdu Virtual ApduGetBuffer b"getBuffer" [] Reference Kept),
    method!(Apdus ApdusMethod Apdu Virtual ApduReceiveBytes b"receiveBytes" [Short] Short Kept),
    method!(Apdus ApdusMethod Apdu Virtual ApduSendBytes b"sendBytes" [Short Short] Void Kept),
    method!(Apdus ApdusMethod Apdu Virtual ApduSetIncomingAndReceive b"setIncomingAndReceive" [] Short Kept),
    method!(Apdus ApdusMethod Apdu Virtual ApduSetOutgoing b"setOutgoing" [] Short Kept),
    method!(Apdus ApdusMethod Apdu Virtual ApduSetOutgoingAndSend b"setOutgoingAndSend" [Short Short] Void Kept),
    method!(Apdus ApdusMethod Apdu Virtual ApduSetOutgoingLength b"setOutgoingLength" [Short] Void Kept),
    optional_method!(Apdus ApdusMethod Apdu Virtual ApduGetIncomingLength b"getIncomingLength" [] Short Kept),
    optional_method!(Apdus ApdusMethod Apdu Virtual ApduGetOffsetCdata b"getOffsetCdata" [] Short Kept),
    optional_method!(Apdus ApdusMethod Apdu Virtual ApduSendBytesLong b"sendBytesLong" [Bytes Short Short] Void Kept),
    optional_method!(Apdus ApdusMethod Apdu Virtual ApduGetCurrentState b"getCurrentState" [] Byte Kept),
    optional_method!(Apdus ApdusMethod Apdu Static ApduGetProtocol b"getProtocol" [] Byte Absent),
    optional_method!(Apdus ApdusMethod Apdu Virtual ApduGetNad b"getNAD" [] Byte Kept),
    optional_method!(Apdus ApdusMethod Apdu Static ApduGetClaChannel b"getCLAChannel" [] Byte Absent),
    optional_method!(Apdus ApdusMethod Apdu Static ApduGetInBlockSize b"getInBlockSize" [] Short Absent),
    optional_method!(Apdus ApdusMethod Apdu Static ApduGetOutBlockSize b"getOutBlockSize" [] Short Absent),
    optional_method!(Apdus ApdusMethod Apdu Virtual ApduIsIsoInterindustryCla b"isISOInterindustryCLA" [] Boolean Kept),
    optional_method!(Apdus ApdusMethod Apdu Virtual ApduIsCommandChainingCla b"isCommandChainingCLA" [] Boolean Kept),
    optional_method!(Apdus ApdusMethod Apdu Virtual ApduIsSecureMessagingCla b"isSecureMessagingCLA" [] Boolean Kept),
    optional_method!(Apdus ApdusMethod Apdu Virtual ApduIsValidCla b"isValidCLA" [] Boolean Kept),
    optional_method!(Apdus ApdusMethod Apdu Virtual ApduSetOutgoingNoChaining b"setOutgoingNoChaining" [] Short Kept),
    optional_method!(Apdus ApdusMethod Apdu Static ApduWaitExtension b"waitExtension" [] Void Absent),
    optional_method!(Apdus ApdusMethod Apdu Static ApduGetCurrentApdu b"getCurrentAPDU" [] Reference Absent),
    optional_method!(Apdus ApdusMethod Apdu Static ApduGetCurrentApduBuffer b"getCurrentAPDUBuffer" [] Reference Absent),
];

/// The methods of `MultiSelectable` and `AppletEvent`, in the order of `EventsMethod`: class, kind, method, name, parameters, what is returned, the receiver.
pub(crate) static EVENTS: [MethodRow; EVENTS_COUNT] = [
    optional_method!(Events EventsMethod MultiSelectable Interface MultiSelectableSelect b"select" [Boolean] Boolean Kept),
    optional_method!(Events EventsMethod MultiSelectable Interface MultiSelectableDeselect b"deselect" [Boolean] Void Kept),
    optional_method!(Events EventsMethod AppletEvent Interface AppletEventUninstall b"uninstall" [] Void Kept),
];

/// The methods of `MessageDigest`, `Checksum`, `RandomData` and `InitializedMessageDigest`, in the order of `EnginesMethod`: class, kind, method, name, parameters, what is returned, the receiver.
pub(crate) static ENGINES: [MethodRow; ENGINES_COUNT] = [
    optional_method!(Engines EnginesMethod MessageDigest Static MessageDigestGetInstance b"getInstance" [Byte Boolean] Reference Absent),
    optional_method!(Engines EnginesMethod MessageDigest Virtual MessageDigestGetAlgorithm b"getAlgorithm" [] Byte Kept),
    optional_method!(Engines EnginesMethod MessageDigest Virtual MessageDigestGetLength b"getLength" [] Byte Kept),
    optional_method!(Engines EnginesMethod MessageDigest Virtual MessageDigestUpdate b"update" [Bytes Short Short] Void Kept),
    optional_method!(Engines EnginesMethod MessageDigest Virtual MessageDigestDoFinal b"doFinal" [Bytes Short Short Bytes Short] Short Kept),
    optional_method!(Engines EnginesMethod MessageDigest Virtual MessageDigestReset b"reset" [] Void Kept),
    optional_method!(Engines EnginesMethod MessageDigest Static MessageDigestGetInitializedMessageDigestInstance b"getInitializedMessageDigestInstance" [Byte Boolean] Reference Absent),
    optional_method!(Engines EnginesMethod Checksum Static ChecksumGetInstance b"getInstance" [Byte Boolean] Reference Absent),
    optional_method!(Engines EnginesMethod Checksum Virtual ChecksumGetAlgorithm b"getAlgorithm" [] Byte Kept),
    optional_method!(Engines EnginesMethod Checksum Virtual ChecksumInit b"init" [Bytes Short Short] Void Kept),
    optional_method!(Engines EnginesMethod Checksum Virtual ChecksumUpdate b"update" [Bytes Short Short] Void Kept),
    optional_method!(Engines EnginesMethod Checksum Virtual ChecksumDoFinal b"doFinal" [Bytes Short Short Bytes Short] Short Kept),
    optional_method!(Engines EnginesMethod RandomData Static RandomDataGetInstance b"getInstance" [Byte] Reference Absent),
    optional_method!(Engines EnginesMethod RandomData Virtual RandomDataGenerateData b"generateData" [Bytes Short Short] Void Kept),
    optional_method!(Engines EnginesMethod RandomData Virtual RandomDataNextBytes b"nextBytes" [Bytes Short Short] Short Kept),
    optional_method!(Engines EnginesMethod RandomData Virtual RandomDataSetSeed b"setSeed" [Bytes Short Short] Void Kept),
    optional_method!(Engines EnginesMethod RandomData Virtual RandomDataGetAlgorithm b"getAlgorithm" [] Byte Kept),
    optional_method!(Engines EnginesMethod InitializedMessageDigest Virtual InitializedMessageDigestSetInitialDigest b"setInitialDigest" [Bytes Short Short Bytes Short Short] Void Kept),
];

/// The methods of `KeyBuilder` and the classes of keys, in the order of `KeysMethod`: class, kind, method, name, parameters, what is returned, the receiver.
pub(crate) static KEYS: [MethodRow; KEYS_COUNT] = [
    optional_method!(Keys KeysMethod KeyBuilder Static KeyBuilderBuildKey b"buildKey" [Byte Short Boolean] Reference Absent),
    optional_method!(Keys KeysMethod KeyObject Virtual KeyObjectClearKey b"clearKey" [] Void Kept),
    optional_method!(Keys KeysMethod KeyObject Virtual KeyObjectGetSize b"getSize" [] Short Kept),
    optional_method!(Keys KeysMethod KeyObject Virtual KeyObjectGetType b"getType" [] Byte Kept),
    optional_method!(Keys KeysMethod KeyObject Virtual KeyObjectIsInitialized b"isInitialized" [] Boolean Kept),
    optional_method!(Keys KeysMethod KeyObject Virtual KeyObjectGetKey b"getKey" [Bytes Short] Byte Kept),
    optional_method!(Keys KeysMethod KeyObject Virtual KeyObjectSetKey b"setKey" [Bytes Short] Void Kept),
    optional_method!(Keys KeysMethod HmacKeyObject Virtual HmacKeyObjectSetKey b"setKey" [Bytes Short Short] Void Kept),
];

/// The methods of the interfaces of keys, in the order of `KeyInterfacesMethod`: class, kind, method, name, parameters, what is returned, the receiver, what carries it out.
pub(crate) static KEY_INTERFACES: [MethodRow; KEY_INTERFACES_COUNT] = [
    optional_implemented_method!(KeyInterfaces KeyInterfacesMethod Key Interface KeyClearKey b"clearKey" [] Void Kept Keys KeysMethod KeyObjectClearKey),
    optional_implemented_method!(KeyInterfaces KeyInterfacesMethod Key Interface KeyGetSize b"getSize" [] Short Kept Keys KeysMethod KeyObjectGetSize),
    optional_implemented_method!(KeyInterfaces KeyInterfacesMethod Key Interface KeyGetType b"getType" [] Byte Kept Keys KeysMethod KeyObjectGetType),
    optional_implemented_method!(KeyInterfaces KeyInterfacesMethod Key Interface KeyIsInitialized b"isInitialized" [] Boolean Kept Keys KeysMethod KeyObjectIsInitialized),
    optional_implemented_method!(KeyInterfaces KeyInterfacesMethod SecretKey Interface SecretKeyClearKey b"clearKey" [] Void Kept Keys KeysMethod KeyObjectClearKey),
    optional_implemented_method!(KeyInterfaces KeyInterfacesMethod SecretKey Interface SecretKeyGetSize b"getSize" [] Short Kept Keys KeysMethod KeyObjectGetSize),
    optional_implemented_method!(KeyInterfaces KeyInterfacesMethod SecretKey Interface SecretKeyGetType b"getType" [] Byte Kept Keys KeysMethod KeyObjectGetType),
    optional_implemented_method!(KeyInterfaces KeyInterfacesMethod SecretKey Interface SecretKeyIsInitialized b"isInitialized" [] Boolean Kept Keys KeysMethod KeyObjectIsInitialized),
    optional_implemented_method!(KeyInterfaces KeyInterfacesMethod DesKey Interface DesKeyClearKey b"clearKey" [] Void Kept Keys KeysMethod KeyObjectClearKey),
    optional_implemented_method!(KeyInterfaces KeyInterfacesMethod DesKey Interface DesKeyGetSize b"getSize" [] Short Kept Keys KeysMethod KeyObjectGetSize),
    optional_implemented_method!(KeyInterfaces KeyInterfacesMethod DesKey Interface DesKeyGetType b"getType" [] Byte Kept Keys KeysMethod KeyObjectGetType),
    optional_implemented_method!(KeyInterfaces KeyInterfacesMethod DesKey Interface DesKeyIsInitialized b"isInitialized" [] Boolean Kept Keys KeysMethod KeyObjectIsInitialized),
    optional_implemented_method!(KeyInterfaces KeyInterfacesMethod DesKey Interface DesKeyGetKey b"getKey" [Bytes Short] Byte Kept Keys KeysMethod KeyObjectGetKey),
    optional_implemented_method!(KeyInterfaces KeyInterfacesMethod DesKey Interface DesKeySetKey b"setKey" [Bytes Short] Void Kept Keys KeysMethod KeyObjectSetKey),
    optional_implemented_method!(KeyInterfaces KeyInterfacesMethod AesKey Interface AesKeyClearKey b"clearKey" [] Void Kept Keys KeysMethod KeyObjectClearKey),
    optional_implemented_method!(KeyInterfaces KeyInterfacesMethod AesKey Interface AesKeyGetSize b"getSize" [] Short Kept Keys KeysMethod KeyObjectGetSize),
    optional_implemented_method!(KeyInterfaces KeyInterfacesMethod AesKey Interface AesKeyGetType b"getType" [] Byte Kept Keys KeysMethod KeyObjectGetType),
    optional_implemented_method!(KeyInterfaces KeyInterfacesMethod AesKey Interface AesKeyIsInitialized b"isInitialized" [] Boolean Kept Keys KeysMethod KeyObjectIsInitialized),
    optional_implemented_method!(KeyInterfaces KeyInterfacesMethod AesKey Interface AesKeyGetKey b"getKey" [Bytes Short] Byte Kept Keys KeysMethod KeyObjectGetKey),
    optional_implemented_method!(KeyInterfaces KeyInterfacesMethod AesKey Interface AesKeySetKey b"setKey" [Bytes Short] Void Kept Keys KeysMethod KeyObjectSetKey),
    optional_implemented_method!(KeyInterfaces KeyInterfacesMethod HmacKey Interface HmacKeyClearKey b"clearKey" [] Void Kept Keys KeysMethod KeyObjectClearKey),
    optional_implemented_method!(KeyInterfaces KeyInterfacesMethod HmacKey Interface HmacKeyGetSize b"getSize" [] Short Kept Keys KeysMethod KeyObjectGetSize),
    optional_implemented_method!(KeyInterfaces KeyInterfacesMethod HmacKey Interface HmacKeyGetType b"getType" [] Byte Kept Keys KeysMethod KeyObjectGetType),
    optional_implemented_method!(KeyInterfaces KeyInterfacesMethod HmacKey Interface HmacKeyIsInitialized b"isInitialized" [] Boolean Kept Keys KeysMethod KeyObjectIsInitialized),
    optional_implemented_method!(KeyInterfaces KeyInterfacesMethod HmacKey Interface HmacKeyGetKey b"getKey" [Bytes Short] Byte Kept Keys KeysMethod KeyObjectGetKey),
    optional_implemented_method!(KeyInterfaces KeyInterfacesMethod HmacKey Interface HmacKeySetKey b"setKey" [Bytes Short Short] Void Kept Keys KeysMethod HmacKeyObjectSetKey),
];

/// The methods of `Cipher` and `Signature`, in the order of `CiphersMethod`: class, kind, method, name, parameters, what is returned, the receiver.
pub(crate) static CIPHERS: [MethodRow; CIPHERS_COUNT] = [
    optional_method!(Ciphers CiphersMethod Cipher Static CipherGetInstance b"getInstance" [Byte Boolean] Reference Absent),
    optional_method!(Ciphers CiphersMethod Cipher Static CipherGetInstanceOfCipherAndPadding b"getInstanceOfCipherAndPadding" [Byte Byte Boolean] Reference Absent),
    optional_method!(Ciphers CiphersMethod Cipher Virtual CipherInit b"init" [Anything Byte] Void Changed),
    optional_method!(Ciphers CiphersMethod Cipher Virtual CipherInitWithVector b"initWithVector" [Anything Byte Bytes Short Short] Void Changed),
    optional_method!(Ciphers CiphersMethod Cipher Virtual CipherUpdate b"update" [Bytes Short Short Bytes Short] Short Kept),
    optional_method!(Ciphers CiphersMethod Cipher Virtual CipherDoFinal b"doFinal" [Bytes Short Short Bytes Short] Short Kept),
    optional_method!(Ciphers CiphersMethod Cipher Virtual CipherGetAlgorithm b"getAlgorithm" [] Byte Kept),
    optional_method!(Ciphers CiphersMethod Cipher Virtual CipherGetCipherAlgorithm b"getCipherAlgorithm" [] Byte Kept),
    optional_method!(Ciphers CiphersMethod Cipher Virtual CipherGetPaddingAlgorithm b"getPaddingAlgorithm" [] Byte Kept),
    optional_method!(Ciphers CiphersMethod Signature Static SignatureGetInstance b"getInstance" [Byte Boolean] Reference Absent),
    optional_method!(Ciphers CiphersMethod Signature Static SignatureGetInstanceOfDigestCipherAndPadding b"getInstanceOfDigestCipherAndPadding" [Byte Byte Byte Boolean] Reference Absent),
    optional_method!(Ciphers CiphersMethod Signature Virtual SignatureInit b"init" [Anything Byte] Void Changed),
    optional_method!(Ciphers CiphersMethod Signature Virtual SignatureInitWithVector b"initWithVector" [Anything Byte Bytes Short Short] Void Changed),
    optional_method!(Ciphers CiphersMethod Signature Virtual SignatureUpdate b"update" [Bytes Short Short] Void Kept),
    optional_method!(Ciphers CiphersMethod Signature Virtual SignatureSign b"sign" [Bytes Short Short Bytes Short] Short Kept),
    optional_method!(Ciphers CiphersMethod Signature Virtual SignatureVerify b"verify" [Bytes Short Short Bytes Short Short] Boolean Kept),
    optional_method!(Ciphers CiphersMethod Signature Virtual SignatureGetAlgorithm b"getAlgorithm" [] Byte Kept),
    optional_method!(Ciphers CiphersMethod Signature Virtual SignatureGetMessageDigestAlgorithm b"getMessageDigestAlgorithm" [] Byte Kept),
    optional_method!(Ciphers CiphersMethod Signature Virtual SignatureGetCipherAlgorithm b"getCipherAlgorithm" [] Byte Kept),
    optional_method!(Ciphers CiphersMethod Signature Virtual SignatureGetPaddingAlgorithm b"getPaddingAlgorithm" [] Byte Kept),
    optional_method!(Ciphers CiphersMethod Signature Virtual SignatureGetLength b"getLength" [] Short Kept),
];

/// The methods of the classes of RSA keys, in the order of `RsaKeysMethod`: class, kind, method, name, parameters, what is returned, the receiver.
pub(crate) static RSA_KEYS: [MethodRow; RSA_KEYS_COUNT] = [
    optional_method!(RsaKeys RsaKeysMethod RsaKeyObject Virtual RsaKeyObjectSetModulus b"setModulus" [Bytes Short Short] Void Kept),
    optional_method!(RsaKeys RsaKeysMethod RsaKeyObject Virtual RsaKeyObjectSetExponent b"setExponent" [Bytes Short Short] Void Kept),
    optional_method!(RsaKeys RsaKeysMethod RsaKeyObject Virtual RsaKeyObjectGetModulus b"getModulus" [Bytes Short] Short Kept),
    optional_method!(RsaKeys RsaKeysMethod RsaKeyObject Virtual RsaKeyObjectGetExponent b"getExponent" [Bytes Short] Short Kept),
    optional_method!(RsaKeys RsaKeysMethod RsaPrivateCrtKeyObject Virtual RsaPrivateCrtKeyObjectSetP b"setP" [Bytes Short Short] Void Kept),
    optional_method!(RsaKeys RsaKeysMethod RsaPrivateCrtKeyObject Virtual RsaPrivateCrtKeyObjectSetQ b"setQ" [Bytes Short Short] Void Kept),
    optional_method!(RsaKeys RsaKeysMethod RsaPrivateCrtKeyObject Virtual RsaPrivateCrtKeyObjectSetDp1 b"setDP1" [Bytes Short Short] Void Kept),
    optional_method!(RsaKeys RsaKeysMethod RsaPrivateCrtKeyObject Virtual RsaPrivateCrtKeyObjectSetDq1 b"setDQ1" [Bytes Short Short] Void Kept),
    optional_method!(RsaKeys RsaKeysMethod RsaPrivateCrtKeyObject Virtual RsaPrivateCrtKeyObjectSetPq b"setPQ" [Bytes Short Short] Void Kept),
    optional_method!(RsaKeys RsaKeysMethod RsaPrivateCrtKeyObject Virtual RsaPrivateCrtKeyObjectGetP b"getP" [Bytes Short] Short Kept),
    optional_method!(RsaKeys RsaKeysMethod RsaPrivateCrtKeyObject Virtual RsaPrivateCrtKeyObjectGetQ b"getQ" [Bytes Short] Short Kept),
    optional_method!(RsaKeys RsaKeysMethod RsaPrivateCrtKeyObject Virtual RsaPrivateCrtKeyObjectGetDp1 b"getDP1" [Bytes Short] Short Kept),
    optional_method!(RsaKeys RsaKeysMethod RsaPrivateCrtKeyObject Virtual RsaPrivateCrtKeyObjectGetDq1 b"getDQ1" [Bytes Short] Short Kept),
    optional_method!(RsaKeys RsaKeysMethod RsaPrivateCrtKeyObject Virtual RsaPrivateCrtKeyObjectGetPq b"getPQ" [Bytes Short] Short Kept),
];

/// The methods of the classes of keys on elliptic curves, in the order of `EcKeysMethod`: class, kind, method, name, parameters, what is returned, the receiver.
pub(crate) static EC_KEYS: [MethodRow; EC_KEYS_COUNT] = [
    optional_method!(EcKeys EcKeysMethod EcKeyObject Virtual EcKeyObjectSetFieldFp b"setFieldFP" [Bytes Short Short] Void Kept),
    optional_method!(EcKeys EcKeysMethod EcKeyObject Virtual EcKeyObjectSetFieldF2m b"setFieldF2M" [Short] Void Kept),
    optional_method!(EcKeys EcKeysMethod EcKeyObject Virtual EcKeyObjectSetFieldF2mOfThree b"setFieldF2MOfThree" [Short Short Short] Void Kept),
    optional_method!(EcKeys EcKeysMethod EcKeyObject Virtual EcKeyObjectSetA b"setA" [Bytes Short Short] Void Kept),
    optional_method!(EcKeys EcKeysMethod EcKeyObject Virtual EcKeyObjectSetB b"setB" [Bytes Short Short] Void Kept),
    optional_method!(EcKeys EcKeysMethod EcKeyObject Virtual EcKeyObjectSetG b"setG" [Bytes Short Short] Void Kept),
    optional_method!(EcKeys EcKeysMethod EcKeyObject Virtual EcKeyObjectSetR b"setR" [Bytes Short Short] Void Kept),
    optional_method!(EcKeys EcKeysMethod EcKeyObject Virtual EcKeyObjectSetK b"setK" [Short] Void Kept),
    optional_method!(EcKeys EcKeysMethod EcKeyObject Virtual EcKeyObjectGetField b"getField" [Bytes Short] Short Kept),
    optional_method!(EcKeys EcKeysMethod EcKeyObject Virtual EcKeyObjectGetA b"getA" [Bytes Short] Short Kept),
    optional_method!(EcKeys EcKeysMethod EcKeyObject Virtual EcKeyObjectGetB b"getB" [Bytes Short] Short Kept),
    optional_method!(EcKeys EcKeysMethod EcKeyObject Virtual EcKeyObjectGetG b"getG" [Bytes Short] Short Kept),
    optional_method!(EcKeys EcKeysMethod EcKeyObject Virtual EcKeyObjectGetR b"getR" [Bytes Short] Short Kept),
    optional_method!(EcKeys EcKeysMethod EcKeyObject Virtual EcKeyObjectGetK b"getK" [] Short Kept),
    optional_method!(EcKeys EcKeysMethod EcKeyObject Virtual EcKeyObjectCopyDomainParametersFrom b"copyDomainParametersFrom" [Anything] Void Kept),
    optional_method!(EcKeys EcKeysMethod EcPublicKeyObject Virtual EcPublicKeyObjectSetW b"setW" [Bytes Short Short] Void Kept),
    optional_method!(EcKeys EcKeysMethod EcPublicKeyObject Virtual EcPublicKeyObjectGetW b"getW" [Bytes Short] Short Kept),
    optional_method!(EcKeys EcKeysMethod EcPrivateKeyObject Virtual EcPrivateKeyObjectSetS b"setS" [Bytes Short Short] Void Kept),
    optional_method!(EcKeys EcKeysMethod EcPrivateKeyObject Virtual EcPrivateKeyObjectGetS b"getS" [Bytes Short] Short Kept),
];

/// The methods of the interfaces of public keys, of private keys and of RSA keys, in the order of `RsaInterfacesMethod`: class, kind, method, name, parameters, what is returned, the receiver, what carries it out.
pub(crate) static RSA_INTERFACES: [MethodRow; RSA_INTERFACES_COUNT] = [
    optional_implemented_method!(RsaInterfaces RsaInterfacesMethod PrivateKey Interface PrivateKeyClearKey b"clearKey" [] Void Kept Keys KeysMethod KeyObjectClearKey),
    optional_implemented_method!(RsaInterfaces RsaInterfacesMethod PrivateKey Interface PrivateKeyGetSize b"getSize" [] Short Kept Keys KeysMethod KeyObjectGetSize),
    optional_implemented_method!(RsaInterfaces RsaInterfacesMethod PrivateKey Interface PrivateKeyGetType b"getType" [] Byte Kept Keys KeysMethod KeyObjectGetType),
    optional_implemented_method!(RsaInterfaces RsaInterfacesMethod PrivateKey Interface PrivateKeyIsInitialized b"isInitialized" [] Boolean Kept Keys KeysMethod KeyObjectIsInitialized),
    optional_implemented_method!(RsaInterfaces RsaInterfacesMethod PublicKey Interface PublicKeyClearKey b"clearKey" [] Void Kept Keys KeysMethod KeyObjectClearKey),
    optional_implemented_method!(RsaInterfaces RsaInterfacesMethod PublicKey Interface PublicKeyGetSize b"getSize" [] Short Kept Keys KeysMethod KeyObjectGetSize),
    optional_implemented_method!(RsaInterfaces RsaInterfacesMethod PublicKey Interface PublicKeyGetType b"getType" [] Byte Kept Keys KeysMethod KeyObjectGetType),
    optional_implemented_method!(RsaInterfaces RsaInterfacesMethod PublicKey Interface PublicKeyIsInitialized b"isInitialized" [] Boolean Kept Keys KeysMethod KeyObjectIsInitialized),
    optional_implemented_method!(RsaInterfaces RsaInterfacesMethod RsaPublicKey Interface RsaPublicKeyClearKey b"clearKey" [] Void Kept Keys KeysMethod KeyObjectClearKey),
    optional_implemented_method!(RsaInterfaces RsaInterfacesMethod RsaPublicKey Interface RsaPublicKeyGetSize b"getSize" [] Short Kept Keys KeysMethod KeyObjectGetSize),
    optional_implemented_method!(RsaInterfaces RsaInterfacesMethod RsaPublicKey Interface RsaPublicKeyGetType b"getType" [] Byte Kept Keys KeysMethod KeyObjectGetType),
    optional_implemented_method!(RsaInterfaces RsaInterfacesMethod RsaPublicKey Interface RsaPublicKeyIsInitialized b"isInitialized" [] Boolean Kept Keys KeysMethod KeyObjectIsInitialized),
    optional_implemented_method!(RsaInterfaces RsaInterfacesMethod RsaPublicKey Interface RsaPublicKeySetModulus b"setModulus" [Bytes Short Short] Void Kept RsaKeys RsaKeysMethod RsaKeyObjectSetModulus),
    optional_implemented_method!(RsaInterfaces RsaInterfacesMethod RsaPublicKey Interface RsaPublicKeySetExponent b"setExponent" [Bytes Short Short] Void Kept RsaKeys RsaKeysMethod RsaKeyObjectSetExponent),
    optional_implemented_method!(RsaInterfaces RsaInterfacesMethod RsaPublicKey Interface RsaPublicKeyGetModulus b"getModulus" [Bytes Short] Short Kept RsaKeys RsaKeysMethod RsaKeyObjectGetModulus),
    optional_implemented_method!(RsaInterfaces RsaInterfacesMethod RsaPublicKey Interface RsaPublicKeyGetExponent b"getExponent" [Bytes Short] Short Kept RsaKeys RsaKeysMethod RsaKeyObjectGetExponent),
    optional_implemented_method!(RsaInterfaces RsaInterfacesMethod RsaPrivateKey Interface RsaPrivateKeyClearKey b"clearKey" [] Void Kept Keys KeysMethod KeyObjectClearKey),
    optional_implemented_method!(RsaInterfaces RsaInterfacesMethod RsaPrivateKey Interface RsaPrivateKeyGetSize b"getSize" [] Short Kept Keys KeysMethod KeyObjectGetSize),
    optional_implemented_method!(RsaInterfaces RsaInterfacesMethod RsaPrivateKey Interface RsaPrivateKeyGetType b"getType" [] Byte Kept Keys KeysMethod KeyObjectGetType),
    optional_implemented_method!(RsaInterfaces RsaInterfacesMethod RsaPrivateKey Interface RsaPrivateKeyIsInitialized b"isInitialized" [] Boolean Kept Keys KeysMethod KeyObjectIsInitialized),
    optional_implemented_method!(RsaInterfaces RsaInterfacesMethod RsaPrivateKey Interface RsaPrivateKeySetModulus b"setModulus" [Bytes Short Short] Void Kept RsaKeys RsaKeysMethod RsaKeyObjectSetModulus),
    optional_implemented_method!(RsaInterfaces RsaInterfacesMethod RsaPrivateKey Interface RsaPrivateKeySetExponent b"setExponent" [Bytes Short Short] Void Kept RsaKeys RsaKeysMethod RsaKeyObjectSetExponent),
    optional_implemented_method!(RsaInterfaces RsaInterfacesMethod RsaPrivateKey Interface RsaPrivateKeyGetModulus b"getModulus" [Bytes Short] Short Kept RsaKeys RsaKeysMethod RsaKeyObjectGetModulus),
    optional_implemented_method!(RsaInterfaces RsaInterfacesMethod RsaPrivateKey Interface RsaPrivateKeyGetExponent b"getExponent" [Bytes Short] Short Kept RsaKeys RsaKeysMethod RsaKeyObjectGetExponent),
    optional_implemented_method!(RsaInterfaces RsaInterfacesMethod RsaPrivateCrtKey Interface RsaPrivateCrtKeyClearKey b"clearKey" [] Void Kept Keys KeysMethod KeyObjectClearKey),
    optional_implemented_method!(RsaInterfaces RsaInterfacesMethod RsaPrivateCrtKey Interface RsaPrivateCrtKeyGetSize b"getSize" [] Short Kept Keys KeysMethod KeyObjectGetSize),
    optional_implemented_method!(RsaInterfaces RsaInterfacesMethod RsaPrivateCrtKey Interface RsaPrivateCrtKeyGetType b"getType" [] Byte Kept Keys KeysMethod KeyObjectGetType),
    optional_implemented_method!(RsaInterfaces RsaInterfacesMethod RsaPrivateCrtKey Interface RsaPrivateCrtKeyIsInitialized b"isInitialized" [] Boolean Kept Keys KeysMethod KeyObjectIsInitialized),
    optional_implemented_method!(RsaInterfaces RsaInterfacesMethod RsaPrivateCrtKey Interface RsaPrivateCrtKeySetP b"setP" [Bytes Short Short] Void Kept RsaKeys RsaKeysMethod RsaPrivateCrtKeyObjectSetP),
    optional_implemented_method!(RsaInterfaces RsaInterfacesMethod RsaPrivateCrtKey Interface RsaPrivateCrtKeySetQ b"setQ" [Bytes Short Short] Void Kept RsaKeys RsaKeysMethod RsaPrivateCrtKeyObjectSetQ),
    optional_implemented_method!(RsaInterfaces RsaInterfacesMethod RsaPrivateCrtKey Interface RsaPrivateCrtKeySetDp1 b"setDP1" [Bytes Short Short] Void Kept RsaKeys RsaKeysMethod RsaPrivateCrtKeyObjectSetDp1),
    optional_implemented_method!(RsaInterfaces RsaInterfacesMethod RsaPrivateCrtKey Interface RsaPrivateCrtKeySetDq1 b"setDQ1" [Bytes Short Short] Void Kept RsaKeys RsaKeysMethod RsaPrivateCrtKeyObjectSetDq1),
    optional_implemented_method!(RsaInterfaces RsaInterfacesMethod RsaPrivateCrtKey Interface RsaPrivateCrtKeySetPq b"setPQ" [Bytes Short Short] Void Kept RsaKeys RsaKeysMethod RsaPrivateCrtKeyObjectSetPq),
    optional_implemented_method!(RsaInterfaces RsaInterfacesMethod RsaPrivateCrtKey Interface RsaPrivateCrtKeyGetP b"getP" [Bytes Short] Short Kept RsaKeys RsaKeysMethod RsaPrivateCrtKeyObjectGetP),
    optional_implemented_method!(RsaInterfaces RsaInterfacesMethod RsaPrivateCrtKey Interface RsaPrivateCrtKeyGetQ b"getQ" [Bytes Short] Short Kept RsaKeys RsaKeysMethod RsaPrivateCrtKeyObjectGetQ),
    optional_implemented_method!(RsaInterfaces RsaInterfacesMethod RsaPrivateCrtKey Interface RsaPrivateCrtKeyGetDp1 b"getDP1" [Bytes Short] Short Kept RsaKeys RsaKeysMethod RsaPrivateCrtKeyObjectGetDp1),
    optional_implemented_method!(RsaInterfaces RsaInterfacesMethod RsaPrivateCrtKey Interface RsaPrivateCrtKeyGetDq1 b"getDQ1" [Bytes Short] Short Kept RsaKeys RsaKeysMethod RsaPrivateCrtKeyObjectGetDq1),
    optional_implemented_method!(RsaInterfaces RsaInterfacesMethod RsaPrivateCrtKey Interface RsaPrivateCrtKeyGetPq b"getPQ" [Bytes Short] Short Kept RsaKeys RsaKeysMethod RsaPrivateCrtKeyObjectGetPq),
];

/// The methods of the interfaces of keys on elliptic curves, in the order of `EcInterfacesMethod`: class, kind, method, name, parameters, what is returned, the receiver, what carries it out.
pub(crate) static EC_INTERFACES: [MethodRow; EC_INTERFACES_COUNT] = [
    optional_implemented_method!(EcInterfaces EcInterfacesMethod EcKey Interface EcKeySetFieldFp b"setFieldFP" [Bytes Short Short] Void Kept EcKeys EcKeysMethod EcKeyObjectSetFieldFp),
    optional_implemented_method!(EcInterfaces EcInterfacesMethod EcKey Interface EcKeySetFieldF2m b"setFieldF2M" [Short] Void Kept EcKeys EcKeysMethod EcKeyObjectSetFieldF2m),
    optional_implemented_method!(EcInterfaces EcInterfacesMethod EcKey Interface EcKeySetFieldF2mOfThree b"setFieldF2MOfThree" [Short Short Short] Void Kept EcKeys EcKeysMethod EcKeyObjectSetFieldF2mOfThree),
    optional_implemented_method!(EcInterfaces EcInterfacesMethod EcKey Interface EcKeySetA b"setA" [Bytes Short Short] Void Kept EcKeys EcKeysMethod EcKeyObjectSetA),
    optional_implemented_method!(EcInterfaces EcInterfacesMethod EcKey Interface EcKeySetB b"setB" [Bytes Short Short] Void Kept EcKeys EcKeysMethod EcKeyObjectSetB),
    optional_implemented_method!(EcInterfaces EcInterfacesMethod EcKey Interface EcKeySetG b"setG" [Bytes Short Short] Void Kept EcKeys EcKeysMethod EcKeyObjectSetG),
    optional_implemented_method!(EcInterfaces EcInterfacesMethod EcKey Interface EcKeySetR b"setR" [Bytes Short Short] Void Kept EcKeys EcKeysMethod EcKeyObjectSetR),
    optional_implemented_method!(EcInterfaces EcInterfacesMethod EcKey Interface EcKeySetK b"setK" [Short] Void Kept EcKeys EcKeysMethod EcKeyObjectSetK),
    optional_implemented_method!(EcInterfaces EcInterfacesMethod EcKey Interface EcKeyGetField b"getField" [Bytes Short] Short Kept EcKeys EcKeysMethod EcKeyObjectGetField),
    optional_implemented_method!(EcInterfaces EcInterfacesMethod EcKey Interface EcKeyGetA b"getA" [Bytes Short] Short Kept EcKeys EcKeysMethod EcKeyObjectGetA),
    optional_implemented_method!(EcInterfaces EcInterfacesMethod EcKey Interface EcKeyGetB b"getB" [Bytes Short] Short Kept EcKeys EcKeysMethod EcKeyObjectGetB),
    optional_implemented_method!(EcInterfaces EcInterfacesMethod EcKey Interface EcKeyGetG b"getG" [Bytes Short] Short Kept EcKeys EcKeysMethod EcKeyObjectGetG),
    optional_implemented_method!(EcInterfaces EcInterfacesMethod EcKey Interface EcKeyGetR b"getR" [Bytes Short] Short Kept EcKeys EcKeysMethod EcKeyObjectGetR),
    optional_implemented_method!(EcInterfaces EcInterfacesMethod EcKey Interface EcKeyGetK b"getK" [] Short Kept EcKeys EcKeysMethod EcKeyObjectGetK),
    optional_implemented_method!(EcInterfaces EcInterfacesMethod EcKey Interface EcKeyCopyDomainParametersFrom b"copyDomainParametersFrom" [Anything] Void Kept EcKeys EcKeysMethod EcKeyObjectCopyDomainParametersFrom),
    optional_implemented_method!(EcInterfaces EcInterfacesMethod EcPublicKey Interface EcPublicKeyClearKey b"clearKey" [] Void Kept Keys KeysMethod KeyObjectClearKey),
    optional_implemented_method!(EcInterfaces EcInterfacesMethod EcPublicKey Interface EcPublicKeyGetSize b"getSize" [] Short Kept Keys KeysMethod KeyObjectGetSize),
    optional_implemented_method!(EcInterfaces EcInterfacesMethod EcPublicKey Interface EcPublicKeyGetType b"getType" [] Byte Kept Keys KeysMethod KeyObjectGetType),
    optional_implemented_method!(EcInterfaces EcInterfacesMethod EcPublicKey Interface EcPublicKeyIsInitialized b"isInitialized" [] Boolean Kept Keys KeysMethod KeyObjectIsInitialized),
    optional_implemented_method!(EcInterfaces EcInterfacesMethod EcPublicKey Interface EcPublicKeySetFieldFp b"setFieldFP" [Bytes Short Short] Void Kept EcKeys EcKeysMethod EcKeyObjectSetFieldFp),
    optional_implemented_method!(EcInterfaces EcInterfacesMethod EcPublicKey Interface EcPublicKeySetFieldF2m b"setFieldF2M" [Short] Void Kept EcKeys EcKeysMethod EcKeyObjectSetFieldF2m),
    optional_implemented_method!(EcInterfaces EcInterfacesMethod EcPublicKey Interface EcPublicKeySetFieldF2mOfThree b"setFieldF2MOfThree" [Short Short Short] Void Kept EcKeys EcKeysMethod EcKeyObjectSetFieldF2mOfThree),
    optional_implemented_method!(EcInterfaces EcInterfacesMethod EcPublicKey Interface EcPublicKeySetA b"setA" [Bytes Short Short] Void Kept EcKeys EcKeysMethod EcKeyObjectSetA),
    optional_implemented_method!(EcInterfaces EcInterfacesMethod EcPublicKey Interface EcPublicKeySetB b"setB" [Bytes Short Short] Void Kept EcKeys EcKeysMethod EcKeyObjectSetB),
    optional_implemented_method!(EcInterfaces EcInterfacesMethod EcPublicKey Interface EcPublicKeySetG b"setG" [Bytes Short Short] Void Kept EcKeys EcKeysMethod EcKeyObjectSetG),
    optional_implemented_method!(EcInterfaces EcInterfacesMethod EcPublicKey Interface EcPublicKeySetR b"setR" [Bytes Short Short] Void Kept EcKeys EcKeysMethod EcKeyObjectSetR),
    optional_implemented_method!(EcInterfaces EcInterfacesMethod EcPublicKey Interface EcPublicKeySetK b"setK" [Short] Void Kept EcKeys EcKeysMethod EcKeyObjectSetK),
    optional_implemented_method!(EcInterfaces EcInterfacesMethod EcPublicKey Interface EcPublicKeyGetField b"getField" [Bytes Short] Short Kept EcKeys EcKeysMethod EcKeyObjectGetField),
    optional_implemented_method!(EcInterfaces EcInterfacesMethod EcPublicKey Interface EcPublicKeyGetA b"getA" [Bytes Short] Short Kept EcKeys EcKeysMethod EcKeyObjectGetA),
    optional_implemented_method!(EcInterfaces EcInterfacesMethod EcPublicKey Interface EcPublicKeyGetB b"getB" [Bytes Short] Short Kept EcKeys EcKeysMethod EcKeyObjectGetB),
    optional_implemented_method!(EcInterfaces EcInterfacesMethod EcPublicKey Interface EcPublicKeyGetG b"getG" [Bytes Short] Short Kept EcKeys EcKeysMethod EcKeyObjectGetG),
    optional_implemented_method!(EcInterfaces EcInterfacesMethod EcPublicKey Interface EcPublicKeyGetR b"getR" [Bytes Short] Short Kept EcKeys EcKeysMethod EcKeyObjectGetR),
    optional_implemented_method!(EcInterfaces EcInterfacesMethod EcPublicKey Interface EcPublicKeyGetK b"getK" [] Short Kept EcKeys EcKeysMethod EcKeyObjectGetK),
    optional_implemented_method!(EcInterfaces EcInterfacesMethod EcPublicKey Interface EcPublicKeyCopyDomainParametersFrom b"copyDomainParametersFrom" [Anything] Void Kept EcKeys EcKeysMethod EcKeyObjectCopyDomainParametersFrom),
    optional_implemented_method!(EcInterfaces EcInterfacesMethod EcPublicKey Interface EcPublicKeySetW b"setW" [Bytes Short Short] Void Kept EcKeys EcKeysMethod EcPublicKeyObjectSetW),
    optional_implemented_method!(EcInterfaces EcInterfacesMethod EcPublicKey Interface EcPublicKeyGetW b"getW" [Bytes Short] Short Kept EcKeys EcKeysMethod EcPublicKeyObjectGetW),
    optional_implemented_method!(EcInterfaces EcInterfacesMethod EcPrivateKey Interface EcPrivateKeyClearKey b"clearKey" [] Void Kept Keys KeysMethod KeyObjectClearKey),
    optional_implemented_method!(EcInterfaces EcInterfacesMethod EcPrivateKey Interface EcPrivateKeyGetSize b"getSize" [] Short Kept Keys KeysMethod KeyObjectGetSize),
    optional_implemented_method!(EcInterfaces EcInterfacesMethod EcPrivateKey Interface EcPrivateKeyGetType b"getType" [] Byte Kept Keys KeysMethod KeyObjectGetType),
    optional_implemented_method!(EcInterfaces EcInterfacesMethod EcPrivateKey Interface EcPrivateKeyIsInitialized b"isInitialized" [] Boolean Kept Keys KeysMethod KeyObjectIsInitialized),
    optional_implemented_method!(EcInterfaces EcInterfacesMethod EcPrivateKey Interface EcPrivateKeySetFieldFp b"setFieldFP" [Bytes Short Short] Void Kept EcKeys EcKeysMethod EcKeyObjectSetFieldFp),
    optional_implemented_method!(EcInterfaces EcInterfacesMethod EcPrivateKey Interface EcPrivateKeySetFieldF2m b"setFieldF2M" [Short] Void Kept EcKeys EcKeysMethod EcKeyObjectSetFieldF2m),
    optional_implemented_method!(EcInterfaces EcInterfacesMethod EcPrivateKey Interface EcPrivateKeySetFieldF2mOfThree b"setFieldF2MOfThree" [Short Short Short] Void Kept EcKeys EcKeysMethod EcKeyObjectSetFieldF2mOfThree),
    optional_implemented_method!(EcInterfaces EcInterfacesMethod EcPrivateKey Interface EcPrivateKeySetA b"setA" [Bytes Short Short] Void Kept EcKeys EcKeysMethod EcKeyObjectSetA),
    optional_implemented_method!(EcInterfaces EcInterfacesMethod EcPrivateKey Interface EcPrivateKeySetB b"setB" [Bytes Short Short] Void Kept EcKeys EcKeysMethod EcKeyObjectSetB),
    optional_implemented_method!(EcInterfaces EcInterfacesMethod EcPrivateKey Interface EcPrivateKeySetG b"setG" [Bytes Short Short] Void Kept EcKeys EcKeysMethod EcKeyObjectSetG),
    optional_implemented_method!(EcInterfaces EcInterfacesMethod EcPrivateKey Interface EcPrivateKeySetR b"setR" [Bytes Short Short] Void Kept EcKeys EcKeysMethod EcKeyObjectSetR),
    optional_implemented_method!(EcInterfaces EcInterfacesMethod EcPrivateKey Interface EcPrivateKeySetK b"setK" [Short] Void Kept EcKeys EcKeysMethod EcKeyObjectSetK),
    optional_implemented_method!(EcInterfaces EcInterfacesMethod EcPrivateKey Interface EcPrivateKeyGetField b"getField" [Bytes Short] Short Kept EcKeys EcKeysMethod EcKeyObjectGetField),
    optional_implemented_method!(EcInterfaces EcInterfacesMethod EcPrivateKey Interface EcPrivateKeyGetA b"getA" [Bytes Short] Short Kept EcKeys EcKeysMethod EcKeyObjectGetA),
    optional_implemented_method!(EcInterfaces EcInterfacesMethod EcPrivateKey Interface EcPrivateKeyGetB b"getB" [Bytes Short] Short Kept EcKeys EcKeysMethod EcKeyObjectGetB),
    optional_implemented_method!(EcInterfaces EcInterfacesMethod EcPrivateKey Interface EcPrivateKeyGetG b"getG" [Bytes Short] Short Kept EcKeys EcKeysMethod EcKeyObjectGetG),
    optional_implemented_method!(EcInterfaces EcInterfacesMethod EcPrivateKey Interface EcPrivateKeyGetR b"getR" [Bytes Short] Short Kept EcKeys EcKeysMethod EcKeyObjectGetR),
    optional_implemented_method!(EcInterfaces EcInterfacesMethod EcPrivateKey Interface EcPrivateKeyGetK b"getK" [] Short Kept EcKeys EcKeysMethod EcKeyObjectGetK),
    optional_implemented_method!(EcInterfaces EcInterfacesMethod EcPrivateKey Interface EcPrivateKeyCopyDomainParametersFrom b"copyDomainParametersFrom" [Anything] Void Kept EcKeys EcKeysMethod EcKeyObjectCopyDomainParametersFrom),
    optional_implemented_method!(EcInterfaces EcInterfacesMethod EcPrivateKey Interface EcPrivateKeySetS b"setS" [Bytes Short Short] Void Kept EcKeys EcKeysMethod EcPrivateKeyObjectSetS),
    optional_implemented_method!(EcInterfaces EcInterfacesMethod EcPrivateKey Interface EcPrivateKeyGetS b"getS" [Bytes Short] Short Kept EcKeys EcKeysMethod EcPrivateKeyObjectGetS),
];

/// The methods of `KeyPair` and `KeyAgreement`, in the order of `KeyPairsMethod`: class, kind, method, name, parameters, what is returned, the receiver.
pub(crate) static KEY_PAIRS: [MethodRow; KEY_PAIRS_COUNT] = [
    optional_method!(KeyPairs KeyPairsMethod KeyPair Static KeyPairInit b"<init>" [Byte Short] Void Changed),
    optional_method!(KeyPairs KeyPairsMethod KeyPair Static KeyPairInitOfKeys b"<init>OfKeys" [Anything Anything] Void Changed),
    optional_method!(KeyPairs KeyPairsMethod KeyPair Virtual KeyPairGenKeyPair b"genKeyPair" [] Void Kept),
    optional_method!(KeyPairs KeyPairsMethod KeyPair Virtual KeyPairGetPublic b"getPublic" [] Reference Kept),
    optional_method!(KeyPairs KeyPairsMethod KeyPair Virtual KeyPairGetPrivate b"getPrivate" [] Reference Kept),
    optional_method!(KeyPairs KeyPairsMethod KeyAgreement Static KeyAgreementGetInstance b"getInstance" [Byte Boolean] Reference Absent),
    optional_method!(KeyPairs KeyPairsMethod KeyAgreement Virtual KeyAgreementInit b"init" [Anything] Void Changed),
    optional_method!(KeyPairs KeyPairsMethod KeyAgreement Virtual KeyAgreementGenerateSecret b"generateSecret" [Bytes Short Short Bytes Short] Short Kept),
    optional_method!(KeyPairs KeyPairsMethod KeyAgreement Virtual KeyAgreementGetAlgorithm b"getAlgorithm" [] Byte Kept),
];

/// The place of each package's first class, in the order of `PlatformPackage`; after them how many classes there are.
pub(crate) static FIRST_CLASSES: [usize; PACKAGE_COUNT + 1] = [0, 12, 31, 32, 65, CLASS_COUNT];

/// A room: the methods of some classes.
#[derive(Clone, Copy)]
pub(crate) enum Room {
    Objects,
    Exceptions,
    Utilities,
    System,
    Aids,
    Pins,
    Applets,
    Apdus,
    Events,
    Engines,
    Keys,
    KeyInterfaces,
    Ciphers,
    RsaKeys,
    EcKeys,
    RsaInterfaces,
    EcInterfaces,
    KeyPairs,
}

/// Where the methods of a class stand: a room, the place of the first one there, and that after the last.
#[derive(Clone, Copy)]
pub(crate) struct Stretch {
    pub(crate) room: Room,
    pub(crate) first: usize,
    pub(crate) end: usize,
}

macro_rules! stretch {
    ($room:ident $first:literal $end:literal) => {
        Stretch {
            room: Room::$room,
            first: $first,
            end: $end,
        }
    };
}

/// Where the methods of each class stand, in the order of `PlatformClass`.
pub(crate) static STRETCHES: [Stretch; CLASS_COUNT] = [
    stretch!(Objects 0 2),
    stretch!(Objects 2 3),
    stretch!(Objects 3 4),
    stretch!(Objects 4 5),
    stretch!(Objects 5 6),
    stretch!(Objects 6 7),
    stretch!(Objects 7 8),
    stretch!(Objects 8 9),
    stretch!(Objects 9 10),
    stretch!(Objects 10 11),
    stretch!(Objects 11 12),
    stretch!(Objects 12 13),
    stretch!(Objects 0 0),
    stretch!(Pins 0 4),
    stretch!(Applets 0 9),
    stretch!(Apdus 0 24),
    stretch!(Aids 0 7),
    stretch!(System 0 22),
    stretch!(Utilities 0 8),
    stretch!(Pins 4 13),
    stretch!(Exceptions 0 4),
    stretch!(Exceptions 4 8),
    stretch!(Exceptions 8 10),
    stretch!(Exceptions 10 12),
    stretch!(Exceptions 12 14),
    stretch!(Exceptions 14 16),
    stretch!(Exceptions 16 18),
    stretch!(Exceptions 18 21),
    stretch!(Objects 0 0),
    stretch!(Events 0 2),
    stretch!(Events 2 3),
    stretch!(Objects 0 0),
    stretch!(Exceptions 21 23),
    stretch!(Engines 0 7),
    stretch!(Engines 7 12),
    stretch!(Engines 12 17),
    stretch!(Engines 17 18),
    stretch!(KeyInterfaces 0 4),
    stretch!(KeyInterfaces 4 8),
    stretch!(KeyInterfaces 8 14),
    stretch!(KeyInterfaces 14 20),
    stretch!(KeyInterfaces 20 26),
    stretch!(Keys 0 1),
    stretch!(Keys 1 7),
    stretch!(Objects 0 0),
    stretch!(Objects 0 0),
    stretch!(Keys 7 8),
    stretch!(Ciphers 9 21),
    stretch!(RsaInterfaces 0 4),
    stretch!(RsaInterfaces 4 8),
    stretch!(RsaInterfaces 8 16),
    stretch!(RsaInterfaces 16 24),
    stretch!(RsaInterfaces 24 38),
    stretch!(EcInterfaces 0 15),
    stretch!(EcInterfaces 15 36),
    stretch!(EcInterfaces 36 57),
    stretch!(KeyPairs 0 5),
    stretch!(KeyPairs 5 9),
    stretch!(RsaKeys 0 4),
    stretch!(Objects 0 0),
    stretch!(Objects 0 0),
    stretch!(RsaKeys 4 14),
    stretch!(EcKeys 0 15),
    stretch!(EcKeys 15 17),
    stretch!(EcKeys 17 19),
    stretch!(Ciphers 0 9),
];
