//! The exceptions that the runtime environment throws.
ghost use Rattle.std.specs.Prelude.{◌≡◌};
ghost use Rattle.jc_frames.specs.Exceptions.{class_of_exception, reason_of};

use jc_platform::names::PlatformClass;

/// An exception that the runtime environment throws, by its class: an instance of its own. Those of
/// the card's packages carry a reason.
#[derive(Clone, Copy)]
pub enum Exception {
    ArithmeticException,
    ArrayIndexOutOfBoundsException,
    ArrayStoreException,
    ClassCastException,
    NegativeArraySizeException,
    NullPointerException,
    SecurityException,
    CardException(i16),
    CardRuntimeException(i16),
    ISOException(i16),
    PINException(i16),
    SystemException(i16),
    TransactionException(i16),
    APDUException(i16),
    UserException(i16),
    /// One of any other class that carries a reason.
    Further { class: PlatformClass, reason: i16 },
}

impl Exception {
    /// The class whose instance is thrown.
    pub const fn class(self) -> PlatformClass
        ensures { result ≡ class_of_exception self }
    {
        match self {
            Exception::ArithmeticException => PlatformClass::ArithmeticException,
            Exception::ArrayIndexOutOfBoundsException => {
                PlatformClass::ArrayIndexOutOfBoundsException
            }
            Exception::ArrayStoreException => PlatformClass::ArrayStoreException,
            Exception::ClassCastException => PlatformClass::ClassCastException,
            Exception::NegativeArraySizeException => PlatformClass::NegativeArraySizeException,
            Exception::NullPointerException => PlatformClass::NullPointerException,
            Exception::SecurityException => PlatformClass::SecurityException,
            Exception::CardException(_) => PlatformClass::CardException,
            Exception::CardRuntimeException(_) => PlatformClass::CardRuntimeException,
            Exception::ISOException(_) => PlatformClass::IsoException,
            Exception::PINException(_) => PlatformClass::PinException,
            Exception::SystemException(_) => PlatformClass::SystemException,
            Exception::TransactionException(_) => PlatformClass::TransactionException,
            Exception::APDUException(_) => PlatformClass::ApduException,
            Exception::UserException(_) => PlatformClass::UserException,
            Exception::Further { class, .. } => class,
        }
    }

    /// The reason that it carries.
    pub const fn reason(self) -> Option<i16>
        ensures { result ≡ reason_of self }
    {
        match self {
            Exception::CardException(reason) => Some(reason),
            Exception::CardRuntimeException(reason) => Some(reason),
            Exception::ISOException(reason) => Some(reason),
            Exception::PINException(reason) => Some(reason),
            Exception::SystemException(reason) => Some(reason),
            Exception::TransactionException(reason) => Some(reason),
            Exception::APDUException(reason) => Some(reason),
            Exception::UserException(reason) => Some(reason),
            Exception::Further { reason, .. } => Some(reason),
            _ => None,
        }
    }
}
