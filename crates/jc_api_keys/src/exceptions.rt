//! `CryptoException` with the reasons that the API specification names.
use jc_frames::Exception;
use jc_platform::names::PlatformClass;

/// `CryptoException.ILLEGAL_VALUE`: an argument is not allowed.
pub const ILLEGAL_VALUE: Exception = Exception::Further {
    class: PlatformClass::CryptoException,
    reason: 1,
};

/// `CryptoException.UNINITIALIZED_KEY`: a key is not set.
pub const UNINITIALIZED_KEY: Exception = Exception::Further {
    class: PlatformClass::CryptoException,
    reason: 2,
};

/// `CryptoException.NO_SUCH_ALGORITHM`: there is no algorithm of this number.
pub const NO_SUCH_ALGORITHM: Exception = Exception::Further {
    class: PlatformClass::CryptoException,
    reason: 3,
};

/// `CryptoException.INVALID_INIT`: an object is not initialized for this.
pub const INVALID_INIT: Exception = Exception::Further {
    class: PlatformClass::CryptoException,
    reason: 4,
};

/// `CryptoException.ILLEGAL_USE`: what was given has no whole blocks, or is too long.
pub const ILLEGAL_USE: Exception = Exception::Further {
    class: PlatformClass::CryptoException,
    reason: 5,
};
