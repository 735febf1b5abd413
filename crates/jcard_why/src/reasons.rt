//! The reasons of exceptions, by the names that the API gives them.

use jc_platform::names::PlatformClass;

/// The name of a reason of an exception of this class; `None` where the API names it not.
pub(crate) const fn reason_name(class: PlatformClass, reason: i16) -> Option<&'static [u8]> {
    match class {
        PlatformClass::IsoException => status_name(reason.cast_unsigned()),
        PlatformClass::SystemException => system_reason(reason),
        PlatformClass::TransactionException => transaction_reason(reason),
        PlatformClass::ApduException => apdu_reason(reason),
        PlatformClass::PinException => pin_reason(reason),
        PlatformClass::CryptoException => crypto_reason(reason),
        _ => None,
    }
}

const fn system_reason(reason: i16) -> Option<&'static [u8]> {
    match reason {
        1 => Some(b"ILLEGAL_VALUE"),
        2 => Some(b"NO_TRANSIENT_SPACE"),
        3 => Some(b"ILLEGAL_TRANSIENT"),
        4 => Some(b"ILLEGAL_AID"),
        5 => Some(b"NO_RESOURCE"),
        6 => Some(b"ILLEGAL_USE"),
        _ => None,
    }
}

const fn transaction_reason(reason: i16) -> Option<&'static [u8]> {
    match reason {
        1 => Some(b"IN_PROGRESS"),
        2 => Some(b"NOT_IN_PROGRESS"),
        3 => Some(b"BUFFER_FULL"),
        4 => Some(b"INTERNAL_FAILURE"),
        5 => Some(b"ILLEGAL_USE"),
        _ => None,
    }
}

const fn apdu_reason(reason: i16) -> Option<&'static [u8]> {
    match reason {
        1 => Some(b"ILLEGAL_USE"),
        2 => Some(b"BUFFER_BOUNDS"),
        3 => Some(b"BAD_LENGTH"),
        4 => Some(b"IO_ERROR"),
        170 => Some(b"NO_T0_GETRESPONSE"),
        171 => Some(b"T1_IFD_ABORT"),
        172 => Some(b"NO_T0_REISSUE"),
        _ => None,
    }
}

const fn pin_reason(reason: i16) -> Option<&'static [u8]> {
    match reason {
        1 => Some(b"ILLEGAL_VALUE"),
        2 => Some(b"ILLEGAL_STATE"),
        _ => None,
    }
}

const fn crypto_reason(reason: i16) -> Option<&'static [u8]> {
    match reason {
        1 => Some(b"ILLEGAL_VALUE"),
        2 => Some(b"UNINITIALIZED_KEY"),
        3 => Some(b"NO_SUCH_ALGORITHM"),
        4 => Some(b"INVALID_INIT"),
        5 => Some(b"ILLEGAL_USE"),
        _ => None,
    }
}

// The constants of the interface ISO7816.
const fn status_name(status: u16) -> Option<&'static [u8]> {
    match status {
        0x6100 => Some(b"SW_BYTES_REMAINING_00"),
        0x6200 => Some(b"SW_WARNING_STATE_UNCHANGED"),
        0x6700 => Some(b"SW_WRONG_LENGTH"),
        0x6881 => Some(b"SW_LOGICAL_CHANNEL_NOT_SUPPORTED"),
        0x6882 => Some(b"SW_SECURE_MESSAGING_NOT_SUPPORTED"),
        0x6883 => Some(b"SW_LAST_COMMAND_EXPECTED"),
        0x6884 => Some(b"SW_COMMAND_CHAINING_NOT_SUPPORTED"),
        0x6982 => Some(b"SW_SECURITY_STATUS_NOT_SATISFIED"),
        0x6983 => Some(b"SW_FILE_INVALID"),
        0x6984 => Some(b"SW_DATA_INVALID"),
        0x6985 => Some(b"SW_CONDITIONS_NOT_SATISFIED"),
        0x6986 => Some(b"SW_COMMAND_NOT_ALLOWED"),
        0x6999 => Some(b"SW_APPLET_SELECT_FAILED"),
        0x6A80 => Some(b"SW_WRONG_DATA"),
        0x6A81 => Some(b"SW_FUNC_NOT_SUPPORTED"),
        0x6A82 => Some(b"SW_FILE_NOT_FOUND"),
        0x6A83 => Some(b"SW_RECORD_NOT_FOUND"),
        0x6A84 => Some(b"SW_FILE_FULL"),
        0x6A86 => Some(b"SW_INCORRECT_P1P2"),
        0x6B00 => Some(b"SW_WRONG_P1P2"),
        0x6C00 => Some(b"SW_CORRECT_LENGTH_00"),
        0x6D00 => Some(b"SW_INS_NOT_SUPPORTED"),
        0x6E00 => Some(b"SW_CLA_NOT_SUPPORTED"),
        0x6F00 => Some(b"SW_UNKNOWN"),
        _ => None,
    }
}
