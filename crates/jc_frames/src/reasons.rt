//! Exceptions of the card's framework with the reasons that its API specification names.
use crate::exceptions::Exception;

/// `SystemException.ILLEGAL_VALUE`: an argument is not allowed.
pub const ILLEGAL_VALUE: Exception = Exception::SystemException(1);

/// `SystemException.NO_TRANSIENT_SPACE`: a transient area has no space.
pub const NO_TRANSIENT_SPACE: Exception = Exception::SystemException(2);

/// `SystemException.ILLEGAL_TRANSIENT`: what a deselection clears is not for an applet that is not selected.
pub const ILLEGAL_TRANSIENT: Exception = Exception::SystemException(3);

/// `SystemException.ILLEGAL_AID`: an applet is not registered with this AID.
pub const ILLEGAL_AID: Exception = Exception::SystemException(4);

/// `SystemException.NO_RESOURCE`: the heap has no space.
pub const NO_RESOURCE: Exception = Exception::SystemException(5);

/// `TransactionException.IN_PROGRESS`: a transaction is open.
pub const IN_PROGRESS: Exception = Exception::TransactionException(1);

/// `TransactionException.NOT_IN_PROGRESS`: no transaction is open.
pub const NOT_IN_PROGRESS: Exception = Exception::TransactionException(2);

/// `TransactionException.BUFFER_FULL`: the transaction has no room.
pub const BUFFER_FULL: Exception = Exception::TransactionException(3);

/// `PINException.ILLEGAL_VALUE`: a limit, a maximum or a length is not allowed.
pub const ILLEGAL_PIN_VALUE: Exception = Exception::PINException(1);

/// `APDUException.ILLEGAL_USE`: the call does not come in its turn.
pub const ILLEGAL_USE: Exception = Exception::APDUException(1);

/// `APDUException.BUFFER_BOUNDS`: bytes do not lie in the APDU buffer.
pub const BUFFER_BOUNDS: Exception = Exception::APDUException(2);

/// `APDUException.BAD_LENGTH`: a response cannot have this length.
pub const BAD_LENGTH: Exception = Exception::APDUException(3);
