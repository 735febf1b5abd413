//! Status words.
/// The two bytes that end a response, as a number, the first one high (ISO/IEC 7816-4).
#[derive(Clone, Copy)]
pub struct StatusWord(pub u16);

impl StatusWord {
    /// The command was carried out.
    pub const NO_ERROR: StatusWord = StatusWord(0x9000);
    /// The command's length is wrong, or data are missing.
    pub const WRONG_LENGTH: StatusWord = StatusWord(0x6700);
    /// The conditions of use are not satisfied: no load or no component is open, or one is that must not be.
    pub const CONDITIONS_NOT_SATISFIED: StatusWord = StatusWord(0x6985);
    /// The data are wrong.
    pub const WRONG_DATA: StatusWord = StatusWord(0x6A80);
    /// There is not enough space.
    pub const NO_SPACE: StatusWord = StatusWord(0x6A84);
    /// A package or an applet with this AID is there.
    pub const AID_TAKEN: StatusWord = StatusWord(0x6431);
    /// There are as many packages or applets as there can be.
    pub const FULL: StatusWord = StatusWord(0x6432);
    /// The instruction is not known.
    pub const INS_NOT_SUPPORTED: StatusWord = StatusWord(0x6D00);
    /// The class is not known.
    pub const CLA_NOT_SUPPORTED: StatusWord = StatusWord(0x6E00);
    /// No precise diagnosis: an uncaught exception or a code fault.
    pub const UNKNOWN: StatusWord = StatusWord(0x6F00);
    /// No applet has this AID.
    pub const NO_APPLET: StatusWord = StatusWord(0x6A88);
    /// No applet was selected.
    pub const NOT_SELECTED: StatusWord = StatusWord(0x6999);
}
