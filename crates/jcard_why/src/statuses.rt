//! What the runtime environment's own answers mean.

/// Why the runtime environment answers this status word, where no code was kept from going on.
pub(crate) const fn status_text(status: u16) -> &'static [u8] {
    match status {
        0x6401 => b"what was loaded ends too early",
        0x6402 => b"there are more bytes than belong to it, or more than 65,538",
        0x6403 => b"the Header does not begin as one",
        0x6404 => b"the format of the package is neither 2.1 nor 2.2",
        0x6405 => b"the package uses the type int",
        0x6406 => b"the package has remote interfaces",
        0x6407 => b"sizes disagree with the Directory",
        0x6408 => b"a component is missing",
        0x6409 => b"this component was loaded already",
        0x640A => b"an offset, an index or a value is none that may stand there",
        0x640B | 0x6424 => b"the program was refused memory",
        0x6421 => b"a package that is imported is not there",
        0x6422 => b"a package that is imported has another version",
        0x6423 => b"an entry of the constant pool names what is not there",
        0x6431 => b"a package with this AID is there already",
        0x6432 => b"there is no place for another package or applet",
        0x6700 => b"wrong length, or no data where they are required",
        0x6985 => b"no load or no component is open, or one is open that must not be",
        0x6999 => b"no applet is selected",
        0x6A80 => b"there is no such component, or the data are malformed",
        0x6A84 => b"the heap has no space",
        0x6A88 => b"no package has an applet with this AID",
        0x6D00 => b"the instruction is not known",
        0x6E00 => b"the class is not known",
        _ => b"the runtime environment answers so",
    }
}
