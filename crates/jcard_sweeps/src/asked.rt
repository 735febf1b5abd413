//! What is asked of a sweep over commands of a script.
use crate::command::Behind;

/// What is torn of an image: the names of a script and perhaps of a probe, the command in the line of a number, the last
/// command, or each, and what comes after each cut.
#[derive(Clone, Copy, Drop)]
pub struct Asked<'a> {
    pub script: &'a str,
    pub probe: Option<&'a str>,
    pub line: Option<&'a str>,
    pub each: bool,
    pub behind: Behind,
    pub part: Option<&'a str>,
}
