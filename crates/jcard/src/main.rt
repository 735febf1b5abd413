//! The program `jcard`.
#![tactic(auto)]

use jcard_commands::program::run_program;
use jcard_texts::std_text::StdText;
use std::io::{self, IsTerminal};
use std::process::ExitCode;

fn main(rt: HostRuntime) -> ExitCode {
    let mut out = StdText::new(io::writer(&rt));
    let is_terminal = rt.stderr().is_terminal();
    ExitCode::from(run_program(&rt, is_terminal, &mut out))
}
