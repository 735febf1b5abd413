//! Answers cases of ciphers, digests, codes and long numbers, a line each, and runs loops of them, which `bench/run ciphers` times.
#![tactic(auto)]

mod cases;
mod curves;
mod long_loops;
mod loops;
mod messages;
mod numbers;
mod rsa;
mod words;

use std::alloc::Global;
use std::io::{self, BufRead, BufReader};
use std::process::ExitCode;

fn main(rt: HostRuntime) -> io::Result<ExitCode> {
    let alloc = rt.alloc();
    let mut wrong = 0u32;
    for line in BufReader::new(alloc, rt.reader())?.lines(alloc) {
        let line = line?;
        if line.is_empty() || line.starts_with('#') {
            continue;
        }
        if !told(&rt, alloc, &line)? {
            wrong = wrong.saturating_add(1);
        }
    }
    println!(rt; "{wrong} wrong")?;
    Ok(ExitCode::from(if wrong == 0 { 0 } else { 1 }))
}

// Answers a line. A line that ends by ` = ANSWER` is answered only if the answer is another one.
fn told(rt: &impl Print, alloc: Global, line: &str) -> io::Result<bool> {
    let (case, wanted) = match line.split_once(" = ") {
        Some((case, wanted)) => (case, Some(wanted)),
        None => (line, None),
    };
    let answer = cases::answer(alloc, case)?;
    agrees(rt, case, wanted, &answer)
}

// Whether the answer is the one that is wanted, or none is. It tells the answer where it is not.
fn agrees(rt: &impl Print, case: &str, wanted: Option<&str>, answer: &str) -> io::Result<bool> {
    match wanted {
        Some(wanted) if wanted == answer => Ok(true),
        Some(_) => {
            println!(rt; "{case}: {answer}")?;
            Ok(false)
        }
        None => {
            println!(rt; "{answer}")?;
            Ok(true)
        }
    }
}
