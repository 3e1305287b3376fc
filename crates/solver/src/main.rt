//! Reads a Boolean file from standard input, solves it, and prints the truth of each variable, a digit 0 or 1.

#![tactic(auto)]

use boolean::solving::solve;
use faults::Fault;
use std::fmt::Write;
use std::io;
use std::io::Read;

fn answer(rt: &HostRuntime, file: &[u8]) -> io::Result<()> {
    let mut truths = vec![in rt.alloc(); 0u8; 4096]?;
    match solve(file, &mut truths) {
        Ok(count) => {
            let mut line = String::from_str(rt.alloc(), "TRUTHS ")?;
            for truth in truths.iter().take(count) {
                write!(line, "{truth}")?;
            }
            println!(rt; "{line}")
        }
        Err(fault) => {
            let fault = Fault::from(fault);
            println!(rt; "REFUSED {fault}")
        }
    }
}

fn main(rt: HostRuntime) -> io::Result<()> {
    let mut input = Vec::new(rt.alloc());
    rt.stdin().read_to_end(&mut input)?;
    answer(&rt, &input)
}
