//! Reads a system file over the lamps from standard input, and prints its verdict.

#![tactic(auto)]

use outsider::verdict::verdict;
use std::io;
use std::io::Read;
use system::instance::Instance;

fn answer(rt: &HostRuntime, file: &[u8]) -> io::Result<()> {
    let heap = rt.alloc();
    let nobody = Instance::default();
    let mut work = vec![in heap; nobody; 4096]?;
    let mut boolean = vec![in heap; 0u8; 65535]?;
    let mut truths = vec![in heap; 0u8; 4096]?;
    match verdict(file, &mut work, &mut boolean, &mut truths) {
        Ok(true) => println!(rt; "TRUE"),
        Ok(false) => println!(rt; "FALSE"),
        Err(fault) => println!(rt; "REFUSED {fault}"),
    }
}

fn main(rt: HostRuntime) -> io::Result<()> {
    let mut input = Vec::new(rt.alloc());
    rt.stdin().read_to_end(&mut input)?;
    answer(&rt, &input)
}
