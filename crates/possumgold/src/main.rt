//! Reads a table file and a system file, settles and expands the system, solves it, and prints the verdict.
//!
//! Standard input: the table file, with its length in two bytes before it, and then the system file.

#![tactic(auto)]

ghost use Rattle.std.specs.Prelude.{◌≡◌, ℕ, List, Ok, Err};
ghost use Rattle.definitions.specs.Lists.{at};
ghost use Rattle.algebra.specs.Tabled.{tabled};
ghost use Rattle.bench.specs.Holds.{holding};
ghost use Rattle.possumgold.specs.Told.{files, Put, Since, IsVerdict, Answers};

use algebra::Table;
use bench::Bench;
use boolean::solving::solve;
use faults::Fault;
use std::alloc::AllocError;
use std::fmt::Write;
use std::io::Read;
use std::{fmt, io};
use system::instance::Instance;

// Whether the start is true, and how many variables its Boolean system has.
#[derive(Clone, Copy)]
struct Verdict {
    truth: bool,
    variables: usize,
}

impl fmt::Display for Verdict {
    fn fmt<W: fmt::Write>(&self, f: &mut fmt::Formatter<W>) -> fmt::Result {
        let truth = if self.truth { "TRUE" } else { "FALSE" };
        let variables = self.variables;
        write!(f, "VERDICT {truth} {variables}")
    }
}

// Why there is no verdict: a call of the library is declined, or the program itself cannot go on.
#[derive(Drop)]
enum Stopped {
    Declined(Fault),
    Failed(io::Error),
}

// Three conversions, so that `?` hands on what each call tells.

impl From<Fault> for Stopped {
    fn from(fault: Fault) -> Stopped {
        Stopped::Declined(fault)
    }
}

impl From<io::Error> for Stopped {
    fn from(error: io::Error) -> Stopped {
        Stopped::Failed(error)
    }
}

impl From<AllocError> for Stopped {
    fn from(error: AllocError) -> Stopped {
        Stopped::Failed(error.into())
    }
}

// The table file and the system file of an input. Fewer than two bytes are no length and no files; a table file may break off.
fn split_input(input: &[u8]) -> (&[u8], &[u8])
    ensures table { result.0.now ≡ (files input.now).0 }
    ensures system { result.1.now ≡ (files input.now).1 }
{
    let Some((length, files)) = input.split_first_chunk::<2>() else {
        return (&[], &[]);
    };
    let length = usize::from(u16::from_be_bytes(*length));
    files.split_at_checked(length).unwrap_or((files, &[]))
}

// A bench with the system on it, settled over the algebra of the table.
fn settled(table: &mut Table, table_file: &[u8], system_file: &[u8]) -> Result<Bench, Fault>
    ensures { elim result [ Ok bench ↦ Put table.new table_file.now system_file.now bench | Err _ ↦ Unit {0} ] }
{
    table.fill(table_file)?;
    let mut bench = Bench::new();
    bench.load(table, system_file)?;
    bench.settle(table)?;
    Ok(bench)
}

// The first byte, where there is one.
fn first(bytes: &[u8]) -> Option<u8>
    ensures { result ≡ at bytes.now 0 }
{
    bytes.first().copied()
}

// Expands the held system and solves it, in lent memory.
fn decide(
    table: &Table,
    bench: &Bench,
    work: &mut [Instance],
    file: &mut [u8],
    truths: &mut [u8],
) -> Result<Verdict, Fault>
    ensures { (f : List ℕ) → Since (tabled table.now) f (holding bench.now) → elim result [ Ok v ↦ IsVerdict (tabled table.now) f v.truth | Err _ ↦ Unit {0} ] }
{
    let expansion = bench.expand(table, work, file)?;
    let variables = solve(&file[..expansion.len], truths)?;
    Ok(Verdict {
        truth: first(truths) == Some(1),
        variables,
    })
}

// The line of the settled file: all its bytes in hexadecimal, where `vectors` prints a check sum of many.
fn print_settled(rt: &HostRuntime, file: &[u8]) -> io::Result<()> {
    let mut line = String::from_str(rt.alloc(), "SETTLED ")?;
    for byte in file {
        write!(line, "{byte:02X}")?;
    }
    println!(rt; "{line}")
}

// Prints the settled file of an input, and tells the verdict.
fn answer(rt: &HostRuntime, input: &[u8]) -> Result<Verdict, Stopped>
    ensures { elim result [ Ok v ↦ Answers input.now v.truth | Err _ ↦ Unit {0} ] }
{
    let (table_file, system_file) = split_input(input);
    let mut table = Table::new();
    let bench = settled(&mut table, table_file, system_file)?;
    print_settled(rt, bench.held())?;
    let heap = rt.alloc();
    let nobody = Instance::default();
    let mut work = vec![in heap; nobody; 4096]?;
    let mut file = vec![in heap; 0u8; 65535]?;
    let mut truths = vec![in heap; 0u8; 4096]?;
    let verdict = decide(&table, &bench, &mut work, &mut file, &mut truths)?;
    Ok(verdict)
}

fn main(rt: HostRuntime) -> io::Result<()> {
    // Each program begins so: it reads all of its input. What it makes of that is its own.
    let mut input = Vec::new(rt.alloc());
    rt.stdin().read_to_end(&mut input)?;
    match answer(&rt, &input) {
        Ok(verdict) => println!(rt; "{verdict}"),
        Err(Stopped::Declined(fault)) => println!(rt; "REFUSED {fault}"),
        Err(Stopped::Failed(error)) => Err(error),
    }
}
