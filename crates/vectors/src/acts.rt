//! Commands that call the library on the bench and on files, and what they come to.
use crate::desk::Desk;
use crate::says::{
    FILLING, Shown, bench_kept, buffer_kept, each_beginning, refused, refused_pass, result_text,
};
use algebra::Algebra;
use bench::Bench;
use expansion::Expansion;
use faults::{ExpandFault, PassFault};
use passes::Pass;
use passes::named::Named;
use std::alloc::{AllocError, Global};
use std::io;
use system::instance::Instance;

// The functions here have one shape, a call and what it came to; each call has arguments, results and faults of its own.

// What the bench holds after a call that was obeyed.
fn held_text(heap: Global, bench: &Bench) -> Result<String, AllocError> {
    let file = Shown(bench.held());
    format!(in heap; "holds {file}")
}

/// Loads the file.
pub fn load<G: Algebra>(heap: Global, desk: &mut Desk, alg: &G) -> Result<String, AllocError> {
    let before = desk.bench;
    // Copied out and back: a field cannot be lent while another of the same lent struct is read.
    let mut bench = before;
    let result = bench.load(alg, desk.made());
    desk.bench = bench;
    match result {
        Ok(()) => held_text(heap, &bench),
        Err(fault) => bench_kept(
            heap,
            refused(heap, fault.into())?,
            before.held(),
            bench.held(),
        ),
    }
}

/// Loads each shorter beginning of the file onto a new bench.
pub fn cut<G: Algebra>(rt: &HostRuntime, desk: &Desk, alg: &G, label: &str) -> io::Result<()> {
    let heap = rt.alloc();
    each_beginning(rt, desk.made(), label, |part| {
        let mut bench = Bench::new();
        match bench.load(alg, part) {
            Ok(()) => held_text(heap, &bench),
            Err(fault) => refused(heap, fault.into()),
        }
    })
}

/// Runs the pass of a letter on the bench.
pub fn run<G: Algebra>(
    heap: Global,
    desk: &mut Desk,
    alg: &G,
    letter: char,
) -> Result<String, AllocError> {
    // A script names a pass by its letter; what the letter stands for is the library's to say.
    let before = desk.bench;
    match desk.bench.run_letter(alg, letter) {
        Ok(()) => held_text(heap, &desk.bench),
        Err(fault) => bench_kept(
            heap,
            refused_pass(heap, fault)?,
            before.held(),
            desk.bench.held(),
        ),
    }
}

/// Runs the pass of a letter on the file, into a buffer of the length given.
pub fn apply<G: Algebra>(
    heap: Global,
    desk: &Desk,
    alg: &G,
    letter: char,
    room: usize,
) -> Result<String, AllocError> {
    let Ok(pass) = Named::try_from(letter) else {
        return String::from_str(heap, "no such pass");
    };
    let mut buffer = vec![in heap; FILLING; room]?;
    match pass.apply(alg, desk.made(), &mut buffer) {
        Ok(len) => result_text(heap, &buffer, len),
        Err(fault) => buffer_kept(heap, refused_pass(heap, fault)?, &buffer),
    }
}

/// Settles what the bench holds.
pub fn settle<G: Algebra>(heap: Global, desk: &mut Desk, alg: &G) -> Result<String, AllocError> {
    let before = desk.bench;
    match desk.bench.settle(alg) {
        Ok(rounds) => {
            let text = held_text(heap, &desk.bench)?;
            format!(in heap; "{rounds} rounds, {text}")
        }
        Err(fault) => {
            let text = refused_pass(heap, fault.halt.fault)?;
            let letter = fault.halt.letter;
            let round = fault.halt.round;
            let refusal = format!(in heap; "{text} of letter {letter} in round {round}")?;
            bench_kept(heap, refusal, before.held(), desk.bench.held())
        }
    }
}

// What an expansion comes to, with work memory and buffer of the sizes given.
fn expansion_text<F: FnOnce(&mut [Instance], &mut [u8]) -> Result<Expansion, ExpandFault>>(
    heap: Global,
    places: usize,
    room: usize,
    expanded: F,
) -> Result<String, AllocError>
    requires { F.IsAlwaysCallable expanded }
{
    let mut work = vec![in heap; Instance::default(); places]?;
    let mut buffer = vec![in heap; FILLING; room]?;
    match expanded(&mut work, &mut buffer) {
        Ok(expansion) => {
            let variables = expansion.variables;
            let text = result_text(heap, &buffer, expansion.len)?;
            format!(in heap; "{variables} variables, {text}")
        }
        Err(fault) => buffer_kept(heap, refused(heap, fault.into())?, &buffer),
    }
}

/// Expands what the bench holds, with work memory and buffer of the sizes given; the file becomes the expansion.
pub fn expand<G: Algebra>(
    heap: Global,
    desk: &mut Desk,
    alg: &G,
    places: usize,
    room: usize,
) -> Result<String, AllocError> {
    expansion_text(heap, places, room, |work, buffer| {
        let expansion = desk.bench.expand(alg, work, buffer)?;
        desk.take(buffer.get(..expansion.len).unwrap_or(buffer));
        Ok(expansion)
    })
}

/// Expands the file, which no bench holds.
pub fn draw<G: Algebra>(
    heap: Global,
    desk: &Desk,
    alg: &G,
    places: usize,
    room: usize,
) -> Result<String, AllocError> {
    expansion_text(heap, places, room, |work, buffer| {
        expansion::expand(alg, desk.made(), work, buffer)
    })
}

/// Solves the file, into a buffer of the length given.
pub fn solve(heap: Global, desk: &Desk, room: usize) -> Result<String, AllocError> {
    let mut truths = vec![in heap; FILLING; room]?;
    match boolean::solving::solve(desk.made(), &mut truths) {
        Ok(count) => result_text(heap, &truths, count),
        Err(fault) => buffer_kept(heap, refused(heap, fault.into())?, &truths),
    }
}
