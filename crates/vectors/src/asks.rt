//! Commands that fill algebras and question them, and what they come to.
use crate::desk::{Chosen, Desk};
use crate::line::Line;
use crate::says::{each_beginning, refused};
use algebra::{Algebra, Table};
use faults::TableFault;
use std::alloc::{AllocError, Global};
use std::fmt::Write;
use std::{fmt, io};

// A script's numbers are cut by a mask: no conversion of the library cuts, and a cast names one type.

fn filled(heap: Global, outcome: Result<(), TableFault>) -> Result<String, AllocError> {
    match outcome {
        Ok(()) => String::from_str(heap, "filled"),
        Err(fault) => refused(heap, fault.into()),
    }
}

/// Fills the counting algebra with sizes, and chooses it.
pub fn fill_counting(heap: Global, desk: &mut Desk, line: &Line) -> Result<String, AllocError> {
    let numbers = line.numbers(heap)?;
    let sizes = numbers
        .iter()
        .map(|size| (*size & 0xffff) as u16)
        .collect::<Vec<u16>>(heap)?;
    desk.chosen = Chosen::Counting;
    filled(heap, desk.counting.fill(&sizes))
}

/// Fills the table algebra from the file, and chooses it.
pub fn fill_table(heap: Global, desk: &mut Desk) -> Result<String, AllocError> {
    // Copied out and back: a field cannot be lent while another of the same lent struct is read.
    let mut table = desk.table;
    let result = table.fill(desk.made());
    desk.table = table;
    desk.chosen = Chosen::Table;
    filled(heap, result)
}

/// Fills a table algebra from each shorter beginning of the file.
pub fn cut_table(rt: &HostRuntime, desk: &Desk, label: &str) -> io::Result<()> {
    let heap = rt.alloc();
    each_beginning(rt, desk.made(), label, |part| {
        filled(heap, Table::new().fill(part))
    })
}

/// How many sorts and operations the algebra has, and the sizes.
pub fn count_sorts<G: Algebra>(heap: Global, alg: &G) -> Result<String, AllocError> {
    let sorts = alg.sorts();
    let operations = alg.operations();
    let mut text = format!(in heap; "{sorts} sorts, {operations} operations, sizes")?;
    for sort in 0..17u8 {
        match alg.size(sort) {
            Some(size) => write!(text, " {size}")?,
            None => text.push_str(" -")?,
        }
    }
    Ok(text)
}

// An answer of an algebra.
#[derive(Clone, Copy)]
struct Answer(Option<u8>);

impl fmt::Display for Answer {
    fn fmt<W: fmt::Write>(&self, f: &mut fmt::Formatter<W>) -> fmt::Result {
        match self.0 {
            Some(number) => write!(f, "{number}"),
            None => f.write_str("none"),
        }
    }
}

/// What the algebra answers of an operation, and its value at the arguments.
pub fn ask<G: Algebra>(heap: Global, alg: &G, line: &Line) -> Result<String, AllocError> {
    let numbers = line.numbers(heap)?;
    let bytes = numbers
        .iter()
        .map(|number| (*number & 0xff) as u8)
        .collect::<Vec<u8>>(heap)?;
    // What a line leaves out is 0.
    let op = bytes.first().copied().unwrap_or(0);
    let arguments = bytes.get(1..).unwrap_or(&bytes);
    let arity = Answer(alg.arity(op));
    let first = Answer(alg.arg_sort(op, 0));
    let third = Answer(alg.arg_sort(op, 2));
    let result = Answer(alg.result_sort(op));
    let value = Answer(alg.value(op, arguments));
    format!(in heap;
        "{arity} arguments, first of sort {first}, third of sort {third}, result of sort {result}, value {value}"
    )
}
