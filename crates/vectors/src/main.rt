//! Runs a script of cases from standard input on the library, and prints one line for each case.
//!
//! A line of the script is a command, and behind ` | ` what its case shows; without that it prints nothing. The commands stand at
//! the head of the script, crates/vectors/stdin. An empty line and a line that begins with `#` are skipped.

#![tactic(auto)]

mod acts;
mod asks;
mod desk;
mod fields;
mod line;
mod says;

use acts::{apply, cut, draw, expand, load, run, settle, solve};
use algebra::{Algebra, Level};
use asks::{ask, count_sorts, cut_table, fill_counting, fill_table};
use bench::Bench;
use desk::{Chosen, Desk};
use fields::{put_again, put_fields, put_hex};
use line::Line;
use std::io;
use std::io::Read;
use std::str::from_utf8;

// Commands are of three kinds, by what they are given and whether they tell an outcome, so their words stand in three lists.

// The commands that question an algebra or use it.
fn act<G: Algebra>(rt: &HostRuntime, desk: &mut Desk, alg: &G, line: &Line) -> io::Result<()> {
    let heap = rt.alloc();
    let outcome = match line.verb {
        "load" => load(heap, desk, alg)?,
        "run" => run(heap, desk, alg, line.letter())?,
        "apply" => apply(heap, desk, alg, line.letter(), line.room(0))?,
        "settle" => settle(heap, desk, alg)?,
        "expand" => expand(heap, desk, alg, line.room(0), line.room(1))?,
        "draw" => draw(heap, desk, alg, line.room(0), line.room(1))?,
        "sorts" => count_sorts(heap, alg)?,
        "ask" => ask(heap, alg, line)?,
        "cut" => return cut(rt, desk, alg, line.label),
        verb => return println!(rt; "unknown command: {verb}"),
    };
    line.say(rt, &outcome)
}

// The same over the algebra that is chosen.
fn act_on_chosen(rt: &HostRuntime, desk: &mut Desk, line: &Line) -> io::Result<()> {
    match desk.chosen {
        Chosen::Counting => {
            // Copied out, as the table below: a field cannot be lent beside the struct that it lies in.
            let counting = desk.counting;
            act(rt, desk, &counting, line)
        }
        Chosen::Level => act(rt, desk, &Level, line),
        Chosen::Table => {
            let table = desk.table;
            act(rt, desk, &table, line)
        }
    }
}

// The commands that make the file; false where the command is none of them.
fn prepare(desk: &mut Desk, line: &Line) -> bool {
    let bits = desk.bits;
    match line.verb {
        "bits" => desk.bits = put_fields(desk.file, 0, line.rest),
        "more" => desk.bits = put_fields(desk.file, bits, line.rest),
        "again" => desk.bits = put_again(desk.file, bits, line.rest),
        "hex" => desk.bits = put_hex(desk.file, line.rest),
        "length" => desk.set_length(line.room(0)),
        "byte" => desk.set_byte(line.number(0) as usize, line.number(1)),
        "held" => desk.take_held(),
        "new" => desk.bench = Bench::new(),
        "level" => desk.chosen = Chosen::Level,
        _ => return false,
    }
    true
}

// One line of the script.
fn run_line(rt: &HostRuntime, desk: &mut Desk, line: &Line) -> io::Result<()> {
    let heap = rt.alloc();
    if prepare(desk, line) {
        return Ok(());
    }
    let outcome = match line.verb {
        "counting" => fill_counting(heap, desk, line)?,
        "table" => fill_table(heap, desk)?,
        "solve" => solve(heap, desk, line.room(0))?,
        "cut-table" => return cut_table(rt, desk, line.label),
        _ => return act_on_chosen(rt, desk, line),
    };
    line.say(rt, &outcome)
}

fn main(rt: HostRuntime) -> io::Result<()> {
    let heap = rt.alloc();
    let mut script = Vec::new(heap);
    rt.stdin().read_to_end(&mut script)?;
    let mut file = vec![in heap; 0u8; 65536]?;
    let mut desk = Desk::new(&mut file);
    let Ok(text) = from_utf8(&script) else {
        return println!(rt; "the script: is no text");
    };
    for line in text.lines() {
        if !line.is_empty() && !line.starts_with('#') {
            run_line(&rt, &mut desk, &Line::of(line))?;
        }
    }
    Ok(())
}
