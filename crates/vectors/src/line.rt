//! Lines of a script.
use std::alloc::{AllocError, Global};
use std::io;

/// A line of a script: a command, what it is given, and what its case shows.
#[derive(Clone, Copy)]
pub struct Line<'a> {
    pub verb: &'a str,
    pub rest: &'a str,
    pub label: &'a str,
}

impl<'a> Line<'a> {
    /// Takes the text of a line apart.
    pub fn of(text: &'a str) -> Line<'a> {
        let (command, label) = text.split_once(" | ").unwrap_or((text, ""));
        let (verb, rest) = command.split_once(' ').unwrap_or((command, ""));
        Line { verb, rest, label }
    }

    /// The words that are numbers, the first sixteen: more are no sizes and no arguments of any algebra.
    pub fn numbers(&self, heap: Global) -> Result<Vec<u32>, AllocError> {
        self.rest
            .split_whitespace()
            .filter_map(|word| word.parse::<u32>().ok())
            .take(16)
            .collect(heap)
    }

    /// The i-th of the words that are numbers, or 0.
    pub fn number(&self, i: usize) -> u32 {
        // One word is found without the heap, which `numbers` needs.
        self.rest
            .split_whitespace()
            .filter_map(|word| word.parse::<u32>().ok())
            .nth(i)
            .unwrap_or(0)
    }

    /// The i-th number as the length of a memory, at most 65,536.
    pub fn room(&self, i: usize) -> usize {
        (self.number(i) as usize).min(65536)
    }

    /// The letter that the command names, or a blank.
    pub fn letter(&self) -> char {
        self.rest.chars().next().unwrap_or(' ')
    }

    /// Prints the outcome of the case, if the line has one.
    pub fn say(&self, rt: &HostRuntime, outcome: &str) -> io::Result<()> {
        let label = self.label;
        if label.is_empty() {
            Ok(())
        } else {
            println!(rt; "{label}: {outcome}")
        }
    }
}
