//! What a script works on.
use algebra::{Counting, Table};
use bench::Bench;
use bits::deliver;

/// Which algebra is used.
#[derive(Clone, Copy)]
pub enum Chosen {
    Counting,
    Level,
    Table,
}

/// The algebras, a bench and a file.
#[derive(Drop)]
pub struct Desk<'a> {
    pub counting: Counting,
    pub table: Table,
    pub chosen: Chosen,
    pub bench: Bench,
    pub file: &'a mut [u8],
    // How many bits the script made, which is where the next fields go; the file ends with the byte of the last.
    pub bits: usize,
}

impl<'a> Desk<'a> {
    pub fn new(file: &'a mut [u8]) -> Desk<'a> {
        Desk {
            counting: Counting::new(),
            table: Table::new(),
            chosen: Chosen::Counting,
            bench: Bench::new(),
            file,
            bits: 0,
        }
    }

    /// The file that the script made.
    pub fn made(&self) -> &[u8] {
        self.file.get(..self.bits.div_ceil(8)).unwrap_or(self.file)
    }

    /// The file has that many bytes: cut, or with zeros behind.
    pub fn set_length(&mut self, len: usize) {
        let old = self.bits.div_ceil(8);
        if let Some(rest) = self.file.get_mut(old..) {
            rest.fill(0);
        }
        self.bits = 8 * len.min(65536);
    }

    /// The byte of the file becomes another.
    pub fn set_byte(&mut self, i: usize, value: u32) {
        if let Some(byte) = self.file.get_mut(i) {
            // Cut by a mask: no conversion of the library cuts.
            *byte = (value & 0xff) as u8;
        }
    }

    /// The file becomes the one that the bench holds.
    pub fn take_held(&mut self) {
        // Copied out: a field cannot be lent while another of the same lent struct is written.
        let bench = self.bench;
        self.take(bench.held());
    }

    /// The file becomes another, if there is room for it.
    pub fn take(&mut self, bytes: &[u8]) {
        if let Ok(len) = deliver(self.file, bytes) {
            self.bits = 8 * len.min(65536);
        }
    }
}
