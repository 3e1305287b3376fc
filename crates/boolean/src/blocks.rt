//! The blocks of a Boolean system.
use rows::Row;
use system::header::Sign;

/// Neighbouring ranks of one sign are one block. Block 0 is the innermost; each block has its sign, and each rank that a
/// variable has its block.
#[derive(Clone, Copy)]
pub struct Blocks {
    pub signs: Row<Sign, 32>,
    pub ranks: [u8; 32],
}
