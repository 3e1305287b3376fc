//! The level algebra: sixteen water steps.
ghost use Rattle.std.specs.Prelude.{◌≡◌, ◌+◌, ◌*◌, ◌<◌, slice_index};
ghost use Rattle.definitions.specs.Algebras.{level as level_alg};
ghost use Rattle.algebra.specs.Lawfuls.{level_lawful};

use crate::Algebra;

// In a table of pairs (a, b) stands at 16a + b.

// The sum, stopped at 15.
const SUM: [u8; 256] = [
    0, 1, 2, 3, 4, 5, 6, 7, 8, 9, 10, 11, 12, 13, 14, 15, 1, 2, 3, 4, 5, 6, 7, 8, 9, 10, 11, 12,
    13, 14, 15, 15, 2, 3, 4, 5, 6, 7, 8, 9, 10, 11, 12, 13, 14, 15, 15, 15, 3, 4, 5, 6, 7, 8, 9,
    10, 11, 12, 13, 14, 15, 15, 15, 15, 4, 5, 6, 7, 8, 9, 10, 11, 12, 13, 14, 15, 15, 15, 15, 15,
    5, 6, 7, 8, 9, 10, 11, 12, 13, 14, 15, 15, 15, 15, 15, 15, 6, 7, 8, 9, 10, 11, 12, 13, 14, 15,
    15, 15, 15, 15, 15, 15, 7, 8, 9, 10, 11, 12, 13, 14, 15, 15, 15, 15, 15, 15, 15, 15, 8, 9, 10,
    11, 12, 13, 14, 15, 15, 15, 15, 15, 15, 15, 15, 15, 9, 10, 11, 12, 13, 14, 15, 15, 15, 15, 15,
    15, 15, 15, 15, 15, 10, 11, 12, 13, 14, 15, 15, 15, 15, 15, 15, 15, 15, 15, 15, 15, 11, 12, 13,
    14, 15, 15, 15, 15, 15, 15, 15, 15, 15, 15, 15, 15, 12, 13, 14, 15, 15, 15, 15, 15, 15, 15, 15,
    15, 15, 15, 15, 15, 13, 14, 15, 15, 15, 15, 15, 15, 15, 15, 15, 15, 15, 15, 15, 15, 14, 15, 15,
    15, 15, 15, 15, 15, 15, 15, 15, 15, 15, 15, 15, 15, 15, 15, 15, 15, 15, 15, 15, 15, 15, 15, 15,
    15, 15, 15, 15, 15,
];

// The larger less the smaller.
const DISTANCE: [u8; 256] = [
    0, 1, 2, 3, 4, 5, 6, 7, 8, 9, 10, 11, 12, 13, 14, 15, 1, 0, 1, 2, 3, 4, 5, 6, 7, 8, 9, 10, 11,
    12, 13, 14, 2, 1, 0, 1, 2, 3, 4, 5, 6, 7, 8, 9, 10, 11, 12, 13, 3, 2, 1, 0, 1, 2, 3, 4, 5, 6,
    7, 8, 9, 10, 11, 12, 4, 3, 2, 1, 0, 1, 2, 3, 4, 5, 6, 7, 8, 9, 10, 11, 5, 4, 3, 2, 1, 0, 1, 2,
    3, 4, 5, 6, 7, 8, 9, 10, 6, 5, 4, 3, 2, 1, 0, 1, 2, 3, 4, 5, 6, 7, 8, 9, 7, 6, 5, 4, 3, 2, 1,
    0, 1, 2, 3, 4, 5, 6, 7, 8, 8, 7, 6, 5, 4, 3, 2, 1, 0, 1, 2, 3, 4, 5, 6, 7, 9, 8, 7, 6, 5, 4, 3,
    2, 1, 0, 1, 2, 3, 4, 5, 6, 10, 9, 8, 7, 6, 5, 4, 3, 2, 1, 0, 1, 2, 3, 4, 5, 11, 10, 9, 8, 7, 6,
    5, 4, 3, 2, 1, 0, 1, 2, 3, 4, 12, 11, 10, 9, 8, 7, 6, 5, 4, 3, 2, 1, 0, 1, 2, 3, 13, 12, 11,
    10, 9, 8, 7, 6, 5, 4, 3, 2, 1, 0, 1, 2, 14, 13, 12, 11, 10, 9, 8, 7, 6, 5, 4, 3, 2, 1, 0, 1,
    15, 14, 13, 12, 11, 10, 9, 8, 7, 6, 5, 4, 3, 2, 1, 0,
];

/// The entry at (a, b) of a table of pairs.
fn entry(table: &[u8; 256], a: u8, b: u8) -> u8
    requires first { a < 16 }
    requires second { b < 16 }
    ensures { result ≡ slice_index table.now (16 * a + b) }
{
    table[16 * a as usize + b as usize]
}

/// The level algebra.
#[derive(Clone, Copy)]
pub struct Level;

impl Algebra for Level {
    ghost meaning = { λ _. level_alg };

    ghost lawful = { λ x. level_lawful };

    // Questions name sorts and operations by number; each is answered where it is asked.

    fn sorts(&self) -> u8 {
        2
    }

    fn operations(&self) -> u8 {
        3
    }

    fn size(&self, sort: u8) -> Option<u16> {
        match sort {
            0 => Some(2),
            1 => Some(16),
            _ => None,
        }
    }

    fn arity(&self, op: u8) -> Option<u8> {
        (op < 3).then_some(2)
    }

    fn arg_sort(&self, op: u8, k: u8) -> Option<u8> {
        (op < 3 && k < 2).then_some(1)
    }

    fn result_sort(&self, op: u8) -> Option<u8> {
        match op {
            0 | 1 => Some(1),
            2 => Some(0),
            _ => None,
        }
    }

    fn value(&self, op: u8, args: &[u8]) -> Option<u8> {
        let [a, b] = *args else {
            return None;
        };
        if a >= 16 || b >= 16 {
            return None;
        }
        // Files and questions name an operation by its number; an enum would be made of it and matched in the same place.
        match op {
            0 => Some(entry(&SUM, a, b)),
            1 => Some(entry(&DISTANCE, a, b)),
            2 => Some((a >= b) as u8),
            _ => None,
        }
    }
}
