//! Pieces of a file: comparing and copying them.
ghost use Rattle.std.specs.Prelude.{◌≡◌, ◌+◌, ◌≤◌, ℕ, List, length, Some};
ghost use Rattle.definitions.specs.Lists.{same};
ghost use Rattle.bits.specs.Writes.{Writes};
ghost use Rattle.outsider.specs.Pieces.{Made};

use bits::{BitReader, BitWriter, Full};

/// Bits of a file: the place of the first, and how many they are.
#[derive(Clone, Copy)]
pub(crate) struct Piece {
    pub at: usize,
    pub count: usize,
}

impl Piece {
    /// From one place up to another; none where they are the wrong way round.
    pub(crate) fn between(from: usize, to: usize) -> Option<Piece>
        ensures { (n : ℕ) → to ≡ from + n → result ≡ Some (record { at = from; count = n }) }
    {
        if to < from {
            return None;
        }
        Some(Piece {
            at: from,
            count: to - from,
        })
    }

    /// So many bits up to a place; none where there are not so many.
    pub(crate) fn before(to: usize, count: usize) -> Option<Piece>
        ensures { (p : ℕ) → to ≡ p + count → result ≡ Some (record { at = p; count = count }) }
    {
        if to < count {
            return None;
        }
        Some(Piece {
            at: to - count,
            count,
        })
    }

    /// Whether the bits are the same.
    pub(crate) fn same(&self, other: &Piece, file: &[u8]) -> bool
        ensures { (bs cs : List ℕ) → length file.now ≤ 65536 → Made file.now bs self.now → Made file.now cs other.now → result ≡ same bs cs }
    {
        if self.count != other.count {
            return false;
        }
        let mut ours = BitReader {
            bytes: file,
            at: self.at,
        };
        let mut theirs = BitReader {
            bytes: file,
            at: other.at,
        };
        for _ in 0..self.count {
            if ours.next(1) != theirs.next(1) {
                return false;
            }
        }
        true
    }

    /// Copies the bits.
    pub(crate) fn copy(&self, file: &[u8], writer: &mut BitWriter) -> Result<(), Full>
        ensures { (bs : List ℕ) → length file.now ≤ 65536 → Made file.now bs self.now → Writes bs writer.old writer.new result }
    {
        let mut reader = BitReader {
            bytes: file,
            at: self.at,
        };
        for _ in 0..self.count {
            let bit = reader.next(1).ok_or(Full)?;
            writer.put(bit, 1)?;
        }
        Ok(())
    }
}
