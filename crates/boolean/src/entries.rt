//! The variables of a Boolean file, as kept.
ghost use Rattle.std.specs.Prelude.{◌<◌};

use rows::Row;
use system::header::Sign;

// The limits of the format. `expansion` has the same numbers as the limits of an expand: neither crate sees the other.

/// The longest Boolean file, in bytes.
pub const LONGEST_BOOLEAN: usize = 65535;

/// The most variables.
pub const VARIABLES: usize = 4096;

/// The rank of a variable and the place of its body, in 8 bytes: sweeps go over all the entries, again and again.
#[derive(Clone, Copy)]
pub struct Entry {
    pub rank: u8,
    pub body: u32,
    ghost small: { rank < 32 },
}

/// The variables of an accepted Boolean file, and the sign of each rank that a variable has.
#[derive(Clone, Copy)]
pub struct Variables {
    pub entries: Row<Entry, 4096>,
    pub signs: [Option<Sign>; 32],
}
