//! The table algebra.
ghost use Rattle.std.specs.Prelude.{◌≡◌, true};
ghost use Rattle.rows.specs.Listed.{listed};
ghost use Rattle.algebra.specs.Kept.{kept as kept_table, roomy, table_sound};

pub mod calls;
mod file;
mod operation;

use operation::Operation;
use rows::Row;

/// Sorts and operations from a table file, and the values of all operations, one operation after the other.
#[derive(Clone, Copy)]
pub struct Table {
    sizes: Row<u16, 16>,
    operations: Row<Operation, 63>,
    values: Row<u8, 16384>,
    ghost sound: { table_sound (kept_table (listed sizes) (listed operations) (listed values)) ≡ true },
    ghost room: { roomy (listed sizes) (listed values) (listed operations) ≡ true },
}
