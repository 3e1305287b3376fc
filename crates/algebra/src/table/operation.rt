//! An operation of the table algebra.
ghost use Rattle.std.specs.Prelude.{◌≡◌};
ghost use Rattle.rows.specs.Listed.{listed};
ghost use Rattle.definitions.specs.Lists.{at as member_at};

use rows::Row;

/// The sorts of an operation, and where its values begin among all.
#[derive(Clone, Copy)]
pub struct Operation {
    pub sorts: Row<u8, 3>,
    pub result: u8,
    // No heap is used, so one row of fixed size holds the values of all operations.
    pub offset: usize,
}

impl Operation {
    /// No operation at all: what fills the places of a row that are not in use.
    pub fn filler() -> Operation {
        // The name says more than `default` would: a row needs a value for the places that are not in use.
        Operation {
            sorts: Row::new(0),
            result: 0,
            offset: 0,
        }
    }

    /// The sort of the argument numbered k.
    pub fn arg_sort(&self, k: u8) -> Option<u8>
        ensures { result ≡ member_at (listed self.now.sorts) k }
    {
        self.sorts.as_slice().get(k as usize).copied()
    }
}
