//! The counting algebra.
ghost use Rattle.std.specs.Prelude.{◌≡◌, true};
ghost use Rattle.rows.specs.Listed.{listed};
ghost use Rattle.algebra.specs.Limits.{sizes_fit};

pub mod calls;

use rows::Row;

/// Sort 0 and up to fifteen sorts to count in.
#[derive(Clone, Copy)]
pub struct Counting {
    sizes: Row<u16, 15>,
    ghost fit: { sizes_fit (listed sizes) ≡ true },
}
