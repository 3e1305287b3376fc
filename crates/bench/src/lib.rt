//! The bench: it holds a system file, and passes run on what it holds.

#![tactic(auto)]

pub mod calls;

ghost use Rattle.std.specs.Prelude.{◌≡◌, ℕ, ◌<◌, ◌≤◌, slice_index, take};

/// A place for one system file: its bytes in front, zeros in the rest, or nothing but zeros.
#[derive(Clone, Copy)]
pub struct Bench {
    bytes: [u8; 8192],
    len: usize,
    ghost bound: { len ≤ 8192 },
    ghost small: { ((k : ℕ) → slice_index (take len bytes) k < 256) },
    ghost zeros: { ((k : ℕ) → len ≤ k → slice_index bytes k ≡ 0) },
}
