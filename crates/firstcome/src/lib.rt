//! A first-come list: records in a lent slice, each once, in the order in which they came.

#![tactic(auto)]

mod coming;

ghost use Rattle.std.specs.Prelude.{◌≤◌, length};

/// Records in a lent slice, in the order in which they came.
#[derive(Drop)]
pub struct FirstCome<'a, T> {
    items: &'a mut [T],
    /// How many records came.
    pub len: usize,
    ghost within: { len ≤ length items.now },
}
