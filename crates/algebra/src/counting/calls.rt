//! Questions to the counting algebra, and filling it.
ghost use Rattle.std.specs.Prelude.{◌≡◌, ◌/◌, ◌<◌, ◌≤◌, true, false, [], ◌∷◌, length, Some, None, Ok, Err, slice_index};
ghost use Rattle.faults.specs.declared.Reason.TheVariants.{BadCountingSizes};
ghost use Rattle.rows.specs.Listed.{listed};
ghost use Rattle.definitions.specs.Algebras.{counting};
ghost use Rattle.definitions.specs.Alg.{within};
ghost use Rattle.definitions.specs.Lists.{at as member_at};
ghost use Rattle.algebra.specs.Runs.{runs};
ghost use Rattle.algebra.specs.Limits.{size_fits, countable};
ghost use Rattle.algebra.specs.Counting.{counted};
ghost use Rattle.algebra.specs.Counted.{counted_lawful};

use crate::Algebra;
use crate::counting::Counting;
use faults::{Reason, TableFault};
use rows::Row;

fn size_fits(n: u16) -> bool
    ensures { result ≡ size_fits n }
{
    n >= 1 && n <= 256
}

/// Whether there are at most fifteen sizes, each 1 to 256.
fn all_fit(sizes: &[u16]) -> bool
    ensures { result ≡ countable sizes.now }
{
    sizes.len() <= 15 && sizes.iter().all(|n| size_fits(*n))
}

/// The sizes as a row.
fn row_of(sizes: &[u16]) -> Row<u16, 15>
    requires { length sizes.now ≤ 15 }
    ensures { listed result ≡ sizes.now }
{
    let mut row = Row::new(1);
    for n in sizes {
        row.push(*n).unwrap();
    }
    row
}

impl Counting {
    /// Sort 0 alone.
    pub fn new() -> Counting
        ensures { counted result ≡ counting [] }
    {
        Counting { sizes: Row::new(1) }
    }

    /// Replaces the sorts above sort 0, or refuses where there are more than fifteen or a size is not 1 to 256.
    pub fn fill(&mut self, sizes: &[u16]) -> Result<(), TableFault>
        ensures { elim result [ Ok _ ↦ (countable sizes.now ≡ true) × (counted self.new ≡ counting sizes.now) | Err e ↦ (countable sizes.now ≡ false) × (e ≡ record { reason = BadCountingSizes; place = 0 }) × (self.new ≡ self.old) ] }
    {
        // A test of the definitions, which the proof cites; so it answers a bool.
        if !all_fit(sizes) {
            return Err(TableFault {
                reason: Reason::BadCountingSizes,
                place: 0,
            });
        }
        let sizes = row_of(sizes);
        *self = Counting { sizes };
        Ok(())
    }

    /// The size of the sort that an operation counts in.
    fn counts_in(&self, op: u8) -> Option<u16>
        ensures { result ≡ member_at (listed self.now.sizes) (op / 4) }
    {
        self.sizes.as_slice().get((op / 4) as usize).copied()
    }
}

/// The only argument, where it is a value of a sort of `size` values.
fn only(size: u16, args: &[u8]) -> Option<u8>
    ensures { elim result [ None ↦ within (size ∷ []) args.now ≡ false | Some a ↦ (within (size ∷ []) args.now ≡ true) × (slice_index args.now 0 ≡ a) × (a < size) ] }
{
    match args {
        [a] if (*a as u16) < size => Some(*a),
        _ => None,
    }
}

/// One more, stopped at the top.
fn up(size: u16, args: &[u8]) -> Option<u8>
    requires { size ≤ 256 }
    ensures { result ≡ runs size 0 args.now }
{
    let a = only(size, args)?;
    Some(if a as u16 + 1 == size { a } else { a + 1 })
}

/// One less, stopped at 0.
fn down(size: u16, args: &[u8]) -> Option<u8>
    ensures { result ≡ runs size 1 args.now }
{
    let a = only(size, args)?;
    Some(a.saturating_sub(1))
}

/// One more, from the top to 0.
fn next(size: u16, args: &[u8]) -> Option<u8>
    requires { size ≤ 256 }
    ensures { result ≡ runs size 2 args.now }
{
    let a = only(size, args)?;
    Some(if a as u16 + 1 == size { 0 } else { a + 1 })
}

/// Whether the first of two arguments is less.
fn less(size: u16, args: &[u8]) -> Option<u8>
    ensures { result ≡ runs size 3 args.now }
{
    let [a, b] = args else {
        return None;
    };
    if *a as u16 >= size || *b as u16 >= size {
        return None;
    }
    Some((a < b) as u8)
}

/// The value of the operation numbered `which` of a sort of `size` values.
fn count(size: u16, which: u8, args: &[u8]) -> Option<u8>
    requires { size ≤ 256 }
    ensures { result ≡ runs size which args.now }
{
    // Files and questions name an operation by its number; an enum would be made of it and matched in the same place.
    match which {
        0 => up(size, args),
        1 => down(size, args),
        2 => next(size, args),
        3 => less(size, args),
        _ => None,
    }
}

impl Algebra for Counting {
    ghost meaning = { counted };

    ghost lawful = { counted_lawful };

    // An operation is named by its number: each sort has four, and the fourth, `less`, alone has two arguments and a truth.

    fn sorts(&self) -> u8 {
        self.sizes.as_slice().len() as u8 + 1
    }

    fn operations(&self) -> u8 {
        4 * self.sizes.as_slice().len() as u8
    }

    fn size(&self, sort: u8) -> Option<u16> {
        if sort == 0 {
            return Some(2);
        }
        self.sizes.as_slice().get(sort as usize - 1).copied()
    }

    fn arity(&self, op: u8) -> Option<u8> {
        self.counts_in(op)?;
        Some(if op % 4 == 3 { 2 } else { 1 })
    }

    fn arg_sort(&self, op: u8, k: u8) -> Option<u8> {
        (k < self.arity(op)?).then_some(op / 4 + 1)
    }

    fn result_sort(&self, op: u8) -> Option<u8> {
        self.counts_in(op)?;
        Some(if op % 4 == 3 { 0 } else { op / 4 + 1 })
    }

    fn value(&self, op: u8, args: &[u8]) -> Option<u8> {
        count(self.counts_in(op)?, op % 4, args)
    }
}
