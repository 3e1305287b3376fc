//! Questions to the table algebra, and filling it.
ghost use Rattle.std.specs.Prelude.{◌≡◌, ◌≤◌, true, false, [], ◌∷◌, length, Some, None, Ok, Err, nat_lt};
ghost use Rattle.rows.specs.Listed.{listed};
ghost use Rattle.definitions.specs.Alg.{within, sized};
ghost use Rattle.definitions.specs.Lists.{at as member_at, each};
ghost use Rattle.definitions.specs.Reading.{got, bad};
ghost use Rattle.definitions.specs.Tables.{place_of, table_reading};
ghost use Rattle.algebra.specs.Tabled.{stored, tabled};
ghost use Rattle.algebra.specs.Tables.{table_lawful};

use crate::Algebra;
use crate::table::Table;
use crate::table::file::read_table;
use crate::table::operation::Operation;
use faults::TableFault;
use rows::Row;

/// The place of some arguments among an operation's values, the last argument running fastest.
fn place_of(sizes: &[u16], sorts: &[u8], args: &[u8]) -> Option<usize>
    requires few { length sorts.now ≤ 3 }
    requires known { each (λ s. nat_lt s (length sizes.now)) sorts.now ≡ true }
    ensures { result ≡ elim (within (sized sizes.now sorts.now) args.now) [ true ↦ Some (place_of 0 (sized sizes.now sorts.now) args.now) | false ↦ None ] }
{
    if args.len() != sorts.len() {
        return None;
    }
    let mut place = 0;
    for (sort, arg) in sorts.iter().zip(args) {
        let size = sizes[*sort as usize];
        if *arg as u16 >= size {
            return None;
        }
        place = place * size as usize + *arg as usize;
    }
    Some(place)
}

impl Table {
    /// Sort 0 alone.
    pub fn new() -> Table
        ensures { stored result ≡ record { sizes = 2 ∷ []; ops = [] } }
    {
        let mut sizes = Row::new(2);
        sizes.push(2).unwrap();
        Table {
            sizes,
            operations: Row::new(Operation::filler()),
            values: Row::new(0),
        }
    }

    /// Replaces all by what a table file says, or refuses it.
    pub fn fill(&mut self, file: &[u8]) -> Result<(), TableFault>
        ensures { elim result [ Ok _ ↦ table_reading file.now ≡ got (stored self.new) | Err e ↦ (table_reading file.now ≡ bad e.reason e.place) × (self.new ≡ self.old) ] }
    {
        *self = read_table(file)?;
        Ok(())
    }

    fn operation(&self, op: u8) -> Option<Operation>
        ensures { result ≡ member_at (listed self.now.operations) op }
    {
        self.operations.as_slice().get(op as usize).copied()
    }
}

impl Algebra for Table {
    ghost meaning = { tabled };

    ghost lawful = { λ x. table_lawful (stored x) x.sound };

    fn sorts(&self) -> u8 {
        self.sizes.as_slice().len() as u8
    }

    fn operations(&self) -> u8 {
        self.operations.as_slice().len() as u8
    }

    fn size(&self, sort: u8) -> Option<u16> {
        self.sizes.as_slice().get(sort as usize).copied()
    }

    fn arity(&self, op: u8) -> Option<u8> {
        Some(self.operation(op)?.sorts.as_slice().len() as u8)
    }

    fn arg_sort(&self, op: u8, k: u8) -> Option<u8> {
        self.operation(op)?.arg_sort(k)
    }

    fn result_sort(&self, op: u8) -> Option<u8> {
        Some(self.operation(op)?.result)
    }

    fn value(&self, op: u8, args: &[u8]) -> Option<u8> {
        let operation = self.operation(op)?;
        let place = place_of(self.sizes.as_slice(), operation.sorts.as_slice(), args)?;
        Some(self.values.as_slice()[operation.offset + place])
    }
}
