//! Reading a table file.
//!
//! Its loops differ in what they read; one over a closure would need a clause about every kind of record that a reader reads.
ghost use Rattle.std.specs.Prelude.{◌≡◌, ◌+◌, ◌*◌, ◌≤◌, true, [], ◌∷◌, map, length, take, drop, IfOk, nat_lt};
ghost use Rattle.faults.specs.declared.Reason.TheVariants.{NoSuchSort, ValueTooLarge};
ghost use Rattle.rows.specs.Listed.{listed};
ghost use Rattle.bits.specs.Told.{Reads};
ghost use Rattle.definitions.specs.Lists.{each, product};
ghost use Rattle.definitions.specs.Alg.{sized};
ghost use Rattle.definitions.specs.Reading.{take_for, below, repeated, follow, complete, ended, next as step};
ghost use Rattle.definitions.specs.Tables.{read_size, read_sizes, read_op, read_table, table_reading};
ghost use Rattle.algebra.specs.Kept.{values_of, kept_op, roomy};
ghost use Rattle.algebra.specs.Tabled.{stored};
ghost use Rattle.algebra.specs.Told.{judged};

use crate::table::Table;
use crate::table::operation::Operation;
use bits::Cursor;
use faults::{Reason, Stop, TableFault};
use rows::Row;

fn read_size(cursor: &mut Cursor) -> Result<u16, Stop>
    ensures { Reads (λ n. n) read_size cursor.old cursor.new result }
{
    let size = cursor.field(8)?;
    Ok(size as u16 + 1)
}

/// The sizes behind sort 0's, with that before them.
fn read_more_sizes(cursor: &mut Cursor, more: u8) -> Result<Row<u16, 16>, Stop>
    requires { more ≤ 15 }
    ensures { Reads (λ r. listed r) (λ f p. follow (repeated read_size more f p) (λ zs q. step (2 ∷ zs) q)) cursor.old cursor.new result }
{
    let mut sizes = Row::new(2);
    sizes.push(2).unwrap();
    for _ in 0..more {
        let size = read_size(cursor)?;
        sizes.push(size).unwrap();
    }
    Ok(sizes)
}

fn read_sizes(cursor: &mut Cursor) -> Result<Row<u16, 16>, Stop>
    ensures { Reads (λ r. listed r) read_sizes cursor.old cursor.new result }
{
    let more = cursor.field(4)?;
    let place = cursor.at;
    let truths = read_size(cursor)?;
    if truths != 2 {
        return Err(Stop {
            reason: Reason::TruthSortSize,
            place,
        });
    }
    read_more_sizes(cursor, more as u8)
}

fn read_sort(cursor: &mut Cursor, count: u8) -> Result<u8, Stop>
    ensures { Reads (λ s. s) (take_for 4 (below count) NoSuchSort) cursor.old cursor.new result }
{
    let sort = cursor.field_below(4, count as u32, Reason::NoSuchSort)?;
    Ok(sort as u8)
}

fn read_sorts(cursor: &mut Cursor, count: u8, arity: u8) -> Result<Row<u8, 3>, Stop>
    requires { arity ≤ 3 }
    ensures { Reads (λ r. listed r) (repeated (take_for 4 (below count) NoSuchSort) arity) cursor.old cursor.new result }
{
    let mut sorts = Row::new(0);
    for _ in 0..arity {
        let sort = read_sort(cursor, count)?;
        sorts.push(sort).unwrap();
    }
    Ok(sorts)
}

/// How many lists of arguments of some sorts there are.
fn lists(sizes: &[u16], sorts: &[u8]) -> usize
    requires few { length sorts.now ≤ 3 }
    requires known { each (λ s. nat_lt s (length sizes.now)) sorts.now ≡ true }
    ensures { result ≡ product (sized sizes.now sorts.now) }
{
    let mut total = 1usize;
    for sort in sorts {
        total *= sizes[*sort as usize] as usize;
    }
    total
}

fn read_value(cursor: &mut Cursor, size: u16) -> Result<u8, Stop>
    ensures { Reads (λ v. v) (take_for 8 (below size) ValueTooLarge) cursor.old cursor.new result }
{
    let value = cursor.field_below(8, size as u32, Reason::ValueTooLarge)?;
    Ok(value as u8)
}

/// Reads the values of an operation behind those before it. No table file has more than there is room for.
fn read_values(
    cursor: &mut Cursor,
    size: u16,
    count: usize,
    values: &mut Row<u8, 16384>,
) -> Result<(), Stop>
    requires short { length cursor.old.bytes.now ≤ 16384 }
    requires ahead { 8 * length (listed values.old) ≤ cursor.old.at }
    ensures reads { Reads (λ _. drop (length (listed values.old)) (listed values.new)) (repeated (take_for 8 (below size) ValueTooLarge) count) cursor.old cursor.new result }
    ensures before { take (length (listed values.old)) (listed values.new) ≡ listed values.old }
    ensures ahead { IfOk result (λ _. 8 * length (listed values.new) ≤ cursor.new.at) }
{
    for _ in 0..count {
        let value = read_value(cursor, size)?;
        values.push(value).unwrap();
    }
    Ok(())
}

fn read_operation(
    cursor: &mut Cursor,
    sizes: &[u16],
    values: &mut Row<u8, 16384>,
) -> Result<Operation, Stop>
    requires short { length cursor.old.bytes.now ≤ 16384 }
    requires few { length sizes.now ≤ 16 }
    requires ahead { 8 * length (listed values.old) ≤ cursor.old.at }
    ensures reads { Reads (λ o. kept_op sizes.now (listed values.new) o) (read_op sizes.now) cursor.old cursor.new result }
    ensures before { take (length (listed values.old)) (listed values.new) ≡ listed values.old }
    ensures fit { IfOk result (λ o. (o.offset + values_of sizes.now o ≤ length (listed values.new)) × (8 * length (listed values.new) ≤ cursor.new.at)) }
{
    let arity = cursor.field(2)?;
    let count = sizes.len() as u8;
    let sorts = read_sorts(cursor, count, arity as u8)?;
    let result = read_sort(cursor, count)?;
    let number = lists(sizes, sorts.as_slice());
    let offset = values.as_slice().len();
    read_values(cursor, sizes[result as usize], number, values)?;
    Ok(Operation {
        sorts,
        result,
        offset,
    })
}

fn read_operations(
    cursor: &mut Cursor,
    sizes: &[u16],
    count: u8,
    values: &mut Row<u8, 16384>,
) -> Result<Row<Operation, 63>, Stop>
    requires short { length cursor.old.bytes.now ≤ 16384 }
    requires few { length sizes.now ≤ 16 }
    requires many { count ≤ 63 }
    requires none { listed values.old ≡ [] }
    ensures reads { Reads (λ r. map (kept_op sizes.now (listed values.new)) (listed r)) (repeated (read_op sizes.now) count) cursor.old cursor.new result }
    ensures fit { IfOk result (λ r. roomy sizes.now (listed values.new) (listed r) ≡ true) }
{
    let mut operations = Row::new(Operation::filler());
    for _ in 0..count {
        let operation = read_operation(cursor, sizes, values)?;
        operations.push(operation).unwrap();
    }
    Ok(operations)
}

// The table of a file that is not too long.
fn read_whole(file: &[u8]) -> Result<Table, TableFault>
    requires short { length file.now ≤ 16384 }
    ensures { judged result ≡ ended (complete read_table file.now 0) }
{
    let mut cursor = Cursor { bytes: file, at: 0 };
    let sizes = read_sizes(&mut cursor)?;
    let number = cursor.field(6)?;
    let mut values = Row::new(0);
    let operations = read_operations(&mut cursor, sizes.as_slice(), number as u8, &mut values)?;
    cursor.end()?;
    Ok(Table {
        sizes,
        operations,
        values,
    })
}

/// What a table file says.
pub fn read_table(file: &[u8]) -> Result<Table, TableFault>
    ensures { judged result ≡ table_reading file.now }
{
    if file.is_empty() || file.len() > 16384 {
        return Err(TableFault {
            reason: Reason::BadLength,
            place: 0,
        });
    }
    // A table is large, so it is handed on as it comes, and not taken out of one answer into another.
    read_whole(file)
}
