//! Reading the headers of a system file.
//!
//! Its three loops differ in what they read; one over a closure would need a clause about every kind of record that a reader reads,
//! and a longer contract and proof at each call.
ghost use Rattle.std.specs.Prelude.{◌≤◌, map};
ghost use Rattle.definitions.specs.Reading.{repeated};
ghost use Rattle.definitions.specs.ReadSystem.{read_sort, read_quantified, read_header};
ghost use Rattle.bits.specs.Told.{Reads};
ghost use Rattle.rows.specs.Listed.{listed};
ghost use Rattle.system.specs.Files.{kept_quantified, kept_header};

use crate::header::{Header, Quantified, Quantifier, Sign};
use algebra::Algebra;
use bits::Cursor;
use faults::{Reason, Stop};
use rows::Row;

fn read_sort<G: Algebra>(alg: &G, cursor: &mut Cursor) -> Result<u8, Stop>
    ensures { Reads (λ s. s) (read_sort (G.meaning alg.now)) cursor.old cursor.new result }
{
    let missing = Stop {
        reason: Reason::NoSuchSort,
        place: cursor.at,
    };
    let sort = cursor.field(4)? as u8;
    alg.size(sort).ok_or(missing)?;
    Ok(sort)
}

fn read_sorts<G: Algebra>(alg: &G, cursor: &mut Cursor, count: u32) -> Result<Row<u8, 15>, Stop>
    requires { count ≤ 15 }
    ensures { Reads (λ r. listed r) (repeated (read_sort (G.meaning alg.now)) count) cursor.old cursor.new result }
{
    let mut sorts = Row::new(0);
    for _ in 0..count {
        let sort = read_sort(alg, cursor)?;
        sorts.push(sort).unwrap();
    }
    Ok(sorts)
}

fn read_quantified<G: Algebra>(alg: &G, cursor: &mut Cursor) -> Result<Quantified, Stop>
    ensures { Reads kept_quantified (read_quantified (G.meaning alg.now)) cursor.old cursor.new result }
{
    let quantifier = Quantifier::from_bit(cursor.field(1)?);
    let sort = read_sort(alg, cursor)?;
    Ok(Quantified { quantifier, sort })
}

fn read_quantifieds<G: Algebra>(
    alg: &G,
    cursor: &mut Cursor,
    count: u32,
) -> Result<Row<Quantified, 3>, Stop>
    requires { count ≤ 3 }
    ensures { Reads (λ r. map kept_quantified (listed r)) (repeated (read_quantified (G.meaning alg.now)) count) cursor.old cursor.new result }
{
    let mut quantified = Row::new(Quantified::default());
    for _ in 0..count {
        let variable = read_quantified(alg, cursor)?;
        quantified.push(variable).unwrap();
    }
    Ok(quantified)
}

fn read_header<G: Algebra>(alg: &G, cursor: &mut Cursor) -> Result<Header, Stop>
    ensures { Reads kept_header (read_header (G.meaning alg.now)) cursor.old cursor.new result }
{
    let sign = Sign::from_bit(cursor.field(1)?);
    let count = cursor.field(4)?;
    let sorts = read_sorts(alg, cursor, count)?;
    let count = cursor.field(2)?;
    let quantified = read_quantifieds(alg, cursor, count)?;
    Ok(Header {
        sign,
        sorts,
        quantified,
    })
}

pub(crate) fn read_headers<G: Algebra>(
    alg: &G,
    cursor: &mut Cursor,
    count: u32,
) -> Result<Row<Header, 31>, Stop>
    requires { count ≤ 31 }
    ensures { Reads (λ r. map kept_header (listed r)) (repeated (read_header (G.meaning alg.now)) count) cursor.old cursor.new result }
{
    let mut headers = Row::new(Header::unused());
    for _ in 0..count {
        let header = read_header(alg, cursor)?;
        headers.push(header).unwrap();
    }
    Ok(headers)
}
