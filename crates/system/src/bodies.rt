//! Checking the bodies of a system's equations, and its start.
ghost use Rattle.std.specs.Prelude.{◌≡◌, ◌<◌, ◌≤◌, map, length, take as front, IfOk};
ghost use Rattle.definitions.specs.Reading.{one_by_one as each};
ghost use Rattle.definitions.specs.ReadSystem.{read_of, read_target, read_occurrence, read_clause, read_body, read_value_of, scope};
ghost use Rattle.bits.specs.Told.{Reads};
ghost use Rattle.rows.specs.Listed.{listed};
ghost use Rattle.system.specs.Steps.{skipping};
ghost use Rattle.system.specs.Files.{kept_header};
ghost use Rattle.system.specs.Bodies.{places_of, padded};

use crate::DEPTH;
use crate::header::Header;
use crate::outline::Equation;
use crate::term::Checker;
use algebra::Algebra;
use bits::Cursor;
use faults::{Reason, Stop};
use rows::Row;

pub(crate) fn read_target(headers: &[Header], cursor: &mut Cursor) -> Result<(u8, Header), Stop>
    ensures reads { Reads (λ t. (t.0, kept_header t.1)) (read_target (map kept_header headers.now)) cursor.old cursor.new result }
    ensures present { IfOk result (λ t. t.0 < length headers.now) }
{
    let place = cursor.at;
    let index = cursor.field(5)?;
    match headers.get(index as usize) {
        Some(header) => Ok((index as u8, *header)),
        None => Err(Stop {
            reason: Reason::NoSuchName,
            place,
        }),
    }
}

impl<'a, G: Algebra> Checker<'a, G> {
    fn check_of(&self, cursor: &mut Cursor, sort: u8) -> Result<(), Stop>
        ensures { Reads (λ x. x) (skipping (read_of (G.meaning self.now.alg.now) (scope (kept_header self.now.header.now)) sort)) cursor.old cursor.new result }
    {
        self.check_term(cursor, DEPTH, Some(sort))?;
        Ok(())
    }

    fn check_occurrence(&self, cursor: &mut Cursor) -> Result<(), Stop>
        ensures { Reads (λ x. x) (skipping (read_occurrence (G.meaning self.now.alg.now) (map kept_header self.now.headers.now) (scope (kept_header self.now.header.now)))) cursor.old cursor.new result }
    {
        let (_, header) = read_target(self.headers, cursor)?;
        for sort in header.sorts.as_slice() {
            self.check_of(cursor, *sort)?;
        }
        Ok(())
    }

    fn check_clause(&self, cursor: &mut Cursor) -> Result<(), Stop>
        ensures { Reads (λ x. x) (skipping (read_clause (G.meaning self.now.alg.now) (map kept_header self.now.headers.now) (scope (kept_header self.now.header.now)))) cursor.old cursor.new result }
    {
        self.check_of(cursor, 0)?;
        let more = cursor.field(3)?;
        for _ in 0..more + 1 {
            self.check_occurrence(cursor)?;
        }
        Ok(())
    }

    fn check_body(&self, cursor: &mut Cursor) -> Result<(), Stop>
        ensures { Reads (λ x. x) (skipping (read_body (G.meaning self.now.alg.now) (map kept_header self.now.headers.now) (kept_header self.now.header.now))) cursor.old cursor.new result }
    {
        self.check_of(cursor, 0)?;
        let count = cursor.field(4)?;
        for _ in 0..count {
            self.check_clause(cursor)?;
        }
        Ok(())
    }
}

/// The equations with the places of their bodies.
pub(crate) fn check_bodies<'a, G: Algebra>(
    alg: &'a G,
    headers: &'a [Header],
    cursor: &mut Cursor,
) -> Result<Row<Equation, 31>, Stop>
    requires { length headers.now ≤ 31 }
    ensures reads { Reads (λ r. tt) (skipping (each (read_body (G.meaning alg.now) (map kept_header headers.now)) (map kept_header headers.now))) cursor.old cursor.new result }
    ensures equations { IfOk result (λ r. (map (λ e. e.header) (listed r) ≡ headers.now) × (map (λ e. e.body) (listed r) ≡ places_of (read_body (G.meaning alg.now) (map kept_header headers.now)) (map kept_header headers.now) cursor.old.bytes.now cursor.old.at)) }
{
    let mut equations = Row::new(Equation {
        header: Header::unused(),
        body: 0,
    });
    for header in headers {
        let body = cursor.at;
        let checker = Checker {
            alg,
            headers,
            header,
        };
        checker.check_body(cursor)?;
        let header = *header;
        equations.push(Equation { header, body }).unwrap();
    }
    Ok(equations)
}

fn read_value<G: Algebra>(alg: &G, cursor: &mut Cursor, sort: u8) -> Result<u8, Stop>
    ensures { Reads (λ v. v) (read_value_of (G.meaning alg.now) sort) cursor.old cursor.new result }
{
    // A sort that is not there has no value.
    let size = alg.size(sort).unwrap_or(0);
    let value = cursor.field_below(8, size as u32, Reason::ValueTooLarge)?;
    Ok(value as u8)
}

/// One value of each sort, with zeros behind them.
pub(crate) fn read_values<G: Algebra>(
    alg: &G,
    cursor: &mut Cursor,
    sorts: &[u8],
) -> Result<[u8; 15], Stop>
    requires { length sorts.now ≤ 15 }
    ensures reads { Reads (λ vs. front (length sorts.now) vs) (each (read_value_of (G.meaning alg.now)) sorts.now) cursor.old cursor.new result }
    ensures zeros { IfOk result (λ vs. vs ≡ padded (front (length sorts.now) vs)) }
{
    let mut values = [0u8; 15];
    // By index: of what `iter_mut().zip(..)` has written a proof knows nothing afterwards.
    for (i, sort) in sorts.iter().enumerate() {
        values[i] = read_value(alg, cursor, *sort)?;
    }
    Ok(values)
}
