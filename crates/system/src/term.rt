//! Checking terms: kinds, numbers, depths and sorts.
ghost use Rattle.std.specs.Prelude.{◌≡◌, ℕ, List, Option};
ghost use Rattle.definitions.specs.Reading.{Reader};
ghost use Rattle.definitions.specs.ReadSystem.{Sorted, suits, read_value, read_operation, read_term, scope, Scope as Names};
ghost use Rattle.bits.specs.Told.{told, Reads};
ghost use Rattle.system.specs.Steps.{sort_only, named, read_name, operated};
ghost use Rattle.system.specs.Files.{kept_header};

use crate::header::Header;
use algebra::Algebra;
use bits::Cursor;
use faults::{Reason, Stop};

/// What a body can name: the algebra's sorts and operations, the equations, and its own header's parameters and variables.
#[derive(Drop)]
pub struct Checker<'a, G> {
    pub alg: &'a G,
    pub headers: &'a [Header],
    pub header: &'a Header,
}

/// An operation before its arguments.
#[derive(Clone, Copy)]
pub struct Operation {
    pub op: u8,
    pub count: u8,
    pub sort: u8,
}

// The sort of the term at the place must be the one needed.
fn suit(need: Option<u8>, sort: u8, place: usize) -> Result<(), Stop>
    ensures { (f : List ℕ) (p : ℕ) → told (λ x. x) p result ≡ suits need sort place f p }
{
    if need.is_none_or(|n| n == sort) {
        Ok(())
    } else {
        Err(Stop {
            reason: Reason::WrongSort,
            place,
        })
    }
}

// The sort of a parameter or variable, whose number stands at the place, of the term at `start`.
fn check_name(sort: Option<u8>, place: usize, start: usize, need: Option<u8>) -> Result<u8, Stop>
    ensures { (f : List ℕ) (p : ℕ) → told (λ s. s) p result ≡ named sort place start need f p }
{
    let sort = sort.ok_or(Stop {
        reason: Reason::NoSuchName,
        place,
    })?;
    suit(need, sort, start)?;
    Ok(sort)
}

impl<'a, G: Algebra> Checker<'a, G> {
    fn check_parameter(
        &self,
        cursor: &mut Cursor,
        start: usize,
        need: Option<u8>,
    ) -> Result<u8, Stop>
        ensures { Reads (λ s. s) (read_name (scope (kept_header self.now.header.now)).parameters 4 start need) cursor.old cursor.new result }
    {
        let place = cursor.at;
        let number = cursor.field(4)? as usize;
        let sorts = self.header.sorts.as_slice();
        check_name(sorts.get(number).copied(), place, start, need)
    }

    fn check_variable(
        &self,
        cursor: &mut Cursor,
        start: usize,
        need: Option<u8>,
    ) -> Result<u8, Stop>
        ensures { Reads (λ s. s) (read_name (scope (kept_header self.now.header.now)).variables 2 start need) cursor.old cursor.new result }
    {
        let place = cursor.at;
        let number = cursor.field(2)? as usize;
        let variables = self.header.quantified.as_slice();
        let sort = variables.get(number).map(|variable| variable.sort);
        check_name(sort, place, start, need)
    }

    fn check_value(&self, cursor: &mut Cursor, start: usize, need: Option<u8>) -> Result<u8, Stop>
        ensures { (c : Names) (part : Option ℕ → Reader Sorted) → Reads (λ s. s) (sort_only (read_value (G.meaning self.now.alg.now) c part start need)) cursor.old cursor.new result }
    {
        let missing = Stop {
            reason: Reason::NoSuchSort,
            place: cursor.at,
        };
        let sort = cursor.field(4)? as u8;
        let size = self.alg.size(sort).ok_or(missing)?;
        suit(need, sort, start)?;
        cursor.field_below(8, size as u32, Reason::ValueTooLarge)?;
        Ok(sort)
    }

    fn check_operation(
        &self,
        cursor: &mut Cursor,
        start: usize,
        need: Option<u8>,
    ) -> Result<Operation, Stop>
        ensures reads { (c : Names) (part : Option ℕ → Reader Sorted) → operated (G.meaning self.now.alg.now) part cursor.old.bytes.now cursor.new.at result ≡ read_operation (G.meaning self.now.alg.now) c part start need cursor.old.bytes.now cursor.old.at }
        ensures same { cursor.new.bytes.now ≡ cursor.old.bytes.now }
    {
        let missing = Stop {
            reason: Reason::NoSuchName,
            place: cursor.at,
        };
        let op = cursor.field(6)? as u8;
        let count = self.alg.arity(op).ok_or(missing)?;
        let sort = self.alg.result_sort(op).ok_or(missing)?;
        suit(need, sort, start)?;
        Ok(Operation { op, count, sort })
    }

    /// The sort of the next term, which suits the sort needed.
    pub(crate) fn check_term(
        &self,
        cursor: &mut Cursor,
        depth: u8,
        need: Option<u8>,
    ) -> Result<u8, Stop>
        ensures { Reads (λ s. s) (sort_only (read_term (G.meaning self.now.alg.now) (scope (kept_header self.now.header.now)) depth need)) cursor.old cursor.new result }
    {
        let start = cursor.at;
        let kind = cursor.field(3)?;
        if depth == 0 {
            return Err(Stop {
                reason: Reason::TooDeep,
                place: start,
            });
        }
        // The numbers of the format: each fault has its place between the fields of its kind, so a kind is not read whole before it is checked.
        match kind {
            0 => self.check_parameter(cursor, start, need),
            1 => self.check_variable(cursor, start, need),
            2 => self.check_value(cursor, start, need),
            3 => {
                let o = self.check_operation(cursor, start, need)?;
                for k in 0..o.count {
                    self.check_term(cursor, depth - 1, self.alg.arg_sort(o.op, k))?;
                }
                Ok(o.sort)
            }
            4..=6 => {
                suit(need, 0, start)?;
                let count: u8 = if kind == 4 { 1 } else { 2 };
                for _ in 0..count {
                    self.check_term(cursor, depth - 1, Some(0))?;
                }
                Ok(0)
            }
            _ => {
                suit(need, 0, start)?;
                let sort = self.check_term(cursor, depth - 1, None)?;
                self.check_term(cursor, depth - 1, Some(sort))?;
                Ok(0)
            }
        }
    }
}
