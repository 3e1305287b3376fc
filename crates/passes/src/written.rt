//! Writing a term with its parameters renumbered or replaced, or folded.
ghost use Rattle.std.specs.Prelude.{◌≡◌, ℕ, ◌<◌, ◌≤◌, true, false, [], List, length, Some, None, IfOk};
ghost use Rattle.std.specs.Option.{option_map};
ghost use Rattle.definitions.specs.Systems.{Term as Tree, value as value_kind};
ghost use Rattle.definitions.specs.Values.{known};
ghost use Rattle.definitions.specs.Terms.{on_parameter};
ghost use Rattle.definitions.specs.Passes.{sort_of};
ghost use Rattle.definitions.specs.Written.{kind_bits, term_bits};
ghost use Rattle.definitions.specs.Fits.{Fits};
ghost use Rattle.definitions.specs.ReadSystem.{greatest_depth};
ghost use Rattle.terms.specs.Shapes.{standing};
ghost use Rattle.bits.specs.Writes.{Writes};
ghost use Rattle.passes.specs.Planned.{kind_by, term_by, kind_shown, parts_shown, Narrow, KindFits};

use crate::plan::{Change, ParameterChange, Plan};
use algebra::Algebra;
use bits::{BitWriter, Full};
use system::DEPTH;
use system::value::{Environment, known_value};
use system::view::{Parts, Term, View, read_term};
use system::walk::Accepted;

/// The kind of a term as it is written: its number alone, where a `Term` has its parts too.
#[derive(Clone, Copy, PartialEq, Eq, Debug)]
enum Kind {
    Parameter = 0,
    Variable = 1,
    Value = 2,
    Operation = 3,
    Not = 4,
    And = 5,
    Or = 6,
    Equal = 7,
}

/// An equation that is written anew: the sorts of its parameters, and what becomes of it in the plan.
#[derive_where(Clone, Copy)]
pub struct Edit<'a, G> {
    pub accepted: &'a Accepted<'a, G>,
    pub plan: &'a Plan,
    pub sorts: &'a [u8],
    pub change: &'a Change,
}

// A value term.
pub(crate) fn write_value(writer: &mut BitWriter, sort: u8, value: u8) -> Result<(), Full>
    ensures { sort < 16 → Writes (kind_bits (value_kind sort value)) writer.old writer.new result }
{
    writer.put(Kind::Value as u32, 3)?;
    writer.put(sort as u32, 4)?;
    writer.put(value as u32, 8)
}

// The sort of a term that has a known value though nothing is known.
fn sort_of<G: Algebra>(alg: &G, term: Term) -> u8
    ensures { result ≡ sort_of (G.meaning alg.now) (kind_shown term.entry) }
{
    match term {
        Term::Value { sort, value: _ } => sort,
        // An operation that has a value has a sort.
        Term::Operation { op, arguments: _ } => alg.result_sort(op).unwrap_or(0),
        _ => 0,
    }
}

impl<'a, G: Algebra> Edit<'a, G> {
    // A parameter: its value in its place, or its new number.
    fn write_parameter(&self, n: usize, writer: &mut BitWriter) -> Result<(), Full>
        ensures { Narrow self.now.sorts.now → n < length self.now.sorts.now → Writes (kind_bits (kind_by self.now.sorts.now self.now.change.now n)) writer.old writer.new result }
    {
        match self.change.parameters.get(n).ok_or(Full)? {
            ParameterChange::Becomes(value) => write_value(
                writer,
                *self.sorts.get(n).ok_or(Full)?,
                *value,
            ),
            _ => {
                writer.put(Kind::Parameter as u32, 3)?;
                writer.put(self.change.number_of(n), 4)
            }
        }
    }

    // The sort and value of the term at the view if it folds to a value term.
    fn folded(&self, term: Term, view: View, depth: u8) -> Option<(u8, u8)>
        ensures unfolded { self.now.plan.now.fold ≡ false → result ≡ None }
        ensures folds { self.now.plan.now.fold ≡ true → (t : Tree) → standing (G.meaning self.now.accepted.now.alg.now) depth view.entry.bytes.now view.entry.at ≡ Some t → result ≡ option_map (λ v. (sort_of (G.meaning self.now.accepted.now.alg.now) (kind_shown term.entry), v)) (known (G.meaning self.now.accepted.now.alg.now) [] t) }
    {
        if !self.plan.fold {
            return None;
        }
        let value = known_value(self.accepted.alg, &Environment::unknown(), view, depth)?;
        Some((sort_of(self.accepted.alg, term), value))
    }

    // A term up to its parts, which are still to be written.
    fn write_opening<'b>(&self, term: Term<'b>, writer: &mut BitWriter) -> Result<Parts<'b>, Full>
        ensures writes { Narrow self.now.sorts.now → KindFits self.now.sorts.now (kind_shown term.entry) → Writes (kind_bits (on_parameter (kind_by self.now.sorts.now self.now.change.now) (kind_shown term.entry))) writer.old writer.new result }
        ensures parts { IfOk result (λ ps. ps ≡ parts_shown term.entry) }
    {
        let (kind, parts) = match term {
            Term::Parameter(n) => {
                self.write_parameter(n as usize, writer)?;
                return Ok(Parts::Zero);
            }
            Term::Variable(n) => {
                writer.put(Kind::Variable as u32, 3)?;
                writer.put(n as u32, 2)?;
                return Ok(Parts::Zero);
            }
            Term::Value { sort, value } => {
                write_value(writer, sort, value)?;
                return Ok(Parts::Zero);
            }
            Term::Operation { op, arguments } => {
                writer.put(Kind::Operation as u32, 3)?;
                writer.put(op as u32, 6)?;
                return Ok(arguments);
            }
            Term::Not(a) => (Kind::Not, Parts::One(a)),
            Term::And(a, b) => (Kind::And, Parts::Two(a, b)),
            Term::Or(a, b) => (Kind::Or, Parts::Two(a, b)),
            Term::Equal(a, b) => (Kind::Equal, Parts::Two(a, b)),
        };
        writer.put(kind as u32, 3)?;
        Ok(parts)
    }

    // The term at the view, which has depth at most `depth`.
    fn write_view(&self, view: View, depth: u8, writer: &mut BitWriter) -> Result<(), Full>
        ensures { (t : Tree) (vs : List ℕ) (s : ℕ) → Narrow self.now.sorts.now → Fits (G.meaning self.now.accepted.now.alg.now) (record { parameters = self.now.sorts.now; variables = vs }) depth s t → standing (G.meaning self.now.accepted.now.alg.now) depth view.entry.bytes.now view.entry.at ≡ Some t → Writes (term_bits (term_by (G.meaning self.now.accepted.now.alg.now) self.now.plan.now self.now.sorts.now self.now.change.now t)) writer.old writer.new result }
    {
        if depth == 0 {
            return Err(Full);
        }
        let term = read_term(self.accepted.alg, view, depth).ok_or(Full)?;
        if let Some((sort, value)) = self.folded(term, view, depth) {
            return write_value(writer, sort, value);
        }
        match self.write_opening(term, writer)? {
            Parts::Zero => Ok(()),
            Parts::One(a) => self.write_view(a, depth - 1, writer),
            Parts::Two(a, b) => {
                self.write_view(a, depth - 1, writer)?;
                self.write_view(b, depth - 1, writer)
            }
            Parts::Three(a, b, c) => {
                self.write_view(a, depth - 1, writer)?;
                self.write_view(b, depth - 1, writer)?;
                self.write_view(c, depth - 1, writer)
            }
        }
    }

    // The term at the place.
    pub(crate) fn write_term(&self, at: usize, writer: &mut BitWriter) -> Result<(), Full>
        ensures { (t : Tree) (vs : List ℕ) (s : ℕ) → Narrow self.now.sorts.now → Fits (G.meaning self.now.accepted.now.alg.now) (record { parameters = self.now.sorts.now; variables = vs }) greatest_depth s t → standing (G.meaning self.now.accepted.now.alg.now) greatest_depth self.now.accepted.now.file.now at ≡ Some t → Writes (term_bits (term_by (G.meaning self.now.accepted.now.alg.now) self.now.plan.now self.now.sorts.now self.now.change.now t)) writer.old writer.new result }
    {
        self.write_view(self.accepted.view(at), DEPTH, writer)
    }
}
