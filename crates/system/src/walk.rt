//! Walking an accepted file: bodies, clauses and occurrences, with their terms as places.
ghost use Rattle.std.specs.Prelude.{◌≡◌, ℕ, ◌^◌, ◌<◌, ◌≤◌, List, map, Option, length, IfSome};
ghost use Rattle.std.specs.Option.{option_map};
ghost use Rattle.definitions.specs.Lists.{bind};
ghost use Rattle.definitions.specs.Systems.{fold};
ghost use Rattle.definitions.specs.Reading.{next};
ghost use Rattle.definitions.specs.ReadSystem.{Scope, Sorted, greatest_depth, read_term};
ghost use Rattle.definitions.specs.Values.{kind_known};
ghost use Rattle.terms.specs.Shapes.{standing};
ghost use Rattle.terms.specs.Known.{Alike};
ghost use Rattle.rows.specs.Listed.{listed};
ghost use Rattle.system.specs.Whole.{kept_headers};
ghost use Rattle.system.specs.Walks.{term_places, counted, target_place, occurrences_end, clause_end, ended, filled, arguments_of, BodyPlaces, ClausePlaces, OccurrencePlaces, BodyFound, ClauseFound, OccurrenceFound, EndFound, occurrence_next, OccurrencesPlaces, OccurrencesFound, RowPlaces, RowFound, ClausesPlaces, ClausesFound};

use crate::DEPTH;
use crate::outline::Outline;
pub use crate::places::{BodyAt, ClauseAt, OccurrenceAt};
use algebra::Algebra;
use bits::BitReader;
use rows::Row;
use terms::value::{Environment, known_value};
use terms::view::{View, end_of_term};

// The number behind the term at the place, and the place behind the number.
fn counted<G: Algebra>(alg: &G, bytes: &[u8], width: u32, at: usize) -> Option<(u32, usize)>
    requires { width ≤ 32 }
    ensures reads { result ≡ counted (G.meaning alg.now) width bytes.now at }
    ensures small { IfSome result (λ x. x.0 < 2 ^ width) }
{
    let end = end_of_term(alg, View { bytes, at }, DEPTH)?;
    let mut reader = BitReader { bytes, at: end };
    let number = reader.next(width)?;
    Some((number, reader.at))
}

/// The opening of the body at the place, with no outline at hand.
///
/// None where no term with a clause count behind it stands there.
pub fn open_body<G: Algebra>(alg: &G, bytes: &[u8], at: usize) -> Option<BodyAt>
    ensures places { BodyPlaces (G.meaning alg.now) bytes.now at result }
    ensures found { BodyFound (G.meaning alg.now) bytes.now at result }
{
    let (count, next) = counted(alg, bytes, 4, at)?;
    Some(BodyAt {
        h: at,
        count: count as u8,
        next,
    })
}

/// The opening of the clause at the place, with no outline at hand.
///
/// None where no term with an occurrence count behind it stands there.
pub fn open_clause<G: Algebra>(alg: &G, bytes: &[u8], at: usize) -> Option<ClauseAt>
    ensures places { ClausePlaces (G.meaning alg.now) bytes.now at result }
    ensures found { ClauseFound (G.meaning alg.now) bytes.now at result }
{
    let (count, next) = counted(alg, bytes, 3, at)?;
    Some(ClauseAt {
        guard: at,
        count: count as u8 + 1,
        next,
    })
}

/// An accepted file with its outline, over its algebra.
#[derive_where(Clone, Copy)]
pub struct Accepted<'a, G> {
    pub alg: &'a G,
    pub outline: &'a Outline,
    pub file: &'a [u8],
}

impl<'a, G: Algebra> Accepted<'a, G> {
    /// The view of the term at the place.
    pub fn view(&self, at: usize) -> View<'a>
        ensures file { result.bytes.now ≡ self.now.file.now }
        ensures place { result.at ≡ at }
    {
        let bytes = self.file;
        View { bytes, at }
    }

    /// The known value of the term at the place; none where no term stands there.
    pub fn known(&self, env: &Environment, at: usize) -> Option<u8>
        ensures value { (ps vs : List (Option ℕ)) → Alike env.now.parameters ps → Alike env.now.variables vs → result ≡ bind (standing (G.meaning self.now.alg.now) greatest_depth self.now.file.now at) (λ t. fold t (kind_known (G.meaning self.now.alg.now) ps vs)) }
        ensures accepted { (c : Scope) (need : Option ℕ) (x : Sorted) (q : ℕ) → length self.now.file.now ≤ 65536 → read_term (G.meaning self.now.alg.now) c greatest_depth need self.now.file.now at ≡ next x q → (ps vs : List (Option ℕ)) → Alike env.now.parameters ps → Alike env.now.variables vs → result ≡ fold x.the_term (kind_known (G.meaning self.now.alg.now) ps vs) }
    {
        known_value(self.alg, env, self.view(at), DEPTH)
    }

    /// The opening of the body at the place.
    pub fn open_body(&self, at: usize) -> Option<BodyAt>
        ensures places { BodyPlaces (G.meaning self.now.alg.now) self.now.file.now at result }
        ensures found { BodyFound (G.meaning self.now.alg.now) self.now.file.now at result }
    {
        open_body(self.alg, self.file, at)
    }

    /// The opening of the clause at the place.
    pub fn open_clause(&self, at: usize) -> Option<ClauseAt>
        ensures places { ClausePlaces (G.meaning self.now.alg.now) self.now.file.now at result }
        ensures found { ClauseFound (G.meaning self.now.alg.now) self.now.file.now at result }
    {
        open_clause(self.alg, self.file, at)
    }

    // Fills the row with the places of so many arguments from the place on, and tells the place behind them.
    fn read_arguments(&self, count: usize, at: usize, places: &mut Row<usize, 15>) -> Option<usize>
        requires { count ≤ 15 }
        ensures { arguments_of (filled places.new result) ≡
            term_places (G.meaning self.now.alg.now) count self.now.file.now at }
    {
        places.clear();
        let mut next = at;
        for _ in 0..count {
            places.push(next).unwrap();
            next = end_of_term(self.alg, self.view(next), DEPTH)?;
        }
        Some(next)
    }

    // The place behind so many terms from the place on.
    fn end_of_terms(&self, terms: usize, at: usize) -> Option<usize>
        ensures { result ≡
            ended (term_places (G.meaning self.now.alg.now) terms self.now.file.now at) }
    {
        let mut next = at;
        for _ in 0..terms {
            next = end_of_term(self.alg, self.view(next), DEPTH)?;
        }
        Some(next)
    }

    // The target of the occurrence at the place, how many arguments it has, and the place of the first.
    fn target_at(&self, at: usize) -> Option<(u8, usize, usize)>
        ensures reads { result ≡ target_place (kept_headers self.now.outline.now) self.now.file.now at }
        ensures small { IfSome result (λ x. (x.0 < 31) × (x.1 ≤ 15)) }
    {
        let mut reader = BitReader {
            bytes: self.file,
            at,
        };
        let target = reader.next(5)?;
        let equation = self.outline.equations.as_slice().get(target as usize)?;
        Some((target as u8, equation.header.sorts.len(), reader.at))
    }

    /// The occurrence at the place.
    pub fn open_occurrence(&self, at: usize) -> Option<OccurrenceAt>
        ensures places { OccurrencePlaces (G.meaning self.now.alg.now) (kept_headers self.now.outline.now)
            self.now.file.now at result }
        ensures found { OccurrenceFound (G.meaning self.now.alg.now) (kept_headers self.now.outline.now)
            self.now.file.now at result }
    {
        let (target, count, first) = self.target_at(at)?;
        let mut occurrence = OccurrenceAt {
            target,
            arguments: Row::new(0),
            next: first,
        };
        let end = self.read_arguments(count, first, &mut occurrence.arguments)?;
        occurrence.next = end;
        Some(occurrence)
    }

    // The place behind the occurrence at the place.
    fn end_of_occurrence(&self, at: usize) -> Option<usize>
        ensures { result ≡ ended (occurrence_next (G.meaning self.now.alg.now)
            (kept_headers self.now.outline.now) self.now.file.now at) }
    {
        let (_, count, first) = self.target_at(at)?;
        self.end_of_terms(count, first)
    }

    // The place behind so many occurrences from the place on.
    fn end_of_occurrences(&self, occurrences: u8, at: usize) -> Option<usize>
        ensures { result ≡ occurrences_end (G.meaning self.now.alg.now)
            (kept_headers self.now.outline.now) occurrences self.now.file.now at }
    {
        let mut next = at;
        for _ in 0..occurrences {
            next = self.end_of_occurrence(next)?;
        }
        Some(next)
    }

    /// Fills the row with the occurrences of the clause, in their order, whatever it held before; the place behind them.
    ///
    /// None where one is missing: the row may then hold anything.
    ///
    /// So who goes through many clauses needs one row for all of them, and comes from a clause to the next.
    pub fn read_occurrences(
        &self,
        clause: &ClauseAt,
        occurrences: &mut Row<OccurrenceAt, 8>,
    ) -> Option<usize>
        ensures places { RowPlaces (G.meaning self.now.alg.now) (kept_headers self.now.outline.now)
            self.now.file.now clause.now occurrences.new result }
        ensures found { RowFound (G.meaning self.now.alg.now) (kept_headers self.now.outline.now)
            self.now.file.now clause.now occurrences.new result }
    {
        occurrences.clear();
        let mut next = clause.next;
        for _ in 0..clause.count {
            let occurrence = self.open_occurrence(next)?;
            occurrences.push(occurrence).unwrap();
            next = occurrence.next;
        }
        Some(next)
    }

    /// The occurrences of the clause, in their order.
    pub fn occurrences(&self, clause: &ClauseAt) -> Option<Row<OccurrenceAt, 8>>
        ensures places { OccurrencesPlaces (G.meaning self.now.alg.now) (kept_headers self.now.outline.now) self.now.file.now clause.now result }
        ensures found { OccurrencesFound (G.meaning self.now.alg.now) (kept_headers self.now.outline.now) self.now.file.now clause.now result }
    {
        let mut occurrences = Row::new(OccurrenceAt {
            target: 0,
            arguments: Row::new(0),
            next: 0,
        });
        self.read_occurrences(clause, &mut occurrences)?;
        Some(occurrences)
    }

    /// The known values of the occurrence's arguments.
    pub fn argument_values(&self, env: &Environment, occurrence: &OccurrenceAt) -> [Option<u8>; 15]
        ensures { (ps vs : List (Option ℕ)) → Alike env.now.parameters ps → Alike env.now.variables vs → Alike result (map (λ p. bind (standing (G.meaning self.now.alg.now) greatest_depth self.now.file.now p) (λ t. fold t (kind_known (G.meaning self.now.alg.now) ps vs))) (listed occurrence.now.arguments)) }
    {
        let mut values = [None; 15];
        // By index: of what `iter_mut().zip(..)` has written a proof knows nothing afterwards.
        for (i, at) in occurrence.arguments.as_slice().iter().enumerate() {
            values[i] = self.known(env, *at);
        }
        values
    }

    /// The place behind the clause at the place.
    pub fn end_of_clause(&self, at: usize) -> Option<usize>
        ensures places { result ≡ clause_end (G.meaning self.now.alg.now) (kept_headers self.now.outline.now) self.now.file.now at }
        ensures found { EndFound (G.meaning self.now.alg.now) (kept_headers self.now.outline.now) self.now.file.now at result }
    {
        let clause = self.open_clause(at)?;
        self.end_of_occurrences(clause.count, clause.next)
    }

    /// Fills the row with the clauses of the body, in their order, whatever it held before.
    ///
    /// None where one is missing: the row may then hold anything. So who goes through many bodies needs one row for all of them.
    pub fn read_clauses(&self, body: &BodyAt, clauses: &mut Row<ClauseAt, 15>) -> Option<()>
        ensures places { ClausesPlaces (G.meaning self.now.alg.now) (kept_headers self.now.outline.now)
            self.now.file.now body.now (option_map (λ _. clauses.new) result) }
        ensures found { ClausesFound (G.meaning self.now.alg.now) (kept_headers self.now.outline.now)
            self.now.file.now body.now (option_map (λ _. clauses.new) result) }
    {
        clauses.clear();
        let mut next = body.next;
        for _ in 0..body.count {
            let clause = self.open_clause(next)?;
            clauses.push(clause).unwrap();
            next = self.end_of_occurrences(clause.count, clause.next)?;
        }
        Some(())
    }

    /// The clauses of the body, in their order.
    pub fn clauses(&self, body: &BodyAt) -> Option<Row<ClauseAt, 15>>
        ensures places { ClausesPlaces (G.meaning self.now.alg.now) (kept_headers self.now.outline.now) self.now.file.now body.now result }
        ensures found { ClausesFound (G.meaning self.now.alg.now) (kept_headers self.now.outline.now) self.now.file.now body.now result }
    {
        let mut clauses = Row::new(ClauseAt {
            guard: 0,
            count: 1,
            next: 0,
        });
        self.read_clauses(body, &mut clauses)?;
        Some(clauses)
    }
}
