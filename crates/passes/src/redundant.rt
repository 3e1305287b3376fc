//! R: parameters that reach no mark are removed. A mark is an occurrence in h or in a guard, and a parameter points to
//! each parameter in whose argument it occurs.
ghost use Rattle.std.specs.Prelude.{◌≡◌, ℕ, ◌≤◌, List, map, length, true, Some};
ghost use Rattle.definitions.specs.Lists.{at, flat, some};
ghost use Rattle.definitions.specs.Systems.{Term as Tree, Occurrence as ReadOccurrence, Clause as ReadClause, Equation as ReadEquation, System};
ghost use Rattle.definitions.specs.Reading.{next, repeated};
ghost use Rattle.definitions.specs.ReadSystem.{Scope, Header as Heading, greatest_depth, read_clause, read_body};
ghost use Rattle.definitions.specs.Fits.{SystemFits};
ghost use Rattle.definitions.specs.Passes.{occurrences as occurring, pass_r};
ghost use Rattle.terms.specs.Shapes.{standing};
ghost use Rattle.rows.specs.Listed.{listed};
ghost use Rattle.firstcome.specs.Coming.{listed as came};
ghost use Rattle.system.specs.Whole.{kept_headers, Outlined};
ghost use Rattle.system.specs.Walks.{OccurrenceOf, ClauseOf, Pairs};
ghost use Rattle.passes.specs.Meanings.{r_rules};
ghost use Rattle.passes.specs.Plans.{needing, Planning};
ghost use Rattle.passes.specs.Comes.{Has, Room, Brings, Gathers, Follows, Occurring, Guarding, Marking, Feeding, Pointing, Marks, Points, Staying, Needing, is_parameter, wanted};

use crate::Pass;
use crate::plan::{Change, Missing, ParameterChange, Plan};
use crate::rewrite::apply_planned;
use crate::walked::no_occurrences;
use algebra::Algebra;
use faults::PassFault;
use firstcome::FirstCome;
use rows::Row;
use system::DEPTH;
use system::occur::occurs;
use system::reading::Equation;
use system::walk::{Accepted, BodyAt, ClauseAt, OccurrenceAt};

/// The pass R.
#[derive(Clone, Copy, PartialEq, Eq, Debug)]
pub struct Redundant {}

/// A parameter by its equation's number and its own.
#[derive(Clone, Copy, PartialEq, Eq, Debug)]
pub struct Parameter {
    pub equation: usize,
    pub index: usize,
}

/// An equation with its number.
#[derive(Clone, Copy)]
struct Numbered<'a> {
    number: usize,
    equation: &'a Equation,
}

// The parameters of the equation that occur in the term at the place come.
fn occurring_come<G: Algebra>(
    accepted: &Accepted<G>,
    numbered: &Numbered,
    at: usize,
    list: &mut FirstCome<Parameter>,
) -> Result<(), Missing>
    ensures { (t : Tree) → standing (G.meaning accepted.now.alg.now) greatest_depth accepted.now.file.now at ≡ Some t → Gathers (Occurring numbered.now.number (length (listed numbered.now.equation.now.header.sorts)) t) list.old list.new result }
{
    for index in 0..numbered.equation.header.sorts.len() {
        if occurs(accepted.alg, accepted.view(at), index as u8, DEPTH) {
            let parameter = Parameter {
                equation: numbered.number,
                index,
            };
            list.come(parameter).ok_or(Missing)?;
        }
    }
    Ok(())
}

// The parameters of the equation that occur in the guards come.
fn guarding_come<G: Algebra>(
    accepted: &Accepted<G>,
    numbered: &Numbered,
    clauses: &[ClauseAt],
    list: &mut FirstCome<Parameter>,
) -> Result<(), Missing>
    ensures { (c : Scope) (ks : List ReadClause) → Pairs (λ x k. (u : ℕ) × ClauseOf (G.meaning accepted.now.alg.now) (kept_headers accepted.now.outline.now) c accepted.now.file.now k u x) clauses.now ks → Gathers (Guarding numbered.now.number (length (listed numbered.now.equation.now.header.sorts)) ks) list.old list.new result }
{
    for clause in clauses {
        occurring_come(accepted, numbered, clause.guard, list)?;
    }
    Ok(())
}

// The marked parameters of the equation come.
fn marking_come<G: Algebra>(
    accepted: &Accepted<G>,
    numbered: &Numbered,
    list: &mut FirstCome<Parameter>,
) -> Result<(), Missing>
    ensures { (h : Heading) (e : ReadEquation) (q : ℕ) → length accepted.now.file.now ≤ 65536 → read_body (G.meaning accepted.now.alg.now) (kept_headers accepted.now.outline.now) h accepted.now.file.now numbered.now.equation.now.body ≡ next e q → Gathers (Marking numbered.now.number (length (listed numbered.now.equation.now.header.sorts)) e) list.old list.new result }
{
    let body = accepted.open_body(numbered.equation.body).ok_or(Missing)?;
    occurring_come(accepted, numbered, body.h, list)?;
    let clauses = accepted.clauses(&body).ok_or(Missing)?;
    guarding_come(accepted, numbered, clauses.as_slice(), list)
}

// The marked parameters of all equations come.
fn marked_come<G: Algebra>(
    accepted: &Accepted<G>,
    list: &mut FirstCome<Parameter>,
) -> Result<(), Missing>
    ensures { (s : System) → length accepted.now.file.now ≤ 65536 → Outlined (G.meaning accepted.now.alg.now) accepted.now.file.now s accepted.now.outline.now → Gathers (Marks s) list.old list.new result }
{
    let equations = accepted.outline.equations.as_slice();
    for (number, equation) in equations.iter().enumerate() {
        marking_come(accepted, &Numbered { number, equation }, list)?;
    }
    Ok(())
}

// The parameters that occur in an argument of the occurrence for one that came come.
fn feeding_come<G: Algebra>(
    accepted: &Accepted<G>,
    numbered: &Numbered,
    occurrence: &OccurrenceAt,
    list: &mut FirstCome<Parameter>,
) -> Result<(), Missing>
    ensures { (o : ReadOccurrence) (q : ℕ) → OccurrenceOf (G.meaning accepted.now.alg.now) accepted.now.file.now o q occurrence.now → Follows (Feeding numbered.now.number (length (listed numbered.now.equation.now.header.sorts)) o) list.old list.new result }
{
    for (index, argument) in occurrence.arguments.as_slice().iter().enumerate() {
        let target = Parameter {
            equation: occurrence.target as usize,
            index,
        };
        if list.find(&target).is_some() {
            occurring_come(accepted, numbered, *argument, list)?;
        }
    }
    Ok(())
}

// The same for each of the occurrences.
fn occurrences_feed<G: Algebra>(
    accepted: &Accepted<G>,
    numbered: &Numbered,
    occurrences: &[OccurrenceAt],
    list: &mut FirstCome<Parameter>,
) -> Result<(), Missing>
    ensures { (os : List ReadOccurrence) → Pairs (λ x o. (u : ℕ) × OccurrenceOf (G.meaning accepted.now.alg.now) accepted.now.file.now o u x) occurrences.now os → Follows (Pointing numbered.now.number (length (listed numbered.now.equation.now.header.sorts)) os) list.old list.new result }
{
    for occurrence in occurrences {
        feeding_come(accepted, numbered, occurrence, list)?;
    }
    Ok(())
}

// The same for the occurrences of each clause of the body.
fn clauses_feed<G: Algebra>(
    accepted: &Accepted<G>,
    numbered: &Numbered,
    body: &BodyAt,
    occurrences: &mut Row<OccurrenceAt, 8>,
    list: &mut FirstCome<Parameter>,
) -> Result<(), Missing>
    ensures { let a = G.meaning accepted.now.alg.now in
        let hs = kept_headers accepted.now.outline.now in
        let f = accepted.now.file.now in
        let n = length (listed numbered.now.equation.now.header.sorts) in
        (c : Scope) (ks : List ReadClause) (q : ℕ) → length f ≤ 65536 →
        repeated (read_clause a hs c) body.now.count f body.now.next ≡ next ks q →
        Follows (Pointing numbered.now.number n (flat (map (λ (k : ReadClause). k.occurrences) ks)))
        list.old list.new result }
{
    let mut next = body.next;
    for _ in 0..body.count {
        let clause = accepted.open_clause(next).ok_or(Missing)?;
        next = accepted
            .read_occurrences(&clause, occurrences)
            .ok_or(Missing)?;
        occurrences_feed(accepted, numbered, occurrences.as_slice(), list)?;
    }
    Ok(())
}

// The same for the occurrences of the equation.
fn equation_feeds<G: Algebra>(
    accepted: &Accepted<G>,
    numbered: &Numbered,
    occurrences: &mut Row<OccurrenceAt, 8>,
    list: &mut FirstCome<Parameter>,
) -> Result<(), Missing>
    ensures { (h : Heading) (e : ReadEquation) (q : ℕ) → length accepted.now.file.now ≤ 65536 → read_body (G.meaning accepted.now.alg.now) (kept_headers accepted.now.outline.now) h accepted.now.file.now numbered.now.equation.now.body ≡ next e q → Follows (Pointing numbered.now.number (length (listed numbered.now.equation.now.header.sorts)) (occurring e)) list.old list.new result }
{
    let body = accepted.open_body(numbered.equation.body).ok_or(Missing)?;
    clauses_feed(accepted, numbered, &body, occurrences, list)
}

// The same for the occurrences of every equation.
fn pointing_come<G: Algebra>(
    accepted: &Accepted<G>,
    occurrences: &mut Row<OccurrenceAt, 8>,
    list: &mut FirstCome<Parameter>,
) -> Result<(), Missing>
    ensures { (s : System) → length accepted.now.file.now ≤ 65536 → Outlined (G.meaning accepted.now.alg.now) accepted.now.file.now s accepted.now.outline.now → Follows (Points s) list.old list.new result }
{
    let equations = accepted.outline.equations.as_slice();
    for (number, equation) in equations.iter().enumerate() {
        let numbered = Numbered { number, equation };
        equation_feeds(accepted, &numbered, occurrences, list)?;
    }
    Ok(())
}

// The parameters that point to one that came come, in rounds until one brings nothing.
fn rounds_come<G: Algebra>(
    accepted: &Accepted<G>,
    list: &mut FirstCome<Parameter>,
) -> Result<(), Missing>
    ensures { (s : System) → length accepted.now.file.now ≤ 65536 → Outlined (G.meaning accepted.now.alg.now) accepted.now.file.now s accepted.now.outline.now → SystemFits (G.meaning accepted.now.alg.now) s → Room (wanted s) list.old → Brings (wanted s) (Points s (Has (came list.new))) list.old list.new result }
{
    let mut occurrences = no_occurrences();
    // Each round but the last brings one of at most 465 parameters, so one of 466 is the last.
    for _round in 0..466usize {
        let before = list.len;
        pointing_come(accepted, &mut occurrences, list)?;
        if list.len == before {
            return Ok(());
        }
    }
    Ok(())
}

// The parameters that reach a mark come: first the marked ones, then in rounds those that point to one that came.
fn needed_come<G: Algebra>(
    accepted: &Accepted<G>,
    list: &mut FirstCome<Parameter>,
) -> Result<(), Missing>
    ensures { (s : System) → length accepted.now.file.now ≤ 65536 → Outlined (G.meaning accepted.now.alg.now) accepted.now.file.now s accepted.now.outline.now → SystemFits (G.meaning accepted.now.alg.now) s → Room (wanted s) list.old → Brings (wanted s) (λ x. wanted s x ≡ true) list.old list.new result }
{
    marked_come(accepted, list)?;
    rounds_come(accepted, list)
}

// Of the equation's parameters those stay that came.
fn change_of(equation: usize, list: &FirstCome<Parameter>) -> Change
    ensures { Staying (λ k. some (is_parameter equation k) (came list.now)) result }
{
    let mut change = Change::none();
    // By index: of what an adapter of `iter_mut` has written a proof knows nothing afterwards.
    for index in 0..15 {
        if list.find(&Parameter { equation, index }).is_none() {
            change.parameters[index] = ParameterChange::Goes;
        }
    }
    change
}

// The plan by which the parameters that came stay, and the others go.
fn plan_needing(list: &FirstCome<Parameter>) -> Plan
    ensures { Needing (λ i k. some (is_parameter i k) (came list.now)) result }
{
    let mut plan = Plan::none();
    // By index, as above.
    for equation in 0..31 {
        plan.equations[equation] = change_of(equation, list);
    }
    plan
}

// Only the parameters that reach a mark stay.
fn plan_needed<G: Algebra>(accepted: &Accepted<G>) -> Result<Plan, Missing>
    ensures { (s : System) → length accepted.now.file.now ≤ 65536 → Outlined (G.meaning accepted.now.alg.now) accepted.now.file.now s accepted.now.outline.now → Planning (needing s) result }
{
    let mut room = [Parameter {
        equation: 0,
        index: 0,
    }; 465];
    let mut list = FirstCome::new(&mut room);
    needed_come(accepted, &mut list)?;
    Ok(plan_needing(&list))
}

impl Pass for Redundant {
    ghost meaning = { λ _. pass_r };

    ghost lawful = { λ _. r_rules };

    fn apply<G: Algebra>(&self, alg: &G, file: &[u8], out: &mut [u8]) -> Result<usize, PassFault> {
        apply_planned(alg, file, out, plan_needed)
    }
}
