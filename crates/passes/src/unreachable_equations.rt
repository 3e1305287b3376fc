//! U: only the equations that the start leads to, over any number of occurrences, stay.
ghost use Rattle.std.specs.Prelude.{◌≡◌, ℕ, ◌≤◌, List, length, true};
ghost use Rattle.definitions.specs.Systems.{Clause as ReadClause, Equation as ReadEquation, System};
ghost use Rattle.definitions.specs.Reading.{next, repeated};
ghost use Rattle.definitions.specs.ReadSystem.{Scope, Header as Heading, read_clause, read_body};
ghost use Rattle.definitions.specs.Lists.{some};
ghost use Rattle.definitions.specs.Passes.{pass_u};
ghost use Rattle.definitions.specs.Fits.{SystemFits};
ghost use Rattle.firstcome.specs.Coming.{listed as came};
ghost use Rattle.system.specs.Whole.{kept_headers, Outlined};
ghost use Rattle.passes.specs.Meanings.{u_rules};
ghost use Rattle.passes.specs.Plans.{keeping, Planning};
ghost use Rattle.passes.specs.Comes.{Brings, Called, Targets, Gathers, Keeping, Led, Room, is_number, reached};

use crate::Pass;
use crate::plan::{EquationChange, Missing, Plan};
use crate::rewrite::apply_planned;
use crate::walked::no_occurrences;
use algebra::Algebra;
use faults::PassFault;
use firstcome::FirstCome;
use rows::Row;
use system::walk::{Accepted, BodyAt, OccurrenceAt};

/// The pass U.
#[derive(Clone, Copy, PartialEq, Eq, Debug)]
pub struct Unreachable {}

/// An equation by its number.
#[derive(Clone, Copy, PartialEq, Eq, Debug)]
pub struct EquationNumber {
    pub index: usize,
}

// The targets of the occurrences come.
fn targets_come(
    occurrences: &[OccurrenceAt],
    list: &mut FirstCome<EquationNumber>,
) -> Result<(), Missing>
    ensures { Gathers (Targets occurrences.now) list.old list.new result }
{
    for occurrence in occurrences {
        let target = EquationNumber {
            index: occurrence.target as usize,
        };
        list.come(target).ok_or(Missing)?;
    }
    Ok(())
}

// The targets of the occurrences of the body's clauses come.
fn called_come<G: Algebra>(
    accepted: &Accepted<G>,
    body: &BodyAt,
    occurrences: &mut Row<OccurrenceAt, 8>,
    list: &mut FirstCome<EquationNumber>,
) -> Result<(), Missing>
    ensures { let a = G.meaning accepted.now.alg.now in
        let hs = kept_headers accepted.now.outline.now in
        let f = accepted.now.file.now in
        (c : Scope) (ks : List ReadClause) (q : ℕ) → length f ≤ 65536 →
        repeated (read_clause a hs c) body.now.count f body.now.next ≡ next ks q →
        Gathers (Called ks) list.old list.new result }
{
    let mut next = body.next;
    for _ in 0..body.count {
        let clause = accepted.open_clause(next).ok_or(Missing)?;
        next = accepted
            .read_occurrences(&clause, occurrences)
            .ok_or(Missing)?;
        targets_come(occurrences.as_slice(), list)?;
    }
    Ok(())
}

// The targets of the occurrences of the body at the place come.
fn body_leads<G: Algebra>(
    accepted: &Accepted<G>,
    at: usize,
    occurrences: &mut Row<OccurrenceAt, 8>,
    list: &mut FirstCome<EquationNumber>,
) -> Result<(), Missing>
    ensures { (h : Heading) (e : ReadEquation) (q : ℕ) → length accepted.now.file.now ≤ 65536 → read_body (G.meaning accepted.now.alg.now) (kept_headers accepted.now.outline.now) h accepted.now.file.now at ≡ next e q → Gathers (Called e.clauses) list.old list.new result }
{
    let body = accepted.open_body(at).ok_or(Missing)?;
    called_come(accepted, &body, occurrences, list)
}

// The targets of the occurrences of all equations that come come.
fn followed<G: Algebra>(
    accepted: &Accepted<G>,
    list: &mut FirstCome<EquationNumber>,
) -> Result<(), Missing>
    ensures { (s : System) → length accepted.now.file.now ≤ 65536 → Outlined (G.meaning accepted.now.alg.now) accepted.now.file.now s accepted.now.outline.now → SystemFits (G.meaning accepted.now.alg.now) s → Room (reached s) list.old → Brings (reached s) (Led s (came list.new) (length (came list.new))) list.old list.new result }
{
    let equations = accepted.outline.equations.as_slice();
    let mut occurrences = no_occurrences();
    // Each equation comes once. The list grows while it is walked, so no iterator can hold it.
    for k in 0..31 {
        let Some(number) = list.get(k) else {
            return Ok(());
        };
        let equation = equations.get(number.index).ok_or(Missing)?;
        body_leads(accepted, equation.body, &mut occurrences, list)?;
    }
    Ok(())
}

// The numbers of the equations that are reached come, the start's first.
fn reached_come<G: Algebra>(
    accepted: &Accepted<G>,
    list: &mut FirstCome<EquationNumber>,
) -> Result<(), Missing>
    ensures { (s : System) → length accepted.now.file.now ≤ 65536 → Outlined (G.meaning accepted.now.alg.now) accepted.now.file.now s accepted.now.outline.now → SystemFits (G.meaning accepted.now.alg.now) s → Room (reached s) list.old → Brings (reached s) (λ x. reached s x ≡ true) list.old list.new result }
{
    let start = EquationNumber {
        index: accepted.outline.start.equation as usize,
    };
    list.come(start).ok_or(Missing)?;
    followed(accepted, list)
}

// The plan by which the equations that came stay, and the others go.
fn plan_keeping(list: &FirstCome<EquationNumber>) -> Plan
    ensures { Keeping (λ i. some (is_number i) (came list.now)) result }
{
    let mut plan = Plan::none();
    // By index: of what an adapter of `iter_mut` has written a proof knows nothing afterwards.
    for index in 0..31 {
        if list.find(&EquationNumber { index }).is_none() {
            plan.equations[index].equation = EquationChange::Goes;
        }
    }
    plan
}

// Only the equations that are reached stay.
fn plan_reachable<G: Algebra>(accepted: &Accepted<G>) -> Result<Plan, Missing>
    ensures { (s : System) → length accepted.now.file.now ≤ 65536 → Outlined (G.meaning accepted.now.alg.now) accepted.now.file.now s accepted.now.outline.now → Planning (keeping s) result }
{
    let mut room = [EquationNumber { index: 0 }; 31];
    let mut list = FirstCome::new(&mut room);
    reached_come(accepted, &mut list)?;
    Ok(plan_keeping(&list))
}

impl Pass for Unreachable {
    ghost meaning = { λ _. pass_u };

    ghost lawful = { λ _. u_rules };

    fn apply<G: Algebra>(&self, alg: &G, file: &[u8], out: &mut [u8]) -> Result<usize, PassFault> {
        apply_planned(alg, file, out, plan_reachable)
    }
}
