//! C: a parameter that has one and the same value wherever its equation is reached gives way to that value.
ghost use Rattle.std.specs.Prelude.{◌≡◌, ℕ, ◌<◌, ◌≤◌, List, [], ◌∷◌, map, length, Some, Ok, IfSome};
ghost use Rattle.definitions.specs.Lists.{flat};
ghost use Rattle.definitions.specs.Alg.{Alg};
ghost use Rattle.definitions.specs.Systems.{Occurrence, Clause, Equation, System};
ghost use Rattle.definitions.specs.Reading.{next, repeated};
ghost use Rattle.definitions.specs.ReadSystem.{Scope, Header, read_clause, read_body};
ghost use Rattle.definitions.specs.Constants.{Known as KnownValues, agreed as both_know, agreed_all, clause_brings, equation_brings, pass_c};
ghost use Rattle.theorems.specs.KnowledgeLaws.{Shaped};
ghost use Rattle.terms.specs.Known.{Alike};
ghost use Rattle.system.specs.Walks.{OccurrenceOf, Pairs};
ghost use Rattle.system.specs.Whole.{kept_headers, Outlined};
ghost use Rattle.passes.specs.declared.constants.Known.TheVariants.{Fresh};
ghost use Rattle.passes.specs.Meanings.{c_rules};
ghost use Rattle.passes.specs.Plans.{knowing, Planning};
ghost use Rattle.passes.specs.Learned.{kept_at, ranks, put, occurrence_brings, Joins, Brings, Follows, PendingFrom, NextPending, changing, Learnt, Learns, Least};

use crate::Pass;
use crate::plan::{Change, EquationChange, Missing, ParameterChange, Plan};
use crate::rewrite::apply_planned;
use crate::walked::no_occurrences;
use algebra::Algebra;
use faults::PassFault;
use rows::Row;
use system::reading::Outline;
use system::value::Environment;
use system::walk::{Accepted, BodyAt, OccurrenceAt};

/// The pass C.
#[derive(Clone, Copy, PartialEq, Eq, Debug)]
pub struct Constants {}

type Values = [Option<u8>; 15];

/// What is known of an equation's instances: whether one is reached, and the values that all reached ones share.
#[derive(Clone, Copy, PartialEq, Eq, Debug)]
pub enum Known {
    /// None is reached.
    Unreached,
    /// With these values the equation is still to be followed.
    Fresh([Option<u8>; 15]),
    /// With these values the equation has been followed.
    Followed([Option<u8>; 15]),
}

// The value that both know.
fn agreed(x: Option<u8>, y: Option<u8>) -> Option<u8>
    ensures { result ≡ both_know x y }
{
    if x == y { x } else { None }
}

// The values that both know.
fn shared(x: &Values, y: &Values) -> Values
    ensures { result ≡ agreed_all x.now y.now }
{
    let mut values = [None; 15];
    for (i, value) in x.iter().enumerate() {
        values[i] = agreed(*value, y[i]);
    }
    values
}

// A known parameter becomes its value, and another stays.
fn put(value: Option<u8>) -> ParameterChange
    ensures { result ≡ put value }
{
    match value {
        Some(value) => ParameterChange::Becomes(value),
        None => ParameterChange::Stays,
    }
}

// What becomes of each parameter.
fn put_each(values: &Values) -> [ParameterChange; 15]
    ensures { result ≡ map put values.now }
{
    let mut changes = [ParameterChange::Stays; 15];
    // By index: of what an adapter of `iter_mut` has written a proof knows nothing afterwards.
    for (i, value) in values.iter().enumerate() {
        changes[i] = put(*value);
    }
    changes
}

impl Known {
    // What is known with an instance more, of which these values are known.
    fn joined(self, values: Values) -> Known
        ensures { Joins self values result }
    {
        match self {
            Known::Unreached => Known::Fresh(values),
            Known::Fresh(old) => Known::Fresh(shared(&old, &values)),
            Known::Followed(old) => {
                let less = shared(&old, &values);
                if less == old {
                    self
                } else {
                    Known::Fresh(less)
                }
            }
        }
    }

    // Known parameters of a reached equation are put in and removed, and an unreached equation becomes bare.
    fn change(self) -> Change
        ensures { result ≡ changing self }
    {
        match self {
            Known::Unreached => Change {
                equation: EquationChange::Bare,
                parameters: [ParameterChange::Goes; 15],
            },
            Known::Fresh(values) | Known::Followed(values) => Change {
                equation: EquationChange::Stays,
                parameters: put_each(&values),
            },
        }
    }
}

// An instance more of the target is reached, of which these values are known.
fn learn(knowledge: &mut [Known; 31], target: usize, values: Values)
    requires { target < 31 }
    ensures less { ranks knowledge.new ≤ ranks knowledge.old }
    ensures brings { (ks : KnownValues) → Alike values ks → Brings ((target, ks) ∷ []) knowledge.old knowledge.new }
{
    knowledge[target] = knowledge[target].joined(values);
}

// Brings to each target what is known of the arguments.
fn follow_occurrences<G: Algebra>(
    accepted: &Accepted<G>,
    env: &Environment,
    occurrences: &[OccurrenceAt],
    knowledge: &mut [Known; 31],
)
    ensures less { ranks knowledge.new ≤ ranks knowledge.old }
    ensures brings { (ks : KnownValues) (os : List Occurrence) → Alike env.now.parameters ks → Alike env.now.variables [] → Pairs (λ x o. (u : ℕ) × OccurrenceOf (G.meaning accepted.now.alg.now) accepted.now.file.now o u x) occurrences.now os → Brings (map (occurrence_brings (G.meaning accepted.now.alg.now) ks) os) knowledge.old knowledge.new }
{
    for occurrence in occurrences {
        let values = accepted.argument_values(env, occurrence);
        learn(knowledge, occurrence.target as usize, values);
    }
}

// Follows the occurrences of the clause at the place, unless its guard is known false, and tells the place behind it.
fn follow_clause<G: Algebra>(
    accepted: &Accepted<G>,
    env: &Environment,
    at: usize,
    occurrences: &mut Row<OccurrenceAt, 8>,
    knowledge: &mut [Known; 31],
) -> Result<usize, Missing>
    ensures less { ranks knowledge.new ≤ ranks knowledge.old }
    ensures brings { let a = G.meaning accepted.now.alg.now in
        let hs = kept_headers accepted.now.outline.now in
        let f = accepted.now.file.now in
        (ks : KnownValues) (c : Scope) (k : Clause) (q : ℕ) → length f ≤ 65536 →
        Alike env.now.parameters ks → Alike env.now.variables [] →
        read_clause a hs c f at ≡ next k q →
        Follows (clause_brings a ks k) knowledge.old knowledge.new result }
    ensures behind { let a = G.meaning accepted.now.alg.now in
        let hs = kept_headers accepted.now.outline.now in
        let f = accepted.now.file.now in
        (c : Scope) (k : Clause) (q : ℕ) → length f ≤ 65536 →
        read_clause a hs c f at ≡ next k q → result ≡ Ok q }
{
    if accepted.known(env, at) == Some(0) {
        return accepted.end_of_clause(at).ok_or(Missing);
    }
    let clause = accepted.open_clause(at).ok_or(Missing)?;
    let next = accepted
        .read_occurrences(&clause, occurrences)
        .ok_or(Missing)?;
    follow_occurrences(accepted, env, occurrences.as_slice(), knowledge);
    Ok(next)
}

// Follows each clause of the body.
fn follow_clauses<G: Algebra>(
    accepted: &Accepted<G>,
    env: &Environment,
    body: &BodyAt,
    occurrences: &mut Row<OccurrenceAt, 8>,
    knowledge: &mut [Known; 31],
) -> Result<(), Missing>
    ensures less { ranks knowledge.new ≤ ranks knowledge.old }
    ensures brings { let a = G.meaning accepted.now.alg.now in
        let hs = kept_headers accepted.now.outline.now in
        let f = accepted.now.file.now in
        (ks : KnownValues) (c : Scope) (cs : List Clause) (q : ℕ) → length f ≤ 65536 →
        Alike env.now.parameters ks → Alike env.now.variables [] →
        repeated (read_clause a hs c) body.now.count f body.now.next ≡ next cs q →
        Follows (flat (map (clause_brings a ks) cs)) knowledge.old knowledge.new result }
{
    let mut next = body.next;
    for _ in 0..body.count {
        next = follow_clause(accepted, env, next, occurrences, knowledge)?;
    }
    Ok(())
}

// Follows the clauses of the equation whose body stands at the place, unless its h is known false.
fn follow_equation<G: Algebra>(
    accepted: &Accepted<G>,
    at: usize,
    parameters: Values,
    occurrences: &mut Row<OccurrenceAt, 8>,
    knowledge: &mut [Known; 31],
) -> Result<(), Missing>
    ensures less { ranks knowledge.new ≤ ranks knowledge.old }
    ensures brings { (ks : KnownValues) (h : Header) (e : Equation) (q : ℕ) → length accepted.now.file.now ≤ 65536 → Alike parameters ks → read_body (G.meaning accepted.now.alg.now) (kept_headers accepted.now.outline.now) h accepted.now.file.now at ≡ next e q → Follows (equation_brings (G.meaning accepted.now.alg.now) e (Some ks)) knowledge.old knowledge.new result }
{
    let env = Environment {
        parameters,
        variables: [None; 3],
    };
    let body = accepted.open_body(at).ok_or(Missing)?;
    if accepted.known(&env, body.h) == Some(0) {
        return Ok(());
    }
    follow_clauses(accepted, &env, &body, occurrences, knowledge)
}

// An equation that is still to be followed: its number, and what is known of its parameters.
#[derive(Clone, Copy)]
struct Pending {
    number: usize,
    values: [Option<u8>; 15],
}

// The first equation from the number on that is still to be followed.
fn pending_from(knowledge: &[Known; 31], from: usize) -> Option<Pending>
    ensures within { IfSome result (λ x. x.number < 31) }
    ensures pending { PendingFrom from knowledge.now result }
{
    for (number, known) in knowledge.iter().enumerate() {
        if number < from {
            continue;
        }
        if let Known::Fresh(values) = known {
            let values = *values;
            return Some(Pending { number, values });
        }
    }
    None
}

// An equation that is still to be followed: the first from the number on, or where there is none, the first of all.
fn next_pending(knowledge: &[Known; 31], from: usize) -> Option<Pending>
    ensures within { IfSome result (λ x. x.number < 31) }
    ensures pending { NextPending knowledge.now result }
{
    if let Some(pending) = pending_from(knowledge, from) {
        return Some(pending);
    }
    pending_from(knowledge, 0)
}

// Follows the equation.
fn follow<G: Algebra>(
    accepted: &Accepted<G>,
    pending: &Pending,
    occurrences: &mut Row<OccurrenceAt, 8>,
    knowledge: &mut [Known; 31],
) -> Result<(), Missing>
    requires { kept_at knowledge.old pending.now.number ≡ Fresh pending.now.values }
    ensures less { ranks knowledge.new < ranks knowledge.old }
    ensures learns { (s : System) → length accepted.now.file.now ≤ 65536 → Outlined (G.meaning accepted.now.alg.now) accepted.now.file.now s accepted.now.outline.now → Shaped s → Learnt (G.meaning accepted.now.alg.now) s knowledge.old → Learns (G.meaning accepted.now.alg.now) s knowledge.new result }
{
    let number = pending.number;
    let values = pending.values;
    knowledge[number] = Known::Followed(values);
    let equations = accepted.outline.equations.as_slice();
    let equation = equations.get(number).ok_or(Missing)?;
    follow_equation(accepted, equation.body, values, occurrences, knowledge)
}

// The start is reached, with all its values known.
fn know_start(outline: &Outline) -> [Known; 31]
    ensures { (a : Alg) (f : List ℕ) (s : System) → Outlined a f s outline.now → Shaped s → Learnt a s result }
{
    let start = outline.start;
    let number = start.equation as usize;
    let mut knowledge = [Known::Unreached; 31];
    if let Some(equation) = outline.equations.as_slice().get(number) {
        knowledge[number] = Known::Fresh(start.known(equation.header.sorts.len()));
    }
    knowledge
}

// The least knowledge that is stable: all that is brought is in it already.
fn least_knowledge<G: Algebra>(accepted: &Accepted<G>) -> Result<[Known; 31], Missing>
    ensures { (s : System) → length accepted.now.file.now ≤ 65536 → Outlined (G.meaning accepted.now.alg.now) accepted.now.file.now s accepted.now.outline.now → Shaped s → Least (G.meaning accepted.now.alg.now) s result }
{
    let mut knowledge = know_start(accepted.outline);
    let mut occurrences = no_occurrences();
    // Round and round, so that what is brought back to an equation gathers until its turn comes again.
    let mut from = 0;
    // It ends: an equation that was followed is fresh again only with fewer values known.
    while let Some(pending) = next_pending(&knowledge, from) {
        follow(accepted, &pending, &mut occurrences, &mut knowledge)?;
        from = pending.number + 1;
    }
    Ok(knowledge)
}

// What becomes of each equation.
fn changes(knowledge: &[Known; 31]) -> [Change; 31]
    ensures { result ≡ map changing knowledge.now }
{
    let mut changes = [Change::none(); 31];
    for (i, known) in knowledge.iter().enumerate() {
        changes[i] = known.change();
    }
    changes
}

// What least knowledge makes of each equation.
fn plan_constants<G: Algebra>(accepted: &Accepted<G>) -> Result<Plan, Missing>
    ensures { (s : System) → length accepted.now.file.now ≤ 65536 → Outlined (G.meaning accepted.now.alg.now) accepted.now.file.now s accepted.now.outline.now → Planning (knowing (G.meaning accepted.now.alg.now) s) result }
{
    let knowledge = least_knowledge(accepted)?;
    Ok(Plan {
        fold: false,
        equations: changes(&knowledge),
    })
}

impl Pass for Constants {
    ghost meaning = { λ _. pass_c };

    ghost lawful = { λ _. c_rules };

    fn apply<G: Algebra>(&self, alg: &G, file: &[u8], out: &mut [u8]) -> Result<usize, PassFault> {
        apply_planned(alg, file, out, plan_constants)
    }
}
