//! The body of an instance as tokens.
ghost use Rattle.std.specs.Prelude.{◌≡◌, ℕ, ◌≤◌, List, [], map, drop, length, Some};
ghost use Rattle.definitions.specs.Lists.{at as at_number, keep};
ghost use Rattle.definitions.specs.Systems.{Term as Tree, Quantified as Variable, Occurrence, Clause, Equation, System};
ghost use Rattle.definitions.specs.ReadSystem.{Scope, scope, greatest_depth};
ghost use Rattle.definitions.specs.Values.{holds as is_true};
ghost use Rattle.definitions.specs.Truth.{Instance as Meant, meant as occurrence_meant};
ghost use Rattle.definitions.specs.Boolean.{var, vars, renamed, clause_form, inside_form, spread, form, sign_at, variable_bits};
ghost use Rattle.definitions.specs.Fits.{SystemFits, BodyFits, SortFits, Every, header_of};
ghost use Rattle.terms.specs.Shapes.{standing};
ghost use Rattle.rows.specs.Listed.{listed};
ghost use Rattle.system.specs.Files.{kept_quantifier, kept_quantified};
ghost use Rattle.system.specs.Whole.{kept_headers, Outlined};
ghost use Rattle.system.specs.Walks.{Pairs, OccurrenceOf, BodyOf};
ghost use Rattle.expansion.specs.Drafts.{token_number, over_number, StandsFor, Fine, Drafts, DraftsForm, DraftsForms};
ghost use Rattle.expansion.specs.Bodies.{Bound, OccurrenceThere, ClauseThere};

use crate::draft::{Draft, Token, Unfinished};
use algebra::Algebra;
use rows::Row;
use system::header::{Quantified, Quantifier};
use system::instance::Instance;
use system::value::Environment;
use system::walk::{Accepted, BodyAt, ClauseAt, OccurrenceAt};

// The clauses and the occurrences that were opened last.
// Every walk fills the same rows anew, since to make a row takes longer than most walks.
#[derive(Drop)]
pub(crate) struct Opened {
    clauses: Row<ClauseAt, 15>,
    occurrences: Row<OccurrenceAt, 8>,
}

impl Opened {
    pub(crate) fn new() -> Opened
        ensures clauses { listed result.clauses ≡ [] }
        ensures occurrences { listed result.occurrences ≡ [] }
    {
        Opened {
            clauses: Row::new(ClauseAt {
                guard: 0,
                count: 1,
                next: 0,
            }),
            occurrences: Row::new(OccurrenceAt {
                target: 0,
                arguments: Row::new(0),
                next: 0,
            }),
        }
    }
}

// Whether the term at the place is true.
fn holds<G: Algebra>(accepted: &Accepted<G>, env: &Environment, at: usize) -> bool
    ensures { (t : Tree) (ps vs : List ℕ) → Bound ps vs env.now → standing (G.meaning accepted.now.alg.now) greatest_depth accepted.now.file.now at ≡ Some t → result ≡ is_true (G.meaning accepted.now.alg.now) ps vs t }
{
    accepted.known(env, at) == Some(1)
}

// The instance that an occurrence means; every term of an accepted file has a value where all is known.
fn meant<G: Algebra>(
    accepted: &Accepted<G>,
    env: &Environment,
    occurrence: &OccurrenceAt,
) -> Instance
    ensures { (o : Occurrence) (q : ℕ) (ps vs : List ℕ) → Bound ps vs env.now → OccurrenceOf (G.meaning accepted.now.alg.now) accepted.now.file.now o q occurrence.now → StandsFor result (occurrence_meant (G.meaning accepted.now.alg.now) ps vs o) }
{
    let mut values = [0; 15];
    // By index: of what `iter_mut().zip(..)` has written a proof knows nothing afterwards.
    for (i, at) in occurrence.arguments.as_slice().iter().enumerate() {
        values[i] = accepted.known(env, *at).unwrap_or(0);
    }
    Instance {
        equation: occurrence.target,
        values,
    }
}

// The variables of the occurrences, whose instances come as they are written.
fn write_occurrences<G: Algebra>(
    accepted: &Accepted<G>,
    env: &Environment,
    occurrences: &[OccurrenceAt],
    draft: &mut Draft,
) -> Result<(), Unfinished>
    ensures { (s : System) (c : Scope) (os : List Occurrence) (ps vs : List ℕ) → kept_headers accepted.now.outline.now ≡ map header_of s.equations → Bound ps vs env.now → Pairs (OccurrenceThere (G.meaning accepted.now.alg.now) (kept_headers accepted.now.outline.now) c accepted.now.file.now) occurrences.now os → DraftsForms s (map (λ o. var (occurrence_meant (G.meaning accepted.now.alg.now) ps vs o)) os) draft.old draft.new result }
{
    for occurrence in occurrences {
        draft.put_variable(meant(accepted, env, occurrence))?;
    }
    Ok(())
}

// An any over the occurrences of the clause.
fn write_clause<G: Algebra>(
    accepted: &Accepted<G>,
    env: &Environment,
    clause: &ClauseAt,
    occurrences: &mut Row<OccurrenceAt, 8>,
    draft: &mut Draft,
) -> Result<(), Unfinished>
    ensures { (s : System) (c : Scope) (k : Clause) (ps vs : List ℕ) → length accepted.now.file.now ≤ 65536 → kept_headers accepted.now.outline.now ≡ map header_of s.equations → Bound ps vs env.now → ClauseThere (G.meaning accepted.now.alg.now) (kept_headers accepted.now.outline.now) c accepted.now.file.now clause.now k → DraftsForm s (clause_form (G.meaning accepted.now.alg.now) ps vs k) draft.old draft.new result }
{
    draft.put_parts(Token::Any, clause.count as u32);
    accepted
        .read_occurrences(clause, occurrences)
        .ok_or(Unfinished)?;
    write_occurrences(accepted, env, occurrences.as_slice(), draft)
}

// How many clauses have guards that hold.
fn count_holding<G: Algebra>(
    accepted: &Accepted<G>,
    env: &Environment,
    clauses: &[ClauseAt],
) -> usize
    ensures few { result ≤ length clauses.now }
    ensures holding { (c : Scope) (ks : List Clause) (ps vs : List ℕ) → Bound ps vs env.now → Pairs (ClauseThere (G.meaning accepted.now.alg.now) (kept_headers accepted.now.outline.now) c accepted.now.file.now) clauses.now ks → result ≡ length (keep (λ (k : Clause). is_true (G.meaning accepted.now.alg.now) ps vs k.guard) ks) }
{
    let mut count = 0;
    for clause in clauses {
        if holds(accepted, env, clause.guard) {
            count += 1;
        }
    }
    count
}

// The clauses whose guards hold.
fn write_clauses<G: Algebra>(
    accepted: &Accepted<G>,
    env: &Environment,
    clauses: &[ClauseAt],
    occurrences: &mut Row<OccurrenceAt, 8>,
    draft: &mut Draft,
) -> Result<(), Unfinished>
    ensures { (s : System) (c : Scope) (ks : List Clause) (ps vs : List ℕ) → length accepted.now.file.now ≤ 65536 → kept_headers accepted.now.outline.now ≡ map header_of s.equations → Bound ps vs env.now → Pairs (ClauseThere (G.meaning accepted.now.alg.now) (kept_headers accepted.now.outline.now) c accepted.now.file.now) clauses.now ks → DraftsForms s (map (clause_form (G.meaning accepted.now.alg.now) ps vs) (keep (λ (k : Clause). is_true (G.meaning accepted.now.alg.now) ps vs k.guard) ks)) draft.old draft.new result }
{
    for clause in clauses {
        if holds(accepted, env, clause.guard) {
            write_clause(accepted, env, clause, occurrences, draft)?;
        }
    }
    Ok(())
}

// A constant where h or the lack of holding guards decides, else the clauses whose guards hold.
fn write_inside<G: Algebra>(
    accepted: &Accepted<G>,
    env: &Environment,
    body: BodyAt,
    opened: &mut Opened,
    draft: &mut Draft,
) -> Result<(), Unfinished>
    ensures { (s : System) (e : Equation) (q : ℕ) (ps vs : List ℕ) → length accepted.now.file.now ≤ 65536 → kept_headers accepted.now.outline.now ≡ map header_of s.equations → Bound ps vs env.now → BodyOf (G.meaning accepted.now.alg.now) (kept_headers accepted.now.outline.now) (header_of e) accepted.now.file.now e q body → BodyFits (G.meaning accepted.now.alg.now) (kept_headers accepted.now.outline.now) e → DraftsForm s (inside_form (G.meaning accepted.now.alg.now) e ps vs) draft.old draft.new result }
{
    if !holds(accepted, env, body.h) {
        draft.put_token(Token::False);
        return Ok(());
    }
    let Opened {
        clauses,
        occurrences,
    } = opened;
    accepted.read_clauses(&body, clauses).ok_or(Unfinished)?;
    let count = count_holding(accepted, env, clauses.as_slice());
    if count == 0 {
        draft.put_token(Token::True);
        return Ok(());
    }
    draft.put_parts(Token::All, count as u32);
    write_clauses(accepted, env, clauses.as_slice(), occurrences, draft)
}

// The token that stands for the quantifier.
fn token_over(quantifier: Quantifier) -> Token
    ensures { token_number result ≡ over_number (kept_quantifier quantifier) }
{
    match quantifier {
        Quantifier::ForAll => Token::All,
        Quantifier::Exists => Token::Any,
    }
}

// All or any over the values of each quantified variable from the one numbered `level` on, ascending.
fn write_quantified<G: Algebra>(
    accepted: &Accepted<G>,
    variables: &Row<Quantified, 3>,
    level: usize,
    env: Environment,
    body: BodyAt,
    opened: &mut Opened,
    draft: &mut Draft,
) -> Result<(), Unfinished>
    ensures { (s : System) (e : Equation) (q : ℕ) (ps vs : List ℕ) → length accepted.now.file.now ≤ 65536 → kept_headers accepted.now.outline.now ≡ map header_of s.equations → e.quantified ≡ map kept_quantified (listed variables.now) → Every (λ (k : Variable). SortFits (G.meaning accepted.now.alg.now) k.sort) e.quantified → length vs ≡ level → Bound ps vs env → BodyOf (G.meaning accepted.now.alg.now) (kept_headers accepted.now.outline.now) (header_of e) accepted.now.file.now e q body → BodyFits (G.meaning accepted.now.alg.now) (kept_headers accepted.now.outline.now) e → DraftsForm s (spread (G.meaning accepted.now.alg.now) (drop level e.quantified) vs (inside_form (G.meaning accepted.now.alg.now) e ps)) draft.old draft.new result }
{
    if level >= variables.len() {
        return write_inside(accepted, &env, body, opened, draft);
    }
    let variable = variables.as_slice()[level];
    let size = accepted.alg.size(variable.sort).ok_or(Unfinished)?;
    draft.put_parts(token_over(variable.quantifier), size as u32);
    for value in 0..size {
        let mut inner = env;
        inner.variables[level] = Some(value as u8);
        write_quantified(accepted, variables, level + 1, inner, body, opened, draft)?;
    }
    Ok(())
}

// The variable of an instance: its sign, its rank and its body.
pub(crate) fn write_variable<G: Algebra>(
    accepted: &Accepted<G>,
    instance: &Instance,
    opened: &mut Opened,
    draft: &mut Draft,
) -> Result<(), Unfinished>
    ensures { (s : System) (x : Meant) → length accepted.now.file.now ≤ 65536 → Outlined (G.meaning accepted.now.alg.now) accepted.now.file.now s accepted.now.outline.now → SystemFits (G.meaning accepted.now.alg.now) s → Fine s x → StandsFor instance.now x → Drafts s (vars (form (G.meaning accepted.now.alg.now) s x)) (λ f. variable_bits (record { sign = sign_at (at_number s.equations x.0); rank = x.0; body = renamed (form (G.meaning accepted.now.alg.now) s x) f })) draft.old draft.new result }
{
    let equations = accepted.outline.equations.as_slice();
    let equation = equations.get(instance.equation as usize).ok_or(Unfinished)?;
    draft.put(equation.header.sign as u32, 1);
    draft.put(instance.equation as u32, 5);
    let body = accepted.open_body(equation.body).ok_or(Unfinished)?;
    let env = Environment {
        parameters: instance.known(equation.header.sorts.len()),
        variables: [None; 3],
    };
    write_quantified(
        accepted,
        &equation.header.quantified,
        0,
        env,
        body,
        opened,
        draft,
    )
}
