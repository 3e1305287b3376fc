//! The known value of a term, where some parameters and quantified variables are known. With all of them known it is the value.
ghost use Rattle.std.specs.Prelude.{◌≡◌, ℕ, ◌-◌, ◌≤◌, List, [], ◌∷◌, length, replicate, Some, None, Option, ◌==◌};
ghost use Rattle.definitions.specs.Lists.{bind, whole};
ghost use Rattle.definitions.specs.Systems.{Term as Tree, fold};
ghost use Rattle.definitions.specs.Reading.{next};
ghost use Rattle.definitions.specs.ReadSystem.{Scope, Sorted, read_term};
ghost use Rattle.definitions.specs.Algebras.{truth, first, second};
ghost use Rattle.definitions.specs.Values.{both as both_known, either as either_known, kind_known};
ghost use Rattle.terms.specs.Shapes.{standing};
ghost use Rattle.terms.specs.Known.{Alike};

use crate::view::{Parts, Term, View, end_of_term, read_term};
use algebra::Algebra;
use rows::Row;

/// What is known of the parameters and the quantified variables.
#[derive(Clone, Copy, PartialEq, Eq, Debug)]
pub struct Environment {
    pub parameters: [Option<u8>; 15],
    pub variables: [Option<u8>; 3],
}

impl Environment {
    /// Nothing is known.
    pub fn unknown() -> Environment
        ensures parameters { result.parameters ≡ replicate 15 None }
        ensures variables { result.variables ≡ replicate 3 None }
    {
        // The name says more than `default` would.
        Environment {
            parameters: [None; 15],
            variables: [None; 3],
        }
    }
}

// One known false side decides; else both must be known true.
// Values of sort 0 are the numbers 0 and 1, as those of every sort are numbers.
fn both(x: Option<u8>, y: Option<u8>) -> Option<u8>
    ensures { result ≡ both_known x y }
{
    match (x, y) {
        (Some(0), _) | (_, Some(0)) => Some(0),
        (Some(1), Some(1)) => Some(1),
        _ => None,
    }
}

// True if a part is known true, false if both are known false.
// Said by `both` it would take the opposite of each part and of the answer, which is no shorter.
fn either(x: Option<u8>, y: Option<u8>) -> Option<u8>
    ensures { result ≡ either_known x y }
{
    match (x, y) {
        (Some(1), _) | (_, Some(1)) => Some(1),
        (Some(0), Some(0)) => Some(0),
        _ => None,
    }
}

fn opposite(x: Option<u8>) -> Option<u8>
    ensures { result ≡ bind (whole (x ∷ [])) (λ ns. Some (1 - first ns)) }
{
    Some((x? == 0) as u8)
}

fn alike(x: Option<u8>, y: Option<u8>) -> Option<u8>
    ensures { result ≡ bind (whole (x ∷ y ∷ [])) (λ ns. Some (truth (first ns == second ns))) }
{
    Some((x? == y?) as u8)
}

// The value of an operation, where all its arguments are known.
fn apply<G: Algebra, const N: usize>(alg: &G, op: u8, args: [Option<u8>; N]) -> Option<u8>
    ensures { result ≡ bind (whole args.entry) ((G.meaning alg.now).value op) }
{
    let mut values: Row<u8, N> = Row::new(0);
    for arg in args {
        values.push(arg?).unwrap();
    }
    alg.value(op, values.as_slice())
}

// The known value of the term at the view, where one stands there.
fn known_at<G: Algebra>(alg: &G, env: &Environment, view: View, depth: u8) -> Option<u8>
    ensures { (t : Tree) → standing (G.meaning alg.now) depth view.entry.bytes.now view.entry.at ≡ Some t → result ≡ fold t (kind_known (G.meaning alg.now) env.now.parameters env.now.variables) }
{
    if depth == 0 {
        return None;
    }
    let term = read_term(alg, view, depth)?;
    let depth = depth - 1;
    match term {
        Term::Parameter(n) => *env.parameters.get(n as usize)?,
        Term::Variable(n) => *env.variables.get(n as usize)?,
        Term::Value { value, .. } => Some(value),
        Term::Operation { op, arguments } => match arguments {
            Parts::Zero => apply(alg, op, []),
            Parts::One(a) => apply(alg, op, [known_at(alg, env, a, depth)]),
            Parts::Two(a, b) => {
                let x = known_at(alg, env, a, depth);
                let y = known_at(alg, env, b, depth);
                apply(alg, op, [x, y])
            }
            Parts::Three(a, b, c) => {
                let x = known_at(alg, env, a, depth);
                let y = known_at(alg, env, b, depth);
                let z = known_at(alg, env, c, depth);
                apply(alg, op, [x, y, z])
            }
        },
        Term::Not(a) => opposite(known_at(alg, env, a, depth)),
        Term::And(a, b) => both(known_at(alg, env, a, depth), known_at(alg, env, b, depth)),
        Term::Or(a, b) => either(known_at(alg, env, a, depth), known_at(alg, env, b, depth)),
        Term::Equal(a, b) => alike(known_at(alg, env, a, depth), known_at(alg, env, b, depth)),
    }
}

/// The known value of the term at the view, which has depth at most `depth`; none where no such term stands there.
pub fn known_value<G: Algebra>(alg: &G, env: &Environment, view: View, depth: u8) -> Option<u8>
    ensures value { (ps vs : List (Option ℕ)) → Alike env.now.parameters ps → Alike env.now.variables vs → result ≡ bind (standing (G.meaning alg.now) depth view.entry.bytes.now view.entry.at) (λ t. fold t (kind_known (G.meaning alg.now) ps vs)) }
    ensures accepted { (c : Scope) (need : Option ℕ) (x : Sorted) (q : ℕ) → length view.entry.bytes.now ≤ 65536 → read_term (G.meaning alg.now) c depth need view.entry.bytes.now view.entry.at ≡ next x q → (ps vs : List (Option ℕ)) → Alike env.now.parameters ps → Alike env.now.variables vs → result ≡ fold x.the_term (kind_known (G.meaning alg.now) ps vs) }
{
    let _end = end_of_term(alg, view, depth)?;
    known_at(alg, env, view, depth)
}
