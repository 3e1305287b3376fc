//! Whether a parameter occurs in a term.
ghost use Rattle.std.specs.Prelude.{◌≡◌, ℕ, ◌≤◌, length, Some, Option};
ghost use Rattle.definitions.specs.Systems.{Term as Tree};
ghost use Rattle.definitions.specs.Reading.{next};
ghost use Rattle.definitions.specs.ReadSystem.{Scope, Sorted, read_term};
ghost use Rattle.definitions.specs.Passes.{occurs_in};
ghost use Rattle.terms.specs.Shapes.{standing};
ghost use Rattle.terms.specs.Known.{occurs_at};

use crate::view::{Parts, Term, View, end_of_term, read_term};
use algebra::Algebra;

// Whether the parameter numbered `k` occurs in the term at the view, where one stands there.
fn occurs_at<G: Algebra>(alg: &G, view: View, k: u8, depth: u8) -> bool
    ensures { (t : Tree) → standing (G.meaning alg.now) depth view.entry.bytes.now view.entry.at ≡ Some t → result ≡ occurs_in k t }
{
    if depth == 0 {
        return false;
    }
    // The answer is a bool, which `?` cannot leave.
    let Some(term) = read_term(alg, view, depth) else {
        return false;
    };
    let depth = depth - 1;
    match term {
        Term::Parameter(n) => n == k,
        Term::Variable(_)
        | Term::Value { .. }
        | Term::Operation {
            arguments: Parts::Zero,
            ..
        } => false,
        Term::Not(a)
        | Term::Operation {
            arguments: Parts::One(a),
            ..
        } => occurs_at(alg, a, k, depth),
        Term::And(a, b)
        | Term::Or(a, b)
        | Term::Equal(a, b)
        | Term::Operation {
            arguments: Parts::Two(a, b),
            ..
        } => occurs_at(alg, a, k, depth) || occurs_at(alg, b, k, depth),
        Term::Operation {
            arguments: Parts::Three(a, b, c),
            ..
        } => {
            occurs_at(alg, a, k, depth)
                || occurs_at(alg, b, k, depth)
                || occurs_at(alg, c, k, depth)
        }
    }
}

/// Whether the parameter numbered `k` occurs in the term at the view, which has depth at most `depth`; false where no such term stands there.
pub fn occurs<G: Algebra>(alg: &G, view: View, k: u8, depth: u8) -> bool
    ensures value { result ≡ occurs_at k (standing (G.meaning alg.now) depth view.entry.bytes.now view.entry.at) }
    ensures accepted { (c : Scope) (need : Option ℕ) (x : Sorted) (q : ℕ) → length view.entry.bytes.now ≤ 65536 → read_term (G.meaning alg.now) c depth need view.entry.bytes.now view.entry.at ≡ next x q → result ≡ occurs_in k x.the_term }
{
    // The answer is a bool, which `?` cannot leave; where no term stands, nothing occurs.
    let Some(_) = end_of_term(alg, view, depth) else {
        return false;
    };
    occurs_at(alg, view, k, depth)
}
