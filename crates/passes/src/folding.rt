//! F: terms that have a known value though nothing is known become value terms.
ghost use Rattle.std.specs.Prelude.{◌≡◌, ◌≤◌, length};
ghost use Rattle.definitions.specs.Systems.{System};
ghost use Rattle.definitions.specs.Passes.{pass_f};
ghost use Rattle.system.specs.Whole.{Outlined};
ghost use Rattle.passes.specs.Meanings.{f_rules};
ghost use Rattle.passes.specs.Plans.{folding, Planning};
ghost use Rattle.passes.specs.Rewrites.{false_at};

use crate::Pass;
use crate::plan::{EquationChange, Missing, Plan};
use crate::rewrite::apply_planned;
use algebra::Algebra;
use faults::PassFault;
use system::value::Environment;
use system::walk::Accepted;

/// The pass F.
#[derive(Clone, Copy, PartialEq, Eq, Debug)]
pub struct Fold {}

// Whether the term at the place is known to be false though nothing is known.
pub(crate) fn folds_to_false<G: Algebra>(accepted: &Accepted<G>, at: usize) -> bool
    ensures { result ≡ false_at (G.meaning accepted.now.alg.now) accepted.now.file.now at }
{
    accepted.known(&Environment::unknown(), at) == Some(0)
}

// Everything folds, and equations whose h is then false become bare.
fn plan_folding<G: Algebra>(accepted: &Accepted<G>) -> Result<Plan, Missing>
    ensures { (s : System) → length accepted.now.file.now ≤ 65536 → Outlined (G.meaning accepted.now.alg.now) accepted.now.file.now s accepted.now.outline.now → Planning (folding (G.meaning accepted.now.alg.now) s) result }
{
    let mut plan = Plan::none();
    plan.fold = true;
    // By index: of what an adapter of `iter_mut` has written a proof knows nothing afterwards.
    for (i, equation) in accepted.outline.equations.as_slice().iter().enumerate() {
        if folds_to_false(accepted, equation.body) {
            plan.equations[i].equation = EquationChange::Bare;
        }
    }
    Ok(plan)
}

impl Pass for Fold {
    ghost meaning = { λ _. pass_f };

    ghost lawful = { λ _. f_rules };

    fn apply<G: Algebra>(&self, alg: &G, file: &[u8], out: &mut [u8]) -> Result<usize, PassFault> {
        apply_planned(alg, file, out, plan_folding)
    }
}
