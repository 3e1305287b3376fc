//! The four passes by their letters.
ghost use Rattle.faults.specs.declared.Reason.TheVariants.{NoSuchName};
ghost use Rattle.faults.specs.declared.PassFault.TheVariants.{Declined};
ghost use Rattle.std.specs.Prelude.{◌≡◌};
ghost use Rattle.passes.specs.Letters.{Names};
ghost use Rattle.passes.specs.Meanings.{meaning_of, named_rules};

use crate::Pass;
use crate::constants::Constants;
use crate::folding::Fold;
use crate::redundant::Redundant;
use crate::unreachable_equations::Unreachable;
use algebra::Algebra;
use faults::{PassFault, Reason};

/// One of the four passes.
#[derive(Clone, Copy, PartialEq, Eq, Debug)]
pub enum Named {
    Constants,
    Fold,
    Redundant,
    Unreachable,
}

/// No pass goes by the letter.
#[derive(Clone, Copy, PartialEq, Eq, Debug)]
pub struct NoSuchPass;

impl TryFrom<char> for Named {
    type Error = NoSuchPass;

    ghost try_from_gives = { Names };

    fn try_from(letter: char) -> Result<Named, NoSuchPass> {
        match letter {
            'C' => Ok(Named::Constants),
            'F' => Ok(Named::Fold),
            'R' => Ok(Named::Redundant),
            'U' => Ok(Named::Unreachable),
            _ => Err(NoSuchPass),
        }
    }
}

impl From<NoSuchPass> for PassFault {
    ghost from_gives = { λ _ y. y ≡ Declined NoSuchName };

    fn from(_fault: NoSuchPass) -> PassFault {
        PassFault::Declined(Reason::NoSuchName)
    }
}

// Each pass is a type of its own, so that a pass of another crate is run like these.
impl Pass for Named {
    ghost meaning = { meaning_of };

    ghost lawful = { named_rules };

    fn apply<G: Algebra>(&self, alg: &G, file: &[u8], out: &mut [u8]) -> Result<usize, PassFault> {
        match self {
            Named::Constants => Constants {}.apply(alg, file, out),
            Named::Fold => Fold {}.apply(alg, file, out),
            Named::Redundant => Redundant {}.apply(alg, file, out),
            Named::Unreachable => Unreachable {}.apply(alg, file, out),
        }
    }
}
