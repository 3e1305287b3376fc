//! Passes: each reads a system file and writes the file of a system with the same verdict.

#![tactic(auto)]

ghost use Rattle.std.specs.Prelude.{length};
ghost use Rattle.definitions.specs.Settle.{Pass as Meaning};
ghost use Rattle.definitions.specs.Rules.{Rules, applied};
ghost use Rattle.definitions.specs.Calls.{Applies};

pub mod constants;
pub mod folding;
mod laws;
pub mod named;
mod plan;
pub mod redundant;
mod rewrite;
pub mod unreachable_equations;
mod walked;
mod written;

use algebra::Algebra;
use faults::PassFault;

/// A pass: over each algebra it turns a system into another.
pub trait Pass {
    /// What it makes of a system, over each algebra.
    ghost meaning: { Self → Meaning };

    /// Writes the file of the meant system to the front of `out`, and tells its length.
    ///
    /// It is refused, and `out` stays, where the file does not read, or the written one is longer than `out` or than 8,192 bytes.
    fn apply<G: Algebra>(&self, alg: &G, file: &[u8], out: &mut [u8]) -> Result<usize, PassFault>
        ensures { Applies (applied (meaning self.now) (G.meaning alg.now) (length out.old) file.now) out.old out.new result };

    // Over every lawful algebra the system that is meant fits and has the same verdict.
    ghost lawful: { (x : Self) → Rules (meaning x) };
}
