//! Expanding a system to a Boolean file: one variable for each instance that the start reaches.

#![tactic(auto)]

ghost use Rattle.std.specs.Prelude.{length};
ghost use Rattle.definitions.specs.Boolean.{expand_read};
ghost use Rattle.definitions.specs.ReadSystem.{reading};
ghost use Rattle.definitions.specs.Calls.{Expanding};
ghost use Rattle.expansion.specs.Whole.{told};

mod body;
mod draft;
mod whole;

use algebra::Algebra;
use faults::ExpandFault;
use system::instance::Instance;
use system::reading::read;
use system::walk::Accepted;
use whole::write_file;

// The limits of an expand, which are told apart from those of a Boolean file's readers: `boolean` and this crate do not see one another.
/// The most instances.
pub const INSTANCES: usize = 4096;

/// The longest Boolean file, in bytes.
pub const LONGEST_BOOLEAN: usize = 65535;

/// How long the Boolean file is, and how many variables it has.
#[derive(Clone, Copy, PartialEq, Eq, Debug)]
pub struct Expansion {
    pub len: usize,
    pub variables: usize,
}

/// Writes the Boolean file of the system in `file` to the front of `out`.
pub fn expand<G: Algebra>(
    alg: &G,
    file: &[u8],
    work: &mut [Instance],
    out: &mut [u8],
) -> Result<Expansion, ExpandFault>
    ensures { Expanding (expand_read (G.meaning alg.now) (length work.old) (length out.old) (reading (G.meaning alg.now) file.now)) out.old out.new (told result) }
{
    let outline = read(alg, file)?;
    let accepted = Accepted {
        alg,
        outline: &outline,
        file,
    };
    write_file(&accepted, work, out)
}
