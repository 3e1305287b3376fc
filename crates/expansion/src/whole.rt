//! The whole Boolean file of a system.
ghost use Rattle.std.specs.Prelude.{◌≡◌, ℕ, ◌-◌, ◌≤◌, List, ◌++◌, length};
ghost use Rattle.definitions.specs.Bits.{bits};
ghost use Rattle.definitions.specs.Systems.{System};
ghost use Rattle.definitions.specs.Truth.{Instance as Meant};
ghost use Rattle.definitions.specs.Fits.{SystemFits};
ghost use Rattle.definitions.specs.Boolean.{expand_system};
ghost use Rattle.definitions.specs.Calls.{Expanding};
ghost use Rattle.bits.specs.declared.writer.BitWriter.{BitWriter as Writer};
ghost use Rattle.system.specs.Whole.{Outlined};
ghost use Rattle.expansion.specs.Drafts.{Drafted};
ghost use Rattle.expansion.specs.Whole.{Numbers, HandsOver, told};

use crate::body::{Opened, write_variable};
use crate::draft::{Draft, Unfinished};
use crate::{Expansion, INSTANCES, LONGEST_BOOLEAN};
use algebra::Algebra;
use bits::deliver;
use faults::{ExpandFault, Reason};
use system::instance::Instance;
use system::walk::Accepted;

// The variables of all instances that come, the start's first.
fn write_variables<G: Algebra>(accepted: &Accepted<G>, draft: &mut Draft) -> Result<(), Unfinished>
    ensures { (s : System) → length accepted.now.file.now ≤ 65536 → Outlined (G.meaning accepted.now.alg.now) accepted.now.file.now s accepted.now.outline.now → SystemFits (G.meaning accepted.now.alg.now) s → Numbers (G.meaning accepted.now.alg.now) s draft.old draft.new result }
{
    draft.begin(accepted.outline.start)?;
    let mut opened = Opened::new();
    // The list grows while it is walked, so no iterator can hold it.
    for k in 0..INSTANCES {
        let Some(instance) = draft.list.get(k) else {
            return Ok(());
        };
        write_variable(accepted, &instance, &mut opened, draft)?;
    }
    Ok(())
}

// Closes the draft, and copies its file to the front of `out`.
fn hand_over(draft: &mut Draft, out: &mut [u8]) -> Result<Expansion, ExpandFault>
    ensures { (s : System) (first : Writer) (places : ℕ) (ns : List Meant) (rest : List ℕ) → Drafted s first places ns (bits 12 0 ++ rest) draft.old → first.at ≡ 0 → 1 ≤ length ns → HandsOver (length first.bytes.now) (bits 12 (length ns - 1) ++ rest) (length ns) out.old out.new result }
{
    let too_long = ExpandFault::Refused(Reason::BooleanTooLong);
    let len = draft.close().ok_or(too_long)?;
    let boolean = draft.writer.bytes.get(0..len).ok_or(too_long)?;
    deliver(out, boolean).or(Err(too_long))?;
    Ok(Expansion {
        len,
        variables: draft.list.len,
    })
}

// Drafts the Boolean file in a buffer of its own, and hands it over.
pub(crate) fn write_file<G: Algebra>(
    accepted: &Accepted<G>,
    work: &mut [Instance],
    out: &mut [u8],
) -> Result<Expansion, ExpandFault>
    ensures { (s : System) → length accepted.now.file.now ≤ 65536 → Outlined (G.meaning accepted.now.alg.now) accepted.now.file.now s accepted.now.outline.now → SystemFits (G.meaning accepted.now.alg.now) s → Expanding (expand_system (G.meaning accepted.now.alg.now) (length work.old) (length out.old) s) out.old out.new (told result) }
{
    let mut buffer = [0u8; LONGEST_BOOLEAN];
    let places = work.len().min(INSTANCES);
    let mut draft = Draft::new(&mut work[0..places], &mut buffer);
    write_variables(accepted, &mut draft).or(Err(ExpandFault::Refused(Reason::TooManyInstances)))?;
    hand_over(&mut draft, out)
}
