//! The verdict of a system over the lamps.
ghost use Rattle.std.specs.Prelude.{◌≡◌};
ghost use Rattle.definitions.specs.Lists.{at};
ghost use Rattle.outsider.specs.Lamps.{lamps};
ghost use Rattle.outsider.specs.Verdicts.{Tells};

use crate::lamps::Lamps;
use crate::repeats::Repeats;
use bench::Bench;
use boolean::solving::solve;
use faults::Fault;
use system::instance::Instance;

// The first byte, where there is one.
fn first(bytes: &[u8]) -> Option<u8>
    ensures { result ≡ at bytes.now 0 }
{
    bytes.first().copied()
}

/// Whether the start of the system in the file is true, by way of the bench; `work`, `boolean` and `truths` are memory.
pub fn verdict(
    file: &[u8],
    work: &mut [Instance],
    boolean: &mut [u8],
    truths: &mut [u8],
) -> Result<bool, Fault>
    ensures { Tells lamps file.now result }
{
    let mut bench = Bench::new();
    bench.load(&Lamps, file)?;
    bench.run(&Lamps, &Repeats {})?;
    bench.settle(&Lamps)?;
    let expansion = bench.expand(&Lamps, work, boolean)?;
    solve(&boolean[..expansion.len], truths)?;
    Ok(first(truths) == Some(1))
}
