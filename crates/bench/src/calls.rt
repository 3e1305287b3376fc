//! The calls on a bench.
ghost use Rattle.std.specs.Prelude.{◌≡◌, [], length};
ghost use Rattle.definitions.specs.Boolean.{expand_on};
ghost use Rattle.definitions.specs.Calls.{Loads, Answers, run_on, run_by, Settling, Expanding};
ghost use Rattle.definitions.specs.Past.{Past, loads, runs, letters, settles, expands};
ghost use Rattle.definitions.specs.Histories.{Follows, VerdictKept};
ghost use Rattle.expansion.specs.Whole.{told};
ghost use Rattle.bench.specs.Holds.{holding};
ghost use Rattle.bench.specs.Rounds.{RunWithin, Rounded, Rounds};

use crate::Bench;
use algebra::Algebra;
use bits::deliver;
use expansion::{Expansion, expand};
use faults::{ExpandFault, Halt, PassFault, ReadFault, Reason, SettleFault};
use passes::Pass;
use passes::named::Named;
use system::instance::Instance;
use system::reading::read;

impl Bench {
    /// A bench that holds nothing.
    ///
    /// Its contract has the main theorem: whatever calls follow, as long as one algebra serves since the last obeyed load, the
    /// verdict of what is held is that of what was loaded.
    pub fn new() -> Bench
        ensures holds { holding result ≡ [] }
        ensures past { Past [] (holding result) }
        ensures verdict { VerdictKept }
    {
        Bench {
            bytes: [0; 8192],
            len: 0,
        }
    }

    /// The file that is held; empty where nothing is.
    pub fn held(&self) -> &[u8]
        ensures { result.now ≡ holding self.now }
    {
        &self.bytes[..self.len]
    }

    /// Holds the file if it is that of a system that fits the algebra.
    pub fn load<G: Algebra>(&mut self, alg: &G, file: &[u8]) -> Result<(), ReadFault>
        ensures history { Follows (loads (G.meaning alg.now) file.now result) (holding self.old) (holding self.new) }
        ensures answer { Loads (G.meaning alg.now) file.now (holding self.old) (holding self.new) result }
    {
        read(alg, file)?;
        let mut bytes = [0; 8192];
        let len = deliver(&mut bytes, file).unwrap();
        *self = Bench { bytes, len };
        Ok(())
    }

    /// Runs a pass on what is held.
    pub fn run<G: Algebra, P: Pass>(&mut self, alg: &G, pass: &P) -> Result<(), PassFault>
        ensures history { Follows (runs (G.meaning alg.now) (P.meaning pass.now) result) (holding self.old) (holding self.new) }
        ensures answer { Answers (run_on (P.meaning pass.now) (G.meaning alg.now) (holding self.old)) (holding self.old) (holding self.new) result }
    {
        if self.len == 0 {
            return Err(PassFault::Declined(Reason::BenchEmpty));
        }
        let mut bytes = [0; 8192];
        let len = pass.apply(alg, self.held(), &mut bytes)?;
        *self = Bench { bytes, len };
        Ok(())
    }

    /// Runs the pass that goes by the letter.
    pub fn run_letter<G: Algebra>(&mut self, alg: &G, letter: char) -> Result<(), PassFault>
        ensures history { Follows (letters (G.meaning alg.now) letter result) (holding self.old) (holding self.new) }
        ensures answer { Answers (run_by letter (G.meaning alg.now) (holding self.old)) (holding self.old) (holding self.new) result }
    {
        if self.len == 0 {
            return Err(PassFault::Declined(Reason::BenchEmpty));
        }
        let pass = Named::try_from(letter)?;
        self.run(alg, &pass)
    }

    /// Runs the four passes one after the other, round after round, up to the first round that changes nothing, and tells its number.
    pub fn settle<G: Algebra>(&mut self, alg: &G) -> Result<usize, SettleFault>
        ensures history { Follows (settles (G.meaning alg.now) result) (holding self.old) (holding self.new) }
        ensures answer { Settling (G.meaning alg.now) (holding self.old) (holding self.new) result }
    {
        let mut work = *self;
        let rounds = work.run_rounds(alg)?;
        *self = work;
        Ok(rounds)
    }

    /// Writes the Boolean file of the held system to the front of `out`; `work` is memory for the instances.
    pub fn expand<G: Algebra>(
        &self,
        alg: &G,
        work: &mut [Instance],
        out: &mut [u8],
    ) -> Result<Expansion, ExpandFault>
        ensures history { Follows (expands (G.meaning alg.now) (length work.old) out.old out.new (told result)) (holding self.now) (holding self.now) }
        ensures answer { Expanding (expand_on (G.meaning alg.now) (length work.old) (length out.old) (holding self.now)) out.old out.new (told result) }
    {
        if self.len == 0 {
            return Err(ExpandFault::Refused(Reason::BenchEmpty));
        }
        expand(alg, self.held(), work, out)
    }

    // One pass of a round.
    fn run_within<G: Algebra>(&mut self, alg: &G, letter: u8, round: usize) -> Result<(), Halt>
        ensures { RunWithin (G.meaning alg.now) letter round (holding self.old) (holding self.new) result }
    {
        self.run_letter(alg, char::from(letter))
            .map_err(|fault| Halt {
                fault,
                letter,
                round,
            })
    }

    // The four passes in turn.
    fn run_round<G: Algebra>(&mut self, alg: &G, round: usize) -> Result<(), Halt>
        ensures { Rounded (G.meaning alg.now) round (holding self.old) (holding self.new) result }
    {
        for letter in *b"CFRU" {
            self.run_within(alg, letter, round)?;
        }
        Ok(())
    }

    // Rounds until one leaves the file equal: the number of the last.
    fn run_rounds<G: Algebra>(&mut self, alg: &G) -> Result<usize, SettleFault>
        ensures { Rounds (G.meaning alg.now) (holding self.old) (holding self.new) result }
    {
        let mut round = 1;
        // It ends: each round but the last makes the system's weight smaller, if not its file.
        loop {
            let before = *self;
            self.run_round(alg, round)?;
            if before.held() == self.held() {
                return Ok(round);
            }
            round += 1;
        }
    }
}
