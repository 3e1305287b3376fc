//! Solving a Boolean file: the nested least and greatest solution, block by block.
ghost use Rattle.std.specs.Prelude.{◌≡◌, ◌<◌, ◌≤◌, true, false, ◌++◌, map, length, drop, ◌==◌, slice_index, slice_index_or};
ghost use Rattle.rows.specs.Listed.{listed};
ghost use Rattle.definitions.specs.Algebras.{truth as byte_of};
ghost use Rattle.definitions.specs.Solution.{put, edge};
ghost use Rattle.definitions.specs.Order.{truths as order};
ghost use Rattle.definitions.specs.Nested.{solve as solution};
ghost use Rattle.definitions.specs.Calls.{Solving};
ghost use Rattle.system.specs.Files.{kept_sign};
ghost use Rattle.boolean.specs.Steps.{assigned};
ghost use Rattle.boolean.specs.Ranked.{moves_to, Visited, Swept};
ghost use Rattle.boolean.specs.Solvers.{sign, body, inside, block, blocks_below};

use crate::entries::{Entry, VARIABLES};
use crate::merging::blocks_of;
use crate::reading::read_boolean;
use crate::solver::Solver;
use crate::token::{BODY_DEPTH, read_body};
use bits::Cursor;
use faults::{Reason, SolveFault};
use system::header::Sign;

// The truth that the variables of a block move to: they begin with the other. One test says both cases of the definition.
fn moves_to(sign: Sign) -> bool
    ensures { result ≡ moves_to sign }
{
    sign == Sign::Least
}

impl<'a> Solver<'a> {
    // Whether the variable is in the block.
    fn belongs(&self, k: usize, entry: &Entry) -> bool
        ensures { result ≡ (slice_index self.now.blocks.now.ranks entry.now.rank == k) }
    {
        self.blocks.ranks[entry.rank as usize] as usize == k
    }

    // Gives the variables of the block the truth with which its rounds start.
    fn begin(&self, k: usize, truths: &mut [bool; VARIABLES])
        requires few { k < length (listed self.now.blocks.now.signs) }
        ensures { assigned truths.new ≡ put (block self.now k) (λ _. edge false true (kept_sign (sign self.now k))) (assigned truths.old) }
    {
        let start = !moves_to(self.blocks.signs.as_slice()[k]);
        // By index: a proof knows nothing of the truths after a loop over `truths.iter_mut().zip(..)`.
        for (v, entry) in self.variables.entries.as_slice().iter().enumerate() {
            if self.belongs(k, entry) {
                truths[v] = start;
            }
        }
    }

    // Moves the truth of the variable, if it is in the block and its body says so; tells whether it moved.
    fn visit(
        &self,
        k: usize,
        v: usize,
        entry: &Entry,
        to: bool,
        truths: &mut [bool; VARIABLES],
    ) -> bool
        requires few { v < length (listed self.now.variables.now.entries) }
        requires its { entry.now ≡ slice_index_or (listed self.now.variables.now.entries) v entry.now }
        ensures { Visited to (body self.now) (inside self.now k) v truths.old truths.new result }
    {
        // A truth that has moved stays.
        if truths[v] == to {
            return false;
        }
        if !self.belongs(k, entry) {
            return false;
        }
        let mut cursor = Cursor {
            bytes: self.file,
            at: entry.body as usize,
        };
        let count = self.variables.entries.as_slice().len() as u32;
        // An accepted file's bodies are read; the answer is no Result, so `?` cannot say it.
        let Ok(truth) = read_body(&mut cursor, count, truths, BODY_DEPTH) else {
            return false;
        };
        if truth != to {
            return false;
        }
        truths[v] = to;
        true
    }

    // Visits the variables of the block, the last one first; tells whether one moved.
    fn sweep(&self, k: usize, truths: &mut [bool; VARIABLES]) -> bool
        requires few { k < length (listed self.now.blocks.now.signs) }
        ensures { Swept (sign self.now k) (body self.now) (inside self.now k) 0 (assigned truths.old) (assigned truths.new) result }
    {
        let to = moves_to(self.blocks.signs.as_slice()[k]);
        let mut changed = false;
        for (v, entry) in self.variables.entries.as_slice().iter().enumerate().rev() {
            if self.visit(k, v, entry, to, truths) {
                changed = true;
            }
        }
        changed
    }

    // Visits the variables of the block, the first one first; tells whether one moved.
    fn sweep_up(&self, k: usize, truths: &mut [bool; VARIABLES]) -> bool
        requires few { k < length (listed self.now.blocks.now.signs) }
        ensures { Swept (sign self.now k) (body self.now) (inside self.now k) (length (listed self.now.variables.now.entries)) (assigned truths.old) (assigned truths.new) result }
    {
        let to = moves_to(self.blocks.signs.as_slice()[k]);
        let mut changed = false;
        for (v, entry) in self.variables.entries.as_slice().iter().enumerate() {
            if self.visit(k, v, entry, to, truths) {
                changed = true;
            }
        }
        changed
    }

    // Sweeps until nothing moves, the other blocks being held; tells whether a truth moved.
    fn settle_block(&self, k: usize, truths: &mut [bool; VARIABLES]) -> bool
        requires few { k < length (listed self.now.blocks.now.signs) }
        ensures { Swept (sign self.now k) (body self.now) (inside self.now k) 0 (assigned truths.old) (assigned truths.new) result }
    {
        let mut changed = false;
        while self.sweep(k, truths) {
            changed = true;
            // The other way too, so that a chain is followed at once in whichever direction it runs.
            self.sweep_up(k, truths);
        }
        changed
    }

    // Solves the blocks below k, the truths of the others being held.
    fn solve_below(&self, k: usize, truths: &mut [bool; VARIABLES])
        requires few { k ≤ length (listed self.now.blocks.now.signs) }
        ensures { assigned truths.new ≡ solution order (body self.now) (blocks_below self.now k) (assigned truths.old) }
    {
        if k == 0 {
            return;
        }
        self.begin(k - 1, truths);
        // Each round but the last moves the truth of a variable of the block.
        loop {
            self.solve_below(k - 1, truths);
            if !self.settle_block(k - 1, truths) {
                return;
            }
        }
    }
}

// Writes the truths to the front, a byte each.
fn deliver(solution: &[bool], truths: &mut [u8])
    requires room { length solution.now ≤ length truths.old }
    ensures { truths.new ≡ map byte_of solution.now ++ drop (length solution.now) truths.old }
{
    // By index: after a loop over `truths.iter_mut().zip(..)` a proof knows no more of the truths than how many there are.
    for (v, truth) in solution.iter().enumerate() {
        truths[v] = *truth as u8;
    }
}

/// Writes the truth of each variable, a byte 0 or 1, to the front of `truths`, and tells how many there are.
pub fn solve(file: &[u8], truths: &mut [u8]) -> Result<usize, SolveFault>
    ensures { Solving file.now truths.old truths.new result }
{
    let variables = read_boolean(file)?;
    let count = variables.entries.as_slice().len();
    if truths.len() < count {
        return Err(SolveFault {
            reason: Reason::TooFewTruths,
            place: 0,
        });
    }
    let blocks = blocks_of(&variables.signs);
    let solver = Solver {
        file,
        variables: &variables,
        blocks: &blocks,
    };
    let mut solution = [false; VARIABLES];
    solver.solve_below(blocks.signs.as_slice().len(), &mut solution);
    deliver(&solution[0..count], truths);
    Ok(count)
}
