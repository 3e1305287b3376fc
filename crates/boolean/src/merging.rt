//! Merging neighbouring ranks of one sign, so that the cost of solving grows with the changes of sign and not with the ranks.
ghost use Rattle.std.specs.Prelude.{◌≡◌, ℕ, ◌+◌, ◌<◌, List, None, Some, Option, length, slice_index_or};
ghost use Rattle.rows.specs.Listed.{listed};
ghost use Rattle.definitions.specs.Boolean.{Variable};
ghost use Rattle.system.specs.declared.header.Sign.{Sign as Kept};
ghost use Rattle.boolean.specs.Ranked.{Signed, SolvedAlike, Merged};

use crate::blocks::Blocks;
use rows::Row;
use system::header::Sign;

// Puts the rank into the outermost block so far, if that has its sign, or else into a new one around it.
fn put_rank(all: &mut Blocks, rank: usize, sign: Sign)
    requires small { rank < 32 }
    requires few { length (listed all.old.signs) < 32 }
    ensures { (ss : List (Option Kept)) (k : ℕ) → Merged ss k all.old → k + rank ≡ 31 → slice_index_or ss rank None ≡ Some sign → Merged ss (k + 1) all.new }
{
    if all.signs.as_slice().last() != Some(&sign) {
        all.signs.push(sign).unwrap();
    }
    all.ranks[rank] = (all.signs.as_slice().len() - 1) as u8;
}

/// The blocks of the ranks with these signs. Ranks that no variable has cost nothing.
pub(crate) fn blocks_of(signs: &[Option<Sign>; 32]) -> Blocks
    ensures { (vs : List Variable) → Signed vs signs.now → SolvedAlike vs result }
{
    let mut all = Blocks {
        signs: Row::new(Sign::Least),
        // A rank that no variable has is in no block.
        ranks: [32; 32],
    };
    for (rank, sign) in signs.iter().enumerate().rev() {
        if let Some(sign) = *sign {
            put_rank(&mut all, rank, sign);
        }
    }
    all
}
