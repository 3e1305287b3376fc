//! A Boolean file that is being solved.
ghost use Rattle.std.specs.Prelude.{◌≤◌, length};
ghost use Rattle.boolean.specs.Files.{Described};
ghost use Rattle.boolean.specs.Ranked.{variables_of};

use crate::blocks::Blocks;
use crate::entries::Variables;

/// A Boolean file with its variables and their blocks.
#[derive(Drop)]
pub struct Solver<'a> {
    pub file: &'a [u8],
    pub variables: &'a Variables,
    pub blocks: &'a Blocks,
    ghost short: { length file.now ≤ 65536 },
    ghost described: { ∥ Described file.now (variables_of file.now) variables.now ∥₁ },
}
