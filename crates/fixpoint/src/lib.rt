//! The theory of nested least and greatest fixpoints: the laws of the solution of a ranked system, for every type of indices
//! and every order of finite height on every type of truths. Each theorem is the contract of a function.

#![tactic(auto)]

ghost use Rattle.fixpoint.specs.Laws.{BlocksExtreme, SolutionsMonotone, AtMostOneSolution, RoundsFindSolution, SolutionGivenBack};
ghost use Rattle.fixpoint.specs.Laws.{TransferOfTests, TransferOfEquals, CouplingOfTests, NeighboursMerge, NeighboursExchange, FormulaPulledOut};

/// A block's truths are given back, are the least (greatest) that are or that lie above (below) what the bodies give, and more
/// rounds change nothing.
pub fn blocks_extreme<I, V>()
    ensures { BlocksExtreme I V }
{}

/// Higher environments give higher solutions.
pub fn solutions_monotone<I, V>()
    ensures { SolutionsMonotone I V }
{}

/// There is at most one solution.
pub fn at_most_one_solution<I, V>()
    ensures { AtMostOneSolution I V }
{}

/// The rounds find the solution.
pub fn rounds_find_solution<I, V>()
    ensures { RoundsFindSolution I V }
{}

/// Each index of a block has the truth that its body gives.
pub fn solution_given_back<I, V>()
    ensures { SolutionGivenBack I V }
{}

/// Systems whose bodies agree on related indices have solutions that agree on them.
pub fn solutions_transfer<I, J, V, W>()
    ensures { TransferOfTests I J V W }
{}

/// The same for equal truths.
pub fn equal_truths_transfer<I, J, V>()
    ensures { TransferOfEquals I J V }
{}

/// The same where bodies need to agree only at assignments that give the later blocks back.
pub fn solutions_couple<I, J, V, W>()
    ensures { CouplingOfTests I J V W }
{}

/// Neighbouring blocks of one sign are one block.
pub fn neighbours_merge<I, V>()
    ensures { NeighboursMerge I V }
{}

/// Neighbouring blocks of one sign may change places.
pub fn neighbours_exchange<I, V>()
    ensures { NeighboursExchange I V }
{}

/// A formula pulled out into an equation of its own leaves the truths.
pub fn formula_pulled_out<I, K, V>()
    ensures { FormulaPulledOut I K V }
{}
