//! What is proved of the definitions, over every lawful algebra and every fitting system. Each theorem is the contract of a
//! function; nothing here speaks of how a program works.

#![tactic(auto)]

ghost use Rattle.theorems.specs.Examples.{Examples};
ghost use Rattle.theorems.specs.Misreadings.{Misreadings};
ghost use Rattle.theorems.specs.Evaluation.{TermsEvaluateInSort, ArgumentsLandInSorts, ReachedInstancesInRange, KnownValuesAgree};
ghost use Rattle.theorems.specs.SolutionLaws.{SystemsSolved, BooleansSolved};
ghost use Rattle.theorems.specs.FileLaws.{TermsReadBack, TermsReadFit, SystemsReadBack, SystemsWrittenBack, BooleansReadBack, BooleansWrittenBack, TablesReadBack, TablesWrittenBack, UniqueFiles};
ghost use Rattle.theorems.specs.AlgebraLaws.{AlgebrasLawful};
ghost use Rattle.theorems.specs.KnowledgeLaws.{KnowledgeStable, KnowledgeLeast};
ghost use Rattle.theorems.specs.PassLaws.{CKeepsTruths, CBaresUnreached, FoldingKeepsValues, FKeepsBodies, FKeepsTruths, RKeepsWhatReachesAMark, RKeepsTruths, RemovedValuesDoNotMatter, UKeepsWhatIsReached, UKeepsTruths, PassesKeepRules};
ghost use Rattle.theorems.specs.SettleLaws.{NoPassHeavier, ChangingRoundsLighter, SettlingEnds, OneSettledAnswer, SettleComputes, WeightWithinBits, RoundsWithinLimit, SettlingKeepsVerdict};
ghost use Rattle.theorems.specs.ExpandLaws.{VariablesAreReachedInstances, ExpansionFits, ExpansionReadAndSolved, ExpandObeyedRightly, ExpandDeclinedRightly};
ghost use Rattle.theorems.specs.CallLaws.{CallsAnswer, CallsAnswerOnce, BuffersAnswer, RunIsApplied, CallsExtendHistories};
ghost use Rattle.definitions.specs.Histories.{VerdictKept};

// The definitions on examples

/// What the definitions come to on the sample system, its settled form, and terms at the depth limit.
pub fn worked_examples()
    ensures { Examples }
{}

/// Four misreadings, each with a system on which it changes the verdict: C that follows occurrences once, C that keeps the first
/// of two constants, R that drops a parameter which only feeds another, an inner rank solved once.
pub fn misreadings_change_verdicts()
    ensures { Misreadings }
{}

// Evaluation

/// A term that fits has a value inside its sort.
pub fn terms_evaluate_in_sort()
    ensures { TermsEvaluateInSort }
{}

/// The arguments of an occurrence land in the sorts of the target.
pub fn arguments_land_in_sorts()
    ensures { ArgumentsLandInSorts }
{}

/// Every instance that is reached from the start lies in range.
pub fn reached_instances_in_range()
    ensures { ReachedInstancesInRange }
{}

/// A known value is the value under every completion.
pub fn known_values_agree()
    ensures { KnownValuesAgree }
{}

// Truth

/// The truths of a system are the one solution of its ranked equations, whose bodies are monotone.
pub fn systems_solved()
    ensures { SystemsSolved }
{}

/// The truths of a Boolean system likewise, rank by rank.
pub fn booleans_solved()
    ensures { BooleansSolved }
{}

// Files

/// A term that fits is read back from its bits.
pub fn terms_read_back()
    ensures { TermsReadBack }
{}

/// A term that is read fits, and its bits are those read.
pub fn terms_read_fit()
    ensures { TermsReadFit }
{}

/// A system that fits is read back from its file.
pub fn systems_read_back()
    ensures { SystemsReadBack }
{}

/// A file that is read is the file of its system, which fits.
pub fn systems_written_back()
    ensures { SystemsWrittenBack }
{}

/// A Boolean system that fits is read back from its file.
pub fn booleans_read_back()
    ensures { BooleansReadBack }
{}

/// A Boolean file that is read is the file of its variables, which fit.
pub fn booleans_written_back()
    ensures { BooleansWrittenBack }
{}

/// A table that fits is read back from its file.
pub fn tables_read_back()
    ensures { TablesReadBack }
{}

/// A table file that is read is the file of its table, which fits.
pub fn tables_written_back()
    ensures { TablesWrittenBack }
{}

/// So each system, Boolean system and table has one file.
pub fn unique_files()
    ensures { UniqueFiles }
{}

// Algebras

/// The level, counting and table algebras are lawful.
pub fn algebras_lawful()
    ensures { AlgebrasLawful }
{}

// Passes

/// The knowledge that C uses is stable.
pub fn knowledge_stable()
    ensures { KnowledgeStable }
{}

/// It lies below every stable knowledge.
pub fn knowledge_least()
    ensures { KnowledgeLeast }
{}

/// C keeps the truth of each instance that agrees with what is known of a reached equation.
pub fn c_keeps_truths()
    ensures { CKeepsTruths }
{}

/// C makes an equation bare that is not reached.
pub fn c_bares_unreached()
    ensures { CBaresUnreached }
{}

/// Folding keeps every term's value in every environment.
pub fn folding_keeps_values()
    ensures { FoldingKeepsValues }
{}

/// F keeps what every body says of every assignment.
pub fn f_keeps_bodies()
    ensures { FKeepsBodies }
{}

/// F keeps the truth of every instance.
pub fn f_keeps_truths()
    ensures { FKeepsTruths }
{}

/// R keeps exactly the parameters that reach a mark.
pub fn r_keeps_what_reaches_a_mark()
    ensures { RKeepsWhatReachesAMark }
{}

/// R keeps the truth of every instance, with the removed places dropped.
pub fn r_keeps_truths()
    ensures { RKeepsTruths }
{}

/// Systems that differ only in starting values of parameters that R removes have equal verdicts.
pub fn removed_values_do_not_matter()
    ensures { RemovedValuesDoNotMatter }
{}

/// U keeps exactly the equations that the start reaches.
pub fn u_keeps_what_is_reached()
    ensures { UKeepsWhatIsReached }
{}

/// U keeps the truth of every instance of an equation that is reached.
pub fn u_keeps_truths()
    ensures { UKeepsTruths }
{}

/// The four passes keep the rules of a pass.
pub fn passes_keep_rules()
    ensures { PassesKeepRules }
{}

// Settle

/// No pass raises the weight.
pub fn no_pass_heavier()
    ensures { NoPassHeavier }
{}

/// A round that does not lower the weight changes nothing.
pub fn changing_rounds_lighter()
    ensures { ChangingRoundsLighter }
{}

/// Settling has an answer, in a round that the weight limits.
pub fn settling_ends()
    ensures { SettlingEnds }
{}

/// Settling has one answer.
pub fn one_settled_answer()
    ensures { OneSettledAnswer }
{}

/// The function of rounds comes to that answer.
pub fn settle_computes()
    ensures { SettleComputes }
{}

/// The weight of a system is at most the number of bits of its file.
pub fn weight_within_bits()
    ensures { WeightWithinBits }
{}

/// So 65,537 rounds suffice for every file that can be held.
pub fn rounds_within_limit()
    ensures { RoundsWithinLimit }
{}

/// The settled system has the verdict of the system before.
pub fn settling_keeps_verdict()
    ensures { SettlingKeepsVerdict }
{}

// Expand

/// The variables are the reached instances, each once, in the order of their coming, with their truths.
pub fn variables_are_reached_instances()
    ensures { VariablesAreReachedInstances }
{}

/// What expanding makes fits a Boolean file: depth at most 8, one sign a rank.
pub fn expansion_fits()
    ensures { ExpansionFits }
{}

/// The file that expanding writes is read back, and solving it gives variable 0 the verdict.
pub fn expansion_read_and_solved()
    ensures { ExpansionReadAndSolved }
{}

/// Expanding is obeyed only where the reached instances are at most 4,096 and at most the places.
pub fn expand_obeyed_rightly()
    ensures { ExpandObeyedRightly }
{}

/// Expanding is declined only where the instances or the bytes are too many.
pub fn expand_declined_rightly()
    ensures { ExpandDeclinedRightly }
{}

// Calls and histories

/// Every call on a bench with a past has an answer.
pub fn calls_answer()
    ensures { CallsAnswer }
{}

/// And only one.
pub fn calls_answer_once()
    ensures { CallsAnswerOnce }
{}

/// So have a pass on a file and a solve.
pub fn buffers_answer()
    ensures { BuffersAnswer }
{}

/// A run on a bench is the pass on a buffer of 8,192 bytes or more.
pub fn run_is_applied()
    ensures { RunIsApplied }
{}

/// A call adds itself to every history of what was held, and the longer history is sound.
pub fn calls_extend_histories()
    ensures { CallsExtendHistories }
{}

/// The main theorem: the verdict is kept in every history in which one algebra serves, and every two that differ only in
/// starting values that R removes have one verdict.
pub fn verdict_kept()
    ensures { VerdictKept }
{}
