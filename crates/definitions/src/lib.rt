//! What everything means: the definitions that the contracts of the other crates cite, in specs/.

#![tactic(auto)]
