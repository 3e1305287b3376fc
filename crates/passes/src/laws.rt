//! What the plans of the four passes make of a system. Each theorem is the contract of a function; nothing here speaks of
//! how a plan is found.
ghost use Rattle.std.specs.Prelude.{◌≡◌};
ghost use Rattle.definitions.specs.Alg.{Alg};
ghost use Rattle.definitions.specs.Systems.{System};
ghost use Rattle.definitions.specs.Fits.{SystemFits};
ghost use Rattle.definitions.specs.Constants.{pass_c};
ghost use Rattle.definitions.specs.Passes.{pass_f, pass_r, pass_u};
ghost use Rattle.passes.specs.declared.plan.Plan.{Plan};
ghost use Rattle.passes.specs.Planned.{system_by};
ghost use Rattle.passes.specs.Plans.{knowing, folding, needing, keeping};

/// The plan that puts in what is known makes of a system what C makes of it.
pub fn knowing_is_pass_c()
    ensures { (a : Alg) (s : System) (P : Plan) → SystemFits a s → knowing a s P → system_by a P s ≡ pass_c a s }
{}

/// The plan that folds makes of a system what F makes of it.
pub fn folding_is_pass_f()
    ensures { (a : Alg) (s : System) (P : Plan) → SystemFits a s → folding a s P → system_by a P s ≡ pass_f a s }
{}

/// The plan that takes away what is not needed makes of a system what R makes of it.
pub fn needing_is_pass_r()
    ensures { (a : Alg) (s : System) (P : Plan) → SystemFits a s → needing s P → system_by a P s ≡ pass_r a s }
{}

/// The plan that keeps what is reached makes of a system what U makes of it.
pub fn keeping_is_pass_u()
    ensures { (a : Alg) (s : System) (P : Plan) → SystemFits a s → keeping s P → system_by a P s ≡ pass_u a s }
{}
