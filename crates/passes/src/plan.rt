//! What a pass makes of each equation and each parameter.
ghost use Rattle.std.specs.Prelude.{◌≡◌};
ghost use Rattle.definitions.specs.Lists.{place};
ghost use Rattle.passes.specs.Planned.{mask, remaining};
ghost use Rattle.passes.specs.Plans.{change_none, plan_none};

/// What becomes of a parameter.
#[derive(Clone, Copy, PartialEq, Eq, Debug)]
pub enum ParameterChange {
    /// It stays.
    Stays,
    /// It goes, with its header entry, its arguments and its starting value.
    Goes,
    /// It goes too, and this value takes its place in terms.
    Becomes(u8),
}

/// What becomes of an equation.
#[derive(Clone, Copy, PartialEq, Eq, Debug)]
pub enum EquationChange {
    /// It stays.
    Stays,
    /// It becomes bare: no quantified variables, h false, no clauses.
    Bare,
    /// It goes.
    Goes,
}

/// What becomes of an equation and its parameters.
#[derive(Clone, Copy, PartialEq, Eq, Debug)]
pub struct Change {
    pub equation: EquationChange,
    pub parameters: [ParameterChange; 15],
}

impl Change {
    /// The equation stays as it is, which the name says more plainly than `default` would.
    pub fn none() -> Change
        ensures { result ≡ change_none }
    {
        Change {
            equation: EquationChange::Stays,
            parameters: [ParameterChange::Stays; 15],
        }
    }

    /// How many of the first n parameters stay: the new number of the one numbered n.
    pub fn number_of(&self, n: usize) -> u32
        ensures { result ≡ place (mask self.now) n }
    {
        self.parameters
            .iter()
            .take(n)
            .filter(|change| **change == ParameterChange::Stays)
            .count() as u32
    }
}

/// What becomes of a system.
#[derive(Clone, Copy, PartialEq, Eq, Debug)]
pub struct Plan {
    /// Terms with a known value become value terms, and clauses with a false guard go. One yes or no for the whole system.
    pub fold: bool,
    pub equations: [Change; 31],
}

impl Plan {
    /// The system stays as it is.
    pub fn none() -> Plan
        ensures { result ≡ plan_none }
    {
        Plan {
            fold: false,
            equations: [Change::none(); 31],
        }
    }

    /// How many of the first n equations do not go: the new number of the one numbered n. One function over what is
    /// counted, for this and for the parameters, would be longer than the two.
    pub fn number_of(&self, n: usize) -> u32
        ensures { result ≡ place (remaining self.now) n }
    {
        self.equations
            .iter()
            .take(n)
            .filter(|change| change.equation != EquationChange::Goes)
            .count() as u32
    }
}

/// A walk does not find what every accepted file has.
#[derive(Clone, Copy, PartialEq, Eq, Debug)]
pub struct Missing;
