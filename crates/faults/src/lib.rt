//! Why a call is declined: the reason with its number, the layer that tells it, and the bit place.
//!
//! Faults nest: a pass that could not read its file carries the reading fault unchanged, and a settle the fault of its pass.

#![tactic(auto)]

ghost use Rattle.std.specs.Prelude.{◌≡◌, Some};
ghost use Rattle.faults.specs.Faults.{number_of, table_stop, read_stop, solve_stop, of_table, of_read, of_pass, of_settle, of_expand, of_solve, layer_name, fault_text};
ghost use Rattle.faults.specs.declared.PassFault.TheVariants.{Reading as InPass};
ghost use Rattle.faults.specs.declared.ExpandFault.TheVariants.{Unread};

use std::fmt;

/// Why a call is declined.
#[derive(Clone, Copy, PartialEq, Eq, Debug)]
pub enum Reason {
    /// Nothing is held.
    BenchEmpty = 1,
    /// No bytes, or too many: 8,192 for a system, 16,384 for a table, 65,535 for a Boolean file.
    BadLength = 2,
    /// Too few bits are left for a field.
    EndsInField = 3,
    /// A system without equations.
    NoEquations = 4,
    /// Nested deeper than terms (32) or bodies (8) may be.
    TooDeep = 5,
    /// A sort that is not there.
    NoSuchSort = 6,
    /// A name that stands for nothing: of a parameter, a variable, an operation, an equation, a pass or a token.
    NoSuchName = 7,
    /// A value that its sort does not have.
    ValueTooLarge = 8,
    /// A term of a sort that does not suit where it stands.
    WrongSort = 9,
    /// Something other than zero padding behind the content.
    NotEnded = 10,
    /// What a pass would write is too long for the buffer or for a system file.
    ResultTooLong = 11,
    /// More instances than 4,096 or than the lent places.
    TooManyInstances = 12,
    /// What an expand would write is too long for the buffer or for a Boolean file.
    BooleanTooLong = 13,
    /// Variables of one rank with different signs.
    RankOfBothSigns = 14,
    /// Too little room for the truths.
    TooFewTruths = 15,
    /// A table whose truth values are not two.
    TruthSortSize = 16,
    /// Too many sizes for counting sorts, or one that is 0 or above 256.
    BadCountingSizes = 17,
}

impl Reason {
    /// The number that is printed.
    pub fn number(self) -> u8
        ensures { result ≡ number_of self }
    {
        // The case's own number; a name says at its use what a cast would not.
        self as u8
    }
}

/// The layer that tells a reason.
#[derive(Clone, Copy, PartialEq, Eq, Debug)]
pub enum Layer {
    Table,
    Read,
    Pass,
    Expand,
    Solve,
}

/// Why reading a file stops, and at which bit.
#[derive(Clone, Copy, PartialEq, Eq, Debug)]
pub struct Stop {
    pub reason: Reason,
    pub place: usize,
}

/// A reason with its layer and its bit place: what every fault of a layer is at its innermost.
#[derive(Clone, Copy, PartialEq, Eq, Debug)]
pub struct Fault {
    pub reason: Reason,
    pub layer: Layer,
    pub place: usize,
}

// A layer is told by the type of its fault. So those of table, read and solve are three types with the same fields, and those of
// pass and expand two with cases of the same shape.

/// Filling an algebra is declined.
#[derive(Clone, Copy, PartialEq, Eq, Debug)]
pub struct TableFault {
    pub reason: Reason,
    pub place: usize,
}

/// A system file is not accepted.
#[derive(Clone, Copy, PartialEq, Eq, Debug)]
pub struct ReadFault {
    pub reason: Reason,
    pub place: usize,
}

/// A pass is declined: its file is not accepted, or for a reason of its own, at place 0.
#[derive(Clone, Copy, PartialEq, Eq, Debug)]
pub enum PassFault {
    Reading(ReadFault),
    Declined(Reason),
}

/// The pass of a settle that was declined, its letter as a byte, and the round.
#[derive(Clone, Copy, PartialEq, Eq, Debug)]
pub struct Halt {
    pub fault: PassFault,
    // A byte, as the program `vectors` prints it.
    pub letter: u8,
    pub round: usize,
}

/// A settle is declined.
#[derive(Clone, Copy, PartialEq, Eq, Debug)]
pub struct SettleFault {
    pub halt: Halt,
}

/// An expand is declined: the held file is not accepted, or for a reason of its own, at place 0.
#[derive(Clone, Copy, PartialEq, Eq, Debug)]
pub enum ExpandFault {
    Unread(ReadFault),
    Refused(Reason),
}

/// A solve is declined.
#[derive(Clone, Copy, PartialEq, Eq, Debug)]
pub struct SolveFault {
    pub reason: Reason,
    pub place: usize,
}

impl From<Stop> for TableFault {
    ghost from_gives = { λ x y. y ≡ table_stop x };

    fn from(stop: Stop) -> TableFault {
        let Stop { reason, place } = stop;
        TableFault { reason, place }
    }
}

impl From<Stop> for ReadFault {
    ghost from_gives = { λ x y. y ≡ read_stop x };

    fn from(stop: Stop) -> ReadFault {
        let Stop { reason, place } = stop;
        ReadFault { reason, place }
    }
}

impl From<Stop> for SolveFault {
    ghost from_gives = { λ x y. y ≡ solve_stop x };

    fn from(stop: Stop) -> SolveFault {
        let Stop { reason, place } = stop;
        SolveFault { reason, place }
    }
}

impl From<ReadFault> for PassFault {
    ghost from_gives = { λ x y. y ≡ InPass x };

    fn from(fault: ReadFault) -> PassFault {
        PassFault::Reading(fault)
    }
}

impl From<Halt> for SettleFault {
    ghost from_gives = { λ x y. y.halt ≡ x };

    fn from(halt: Halt) -> SettleFault {
        SettleFault { halt }
    }
}

impl From<ReadFault> for ExpandFault {
    ghost from_gives = { λ x y. y ≡ Unread x };

    fn from(fault: ReadFault) -> ExpandFault {
        ExpandFault::Unread(fault)
    }
}

impl From<TableFault> for Fault {
    ghost from_gives = { λ x y. y ≡ of_table x };

    fn from(fault: TableFault) -> Fault {
        let TableFault { reason, place } = fault;
        Fault {
            reason,
            layer: Layer::Table,
            place,
        }
    }
}

impl From<ReadFault> for Fault {
    ghost from_gives = { λ x y. y ≡ of_read x };

    fn from(fault: ReadFault) -> Fault {
        let ReadFault { reason, place } = fault;
        Fault {
            reason,
            layer: Layer::Read,
            place,
        }
    }
}

impl From<PassFault> for Fault {
    ghost from_gives = { λ x y. y ≡ of_pass x };

    fn from(fault: PassFault) -> Fault {
        match fault {
            PassFault::Reading(inner) => inner.into(),
            PassFault::Declined(reason) => Fault {
                reason,
                layer: Layer::Pass,
                place: 0,
            },
        }
    }
}

impl From<SettleFault> for Fault {
    ghost from_gives = { λ x y. y ≡ of_settle x };

    fn from(fault: SettleFault) -> Fault {
        fault.halt.fault.into()
    }
}

impl From<ExpandFault> for Fault {
    ghost from_gives = { λ x y. y ≡ of_expand x };

    fn from(fault: ExpandFault) -> Fault {
        match fault {
            ExpandFault::Unread(inner) => inner.into(),
            ExpandFault::Refused(reason) => Fault {
                reason,
                layer: Layer::Expand,
                place: 0,
            },
        }
    }
}

impl From<SolveFault> for Fault {
    ghost from_gives = { λ x y. y ≡ of_solve x };

    fn from(fault: SolveFault) -> Fault {
        let SolveFault { reason, place } = fault;
        Fault {
            reason,
            layer: Layer::Solve,
            place,
        }
    }
}

impl fmt::Display for Layer {
    ghost output = { λ layer. Some (layer_name layer) };

    fn fmt<W: fmt::Write>(&self, f: &mut fmt::Formatter<W>) -> fmt::Result {
        f.write_str(match self {
            Layer::Table => "TABLE",
            Layer::Read => "READ",
            Layer::Pass => "PASS",
            Layer::Expand => "EXPAND",
            Layer::Solve => "SOLVE",
        })
    }
}

impl fmt::Display for Fault {
    ghost output = { λ fault. Some (fault_text fault) };

    fn fmt<W: fmt::Write>(&self, f: &mut fmt::Formatter<W>) -> fmt::Result {
        let (number, layer, place) = (self.reason.number(), self.layer, self.place);
        write!(f, "{number} {layer} {place}")
    }
}
