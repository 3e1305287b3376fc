//! The headers of a system's equations.
ghost use Rattle.std.specs.Prelude.{◌≡◌};
ghost use Rattle.definitions.specs.ReadSystem.{sign_of, quantifier_of};
ghost use Rattle.system.specs.Files.{kept_sign, kept_quantifier};

use rows::Row;

/// Which truths an equation's instances take.
#[derive(Clone, Copy, PartialEq, Eq, Debug)]
pub enum Sign {
    Least = 0,
    Greatest = 1,
}

impl Sign {
    /// The sign that a bit stands for. Every number gives one, so a `TryFrom`, which may fail, would say less.
    pub fn from_bit(bit: u32) -> Sign
        ensures { kept_sign result ≡ sign_of bit }
    {
        if bit == 0 {
            Sign::Least
        } else {
            Sign::Greatest
        }
    }
}

#[derive(Clone, Copy, Default, PartialEq, Eq, Debug)]
pub enum Quantifier {
    #[default]
    Exists = 0,
    ForAll = 1,
}

impl Quantifier {
    /// The quantifier that a bit stands for.
    pub fn from_bit(bit: u32) -> Quantifier
        ensures { kept_quantifier result ≡ quantifier_of bit }
    {
        if bit == 0 {
            Quantifier::Exists
        } else {
            Quantifier::ForAll
        }
    }
}

/// A quantified variable.
#[derive(Clone, Copy, Default)]
pub struct Quantified {
    pub quantifier: Quantifier,
    pub sort: u8,
}

/// An equation's sign, the sorts of its parameters, and its quantified variables.
#[derive(Clone, Copy)]
pub struct Header {
    pub sign: Sign,
    pub sorts: Row<u8, 15>,
    pub quantified: Row<Quantified, 3>,
}

impl Header {
    /// The header that lies in places that are not in use.
    pub(crate) fn unused() -> Header {
        Header {
            sign: Sign::Least,
            sorts: Row::new(0),
            quantified: Row::new(Quantified::default()),
        }
    }
}
