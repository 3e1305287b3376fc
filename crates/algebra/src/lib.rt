//! Data algebras: what one is asked, and the three that exist.

#![tactic(auto)]

ghost use Rattle.std.specs.Prelude.{◌≡◌};
ghost use Rattle.definitions.specs.Alg.{Alg, Lawful};

mod counting;
mod level;
mod table;

pub use counting::Counting;
pub use level::Level;
pub use table::Table;

/// Sorts of finitely many values, and operations on them.
///
/// What does not exist, or does not fit an operation, is answered by none.
pub trait Algebra {
    ghost meaning: { Self → Alg };

    /// The number of sorts.
    fn sorts(&self) -> u8
        ensures { result ≡ (meaning self.now).sorts };

    /// The number of operations.
    fn operations(&self) -> u8
        ensures { result ≡ (meaning self.now).ops };

    /// The number of values of a sort.
    fn size(&self, sort: u8) -> Option<u16>
        ensures { result ≡ (meaning self.now).size sort };

    /// The number of arguments of an operation.
    fn arity(&self, op: u8) -> Option<u8>
        ensures { result ≡ (meaning self.now).arity op };

    /// The sort of the argument numbered k of an operation.
    fn arg_sort(&self, op: u8, k: u8) -> Option<u8>
        ensures { result ≡ (meaning self.now).arg_sort op k };

    /// The sort of an operation's result.
    fn result_sort(&self, op: u8) -> Option<u8>
        ensures { result ≡ (meaning self.now).res_sort op };

    /// The value of an operation at some arguments.
    fn value(&self, op: u8, args: &[u8]) -> Option<u8>
        ensures { result ≡ (meaning self.now).value op args.now };

    ghost lawful: { (x : Self) → Lawful (meaning x) };
}
