//! The lamps that show a boat when it may go: red, red and green, green.
ghost use Rattle.outsider.specs.Lamps.{lamps, lamps_lawful};

use algebra::Algebra;

/// The algebra of the lamps.
#[derive(Clone, Copy)]
pub struct Lamps;

impl Algebra for Lamps {
    ghost meaning = { λ _. lamps };

    ghost lawful = { λ x. lamps_lawful };

    fn sorts(&self) -> u8 {
        2
    }

    fn operations(&self) -> u8 {
        2
    }

    fn size(&self, sort: u8) -> Option<u16> {
        match sort {
            0 => Some(2),
            1 => Some(3),
            _ => None,
        }
    }

    fn arity(&self, op: u8) -> Option<u8> {
        (op < 2).then_some(1)
    }

    fn arg_sort(&self, op: u8, k: u8) -> Option<u8> {
        (op < 2 && k < 1).then_some(1)
    }

    fn result_sort(&self, op: u8) -> Option<u8> {
        match op {
            0 => Some(1),
            1 => Some(0),
            _ => None,
        }
    }

    fn value(&self, op: u8, args: &[u8]) -> Option<u8> {
        let [lamp] = *args else {
            return None;
        };
        if lamp >= 3 {
            return None;
        }
        match op {
            0 => Some((lamp + 1) % 3),
            1 => Some((lamp == 2) as u8),
            _ => None,
        }
    }
}
