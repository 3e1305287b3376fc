//! Terms in a file, read where they stand: nothing is copied out, and the parts of a term are further places.
ghost use Rattle.std.specs.Prelude.{◌≡◌, ◌-◌, ◌≤◌, IfSome, Some, None, MatchOption};
ghost use Rattle.definitions.specs.Lists.{bind};
ghost use Rattle.terms.specs.Shapes.{field_at, opening, parts_counted, row, shape, what, behind, standing, ReadStands};
ghost use Rattle.terms.specs.Shown.{reached, kind_and_count, opening_of, Apt, parts_of, term_of, PartsIn, In};

use algebra::Algebra;
use bits::BitReader;

/// A bit place in a file.
#[derive(Clone, Copy, PartialEq, Eq, Debug)]
pub struct View<'a> {
    pub bytes: &'a [u8],
    pub at: usize,
}

/// The kind of a term.
#[derive(Clone, Copy, PartialEq, Eq, Debug)]
pub enum Kind {
    Parameter(u8),
    Variable(u8),
    Value { sort: u8, value: u8 },
    Operation(u8),
    Not,
    And,
    Or,
    Equal,
}

/// A term's kind, how many parts it has, and the place of the first.
#[derive(Clone, Copy, PartialEq, Eq, Debug)]
pub struct Opening {
    pub kind: Kind,
    pub parts: u8,
    pub next: usize,
}

/// The arguments of an operation.
#[derive(Clone, Copy, PartialEq, Eq, Debug)]
pub enum Parts<'a> {
    // A case for each number: terms are copied, which the kit's vectors are not, and a row would hold filler views.
    Zero,
    One(View<'a>),
    Two(View<'a>, View<'a>),
    Three(View<'a>, View<'a>, View<'a>),
}

/// A term as read: its kind, with its parts as views.
#[derive(Clone, Copy, PartialEq, Eq, Debug)]
pub enum Term<'a> {
    Parameter(u8),
    Variable(u8),
    Value { sort: u8, value: u8 },
    Operation { op: u8, arguments: Parts<'a> },
    Not(View<'a>),
    And(View<'a>, View<'a>),
    Or(View<'a>, View<'a>),
    Equal(View<'a>, View<'a>),
}

// A field that fits a byte.
fn field(reader: &mut BitReader, width: u32) -> Option<u8>
    requires { width ≤ 8 }
    ensures reads { reached (λ n. n) result reader.new.at ≡ field_at width reader.old.bytes.now reader.old.at }
    ensures same { reader.new.bytes.now ≡ reader.old.bytes.now }
{
    let value = reader.next(width)?;
    Some(value as u8)
}

// The kind of a term, and how many parts it has.
fn read_kind<G: Algebra>(alg: &G, reader: &mut BitReader) -> Option<(Kind, u8)>
    ensures reads { reached kind_and_count result reader.new.at ≡ opening (G.meaning alg.now) reader.old.bytes.now reader.old.at }
    ensures apt { IfSome result (λ o. Apt (G.meaning alg.now) o.0 o.1) }
{
    // The numbers of the format become kinds here, for every walk of an accepted file.
    match field(reader, 3)? {
        0 => Some((Kind::Parameter(field(reader, 4)?), 0)),
        1 => Some((Kind::Variable(field(reader, 2)?), 0)),
        2 => {
            let sort = field(reader, 4)?;
            let value = field(reader, 8)?;
            Some((Kind::Value { sort, value }, 0))
        }
        3 => {
            let op = field(reader, 6)?;
            Some((Kind::Operation(op), alg.arity(op)?))
        }
        4 => Some((Kind::Not, 1)),
        5 => Some((Kind::And, 2)),
        6 => Some((Kind::Or, 2)),
        _ => Some((Kind::Equal, 2)),
    }
}

// The kind of the term at the view.
fn open_term<G: Algebra>(alg: &G, view: View) -> Option<Opening>
    ensures reads { opening_of result ≡ opening (G.meaning alg.now) view.entry.bytes.now view.entry.at }
    ensures apt { IfSome result (λ o. Apt (G.meaning alg.now) o.kind o.parts) }
{
    let mut reader = BitReader {
        bytes: view.bytes,
        at: view.at,
    };
    let (kind, parts) = read_kind(alg, &mut reader)?;
    Some(Opening {
        kind,
        parts,
        next: reader.at,
    })
}

// The place behind the next `width` bits, with no parts to follow: what they name is passed and not read.
fn leaf(reader: &BitReader, width: usize) -> Option<(u8, usize)>
    ensures { result ≡ bind (field_at width reader.now.bytes.now reader.now.at) (λ n. Some (0, n.1)) }
{
    if reader.bytes.len() > 65536 {
        return None;
    }
    let total = 8 * reader.bytes.len();
    if reader.at > total || width > total - reader.at {
        return None;
    }
    Some((0, reader.at + width))
}

// How many parts the term at the view has, and the place of the first.
fn count_parts<G: Algebra>(alg: &G, view: View) -> Option<(u8, usize)>
    ensures { result ≡ parts_counted (opening (G.meaning alg.now) view.entry.bytes.now view.entry.at) }
{
    // As in `read_kind`, without the kind: a walk to the place behind a term asks for no more.
    let mut reader = BitReader {
        bytes: view.bytes,
        at: view.at,
    };
    match field(&mut reader, 3)? {
        0 => leaf(&reader, 4),
        1 => leaf(&reader, 2),
        2 => leaf(&reader, 12),
        3 => {
            let op = field(&mut reader, 6)?;
            Some((alg.arity(op)?, reader.at))
        }
        4 => Some((1, reader.at)),
        _ => Some((2, reader.at)),
    }
}

/// The place behind the term at the view, which has depth at most `depth`.
pub fn end_of_term<G: Algebra>(alg: &G, view: View, depth: u8) -> Option<usize>
    ensures reads { result ≡ behind (shape (G.meaning alg.now) depth view.entry.bytes.now view.entry.at) }
    ensures accepted { ReadStands (G.meaning alg.now) depth view.entry.bytes.now view.entry.at }
{
    if depth == 0 {
        return None;
    }
    let (parts, mut at) = count_parts(alg, view)?;
    for _ in 0..parts {
        at = end_of_term(alg, View { at, ..view }, depth - 1)?;
    }
    Some(at)
}

// The view behind the term at the view.
fn after<'a, G: Algebra>(alg: &G, view: View<'a>, depth: u8) -> Option<View<'a>>
    ensures { MatchOption result (behind (shape (G.meaning alg.now) depth view.entry.bytes.now view.entry.at) ≡ None) (λ v. (v.bytes.now ≡ view.entry.bytes.now) × (behind (shape (G.meaning alg.now) depth view.entry.bytes.now view.entry.at) ≡ Some v.at)) }
{
    let at = end_of_term(alg, view, depth)?;
    Some(View { at, ..view })
}

// The arguments of an operation, the first at the view.
fn split<'a, G: Algebra>(alg: &G, first: View<'a>, count: u8, depth: u8) -> Option<Parts<'a>>
    requires { count ≤ 3 }
    ensures reads { bind result (parts_of (G.meaning alg.now) depth) ≡ what (row (shape (G.meaning alg.now) depth) count first.entry.bytes.now first.entry.at) }
    ensures within { IfSome result (PartsIn first.entry.bytes.now) }
{
    // Here the number of arguments becomes a case of `Parts`.
    match count {
        0 => Some(Parts::Zero),
        1 => Some(Parts::One(first)),
        2 => Some(Parts::Two(first, after(alg, first, depth)?)),
        _ => {
            let second = after(alg, first, depth)?;
            Some(Parts::Three(first, second, after(alg, second, depth)?))
        }
    }
}

/// The term at the view, which has depth at most `depth`, with its parts as views.
pub fn read_term<'a, G: Algebra>(alg: &G, view: View<'a>, depth: u8) -> Option<Term<'a>>
    ensures reads { bind result (term_of (G.meaning alg.now) (depth - 1)) ≡ standing (G.meaning alg.now) depth view.entry.bytes.now view.entry.at }
    ensures within { IfSome result (In view.entry.bytes.now) }
{
    if depth == 0 {
        return None;
    }
    let Opening { kind, parts, next } = open_term(alg, view)?;
    let depth = depth - 1;
    let first = View { at: next, ..view };
    match kind {
        Kind::Parameter(n) => Some(Term::Parameter(n)),
        Kind::Variable(n) => Some(Term::Variable(n)),
        Kind::Value { sort, value } => Some(Term::Value { sort, value }),
        Kind::Operation(op) => {
            let arguments = split(alg, first, parts, depth)?;
            Some(Term::Operation { op, arguments })
        }
        Kind::Not => Some(Term::Not(first)),
        Kind::And => Some(Term::And(first, after(alg, first, depth)?)),
        Kind::Or => Some(Term::Or(first, after(alg, first, depth)?)),
        Kind::Equal => Some(Term::Equal(first, after(alg, first, depth)?)),
    }
}
