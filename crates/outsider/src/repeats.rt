//! The pass Repeats: of the clauses of a body, each that repeats an earlier one goes.
ghost use Rattle.std.specs.Prelude.{◌≡◌, ◌+◌, ◌≤◌, ◌++◌, ℕ, List, [], length, drop, map, ◌<◌, Ok, Err};
ghost use Rattle.definitions.specs.Lists.{flat, some};
ghost use Rattle.definitions.specs.Bits.{Stands};
ghost use Rattle.definitions.specs.ReadSystem.{Scope};
ghost use Rattle.definitions.specs.Systems.{Clause, Equation as ReadEquation, System};
ghost use Rattle.definitions.specs.Written.{term_bits, header_bits, clause_bits, body_bits, system_bits, written};
ghost use Rattle.definitions.specs.Fits.{Every, ClauseFits, BodyFits, SystemFits};
ghost use Rattle.rows.specs.Listed.{listed};
ghost use Rattle.bits.specs.Writes.{Writes};
ghost use Rattle.system.specs.Whole.{kept_headers, Outlined};
ghost use Rattle.system.specs.Walks.{Found, Pairs};
ghost use Rattle.outsider.specs.Repeats.{repeats, unrepeated, equation_without_repeats, without_repeats};
ghost use Rattle.outsider.specs.Keeping.{repeats_rules};
ghost use Rattle.outsider.specs.Pieces.{Made, Holds, EquationThere, HeaderThere, Fitted};

use crate::pieces::Piece;
use algebra::Algebra;
use bits::{BitWriter, Full, deliver};
use faults::{PassFault, Reason};
use passes::Pass;
use rows::Row;
use system::header::Header;
use system::reading::{Equation, read};
use system::view::end_of_term;
use system::walk::{Accepted, BodyAt};
use system::{DEPTH, LONGEST};

/// The pass Repeats.
#[derive(Clone, Copy, PartialEq, Eq, Debug)]
pub struct Repeats {}

// Whether the clause has the same bits as one of the others.
fn repeats_one(clause: &Piece, others: &[Piece], file: &[u8]) -> bool
    ensures { (k : Clause) (ls : List Clause) → length file.now ≤ 65536 → Holds file.now clause.now k → Pairs (Holds file.now) others.now ls → result ≡ some (repeats k) ls }
{
    for other in others {
        if clause.same(other, file) {
            return true;
        }
    }
    false
}

// The clauses of the body, but for those that repeat an earlier one.
fn unrepeated_clauses<G: Algebra>(accepted: &Accepted<G>, body: &BodyAt) -> Option<Row<Piece, 15>>
    ensures { (c : Scope) (ks : List Clause) → length accepted.now.file.now ≤ 65536 → Every (ClauseFits (G.meaning accepted.now.alg.now) (kept_headers accepted.now.outline.now) c) ks → body.now.count ≡ length ks → Stands accepted.now.file.now body.now.next (flat (map clause_bits ks)) → Found result (λ xs. Pairs (Holds accepted.now.file.now) (listed xs) (unrepeated [] ks)) }
{
    let mut stay = Row::new(Piece { at: 0, count: 0 });
    let mut at = body.next;
    for _ in 0..body.count {
        let end = accepted.end_of_clause(at)?;
        let clause = Piece::between(at, end)?;
        if !repeats_one(&clause, stay.as_slice(), accepted.file) {
            stay.push(clause).unwrap();
        }
        at = end;
    }
    Some(stay)
}

// Clauses as they stand.
fn write_clauses(clauses: &[Piece], file: &[u8], writer: &mut BitWriter) -> Result<(), Full>
    ensures { (ks : List Clause) → length file.now ≤ 65536 → Pairs (Holds file.now) clauses.now ks → Writes (flat (map clause_bits ks)) writer.old writer.new result }
{
    for clause in clauses {
        clause.copy(file, writer)?;
    }
    Ok(())
}

// Where the h of the body at the place stands, and its clauses, but for those that repeat an earlier one.
fn pieces_of_body<G: Algebra>(accepted: &Accepted<G>, at: usize) -> Option<(Piece, Row<Piece, 15>)>
    ensures { (e : ReadEquation) → length accepted.now.file.now ≤ 65536 → BodyFits (G.meaning accepted.now.alg.now) (kept_headers accepted.now.outline.now) e → Stands accepted.now.file.now at (body_bits e) → Found result (λ x. Made accepted.now.file.now (term_bits e.h) x.0 × Pairs (Holds accepted.now.file.now) (listed x.1) (unrepeated [] e.clauses)) }
{
    let body = accepted.open_body(at)?;
    let clauses = unrepeated_clauses(accepted, &body)?;
    let end = end_of_term(accepted.alg, accepted.view(at), DEPTH)?;
    let h = Piece::between(at, end)?;
    Some((h, clauses))
}

// The body at the place.
fn write_body<G: Algebra>(
    accepted: &Accepted<G>,
    at: usize,
    writer: &mut BitWriter,
) -> Result<(), Full>
    ensures { (e : ReadEquation) → length accepted.now.file.now ≤ 65536 → BodyFits (G.meaning accepted.now.alg.now) (kept_headers accepted.now.outline.now) e → Stands accepted.now.file.now at (body_bits e) → Writes (body_bits (equation_without_repeats e)) writer.old writer.new result }
{
    let (h, clauses) = pieces_of_body(accepted, at).ok_or(Full)?;
    h.copy(accepted.file, writer)?;
    writer.put(clauses.len() as u32, 4)?;
    write_clauses(clauses.as_slice(), accepted.file, writer)
}

// The bodies of the equations.
fn write_bodies<G: Algebra>(
    accepted: &Accepted<G>,
    equations: &[Equation],
    writer: &mut BitWriter,
) -> Result<(), Full>
    ensures { (es : List ReadEquation) → length accepted.now.file.now ≤ 65536 → Pairs (EquationThere (G.meaning accepted.now.alg.now) (kept_headers accepted.now.outline.now) accepted.now.file.now) equations.now es → Writes (flat (map (λ e. body_bits (equation_without_repeats e)) es)) writer.old writer.new result }
{
    for equation in equations {
        write_body(accepted, equation.body, writer)?;
    }
    Ok(())
}

// How many bits a header has.
fn bits_of_header(header: &Header) -> usize
    ensures few { result ≤ 82 }
    ensures long { (e : ReadEquation) → HeaderThere header.now e → result ≡ length (header_bits e) }
{
    7 + 4 * header.sorts.len() + 5 * header.quantified.len()
}

// How many bits the headers have, and the count before them.
fn bits_of_headers(equations: &[Equation]) -> usize
    requires { length equations.now ≤ 31 }
    ensures { (es : List ReadEquation) → Pairs (λ t e. HeaderThere t.header e) equations.now es → result ≡ 5 + length (flat (map header_bits es)) }
{
    let mut count = 5;
    for equation in equations {
        count += bits_of_header(&equation.header);
    }
    count
}

// The file without the clauses that repeat an earlier one of their body.
fn write_system<G: Algebra>(accepted: &Accepted<G>, writer: &mut BitWriter) -> Result<(), Full>
    ensures { (s : System) → length accepted.now.file.now ≤ 65536 → Outlined (G.meaning accepted.now.alg.now) accepted.now.file.now s accepted.now.outline.now → SystemFits (G.meaning accepted.now.alg.now) s → Writes (system_bits (without_repeats (G.meaning accepted.now.alg.now) s)) writer.old writer.new result }
{
    let outline = accepted.outline;
    let equations = outline.equations.as_slice();
    let headers = Piece {
        at: 0,
        count: bits_of_headers(equations),
    };
    headers.copy(accepted.file, writer)?;
    write_bodies(accepted, equations, writer)?;
    // The start: the number of its equation, and a byte for each value.
    let number = outline.start.equation as usize;
    let equation = equations[number];
    let count = 5 + 8 * equation.header.sorts.len();
    let start = Piece::before(outline.end, count).ok_or(Full)?;
    start.copy(accepted.file, writer)
}

// That file in a buffer of its own, and how many bytes it has.
fn draft<G: Algebra>(accepted: &Accepted<G>, buffer: &mut [u8]) -> Result<usize, Full>
    ensures { (s : System) → length buffer.old ≤ 65536 → length accepted.now.file.now ≤ 65536 → Outlined (G.meaning accepted.now.alg.now) accepted.now.file.now s accepted.now.outline.now → SystemFits (G.meaning accepted.now.alg.now) s → elim result [ Ok n ↦ (n ≡ length (written (without_repeats (G.meaning accepted.now.alg.now) s))) × (n ≤ length buffer.old) × (buffer.new ≡ written (without_repeats (G.meaning accepted.now.alg.now) s) ++ drop n buffer.old) | Err _ ↦ length buffer.old < length (written (without_repeats (G.meaning accepted.now.alg.now) s)) ] }
{
    let mut writer = BitWriter {
        bytes: buffer,
        at: 0,
    };
    write_system(accepted, &mut writer)?;
    Ok(writer.close())
}

// Writes that file to the front of `out`, and tells its length.
fn write<G: Algebra>(accepted: &Accepted<G>, out: &mut [u8]) -> Result<usize, Full>
    ensures { (s : System) → length accepted.now.file.now ≤ 65536 → Outlined (G.meaning accepted.now.alg.now) accepted.now.file.now s accepted.now.outline.now → SystemFits (G.meaning accepted.now.alg.now) s → Fitted (written (without_repeats (G.meaning accepted.now.alg.now) s)) out.old out.new result }
{
    let mut buffer = [0u8; LONGEST];
    let len = draft(accepted, &mut buffer)?;
    let file = buffer.get(0..len).ok_or(Full)?;
    deliver(out, file)
}

impl Pass for Repeats {
    ghost meaning = { λ _. without_repeats };

    ghost lawful = { λ _. repeats_rules };

    fn apply<G: Algebra>(&self, alg: &G, file: &[u8], out: &mut [u8]) -> Result<usize, PassFault> {
        let outline = read(alg, file)?;
        let accepted = Accepted {
            alg,
            outline: &outline,
            file,
        };
        write(&accepted, out).or(Err(PassFault::Declined(Reason::ResultTooLong)))
    }
}
