//! Writing the file of a system as a plan changes it.
ghost use Rattle.std.specs.Prelude.{◌≡◌, ℕ, ◌≤◌, ◌<◌, ◌^◌, ◌++◌, List, drop, filter, length, map, Some, Ok, Err};
ghost use Rattle.definitions.specs.Lists.{flat, strike, place, keep};
ghost use Rattle.definitions.specs.Alg.{Alg};
ghost use Rattle.definitions.specs.Bits.{bits, packed};
ghost use Rattle.definitions.specs.Reading.{next};
ghost use Rattle.definitions.specs.ReadSystem.{Header as Heading, scope, greatest_depth, read_body};
ghost use Rattle.definitions.specs.Systems.{Term as Tree, Quantified as ReadQuantified, Occurrence as ReadOccurrence, Clause as ReadClause, Equation as ReadEquation, System};
ghost use Rattle.definitions.specs.Written.{term_bits, header_bits, occurrence_bits, clause_bits, body_bits, system_bits, written};
ghost use Rattle.definitions.specs.Settle.{Pass};
ghost use Rattle.definitions.specs.Rules.{applied};
ghost use Rattle.definitions.specs.Calls.{Applies};
ghost use Rattle.definitions.specs.Fits.{Every, HeaderFits, OccurrenceFits, ClauseFits, BodyFits, SystemFits, header_of};
ghost use Rattle.terms.specs.Shapes.{standing};
ghost use Rattle.bits.specs.Writes.{Writes};
ghost use Rattle.system.specs.Files.{kept_header, kept_quantified};
ghost use Rattle.system.specs.Whole.{kept_headers, Outlined};
ghost use Rattle.system.specs.Walks.{OccurrenceOf, ClauseOf, Pairs};
ghost use Rattle.rows.specs.Listed.{listed};
ghost use Rattle.passes.specs.declared.plan.Plan.{Plan as Planned};
ghost use Rattle.passes.specs.declared.plan.EquationChange.TheVariants.{Stays};
ghost use Rattle.passes.specs.Planned.{stays as parameter_stays, mask, remaining, change_of, term_by, occurrence_by, clause_by, clause_stays, equation_by, body_left, system_by, Narrow, Fitted};
ghost use Rattle.passes.specs.Plans.{PlansAs};
ghost use Rattle.passes.specs.Rewrites.{quantified_bits, TermAt, OccurrenceThere, ClauseThere, HeaderThere, EquationThere, stays_at, changed};

use crate::folding::folds_to_false;
use crate::plan::{Change, EquationChange, Missing, ParameterChange, Plan};
use crate::walked::no_occurrences;
use crate::written::{Edit, write_value};
use algebra::Algebra;
use bits::{BitWriter, Full, deliver};
use faults::{PassFault, Reason};
use rows::Row;
use system::LONGEST;
use system::header::{Header, Quantified};
use system::reading::{Equation, read};
use system::walk::{Accepted, ClauseAt, OccurrenceAt};

// The numbers of parameters that stay, each in so many bits.
fn write_staying(
    numbers: &[u8],
    changes: &[ParameterChange],
    width: u32,
    writer: &mut BitWriter,
) -> Result<(), Full>
    ensures { width ≤ 32 → Every (λ n. n < 2 ^ width) numbers.now → Writes (flat (map (bits width) (strike (map parameter_stays changes.now) numbers.now))) writer.old writer.new result }
{
    for (number, change) in numbers.iter().zip(changes) {
        if *change == ParameterChange::Stays {
            writer.put(*number as u32, width)?;
        }
    }
    Ok(())
}

// A quantified variable.
fn write_variable(variable: &Quantified, writer: &mut BitWriter) -> Result<(), Full>
    ensures { variable.now.sort < 16 → Writes (quantified_bits (kept_quantified variable.now)) writer.old writer.new result }
{
    writer.put(variable.quantifier as u32, 1)?;
    writer.put(variable.sort as u32, 4)
}

// Quantified variables.
fn write_variables(variables: &[Quantified], writer: &mut BitWriter) -> Result<(), Full>
    ensures { Every (λ (q : ReadQuantified). q.sort < 16) (map kept_quantified variables.now) → Writes (flat (map quantified_bits (map kept_quantified variables.now))) writer.old writer.new result }
{
    for variable in variables {
        write_variable(variable, writer)?;
    }
    Ok(())
}

// A header without the parameters that do not stay, and without quantified variables if it becomes bare.
fn write_header(header: &Header, change: &Change, writer: &mut BitWriter) -> Result<(), Full>
    ensures { (a : Alg) (P : Planned) (e : ReadEquation) → header_of e ≡ kept_header header.now → HeaderFits a (kept_header header.now) → Writes (header_bits (equation_by a P change.now e)) writer.old writer.new result }
{
    writer.put(header.sign as u32, 1)?;
    writer.put(change.number_of(header.sorts.len()), 4)?;
    write_staying(header.sorts.as_slice(), &change.parameters, 4, writer)?;
    if change.equation == EquationChange::Bare {
        return writer.put(0, 2);
    }
    writer.put(header.quantified.len() as u32, 2)?;
    write_variables(header.quantified.as_slice(), writer)
}

impl<'a, G: Algebra> Edit<'a, G> {
    // The arguments of parameters that stay.
    fn write_arguments(
        &self,
        arguments: &[usize],
        changes: &[ParameterChange],
        writer: &mut BitWriter,
    ) -> Result<(), Full>
        ensures { (ts : List Tree) (vs : List ℕ) → Narrow self.now.sorts.now → Pairs (TermAt (G.meaning self.now.accepted.now.alg.now) (record { parameters = self.now.sorts.now; variables = vs }) self.now.accepted.now.file.now) arguments.now ts → Writes (flat (map term_bits (map (term_by (G.meaning self.now.accepted.now.alg.now) self.now.plan.now self.now.sorts.now self.now.change.now) (strike (map parameter_stays changes.now) ts)))) writer.old writer.new result }
    {
        for (argument, change) in arguments.iter().zip(changes) {
            if *change == ParameterChange::Stays {
                self.write_term(*argument, writer)?;
            }
        }
        Ok(())
    }

    // An occurrence without the arguments of parameters that do not stay.
    fn write_occurrence(
        &self,
        occurrence: &OccurrenceAt,
        writer: &mut BitWriter,
    ) -> Result<(), Full>
        ensures { (o : ReadOccurrence) (vs : List ℕ) (q : ℕ) → Narrow self.now.sorts.now → OccurrenceFits (G.meaning self.now.accepted.now.alg.now) (kept_headers self.now.accepted.now.outline.now) (record { parameters = self.now.sorts.now; variables = vs }) o → OccurrenceOf (G.meaning self.now.accepted.now.alg.now) self.now.accepted.now.file.now o q occurrence.now → Writes (occurrence_bits (occurrence_by self.now.plan.now (term_by (G.meaning self.now.accepted.now.alg.now) self.now.plan.now self.now.sorts.now self.now.change.now) o)) writer.old writer.new result }
    {
        let target = occurrence.target as usize;
        writer.put(self.plan.number_of(target), 5)?;
        let changes = &self.plan.equations[target].parameters;
        self.write_arguments(occurrence.arguments.as_slice(), changes, writer)
    }

    // Occurrences.
    fn write_occurrences(
        &self,
        occurrences: &[OccurrenceAt],
        writer: &mut BitWriter,
    ) -> Result<(), Full>
        ensures { (os : List ReadOccurrence) (vs : List ℕ) → Narrow self.now.sorts.now → Pairs (OccurrenceThere (G.meaning self.now.accepted.now.alg.now) (kept_headers self.now.accepted.now.outline.now) (record { parameters = self.now.sorts.now; variables = vs }) self.now.accepted.now.file.now) occurrences.now os → Writes (flat (map occurrence_bits (map (occurrence_by self.now.plan.now (term_by (G.meaning self.now.accepted.now.alg.now) self.now.plan.now self.now.sorts.now self.now.change.now)) os))) writer.old writer.new result }
    {
        for occurrence in occurrences {
            self.write_occurrence(occurrence, writer)?;
        }
        Ok(())
    }

    // A clause; its occurrences are read into the row.
    fn write_clause(
        &self,
        clause: &ClauseAt,
        occurrences: &mut Row<OccurrenceAt, 8>,
        writer: &mut BitWriter,
    ) -> Result<(), Full>
        ensures { (k : ReadClause) (vs : List ℕ) (q : ℕ) → length self.now.accepted.now.file.now ≤ 65536 → Narrow self.now.sorts.now → ClauseFits (G.meaning self.now.accepted.now.alg.now) (kept_headers self.now.accepted.now.outline.now) (record { parameters = self.now.sorts.now; variables = vs }) k → ClauseOf (G.meaning self.now.accepted.now.alg.now) (kept_headers self.now.accepted.now.outline.now) (record { parameters = self.now.sorts.now; variables = vs }) self.now.accepted.now.file.now k q clause.now → Writes (clause_bits (clause_by self.now.plan.now (term_by (G.meaning self.now.accepted.now.alg.now) self.now.plan.now self.now.sorts.now self.now.change.now) k)) writer.old writer.new result }
    {
        self.write_term(clause.guard, writer)?;
        writer.put(clause.count as u32 - 1, 3)?;
        self.accepted
            .read_occurrences(clause, occurrences)
            .ok_or(Full)?;
        self.write_occurrences(occurrences.as_slice(), writer)
    }

    // Whether the clause stays; where all folds, one whose guard is known false though nothing is known goes.
    fn stays(&self, clause: &ClauseAt) -> bool
        ensures place { result ≡ stays_at (G.meaning self.now.accepted.now.alg.now) self.now.plan.now self.now.accepted.now.file.now clause.now }
        ensures read { (k : ReadClause) → standing (G.meaning self.now.accepted.now.alg.now) greatest_depth self.now.accepted.now.file.now clause.now.guard ≡ Some k.guard → result ≡ clause_stays (G.meaning self.now.accepted.now.alg.now) self.now.plan.now k }
    {
        !self.plan.fold || !folds_to_false(self.accepted, clause.guard)
    }

    // How many of the clauses stay.
    fn staying(&self, clauses: &[ClauseAt]) -> usize
        ensures { result ≡ length (filter (stays_at (G.meaning self.now.accepted.now.alg.now) self.now.plan.now self.now.accepted.now.file.now) clauses.now) }
    {
        clauses.iter().filter(|clause| self.stays(clause)).count()
    }

    // The clauses that stay.
    fn write_clauses(
        &self,
        clauses: &[ClauseAt],
        occurrences: &mut Row<OccurrenceAt, 8>,
        writer: &mut BitWriter,
    ) -> Result<(), Full>
        ensures { (ks : List ReadClause) (vs : List ℕ) → length self.now.accepted.now.file.now ≤ 65536 → Narrow self.now.sorts.now → Pairs (ClauseThere (G.meaning self.now.accepted.now.alg.now) (kept_headers self.now.accepted.now.outline.now) (record { parameters = self.now.sorts.now; variables = vs }) self.now.accepted.now.file.now) clauses.now ks → Writes (flat (map clause_bits (map (clause_by self.now.plan.now (term_by (G.meaning self.now.accepted.now.alg.now) self.now.plan.now self.now.sorts.now self.now.change.now)) (keep (clause_stays (G.meaning self.now.accepted.now.alg.now) self.now.plan.now) ks)))) writer.old writer.new result }
    {
        for clause in clauses {
            if self.stays(clause) {
                self.write_clause(clause, occurrences, writer)?;
            }
        }
        Ok(())
    }

    // The body at the place.
    fn write_body(&self, at: usize, writer: &mut BitWriter) -> Result<(), Full>
        ensures { (e : ReadEquation) (h : Heading) (q : ℕ) → length self.now.accepted.now.file.now ≤ 65536 → Narrow self.now.sorts.now → e.sorts ≡ self.now.sorts.now → header_of e ≡ h → BodyFits (G.meaning self.now.accepted.now.alg.now) (kept_headers self.now.accepted.now.outline.now) e → read_body (G.meaning self.now.accepted.now.alg.now) (kept_headers self.now.accepted.now.outline.now) h self.now.accepted.now.file.now at ≡ next e q → self.now.change.now.equation ≡ Stays → Writes (body_bits (equation_by (G.meaning self.now.accepted.now.alg.now) self.now.plan.now self.now.change.now e)) writer.old writer.new result }
    {
        let body = self.accepted.open_body(at).ok_or(Full)?;
        self.write_term(body.h, writer)?;
        let clauses = self.accepted.clauses(&body).ok_or(Full)?;
        writer.put(self.staying(clauses.as_slice()) as u32, 4)?;
        let mut occurrences = no_occurrences();
        self.write_clauses(clauses.as_slice(), &mut occurrences, writer)
    }
}

// The body of the equation, as it changes.
fn write_changed<G: Algebra>(
    accepted: &Accepted<G>,
    plan: &Plan,
    equation: &Equation,
    change: &Change,
    writer: &mut BitWriter,
) -> Result<(), Full>
    ensures { (e : ReadEquation) (q : ℕ) → length accepted.now.file.now ≤ 65536 → header_of e ≡ kept_header equation.now.header → HeaderFits (G.meaning accepted.now.alg.now) (header_of e) → BodyFits (G.meaning accepted.now.alg.now) (kept_headers accepted.now.outline.now) e → read_body (G.meaning accepted.now.alg.now) (kept_headers accepted.now.outline.now) (header_of e) accepted.now.file.now equation.now.body ≡ next e q → Writes (body_left (G.meaning accepted.now.alg.now) plan.now change.now e) writer.old writer.new result }
{
    match change.equation {
        EquationChange::Goes => Ok(()),
        EquationChange::Bare => {
            write_value(writer, 0, 0)?;
            writer.put(0, 4)
        }
        EquationChange::Stays => {
            let sorts = equation.header.sorts.as_slice();
            let edit = Edit {
                accepted,
                plan,
                sorts,
                change,
            };
            edit.write_body(equation.body, writer)
        }
    }
}

// The start, without the values of parameters that do not stay.
fn write_start<G: Algebra>(
    accepted: &Accepted<G>,
    plan: &Plan,
    writer: &mut BitWriter,
) -> Result<(), Full>
    ensures { (s : System) → Outlined (G.meaning accepted.now.alg.now) accepted.now.file.now s accepted.now.outline.now → SystemFits (G.meaning accepted.now.alg.now) s → Writes (bits 5 (place (remaining plan.now) s.start) ++ flat (map (bits 8) (strike (mask (change_of plan.now s.start)) s.values))) writer.old writer.new result }
{
    let start = accepted.outline.start;
    let number = start.equation as usize;
    writer.put(plan.number_of(number), 5)?;
    let equation = accepted.outline.equations.as_slice()[number];
    let change = &plan.equations[number];
    let values = &start.values[0..equation.header.sorts.len()];
    write_staying(values, &change.parameters, 8, writer)
}

// The headers of the equations that do not go.
fn write_headers(
    equations: &[Equation],
    changes: &[Change],
    writer: &mut BitWriter,
) -> Result<(), Full>
    ensures { (a : Alg) (P : Planned) (es : List ReadEquation) → Pairs (HeaderThere a) equations.now es → Writes (flat (map header_bits (changed (equation_by a P) changes.now es))) writer.old writer.new result }
{
    for (equation, change) in equations.iter().zip(changes) {
        if change.equation != EquationChange::Goes {
            write_header(&equation.header, change, writer)?;
        }
    }
    Ok(())
}

// The bodies of the equations that do not go.
fn write_bodies<G: Algebra>(
    accepted: &Accepted<G>,
    plan: &Plan,
    writer: &mut BitWriter,
) -> Result<(), Full>
    ensures { (es : List ReadEquation) → length accepted.now.file.now ≤ 65536 → Pairs (EquationThere (G.meaning accepted.now.alg.now) (kept_headers accepted.now.outline.now) accepted.now.file.now) (listed accepted.now.outline.now.equations) es → Writes (flat (map body_bits (changed (equation_by (G.meaning accepted.now.alg.now) plan.now) plan.now.equations es))) writer.old writer.new result }
{
    let equations = accepted.outline.equations.as_slice();
    for (equation, change) in equations.iter().zip(&plan.equations) {
        write_changed(accepted, plan, equation, change, writer)?;
    }
    Ok(())
}

// The file of the system as the plan changes it.
fn write_system<G: Algebra>(
    accepted: &Accepted<G>,
    plan: &Plan,
    writer: &mut BitWriter,
) -> Result<(), Full>
    ensures { (s : System) → length accepted.now.file.now ≤ 65536 → Outlined (G.meaning accepted.now.alg.now) accepted.now.file.now s accepted.now.outline.now → SystemFits (G.meaning accepted.now.alg.now) s → Writes (system_bits (system_by (G.meaning accepted.now.alg.now) plan.now s)) writer.old writer.new result }
{
    let equations = accepted.outline.equations.as_slice();
    writer.put(plan.number_of(equations.len()), 5)?;
    write_headers(equations, &plan.equations, writer)?;
    write_bodies(accepted, plan, writer)?;
    write_start(accepted, plan, writer)
}

// The file of the changed system in a buffer of its own, and its length.
fn draft<G: Algebra>(accepted: &Accepted<G>, plan: &Plan, buffer: &mut [u8]) -> Result<usize, Full>
    ensures { (s : System) → length buffer.old ≤ 65536 → length accepted.now.file.now ≤ 65536 → Outlined (G.meaning accepted.now.alg.now) accepted.now.file.now s accepted.now.outline.now → SystemFits (G.meaning accepted.now.alg.now) s → elim result [ Ok n ↦ (n ≡ length (written (system_by (G.meaning accepted.now.alg.now) plan.now s))) × (n ≤ length buffer.old) × (buffer.new ≡ written (system_by (G.meaning accepted.now.alg.now) plan.now s) ++ drop n buffer.old) | Err _ ↦ length buffer.old < length (written (system_by (G.meaning accepted.now.alg.now) plan.now s)) ] }
{
    let mut writer = BitWriter {
        bytes: buffer,
        at: 0,
    };
    write_system(accepted, plan, &mut writer)?;
    Ok(writer.close())
}

// Writes the file of the changed system to the front of `out`, and tells its length.
fn write_planned<G: Algebra>(
    accepted: &Accepted<G>,
    plan: &Plan,
    out: &mut [u8],
) -> Result<usize, Full>
    ensures { (s : System) → length accepted.now.file.now ≤ 65536 → Outlined (G.meaning accepted.now.alg.now) accepted.now.file.now s accepted.now.outline.now → SystemFits (G.meaning accepted.now.alg.now) s → Fitted (written (system_by (G.meaning accepted.now.alg.now) plan.now s)) out.old out.new result }
{
    let mut buffer = [0u8; LONGEST];
    let len = draft(accepted, plan, &mut buffer)?;
    let file = buffer.get(0..len).ok_or(Full)?;
    deliver(out, file)
}

/// Reads the file, plans, and writes the file of the changed system to the front of `out`; tells its length.
pub(crate) fn apply_planned<G: Algebra, P: Fn(&Accepted<G>) -> Result<Plan, Missing>>(
    alg: &G,
    file: &[u8],
    out: &mut [u8],
    planned: P,
) -> Result<usize, PassFault>
    requires { P.IsAlwaysCallable planned }
    ensures { (m : Pass) → ((x : _) (r : _) → P.post planned x r → PlansAs m (G.meaning x.now.alg.now) x.now.file.now x.now.outline.now r) → Applies (applied m (G.meaning alg.now) (length out.old) file.now) out.old out.new result }
{
    let outline = read(alg, file)?;
    let accepted = Accepted {
        alg,
        outline: &outline,
        file,
    };
    // Nothing is missing in an accepted file.
    let plan = planned(&accepted).unwrap_or(Plan::none());
    write_planned(&accepted, &plan, out).or(Err(PassFault::Declined(Reason::ResultTooLong)))
}
