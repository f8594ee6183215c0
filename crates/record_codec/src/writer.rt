// Writing: the record of a run, part by part, each straight into the rest of the caller's output.
ghost use Rattle.std.specs.Prelude.{◌≡◌, ◌≢◌, ◌≤◌, ⊤, length, IfErr};
ghost use Rattle.limits.specs.Points.{max_points, first_high};
ghost use Rattle.outputs.specs.Outputs.{Placed};
ghost use Rattle.position_codec.specs.Codes.{CodablePositions};
ghost use Rattle.record_format.specs.Answers.{written_answer};
ghost use Rattle.record_format.specs.Runs.{run, record_of};
ghost use Rattle.record_format.specs.Writing.{outside_tests, run_tests, write_answer, write_output};
ghost use Rattle.record_parts.specs.Fields.{Judged};
ghost use Rattle.record_codec.specs.Answers.{Writes};
ghost use Rattle.record_codec.specs.Given.{run_of};

use position_format::Form;
use record_parts::coding::{Coding, points_of};
use record_parts::putting::{put_coded, put_lead};
use refusals::{Cause, Refusal};

// A run that is to be written: its rate, its side (0 for none), the form of its positions, and its points.
#[derive(Clone, Copy)]
struct Run<'a> {
    rate: u32,
    side: u32,
    form: Form,
    positions: &'a [u64],
    ratios: &'a [u64],
}

// The record of a run that no test but 6 applies to.
fn put_record(run: &Run, out: &mut [u8]) -> Option<usize>
    requires { CodablePositions run.now.form run.now.positions.now × (length run.now.positions.now ≤ max_points) × (length run.now.ratios.now ≤ max_points) }
    ensures { Placed (record_of (run_of run.now)) result out.old out.new }
{
    let lead_end = put_lead(run.rate, run.side, run.form, run.positions, out)?;
    let field_size = put_coded(Coding::Ratios, run.ratios, &mut out[lead_end..])?;
    Some(lead_end + field_size)
}

// Whether document 01's table holds every step between positions: 5.
fn check_old_steps(positions: &[u64]) -> Result<(), Refusal>
    requires { (length positions.now ≤ first_high positions.now) × (length positions.now ≤ max_points) }
    ensures { Judged (outside_tests Form.Old positions.now) (λ _. ⊤) result }
{
    match position_codec::first_outside(positions) {
        Some(outside) => Err(Cause::StepOutside.at(outside)),
        None => Ok(()),
    }
}

// The same in a form: the wide one has a code for every step.
fn check_steps(form: Form, positions: &[u64]) -> Result<(), Refusal>
    requires { (length positions.now ≤ first_high positions.now) × (length positions.now ≤ max_points) }
    ensures { Judged (outside_tests form positions.now) (λ _. ⊤) result }
{
    match form {
        Form::Old => check_old_steps(positions),
        Form::Wide => Ok(()),
    }
}

// Tests 1, 21 and 2 to 5 of a run, in this order, each over the whole run.
#[tactic(auto, using(crate::proofs::writer::CheckRun::side_refused))]
fn check_run(run: &Run) -> Result<(), Refusal>
    ensures { Judged (run_tests (run_of run.now)) (λ _. ⊤) result }
{
    if !limits::is_rate(run.rate) {
        return Err(Cause::BadRate.at(0));
    }
    if limits::MAX_SIDE < run.side {
        return Err(Cause::BadSide.at(0));
    }
    if run.ratios.len() != run.positions.len() {
        return Err(Cause::UnequalCounts.at(0));
    }
    if points_of(run.form) < run.positions.len() {
        return Err(Cause::TooManyPoints.at(0));
    }
    if let Some(high) = limits::first_high(run.positions) {
        return Err(Cause::HighPosition.at(high));
    }
    check_steps(run.form, run.positions)
}

// The record of a run at the front of the output: the tests of writing, and then the record's length.
fn write_into(run: &Run, out: &mut [u8]) -> Result<usize, Refusal>
    ensures { Writes (run_of run.now) out.old result out.new }
{
    check_run(run)?;
    match put_record(run, out) {
        Some(length) => Ok(length),
        None => Err(Cause::NoRoom.at(0)),
    }
}

// Writes the record of a run, in a form, at the front of the output: tests 1, 21 and 2 to 6 in this order, 3 by the form, and 5 only in the old one. It
// answers the record's length. On a refusal the output is 0 from end to end. Side 0 stands for none.
pub fn write(
    rate: u32,
    side: u32,
    form: Form,
    positions: &[u64],
    ratios: &[u64],
    out: &mut [u8],
) -> Result<usize, Refusal>
    ensures answer { written_answer result ≡ write_answer (run rate side form positions.now ratios.now) out.old }
    ensures output { out.new ≡ write_output (run rate side form positions.now ratios.now) out.old }
    ensures numbered { IfErr result (λ refusal. refusal.number ≢ 0) }
{
    let run = Run {
        rate,
        side,
        form,
        positions,
        ratios,
    };
    match write_into(&run, out) {
        Ok(length) => Ok(length),
        Err(refusal) => {
            out.fill(0);
            Err(refusal)
        }
    }
}
