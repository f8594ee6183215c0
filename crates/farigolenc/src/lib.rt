// The calls for a host program in C; include/farigolenc.h declares them. Each passes a call of the library on: what that answers by a Result, an Option
// or an enum it answers in numbers, and a form is named by its tag. Calls of one shape stay apart, since the C interface names each.
#![tactic(auto)]

ghost use Rattle.std.specs.Prelude.{◌≡◌};
ghost use Rattle.kind.specs.Kinds.{kind_of};
ghost use Rattle.kind.specs.Numbers.{kind_numbers};
ghost use Rattle.span.specs.Spans.{spanned};
ghost use Rattle.ratio_format.specs.Lives.{fresh_live, add_answer, add_output, add_state};
ghost use Rattle.ratio_format.specs.Stepping.{made, made_cursor, step_answer, step_cursor};
ghost use Rattle.record_format.specs.Runs.{run, form_of};
ghost use Rattle.record_format.specs.Writing.{write_answer, write_output};
ghost use Rattle.record_format.specs.Checking.{checked, check_number};
ghost use Rattle.record_format.specs.Fetching.{read_open, fetched};
ghost use Rattle.record_format.specs.Moves.{move_of};
ghost use Rattle.reasons.specs.Reasons.{explained};
ghost use Rattle.reasons.specs.Numbers.{reason_numbers};
ghost use Rattle.differences.specs.Differences.{position_at, ratio_at};
ghost use Rattle.differences.specs.Overall.{overall_of};
ghost use Rattle.differences.specs.Numbers.{difference_numbers, overall_numbers};

use differences::{DifferenceAnswer, OverallAnswer};
use kind::{Kind, KindAnswer};
use live::stepping::{Begun, Step};
use position_format::Form;
use ratio_format::{AddAnswer, Cursor, Live};
use reasons::ExplainAnswer;
use record_format::{CheckAnswer, FetchAnswer, MoveAnswer, ReadAnswer, WIDE_TAG, WriteAnswer};
use span::SpanAnswer;

// What kind of double a ratio is.
#[unsafe(no_mangle)]
pub extern "C" fn farigolenc_kind(ratio: u64) -> KindAnswer
    ensures { result ≡ kind_numbers (kind_of ratio) }
{
    Kind::of(ratio).into()
}

// The span of the positions at a rate.
#[unsafe(no_mangle)]
pub extern "C" fn farigolenc_span(rate: u32, positions: &[u64]) -> SpanAnswer
    ensures { result ≡ spanned rate positions.now }
{
    span::span(rate, positions).into()
}

// The form that a number names: the wide one by its tag, and the old one by any other. No conversion, since neither type is of this crate.
fn form_of(form: u32) -> Form
    ensures { result ≡ form_of form }
{
    if form == WIDE_TAG as u32 {
        Form::Wide
    } else {
        Form::Old
    }
}

// Writes the record of a run, in the form that its number names, at the front of the output.
#[unsafe(no_mangle)]
pub extern "C" fn farigolenc_write(
    rate: u32,
    side: u32,
    form: u32,
    positions: &[u64],
    ratios: &[u64],
    out: &mut [u8],
) -> WriteAnswer
    ensures { (result ≡ write_answer (run rate side (form_of form) positions.now ratios.now) out.old)
        × (out.new ≡ write_output (run rate side (form_of form) positions.now ratios.now) out.old) }
{
    record_codec::write(rate, side, form_of(form), positions, ratios, out).into()
}

// Checks a record, with no output, and answers one number: 65,536 times the refusal's number plus its place, or the size of a sound record.
#[unsafe(no_mangle)]
pub extern "C" fn farigolenc_check(expected: u32, input: &[u8]) -> u32
    ensures { result ≡ check_number (checked expected input.now) }
{
    record_codec::check_number(expected, input)
}

// The same check, answered in full: rate, side, count, form and size.
#[unsafe(no_mangle)]
pub extern "C" fn farigolenc_describe(expected: u32, input: &[u8]) -> CheckAnswer
    ensures { result ≡ checked expected input.now }
{
    record_codec::check(expected, input).into()
}

// Fetches the points of a record into the outputs.
#[unsafe(no_mangle)]
pub extern "C" fn farigolenc_fetch(
    expected: u32,
    input: &[u8],
    positions: &mut [u64],
    ratios: &mut [u64],
) -> FetchAnswer
    ensures { (result ≡ (fetched expected input.now positions.old ratios.old).answer)
        × (positions.new ≡ (fetched expected input.now positions.old ratios.old).positions)
        × (ratios.new ≡ (fetched expected input.now positions.old ratios.old).ratios) }
{
    record_codec::fetch(expected, input, positions, ratios).into()
}

// Open reading of a record.
#[unsafe(no_mangle)]
pub extern "C" fn farigolenc_read_open(
    expected: u32,
    input: &[u8],
    positions: &mut [u64],
    ratios: &mut [u64],
) -> ReadAnswer
    ensures { (result ≡ (read_open expected input.now positions.old ratios.old).answer)
        × (positions.new ≡ (read_open expected input.now positions.old ratios.old).positions)
        × (ratios.new ≡ (read_open expected input.now positions.old ratios.old).ratios) }
{
    record_codec::read_open(expected, input, positions, ratios).into()
}

// Moves a record to the wide form.
#[unsafe(no_mangle)]
pub extern "C" fn farigolenc_to_wide(input: &[u8], out: &mut [u8]) -> MoveAnswer
    ensures { (result ≡ (move_of Form.Wide input.now out.old).answer)
        × (out.new ≡ (move_of Form.Wide input.now out.old).output) }
{
    record_codec::move_to(Form::Wide, input, out).into()
}

// Moves a record to the old form.
#[unsafe(no_mangle)]
pub extern "C" fn farigolenc_to_old(input: &[u8], out: &mut [u8]) -> MoveAnswer
    ensures { (result ≡ (move_of Form.Old input.now out.old).answer)
        × (out.new ≡ (move_of Form.Old input.now out.old).output) }
{
    record_codec::move_to(Form::Old, input, out).into()
}

// The reason for the ratio of an index among a run's ratios.
#[unsafe(no_mangle)]
pub extern "C" fn farigolenc_explain(ratios: &[u64], index: u64) -> ExplainAnswer
    ensures { result ≡ reason_numbers (explained ratios.now index) }
{
    reasons::explain(ratios, index).into()
}

// The differences of two records that are of no index, by what a check of each, with no rate expected, answered in full. Any other answers are taken as
// they stand.
#[unsafe(no_mangle)]
pub extern "C" fn farigolenc_compare_overall(
    first: CheckAnswer,
    second: CheckAnswer,
) -> OverallAnswer
    ensures { result ≡ overall_numbers (overall_of first second) }
{
    differences::overall_of(first, second).into()
}

// The difference between two runs' positions at an index; none at an index that not both have. Each slice is a run's positions and no more: of what a
// fetch was lent, the first `count` numbers.
#[unsafe(no_mangle)]
pub extern "C" fn farigolenc_compare_positions(
    first: &[u64],
    second: &[u64],
    index: u64,
) -> DifferenceAnswer
    ensures { result ≡ difference_numbers (position_at first.now second.now index) }
{
    differences::position_at(first, second, index).into()
}

// The same of two runs' ratios, by the kinds and the bits of both.
#[unsafe(no_mangle)]
pub extern "C" fn farigolenc_compare_ratios(
    first: &[u64],
    second: &[u64],
    index: u64,
) -> DifferenceAnswer
    ensures { result ≡ difference_numbers (ratio_at first.now second.now index) }
{
    differences::ratio_at(first, second, index).into()
}

// Where a live coding starts.
#[unsafe(no_mangle)]
pub extern "C" fn farigolenc_live_new() -> Live
    ensures { result ≡ fresh_live }
{
    Live::fresh()
}

// One ratio more, to a state that the caller keeps between ticks and lends; a refusal leaves the state as it is.
#[unsafe(no_mangle)]
pub extern "C" fn farigolenc_live_add(state: &mut Live, ratio: u64, out: &mut [u8]) -> AddAnswer
    ensures { (result ≡ add_answer state.old ratio out.old)
        × (state.new ≡ add_state state.old ratio out.old)
        × (out.new ≡ add_output state.old ratio out.old) }
{
    live::adding::add(state, ratio, out).into()
}

// Making a reader, but for the body, which each step is lent.
#[unsafe(no_mangle)]
pub extern "C" fn farigolenc_cursor_new(count: u64) -> Begun
    ensures { (result.refusal ≡ made count) × (result.cursor ≡ made_cursor count) }
{
    live::stepping::begin(count).into()
}

// One step through a body.
#[unsafe(no_mangle)]
pub extern "C" fn farigolenc_step(body: &[u8], cursor: Cursor) -> Step
    ensures { (result.answer ≡ step_answer body.now cursor) × (result.cursor ≡ step_cursor body.now cursor) }
{
    let mut next = cursor;
    let answer = live::stepping::step_at(body, &mut next).into();
    Step {
        answer,
        cursor: next,
    }
}
