// Coded ratios read one by one, strictly: each at the reader's place, against the window of those before it.
ghost use Rattle.std.specs.Prelude.{◌≡◌, ◌≢◌, IfErr};
ghost use Rattle.ratio_format.specs.Windows.{fresh_window};
ghost use Rattle.ratio_format.specs.Stepping.{made, made_cursor, bad_cursor, step_answer, step_cursor, stepped_numbers};
ghost use Rattle.live.specs.States.{begun_numbers, Sought};

use super::adding::bad_window;
use limits::MAX_POINTS;
use ratio_codec::read_one_strict;
use ratio_format::{Cursor, StepAnswer, Window};
use refusals::{Cause, Refusal};

// What making a reader answers, and the state that the reader starts with.
// No Result, since the C interface hands it back so.
#[repr(C)]
#[derive(Clone, Copy)]
pub struct Begun {
    pub refusal: Refusal,
    pub cursor: Cursor,
}

// The answer of a step and the state after it.
// No Result, since the C interface hands it back so.
#[repr(C)]
#[derive(Clone, Copy)]
pub struct Step {
    pub answer: StepAnswer,
    pub cursor: Cursor,
}

// The state before the first ratio.
pub(crate) fn before_first(count: u64) -> Cursor
    ensures { result ≡ record { place = 0; count = count; seen = 0; window = fresh_window } }
{
    Cursor {
        place: 0,
        count,
        seen: 0,
        window: Window::fresh(),
    }
}

// Making, but for the body: the state that the reader starts with.
pub fn begin(count: u64) -> Result<Cursor, Refusal>
    ensures answer { begun_numbers result ≡ record { refusal = made count; cursor = made_cursor count } }
    ensures refused { IfErr result (λ f. f.number ≢ 0) }
{
    if (MAX_POINTS as u64) < count {
        return Err(Cause::BadCount.at(0));
    }
    Ok(before_first(count))
}

// A refused making leaves the count 0.
impl From<Result<Cursor, Refusal>> for Begun {
    ghost from_gives = { λ begun answer. answer ≡ begun_numbers begun };

    fn from(begun: Result<Cursor, Refusal>) -> Begun {
        match begun {
            Ok(cursor) => Begun {
                refusal: Refusal::default(),
                cursor,
            },
            Err(refusal) => Begun {
                refusal,
                cursor: before_first(0),
            },
        }
    }
}

// Whether the state of a reader of this body is bad. The test reads no cell of its window.
fn bad_cursor(body: &[u8], cursor: &Cursor) -> bool
    ensures { result ≡ bad_cursor body.now cursor.now }
{
    bad_window(&cursor.window, cursor.seen)
        || cursor.count < cursor.seen
        || (MAX_POINTS as u64) < cursor.count
        || (body.len() as u64) < cursor.place
}

// The ratio at the place of a reader, and how many bytes it takes.
fn seek(body: &[u8], cursor: &Cursor) -> Result<(u64, usize), Refusal>
    ensures { Sought body.now cursor.now result }
{
    if bad_cursor(body, cursor) {
        return Err(Cause::BadState.at(0));
    }
    if cursor.seen < cursor.count {
        let window = &cursor.window.ratios[..cursor.window.fill as usize];
        let rest = &body[cursor.place as usize..];
        return read_one_strict(window, rest).ok_or(Cause::BadRatios.at(0));
    }
    if cursor.place == body.len() as u64 {
        return Err(Cause::AllGiven.at(0));
    }
    Err(Cause::BadRatios.at(0))
}

// One step: the next ratio, or the end or another refusal, which leave the state as it is.
pub fn step_at(body: &[u8], cursor: &mut Cursor) -> Result<u64, Refusal>
    ensures answer { stepped_numbers result ≡ step_answer body.now cursor.old }
    ensures state { cursor.new ≡ step_cursor body.now cursor.old }
    ensures refused { IfErr result (λ f. f.number ≢ 0) }
{
    let (ratio, used) = seek(body, cursor)?;
    cursor.place += used as u64;
    cursor.seen += 1;
    cursor.window.push(ratio);
    Ok(ratio)
}
