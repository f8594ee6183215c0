// One ratio added to a live coding: its bytes go to the front of the output, and the ratio into the window. An addition by another coder is
// `add` over `put_ratio` with that coder's call in the place of `encode`: the tests before it are `test_state`, and what follows depends on no coder.
ghost use Rattle.std.specs.Prelude.{◌≡◌, ◌≢◌, MatchResult, IfErr, OnOk};
ghost use Rattle.refusals.specs.Tests.{no_refusal, first_of};
ghost use Rattle.outputs.specs.Outputs.{zeros};
ghost use Rattle.ratio_format.specs.Lives.{bad_window, state_tests, add_answer, add_output, add_state, added_numbers};

use limits::MAX_POINTS;
use ratio_codec::encode;
use ratio_format::{Live, Window};
use refusals::{Cause, Refusal};

// Whether a window does not hold what one that took `seen` ratios holds.
pub(crate) fn bad_window(window: &Window, seen: u64) -> bool
    ensures { result ≡ bad_window window.now seen }
{
    window.fill != seen.min(Window::SIZE as u64)
}

// The tests of an addition that need no bytes.
#[tactic(auto, using(ratio_format::proofs::Lives::state_bad, ratio_format::proofs::Lives::state_many, ratio_format::proofs::Lives::state_passes))]
fn test_state(state: &Live) -> Result<(), Refusal>
    ensures { MatchResult result (λ _. first_of (state_tests state.now) ≡ no_refusal) (λ f. (f ≡ first_of (state_tests state.now)) × (f.number ≢ 0)) }
{
    if bad_window(&state.window, state.seen) || (MAX_POINTS as u64) < state.seen {
        return Err(Cause::BadState.at(0));
    }
    if MAX_POINTS as u64 <= state.seen {
        return Err(Cause::TooManyPoints.at(0));
    }
    Ok(())
}

// One ratio more; where it is refused the output may hold anything.
#[tactic(auto, using(crate::proofs::adding::Additions::passed_fill, crate::proofs::adding::Additions::passed_seen))]
fn put_ratio(state: &mut Live, ratio: u64, out: &mut [u8]) -> Result<usize, Refusal>
    ensures answer { added_numbers result ≡ add_answer state.old ratio out.old }
    ensures state { state.new ≡ add_state state.old ratio out.old }
    ensures written { OnOk result (out.new ≡ add_output state.old ratio out.old) }
    ensures refused { IfErr result (λ f. (f.number ≢ 0) × (add_output state.old ratio out.old ≡ zeros out.old)) }
{
    test_state(state)?;
    let window = &state.window.ratios[..state.window.fill as usize];
    let length = encode(window, ratio, out).ok_or(Cause::NoRoom.at(0))?;
    state.window.push(ratio);
    state.seen += 1;
    Ok(length)
}

// One ratio more; where it is refused the state stays, and the output is cleared.
pub fn add(state: &mut Live, ratio: u64, out: &mut [u8]) -> Result<usize, Refusal>
    ensures answer { added_numbers result ≡ add_answer state.old ratio out.old }
    ensures state { state.new ≡ add_state state.old ratio out.old }
    ensures output { out.new ≡ add_output state.old ratio out.old }
    ensures refused { IfErr result (λ f. f.number ≢ 0) }
{
    let added = put_ratio(state, ratio, out);
    if added.is_err() {
        out.fill(0);
    }
    added
}
