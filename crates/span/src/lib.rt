// The span of a run, which is its duration in milliseconds, by its rate and its first and last position.
#![tactic(auto)]

ghost use Rattle.std.specs.Prelude.{◌≡◌, ◌≢◌, ◌+◌, ◌*◌, ◌/◌, ◌^◌, ◌≤◌, ◌<◌, pos, ◌-ℤ◌, ◌*ℤ◌, IfErr};
ghost use Rattle.span.specs.Spans.{rounded_down, spanned, span_numbers};

use refusals::{Cause, Refusal};

// Number and place of the refusal, or 0 and 0 with the milliseconds.
// No Result, since the C interface hands it back so.
#[repr(C)]
#[derive(Clone, Copy)]
pub struct SpanAnswer {
    pub number: u32,
    pub place: u32,
    pub milliseconds: i64,
}

impl From<Result<i64, Refusal>> for SpanAnswer {
    ghost from_gives = { λ span answer. answer ≡ span_numbers span };

    fn from(span: Result<i64, Refusal>) -> SpanAnswer {
        match span {
            Ok(milliseconds) => SpanAnswer {
                number: 0,
                place: 0,
                milliseconds,
            },
            Err(refusal) => SpanAnswer {
                number: refusal.number,
                place: refusal.place,
                milliseconds: 0,
            },
        }
    }
}

// The bounds of a rate that passed its test are a requires: a type for such a rate would be made for these two functions.
//
// d * 1000 / rate. The product may need 72 bits, and a division of 128 would ask a C program for a function of the compiler's library: so whole seconds
// and the rest are taken apart.
fn scaled(d: u64, rate: u64) -> u64
    requires { (d < 2 ^ 62) × (1000 ≤ rate) × (rate ≤ 192000) }
    ensures { (result ≡ d * 1000 / rate) × (result < 2 ^ 62 + 1000) }
{
    let q = d / rate;
    let r = d % rate;
    q * 1000 + r * 1000 / rate
}

// The milliseconds from the position first to the position last, rounded down.
fn between(first: u64, last: u64, rate: u64) -> i64
    requires { (first < 2 ^ 62) × (last < 2 ^ 62) × (1000 ≤ rate) × (rate ≤ 192000) }
    ensures { result ≡ rounded_down ((pos last -ℤ pos first) *ℤ pos 1000) rate }
{
    if first <= last {
        let m = scaled(last - first, rate);
        return m as i64;
    }
    let d = first - last;
    let m = scaled(d, rate);
    let back = -(m as i64);
    // back where the division is exact, and else one below
    if d % rate * 1000 % rate == 0 {
        return back;
    }
    back - 1
}

// The span of the positions at a rate: tests 1, 3 and 4 in this order, each over all positions.
#[tactic(auto, using(crate::proofs::Spans::spanned_no_rate, crate::proofs::Spans::spanned_many, crate::proofs::Spans::spanned_high, crate::proofs::Spans::spanned_accepted, crate::proofs::Spans::milliseconds_short, limits::proofs::Rates::rate_low, limits::proofs::Rates::rate_high, limits::proofs::Points::high_none))]
pub fn span(rate: u32, positions: &[u64]) -> Result<i64, Refusal>
    ensures answer { span_numbers result ≡ spanned rate positions.now }
    ensures refused { IfErr result (λ f. f.number ≢ 0) }
{
    if !limits::is_rate(rate) {
        return Err(Cause::BadRate.at(0));
    }
    if limits::MAX_POINTS < positions.len() {
        return Err(Cause::TooManyPoints.at(0));
    }
    if let Some(high) = limits::first_high(positions) {
        return Err(Cause::HighPosition.at(high));
    }
    let [first, .., last] = positions else {
        return Ok(0);
    };
    Ok(between(*first, *last, u64::from(rate)))
}
