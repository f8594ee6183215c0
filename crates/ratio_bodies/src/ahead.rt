// One ratio of a list read by the open rule: where the longest form fits, by one test of room and one load for an exception or the middle of an xor form.
ghost use Rattle.std.specs.Prelude.{◌≡◌, ◌+◌, ◌≤◌, length, take, drop};
ghost use Rattle.ratio_format.specs.Windows.{window_size, window_of};
ghost use Rattle.ratio_format.specs.Open.{open_xor, open_one};

use bits::get_first;
use ratio_codec::read::raised;
use ratio_codec::{EXCEPTION, XOR, read_one_open};
use ratio_window::window_start;

// The most bytes that a form has.
const LONGEST: usize = 10;

// Ratio i at the offset `at`, by the open rule, against the ratios before it. It is called where the longest form does not fit, so for the last bytes of a
// body. It is no part of `open_from`: a loop that reads would hold in registers what only this needs.
#[inline(never)]
fn open_nth(ratios: &[u64], i: usize, body: &[u8], at: usize) -> Option<(u64, usize)>
    requires { (i ≤ length ratios.now) × (at ≤ length body.now) }
    ensures { result ≡ open_one (window_of window_size (take i ratios.now)) (drop at body.now) }
{
    read_one_open(&ratios[window_start(i)..i], &body[at..])
}

// What stands after the byte of a place that holds u: the two counts, and the middle. Beside `read_xor` of ratio_codec, since nine bytes stand here:
// no test of room, and one load, in the loops that read.
fn xor_ahead(u: u64, body: &[u8], at: usize) -> Option<(u64, usize)>
    requires { at + 9 ≤ length body.now }
    ensures { result ≡ open_xor u (drop at body.now) }
{
    let c = body[at] as usize;
    let trail = c / 16;
    let len = c % 16;
    if 8 < trail + len {
        return None;
    }
    let m = get_first(body, at + 1, len);
    Some((raised(m, trail) ^ u, len + 2))
}

// Ratio i at the offset `at`, where the longest form fits.
fn open_ahead(ratios: &[u64], i: usize, body: &[u8], at: usize) -> Option<(u64, usize)>
    requires { (i ≤ length ratios.now) × (at + 10 ≤ length body.now) }
    ensures { result ≡ open_one (window_of window_size (take i ratios.now)) (drop at body.now) }
{
    let b = body[at] as usize;
    if b == EXCEPTION {
        return Some((get_first(body, at + 1, 8), 9));
    }
    let p = b % XOR;
    if i - window_start(i) <= p {
        return None;
    }
    let u = ratios[i - 1 - p];
    if b < XOR {
        return Some((u, 1));
    }
    xor_ahead(u, body, at + 1)
}

// Ratio i at the offset `at`.
pub(crate) fn open_from(ratios: &[u64], i: usize, body: &[u8], at: usize) -> Option<(u64, usize)>
    requires { (i ≤ length ratios.now) × (at ≤ length body.now) }
    ensures { result ≡ open_one (window_of window_size (take i ratios.now)) (drop at body.now) }
{
    if at + LONGEST <= body.len() {
        return open_ahead(ratios, i, body, at);
    }
    open_nth(ratios, i, body, at)
}
