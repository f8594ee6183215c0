// Reading one ratio: by the open rule, and strictly.
ghost use Rattle.std.specs.Prelude.{◌≡◌, [], ◌∷◌, reverse, ◌+◌, ◌*◌, ◌^◌, ◌≤◌, ◌<◌, length, take, drop, get_or, MatchOption};
ghost use Rattle.bits.specs.Digits.{number_of};
ghost use Rattle.lists.specs.Compare.{begins};
ghost use Rattle.ratio_format.specs.Windows.{window_size};
ghost use Rattle.ratio_format.specs.Open.{open_xor, open_one, strict_one};
ghost use Rattle.ratio_format.specs.RatioForms.{Fit};
ghost use Rattle.ratio_codec.specs.Heads.{ratio_form_head};

use super::search::pass_equal;
use super::write::choose;
use super::{EXCEPTION, XOR};
use bits::{get_bytes, get_first};
use ratio_format::RatioForm;

// The number m raised by t bytes. By 8 bytes only 0 is raised.
pub fn raised(m: u64, t: usize) -> u64
    requires { (t ≤ 8) × (m * 256 ^ t < 2 ^ 64) }
    ensures { result ≡ m * 256 ^ t }
{
    m.unbounded_shl(8 * t as u32)
}

// The middle after the byte of the counts: by one load where eight bytes stand there.
fn middle_of(s: &[u8], len: usize) -> u64
    requires { (len ≤ 8) × (1 + len ≤ length s.now) }
    ensures { (result ≡ number_of 256 (take len (drop 1 s.now))) × (result < 256 ^ len) }
{
    if 9 <= s.len() {
        return get_first(s, 1, len);
    }
    get_bytes(s, 1, len)
}

// What stands after the byte of a place that holds u: the two counts, and the middle.
fn read_xor(u: u64, s: &[u8]) -> Option<(u64, usize)>
    ensures { result ≡ open_xor u s.now }
{
    let c = *s.first()? as usize;
    let trail = c / 16;
    let len = c % 16;
    if 8 < trail + len || s.len() - 1 < len {
        return None;
    }
    let m = middle_of(s, len);
    Some((raised(m, trail) ^ u, len + 2))
}

// The ratio at place p of the window, if it holds one there.
fn held_at(window: &[u64], p: usize) -> Option<u64>
    ensures { MatchOption result (length window.now ≤ p) (λ u. (p < length window.now) × (u ≡ get_or (reverse window.now) p 0)) }
{
    if p < window.len() {
        Some(window[window.len() - 1 - p])
    } else {
        None
    }
}

// The ratio at the front of the bytes, and how many of them it takes, by the open rule.
pub fn read_one_open(window: &[u64], s: &[u8]) -> Option<(u64, usize)>
    ensures { result ≡ open_one (reverse window.now) s.now }
{
    let b = *s.first()? as usize;
    if b < XOR {
        let u = held_at(window, b)?;
        return Some((u, 1));
    }
    if b < EXCEPTION {
        let u = held_at(window, b - XOR)?;
        return read_xor(u, &s[1..]);
    }
    if s.len() < 9 {
        return None;
    }
    Some((get_bytes(s, 1, 8), 9))
}

// Whether the bytes begin as the form does.
pub fn has_head(f: RatioForm, s: &[u8]) -> bool
    requires { Fit window_size f }
    ensures { result ≡ begins (ratio_form_head f) s.now }
{
    match f {
        RatioForm::Reference(place) => s.starts_with(&[place as u8]),
        RatioForm::Xor {
            place,
            trail,
            len,
            middle: _,
        } => s.starts_with(&[(place + XOR) as u8, (trail * 16 + len) as u8]),
        RatioForm::Exception => s.starts_with(&[EXCEPTION as u8]),
    }
}

// The ratio at the front of the bytes, where they are those that are written for it: of bytes that are read as a ratio, the head decides.
fn read_by_head(window: &[u64], s: &[u8]) -> Option<(u64, usize)>
    requires { length window.now ≤ window_size }
    ensures { result ≡ strict_one (reverse window.now) s.now }
{
    let (v, n) = read_one_open(window, s)?;
    has_head(choose(window, v), s).then_some((v, n))
}

// The same. A place needs no search: it is what is written where no nearer one holds an equal ratio.
pub fn read_one_strict(window: &[u64], s: &[u8]) -> Option<(u64, usize)>
    requires { length window.now ≤ window_size }
    ensures { result ≡ strict_one (reverse window.now) s.now }
{
    let b = *s.first()? as usize;
    if b < window.len() {
        let v = window[window.len() - 1 - b];
        return (pass_equal(window, 0, v) == b).then_some((v, 1));
    }
    read_by_head(window, s)
}
