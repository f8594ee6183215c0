// Numbers as digits, bytes and bits of a slice, most significant first.
// The definitions stand in specs/, their laws in proofs/. Internal: callers meet each `requires`.
// How many bits or bytes are meant is a plain number with its bound in each `requires`, and no type: nearly every call has a literal there.
#![tactic(auto)]

ghost use Rattle.std.specs.Prelude.{◌≡◌, ◌+◌, ◌*◌, ◌^◌, ◌≤◌, ◌<◌, length, take, drop};
ghost use Rattle.bits.specs.Digits.{bytes_of, byte_of, number_of};
ghost use Rattle.bits.specs.Sinks.{over_word};
ghost use Rattle.outputs.specs.Outputs.{over_at};

mod fields; // fields of bits, read
mod laying; // fields of bits, laid

pub use fields::{get_ahead, get_bits};
pub use laying::Sink;

// Byte j of x, byte 0 the lowest.
pub fn byte_of(x: u64, j: usize) -> u64
    requires { j < 8 }
    ensures { result ≡ byte_of x j }
{
    (x >> (8 * j)) % 256
}

// The low n bytes of x are written at `at`; all other bytes stay.
pub fn put_bytes(out: &mut [u8], at: usize, n: usize, x: u64)
    requires { at + n ≤ length out.old }
    ensures { out.new ≡ over_at out.old at n (bytes_of n x) }
{
    let mut y = x;
    for i in (0..n).rev() {
        out[at + i] = (y % 256) as u8;
        y /= 256;
    }
}

// The eight bytes of x are written at `at`, if there is room for them.
pub(crate) fn put_word(out: &mut [u8], at: usize, x: u64)
    requires { at ≤ 2 ^ 32 }
    ensures { out.new ≡ over_word out.old at x }
{
    if at + 8 <= out.len() {
        put_bytes(out, at, 8, x);
    }
}

// The number of the n bytes at `at`.
pub fn get_bytes(s: &[u8], at: usize, n: usize) -> u64
    requires { (n ≤ 8) × (at + n ≤ length s.now) }
    ensures { (result ≡ number_of 256 (take n (drop at s.now))) × (result < 256 ^ n) }
{
    let mut y: u64 = 0;
    for b in &s[at..at + n] {
        y = y * 256 + u64::from(*b);
    }
    y
}

// The same where eight bytes stand at `at`: by one load of them, moved down past those after the first n. In two shifts, since a word of which no byte is
// wanted is moved by 64.
pub fn get_first(s: &[u8], at: usize, n: usize) -> u64
    requires { (n ≤ 8) × (at + 8 ≤ length s.now) }
    ensures { (result ≡ number_of 256 (take n (drop at s.now))) × (result < 256 ^ n) }
{
    let half = 4 * (8 - n);
    get_bytes(s, at, 8) >> half >> half
}
