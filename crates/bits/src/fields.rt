// Fields of 0 to 64 bits, read from a slice at any bit offset. Bits are laid from the top bit of each byte down.
ghost use Rattle.std.specs.Prelude.{◌≡◌, ◌+◌, ◌*◌, ◌^◌, ◌≤◌, ◌<◌, length, take, drop};
ghost use Rattle.bits.specs.Digits.{bits_of, number_of};
ghost use Rattle.bits.specs.Packing.{bits, ahead};

use crate::get_bytes;

// The number of the k bits from the bit offset `at` on, of which eight bytes hold up to 57 wherever they begin.
fn get_few(s: &[u8], at: usize, k: usize) -> u64
    requires { (k ≤ 57) × (at + k ≤ 8 * length s.now) }
    ensures { (result ≡ number_of 2 (take k (drop at (bits s.now)))) × (result < 2 ^ k) }
{
    let b = at / 8;
    let r = at % 8;
    let e = (r + k + 7) / 8;
    let pad = 8 * e - (r + k);
    let x = get_bytes(s, b, e);
    (x >> pad) % (1 << k)
}

// The number of the k bits from the bit offset `at` on.
pub fn get_bits(s: &[u8], at: usize, k: usize) -> u64
    requires { (k ≤ 64) × (at + k ≤ 8 * length s.now) × (at + k < 2 ^ 64) }
    ensures { (result ≡ number_of 2 (take k (drop at (bits s.now)))) × (result < 2 ^ k) }
{
    if k <= 57 {
        return get_few(s, at, k);
    }
    let low = k - 32;
    let high = get_few(s, at, 32);
    let rest = get_few(s, at + 32, low);
    (high << low) + rest
}

// The bits from the bit offset `at` on at the top of a word, at least 57 of them, with 0 bits past the end: by eight bytes from the
// offset's own on, or by the last eight.
pub fn get_ahead(s: &[u8], at: usize) -> u64
    requires { (8 ≤ length s.now) × (length s.now ≤ 2 ^ 32) × (at < 8 * length s.now) }
    ensures { take 57 (bits_of 64 result) ≡ ahead 57 (drop at (bits s.now)) }
{
    let b = at / 8;
    if b + 8 <= s.len() {
        return get_bytes(s, b, 8) << (at % 8);
    }
    let last = s.len() - 8;
    get_bytes(s, last, 8) << (at - 8 * last)
}
