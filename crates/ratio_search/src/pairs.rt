// Pairs of bytes that say where a sum cannot be large: of two bytes far apart one must agree.
ghost use Rattle.std.specs.Prelude.{◌≡◌, false, ◌⊎◌, ℕ, ◌+◌, ◌≤◌, ◌<◌};
ghost use Rattle.bits.specs.Digits.{byte_of};
ghost use Rattle.ratio_format.specs.Zeros.{lead_zeros, trail_zeros};
ghost use Rattle.ratio_search.specs.BytePlanes.{slots, BothDiffer};
ghost use Rattle.ratio_search.specs.Apart.{Apart};

use super::planes::{CELLS, SLOTS};
use bits::byte_of;
use ratio_window::{lead_zeros, trail_zeros};

// Two pairs of byte positions, a with b and c with d, for sums above `sum`: where both bytes of a pair differ, the sum is no larger.
#[derive(Clone, Copy)]
pub struct Pairs {
    pub sum: usize,
    pub a: usize,
    pub b: usize,
    pub c: usize,
    pub d: usize,
    ghost first: { Apart sum a b },
    ghost second: { Apart sum c d },
}

// Where the second pair begins: beside the first, and not at bytes that agree because v itself ends in zero bytes.
fn beside(trail: usize, sum: usize, own: usize) -> usize
    requires { (trail ≤ sum) × (sum ≤ 7) }
    ensures { result ≤ sum }
{
    if own < trail {
        trail - 1
    } else if trail < sum {
        trail + 1
    } else {
        trail
    }
}

// The pairs for sums above `sum`: the first stands at the ends of the middle of a ratio with that sum and `trail` trailing bytes.
pub(crate) fn pairs_of(trail: usize, sum: usize, own: usize) -> Pairs
    requires { (trail ≤ sum) × (sum ≤ 7) }
    ensures { result.sum ≡ sum }
{
    let far = 7 - sum;
    let c = beside(trail, sum, own);
    Pairs {
        sum,
        a: trail,
        b: trail + far,
        c,
        d: c + far,
    }
}

// Whether in the 16 slots from `slot` on one agrees with v in a byte of each pair. Written without branches, so that it becomes vector code.
pub(crate) fn suspect(planes: &[u8; CELLS], slot: usize, v: u64, p: Pairs) -> bool
    requires { slot + 16 ≤ slots }
    ensures { result ≡ false → (t : ℕ) → slot ≤ t → t < slot + 16
        → BothDiffer planes.now v p.a p.b t ⊎ BothDiffer planes.now v p.c p.d t }
{
    let a = p.a * SLOTS + slot;
    let b = p.b * SLOTS + slot;
    let c = p.c * SLOTS + slot;
    let d = p.d * SLOTS + slot;
    let x = byte_of(v, p.a) as u8;
    let y = byte_of(v, p.b) as u8;
    let z = byte_of(v, p.c) as u8;
    let w = byte_of(v, p.d) as u8;
    let mut any = false;
    for j in 0..16 {
        any = any
            | (((planes[a + j] == x) | (planes[b + j] == y))
                & ((planes[c + j] == z) | (planes[d + j] == w)));
    }
    any
}

// Whether one of two bytes of x is 0.
fn one_zero(x: u64, a: usize, b: usize) -> bool
    requires { (a < 8) × (b < 8) }
    ensures { result ≡ false → (byte_of x a ≡ 0 → ⊥) × (byte_of x b ≡ 0 → ⊥) }
{
    byte_of(x, a) == 0 || byte_of(x, b) == 0
}

// Whether the zero bytes of x at both ends may be more than the pairs' sum.
fn maybe(x: u64, p: Pairs) -> bool
    ensures { result ≡ false → lead_zeros x + trail_zeros x ≤ p.sum }
{
    one_zero(x, p.a, p.b) && one_zero(x, p.c, p.d)
}

// Whether the zero bytes of x at both ends are more than the pairs' sum. They are counted only where they may be.
pub(crate) fn beats(x: u64, p: Pairs) -> bool
    ensures { result ≡ false → lead_zeros x + trail_zeros x ≤ p.sum }
{
    maybe(x, p) && p.sum < lead_zeros(x) + trail_zeros(x)
}
