// Fields of 0 to 64 bits, laid into an output one after the other, from the top bit of each byte down. A field goes by way of a word, which holds
// the bits that fill no eight bytes yet.
ghost use Rattle.std.specs.Prelude.{◌^◌, ◌<◌};

use crate::{put_bytes, put_word};

// Bits on their way into an output: whole bytes stand before `at`, and `held` has the `width` bits after them, which are fewer than 64, and no others.
#[derive(Clone, Copy)]
pub struct Sink {
    pub at: usize,
    pub held: u64,
    pub width: usize,
    pub ghost small: { width < 64 },
    pub ghost fits: { held < 2 ^ width },
}

impl Sink {
    ghost use Rattle.std.specs.Prelude.{List, [], ◌++◌, ◌≡◌, ℕ, ◌+◌, ◌^◌, ◌≤◌, ◌<◌};
    ghost use Rattle.lists.specs.Below.{Below};
    ghost use Rattle.bits.specs.Digits.{bits_of};
    ghost use Rattle.bits.specs.Packing.{pack};
    ghost use Rattle.bits.specs.Sinks.{Held, PlacedBits, Laid};
    ghost use Rattle.outputs.specs.Outputs.{Placed};

    // Before any bit is laid.
    pub fn empty() -> Sink
        ensures { (result.at ≡ 0) × Held [] result × ((o : List ℕ) → PlacedBits [] result.at o o) }
    {
        Sink {
            at: 0,
            held: 0,
            width: 0,
        }
    }

    // The n bits of w come after those laid: eight bytes are written when there are so many. The bits held are moved up in two shifts, since
    // a word that holds none is moved by 64.
    pub fn lay(self, out: &mut [u8], n: usize, w: u64) -> Sink
        requires { (self.at ≤ 2 ^ 32) × (n ≤ 64) × (w < 2 ^ n) }
        ensures { (result.at ≤ self.at + 8) × Laid (bits_of n w) self result out.old out.new }
    {
        let at = self.at;
        let held = self.held;
        let old = self.width;
        let width = old + n;
        if width < 64 {
            return Sink {
                at,
                held: (held << n) + w,
                width,
            };
        }
        let more = width - 64;
        put_word(out, at, ((held << (63 - old)) << 1) + (w >> more));
        Sink {
            at: at + 8,
            held: w % (1 << more),
            width: more,
        }
    }

    // The p bits of x and then the k bits of y come after those laid: as one field where they fit a word.
    pub fn lay_both(self, out: &mut [u8], p: usize, x: u64, k: usize, y: u64) -> Sink
        requires { (self.at + 8 ≤ 2 ^ 32) × (0 < p) × (p ≤ 64) × (x < 2 ^ p) × (k ≤ 64) × (y < 2 ^ k) }
        ensures { (result.at ≤ self.at + 16) × Laid (bits_of p x ++ bits_of k y) self result out.old out.new }
    {
        let n = p + k;
        if n <= 64 {
            return self.lay(out, n, (x << k) + y);
        }
        self.lay(out, p, x).lay(out, k, y)
    }

    // The bits that are held come after those that are written, and 0 bits fill the last byte, if there is room.
    pub fn put_last(self, out: &mut [u8]) -> Option<usize>
        requires { self.at ≤ 2 ^ 32 }
        ensures { (o ds : List ℕ) → Below 256 o → Below 2 ds → Held ds self → PlacedBits ds self.at o out.old
            → Placed (pack ds) result o out.new }
    {
        let at = self.at;
        let width = self.width;
        let n = (width + 7) / 8;
        if out.len() < at + n {
            return None;
        }
        put_bytes(out, at, n, self.held << (8 * n - width));
        Some(at + n)
    }
}
