// An index of the ratios passed, by a key of their value: it finds the newest equal ratio without a search. Ratios that share a key hide each
// other, and then it finds none.
ghost use Rattle.std.specs.Prelude.{◌≡◌, ◌+◌, ◌≤◌, ◌<◌, length, set, IfSome};
ghost use Rattle.limits.specs.Points.{max_points};
ghost use Rattle.ratio_bodies.specs.Indexes.{key_of, keys, Indexed, NearlyIndexed, PlaceIs};

use ratio_format::Window;

// How many keys there are: a prime number spreads the values over them.
pub const KEYS: usize = 509;

// The key of a value. Any function would do.
fn key_of(v: u64) -> usize
    ensures { (result ≡ key_of v) × (result < keys) }
{
    (v % (KEYS as u64)) as usize
}

// The place of the newest ratio before ratio i that is equal to it, by the index, if the window holds one. An index has 0 for no ratio, and no Option: so
// a key takes two bytes, and a fresh one is cleared memory.
fn looked_up(newest: &[u16; KEYS], ratios: &[u64], i: usize) -> Option<usize>
    requires { (i < length ratios.now) × Indexed newest.now ratios.now i }
    ensures { IfSome result (λ p. PlaceIs ratios.now i p) }
{
    let v = ratios[i];
    let next = newest[key_of(v)] as usize;
    if next == 0 || Window::SIZE <= i - next || ratios[next - 1] != v {
        return None;
    }
    Some(i - next)
}

// Ratio i, of value v, is passed.
fn note(newest: &mut [u16; KEYS], i: usize, v: u64)
    requires { i < max_points }
    ensures { newest.new ≡ set newest.old (key_of v) (i + 1) }
{
    newest[key_of(v)] = (i + 1) as u16;
}

// The ratio before ratio i is noted, and then the place of ratio i is looked up. Of repeats only the last needs to be noted.
pub(crate) fn place_of(newest: &mut [u16; KEYS], ratios: &[u64], i: usize) -> Option<usize>
    requires { (i < length ratios.now) × (length ratios.now ≤ max_points) × NearlyIndexed newest.old ratios.now i }
    ensures noted { NearlyIndexed newest.new ratios.now (i + 1) }
    ensures place { IfSome result (λ p. PlaceIs ratios.now i p) }
{
    if i == 0 {
        return None;
    }
    note(newest, i - 1, ratios[i - 1]);
    looked_up(newest, ratios, i)
}
