// Whether bytes that were read as a ratio are those that are written for it, and references read strictly. Marks say which ratios of the window
// occur again later in it.
ghost use Rattle.std.specs.Prelude.{◌≡◌, ◌+◌, ◌-◌, ◌%◌, ◌≤◌, ◌<◌, length, take, drop, get_or, set, IfSome};
ghost use Rattle.lists.specs.Compare.{begins};
ghost use Rattle.ratio_format.specs.Windows.{window_size, window_of};
ghost use Rattle.ratio_format.specs.RatioForms.{coded};
ghost use Rattle.ratio_format.specs.Open.{Ratio, open_one, strict_one};
ghost use Rattle.ratio_search.specs.BytePlanes.{slots, KeptTo};
ghost use Rattle.ratio_bodies.specs.Marks.{Marks, slot_of};
ghost use Rattle.ratio_bodies.specs.Taking.{Taking};

use super::choice::choose_nth;
use ratio_codec::read::has_head;
use ratio_format::Window;
use ratio_search::{BytePlanes, SLOTS};

// The slot of the ratio that the reference at the offset `at` names.
fn slot_of(i: usize, body: &[u8], at: usize) -> usize
    requires { (at < length body.now) × (get_or body.now at 0 < i) }
    ensures { (result ≡ slot_of i (get_or body.now at 0)) × (result < slots) }
{
    let place = body[at] as usize;
    (i - 1 - place) % SLOTS
}

// Whether the n bytes at the offset `at`, which were read as v, are those that are written for v. A reference is, where its ratio does not
// occur again.
pub(crate) fn accepts(
    planes: &mut BytePlanes,
    again: &[u8; SLOTS],
    ratios: &[u64],
    i: usize,
    v: u64,
    n: usize,
    body: &[u8],
    at: usize,
) -> bool
    requires { (i ≤ length ratios.now) × Marks again.now ratios.now i × (at ≤ length body.now)
        × (open_one (window_of window_size (take i ratios.now)) (drop at body.now) ≡ Ratio v n)
        × KeptTo planes.old ratios.now i }
    ensures test { result ≡ begins (coded v (window_of window_size (take i ratios.now))) (drop at body.now) }
    ensures kept { KeptTo planes.new ratios.now i }
{
    if n == 1 {
        let slot = slot_of(i, body, at);
        return again[slot] == 0;
    }
    let f = choose_nth(planes, ratios, i, v);
    has_head(f, &body[at..])
}

// The marks after ratio i was read from n bytes at the offset `at`: the ratio that a reference names occurs again, and ratio i does not.
pub(crate) fn mark(again: &mut [u8; SLOTS], i: usize, n: usize, body: &[u8], at: usize)
    requires { n ≡ 1 → (at < length body.now) × (get_or body.now at 0 < i) }
    ensures { (n ≡ 1 → again.new ≡ set (set again.old (slot_of i (get_or body.now at 0)) 1) (i % slots) 0)
        × ((n ≡ 1 → ⊥) → again.new ≡ set again.old (i % slots) 0) }
{
    if n == 1 {
        let slot = slot_of(i, body, at);
        again[slot] = 1;
    }
    again[i % SLOTS] = 0;
}

// The place that the byte at the offset `at` names, if strict reading takes that byte as ratio i.
fn reference_at(again: &[u8; SLOTS], i: usize, body: &[u8], at: usize) -> Option<usize>
    ensures { IfSome result (λ p. (p < window_size) × (at < length body.now) × (get_or body.now at 0 ≡ p) × (p < i)
        × (get_or again.now (slot_of i p) 0 ≡ 0)) }
{
    let place = *body.get(at)? as usize;
    if Window::SIZE <= place || i <= place {
        return None;
    }
    let slot = slot_of(i, body, at);
    if again[slot] != 0 {
        return None;
    }
    Some(place)
}

// References are read strictly from the offset `at` on, as ratio i and those after it, up to the index `to` or up to the first byte that strict
// reading takes as no reference. The answer is how many they are. This loop has few variables, so that all of them stay in registers.
pub(crate) fn get_references(
    again: &mut [u8; SLOTS],
    ratios: &mut [u64],
    i: usize,
    to: usize,
    body: &[u8],
    at: usize,
) -> usize
    requires { (i ≤ to) × (to ≤ length ratios.old) × (at ≤ length body.now) × Marks again.old ratios.old i }
    ensures { Taking strict_one to body.now ratios.old i at ratios.new (at + result) (i + result)
        × Marks again.new ratios.new (i + result) }
{
    for k in 0..to - i {
        let Some(place) = reference_at(again, i + k, body, at + k) else {
            return k;
        };
        mark(again, i + k, 1, body, at + k);
        ratios[i + k] = ratios[i + k - 1 - place];
    }
    to - i
}
