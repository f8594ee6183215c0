// Byte planes of the latest ratios of a run.
ghost use Rattle.std.specs.Prelude.{◌≡◌, ℕ, ◌+◌, ◌*◌, ◌%◌, ◌≤◌, ◌<◌, length, get_or, take};
ghost use Rattle.bits.specs.Digits.{byte_of};
ghost use Rattle.ratio_format.specs.Windows.{window_size, window_of};
ghost use Rattle.ratio_window.specs.Searched.{Searched};
ghost use Rattle.ratio_search.specs.BytePlanes.{slots, cells, Kept, KeptTo};

use super::search::find_best;
use bits::byte_of;
use ratio_format::Window;
use ratio_window::Best;

// How many ratios the planes hold, the window's size and one more: the ratio at index k stands in slot k % SLOTS.
pub const SLOTS: usize = Window::SIZE + 1;

// The bytes of all planes.
pub const CELLS: usize = 8 * SLOTS;

// The planes, and how many ratios they are of: the last of the first `done`, as many as there are slots. Which ratios these are stays in each requires
// (`KeptTo`): they stand in the run's own list, which the planes do not hold.
#[derive(Drop)]
pub struct BytePlanes {
    pub cells: [u8; CELLS],
    pub done: usize,
}

impl BytePlanes {
    // The best of the window of ratio i for v, newest first, once the planes are those of the ratios before it.
    pub fn find_best(&mut self, ratios: &[u64], i: usize, v: u64) -> Best
        requires { KeptTo self.old ratios.now i × (0 < i) × (i ≤ length ratios.now) }
        ensures found { Searched v (window_of window_size (take i ratios.now)) result.place result.sum }
        ensures kept { KeptTo self.new ratios.now i }
    {
        self.fill(ratios, i);
        find_best(&self.cells, ratios, i, v)
    }

    // The planes of the first `done` ratios become those of the first `to`.
    fn fill(&mut self, ratios: &[u64], to: usize)
        requires { KeptTo self.old ratios.now to × (to ≤ length ratios.now) }
        ensures { Kept self.new.cells ratios.now to × (self.new.done ≡ to) }
    {
        for k in self.done.max(to.saturating_sub(SLOTS))..to {
            put_planes(&mut self.cells, k, ratios[k]);
        }
        self.done = to;
    }
}

// The bytes of v go into the slot of index i; all other slots stay.
fn put_planes(planes: &mut [u8; CELLS], i: usize, v: u64)
    requires { length planes.old ≡ cells }
    ensures { (length planes.new ≡ cells)
        × ((j : ℕ) → j < 8 → get_or planes.new (j * slots + i % slots) 0 ≡ byte_of v j)
        × ((m : ℕ) → (m % slots ≡ i % slots → ⊥) → get_or planes.new m 0 ≡ get_or planes.old m 0) }
{
    let slot = i % SLOTS;
    for j in 0..8 {
        planes[j * SLOTS + slot] = byte_of(v, j) as u8;
    }
}
