// Repeats of a ratio, each of which is the reference to the newest place: written in a run.
ghost use Rattle.std.specs.Prelude.{◌++◌, ◌≡◌, ℕ, ◌+◌, ◌-◌, ◌≤◌, ◌<◌, length, get_or, drop, replicate};

// As many ratios from `from` on as are equal to the one before them, and as the output has room for, are put at its front.
pub(crate) fn put_repeats(ratios: &[u64], from: usize, out: &mut [u8]) -> usize
    requires { (0 < from) × (from ≤ length ratios.now) }
    ensures { (from + result ≤ length ratios.now)
        × ((k : ℕ) → k < result → get_or ratios.now (from + k) 0 ≡ get_or ratios.now (from - 1) 0)
        × (result ≤ length out.old)
        × (out.new ≡ replicate result 0 ++ drop result out.old) }
{
    let v = ratios[from - 1];
    let most = out.len().min(ratios.len() - from);
    for k in 0..most {
        if ratios[from + k] != v {
            return k;
        }
        out[k] = 0;
    }
    most
}
