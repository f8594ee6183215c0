// The form of one ratio of a run, by the search over planes where the window is not small.
ghost use Rattle.std.specs.Prelude.{◌≡◌, ◌≤◌, length, take};
ghost use Rattle.ratio_format.specs.Windows.{window_size, window_of};
ghost use Rattle.ratio_format.specs.Choice.{ratio_form};
ghost use Rattle.ratio_search.specs.BytePlanes.{KeptTo};

use ratio_codec::write::{choose, ratio_form_of};
use ratio_format::RatioForm;
use ratio_search::BytePlanes;
use ratio_window::window_start;

// With fewer ratios before it than this a ratio is chosen by the plain scan, so that a short run needs no planes.
const FEW: usize = 16;

// The form of v as ratio i, against the ratios before it. The planes are brought up to date only where they are searched.
pub(crate) fn choose_nth(planes: &mut BytePlanes, ratios: &[u64], i: usize, v: u64) -> RatioForm
    requires { (i ≤ length ratios.now) × KeptTo planes.old ratios.now i }
    ensures form { result ≡ ratio_form v (window_of window_size (take i ratios.now)) }
    ensures kept { KeptTo planes.new ratios.now i }
{
    let window = &ratios[window_start(i)..i];
    if i < FEW {
        return choose(window, v);
    }
    let b = planes.find_best(ratios, i, v);
    ratio_form_of(b, window, v)
}
