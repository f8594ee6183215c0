// The form of a ratio, and its bytes: a place; a place plus 128, two counts and the middle; or 255 and the ratio.
ghost use Rattle.std.specs.Prelude.{◌≡◌, [], ◌∷◌, reverse, ◌+◌, ◌*◌, ◌≤◌, ◌<◌, length};
ghost use Rattle.bits.specs.Digits.{bytes_of};
ghost use Rattle.outputs.specs.Outputs.{Placed};
ghost use Rattle.ratio_format.specs.Choice.{ratio_form};
ghost use Rattle.ratio_format.specs.Windows.{window_size};
ghost use Rattle.ratio_format.specs.RatioForms.{xor_byte, exception_byte, written, coded, Fit};
ghost use Rattle.ratio_window.specs.Searched.{Searched};

use super::search::search;
use super::{EXCEPTION, XOR};
use bits::put_bytes;
use ratio_format::RatioForm;
use ratio_window::{Best, EQUAL_SUM, trail_zeros};

// The form of v, by what a search of the window found.
pub fn ratio_form_of(b: Best, window: &[u64], v: u64) -> RatioForm
    requires { Searched v (reverse window.now) b.place b.sum }
    ensures { result ≡ ratio_form v (reverse window.now) }
{
    let place = b.place;
    let sum = b.sum;
    if sum == EQUAL_SUM {
        return RatioForm::Reference(place);
    }
    if 2 <= sum {
        let x = v ^ window[window.len() - 1 - place];
        let trail = trail_zeros(x);
        return RatioForm::Xor {
            place,
            trail,
            len: 8 - sum,
            middle: x >> (8 * trail),
        };
    }
    RatioForm::Exception
}

// The form of v.
pub fn choose(window: &[u64], v: u64) -> RatioForm
    ensures { result ≡ ratio_form v (reverse window.now) }
{
    let b = search(window, v);
    ratio_form_of(b, window, v)
}

// The byte of a place.
pub fn put_reference(out: &mut [u8], place: usize) -> Option<usize>
    requires { place < window_size }
    ensures { Placed (place ∷ []) result out.old out.new }
{
    if out.len() < 1 {
        return None;
    }
    out[0] = place as u8;
    Some(1)
}

// The bytes of an xor form.
fn put_xor(out: &mut [u8], place: usize, trail: usize, len: usize, middle: u64) -> Option<usize>
    requires { (place < window_size) × (trail ≤ 8) × (len ≤ 6) }
    ensures { Placed ((place + xor_byte) ∷ (trail * 16 + len) ∷ bytes_of len middle) result out.old out.new }
{
    if out.len() < len + 2 {
        return None;
    }
    out[0] = (place + XOR) as u8;
    out[1] = (trail * 16 + len) as u8;
    put_bytes(out, 2, len, middle);
    Some(len + 2)
}

// The bytes of an exception.
fn put_exception(out: &mut [u8], v: u64) -> Option<usize>
    ensures { Placed (exception_byte ∷ bytes_of 8 v) result out.old out.new }
{
    if out.len() < 9 {
        return None;
    }
    out[0] = EXCEPTION as u8;
    put_bytes(out, 1, 8, v);
    Some(9)
}

// The bytes of v in the form f, of a window of our size.
pub fn put_ratio_form(f: RatioForm, v: u64, out: &mut [u8]) -> Option<usize>
    requires { Fit window_size f }
    ensures { Placed (written v f) result out.old out.new }
{
    match f {
        RatioForm::Reference(place) => put_reference(out, place),
        RatioForm::Xor {
            place,
            trail,
            len,
            middle,
        } => put_xor(out, place, trail, len, middle),
        RatioForm::Exception => put_exception(out, v),
    }
}

// The bytes of v at the front of the output.
pub fn encode(window: &[u64], v: u64, out: &mut [u8]) -> Option<usize>
    requires { length window.now ≤ window_size }
    ensures { Placed (coded v (reverse window.now)) result out.old out.new }
{
    let f = choose(window, v);
    put_ratio_form(f, v, out)
}
