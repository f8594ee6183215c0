// The coding of ratios: the types that its calls answer, the window that is kept, definitions and laws.
#![tactic(auto)]

ghost use Rattle.std.specs.Prelude.{◌≡◌, [], ◌∷◌, ◌++◌, length, drop};
ghost use Rattle.ratio_format.specs.Windows.{window_size, fresh_window, pushed};
ghost use Rattle.ratio_format.specs.Lives.{fresh_live, added_numbers};
ghost use Rattle.ratio_format.specs.Stepping.{stepped_numbers};

use refusals::Refusal;

// How one ratio is written: a place of the window; the xor with the ratio at a place, by its trailing zero bytes, the middle's length
// and the middle as a number; or the ratio itself.
#[derive(Clone, Copy)]
pub enum RatioForm {
    Reference(usize),
    Xor {
        place: usize,
        trail: usize,
        len: usize,
        middle: u64,
    },
    Exception,
}

// The preceding ratios, oldest first, and how many of the cells are filled.
// An array with its fill beside it, since the C interface hands it over so.
#[repr(C)]
#[derive(Clone, Copy)]
pub struct Window {
    pub ratios: [u64; Window::SIZE],
    pub fill: u64,
}

impl Window {
    // How many ratios it holds.
    pub const SIZE: usize = 127;

    // A window that holds none.
    pub fn fresh() -> Self
        ensures { result ≡ fresh_window }
    {
        Window {
            ratios: [0; Window::SIZE],
            fill: 0,
        }
    }

    // The ratio v comes to it.
    pub fn push(&mut self, v: u64)
        ensures { self.new ≡ pushed self.old v }
    {
        if self.fill < Window::SIZE as u64 {
            self.ratios[self.fill as usize] = v;
            self.fill += 1;
        } else {
            shift(&mut self.ratios, v);
        }
    }
}

// The cells of a full window moved down by one, and v in the last.
fn shift(cells: &mut [u64], v: u64)
    requires { length cells.old ≡ window_size }
    ensures { cells.new ≡ drop 1 cells.old ++ (v ∷ []) }
{
    cells.copy_within(1.., 0);
    cells[Window::SIZE - 1] = v;
}

// What a live coding keeps between additions: the window and the number of ratios seen.
#[repr(C)]
#[derive(Clone, Copy)]
pub struct Live {
    pub window: Window,
    pub seen: u64,
}

impl Live {
    // Where a live coding starts.
    pub fn fresh() -> Self
        ensures { result ≡ fresh_live }
    {
        let window = Window::fresh();
        Live { window, seen: 0 }
    }
}

// The answer of a live addition: number and place of the refusal, or 0 and 0 with the number of bytes written.
// No Result, since the C interface hands it back so.
#[repr(C)]
#[derive(Clone, Copy)]
pub struct AddAnswer {
    pub number: u32,
    pub place: u32,
    pub length: u64,
}

impl From<Result<usize, Refusal>> for AddAnswer {
    ghost from_gives = { λ added answer. answer ≡ added_numbers added };

    fn from(added: Result<usize, Refusal>) -> AddAnswer {
        match added {
            Ok(length) => AddAnswer {
                number: 0,
                place: 0,
                length: length as u64,
            },
            Err(refusal) => AddAnswer {
                number: refusal.number,
                place: refusal.place,
                length: 0,
            },
        }
    }
}

// What a reader keeps beside its body: the offset of the next form, the count, the number of ratios given and the window.
#[repr(C)]
#[derive(Clone, Copy)]
pub struct Cursor {
    pub place: u64,
    pub count: u64,
    pub seen: u64,
    pub window: Window,
}

// The answer of a step: number and place of the refusal, or 0 and 0 with the ratio.
// No Result, since the C interface hands it back so.
#[repr(C)]
#[derive(Clone, Copy)]
pub struct StepAnswer {
    pub number: u32,
    pub place: u32,
    pub ratio: u64,
}

impl From<Result<u64, Refusal>> for StepAnswer {
    ghost from_gives = { λ stepped answer. answer ≡ stepped_numbers stepped };

    fn from(stepped: Result<u64, Refusal>) -> StepAnswer {
        match stepped {
            Ok(ratio) => StepAnswer {
                number: 0,
                place: 0,
                ratio,
            },
            Err(refusal) => StepAnswer {
                number: refusal.number,
                place: refusal.place,
                ratio: 0,
            },
        }
    }
}
