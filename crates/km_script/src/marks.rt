//! What is noted of a word where its end is looked for.

ghost use Rattle.std.specs.Prelude.{◌≡◌, ℕ, ◌+◌, ◌≤◌, List, [], ◌∷◌, ◌++◌, length, take};
ghost use Rattle.std.specs.List.{position_or_len};
ghost use Rattle.km_model.specs.Pieces.{is_blank as is_blank_byte};
ghost use Rattle.km_script.specs.Marks.{AreMarks, if_here, or_first};

use crate::bytes::{is_blank, is_foreign, is_plain};

/// The length of what stands behind a word's first byte, the places in it of the first `.` and of the
/// first `+`, and the column of the first byte that no command has.
#[derive(Clone, Copy)]
pub struct Marks {
    pub length: usize,
    pub dot: Option<usize>,
    pub plus: Option<usize>,
    pub foreign: Option<u32>,
}

/// The first place, where one more is looked at behind the others.
fn first_place(before: Option<usize>, is_here: bool, place: usize) -> Option<usize>
    ensures { result ≡ or_first before (if_here is_here place) }
{
    match before {
        Some(first) => Some(first),
        None => { if is_here { Some(place) } else { None } }
    }
}

/// The first column, where one more is looked at behind the others.
fn first_column(before: Option<u32>, is_here: bool, column: u32) -> Option<u32>
    ensures { result ≡ or_first before (if_here is_here column) }
{
    match before {
        Some(first) => Some(first),
        None => { if is_here { Some(column) } else { None } }
    }
}

impl Marks {
    /// The marks with one byte more, which isn't blank.
    fn with(self, column: u32, place: usize, c: u8) -> Marks
        requires { column + place ≤ 257 }
        ensures kept { result.length ≡ self.length }
        ensures noted { (bytes : List ℕ) → length bytes ≡ place → AreMarks self column bytes → AreMarks result column (bytes ++ c ∷ []) }
    {
        Marks {
            length: self.length,
            dot: first_place(self.dot, c == b'.', place),
            plus: first_place(self.plus, c == b'+', place),
            foreign: first_column(self.foreign, is_foreign(c), column + place as u32),
        }
    }
}

/// What is noted of the bytes behind a word's first, up to a blank or the end. Each byte is looked at once.
pub fn marks_of(column: u32, bytes: &[u8]) -> Marks
    requires { column + length bytes.now ≤ 257 }
    ensures length { result.length ≡ position_or_len is_blank_byte bytes.now }
    ensures within { result.length ≤ length bytes.now }
    ensures marks { AreMarks result column (take result.length bytes.now) }
{
    let mut marks = Marks {
        length: bytes.len(),
        dot: None,
        plus: None,
        foreign: None,
    };
    for (i, c) in bytes.iter().enumerate() {
        if is_plain(*c) {
            continue;
        }
        if is_blank(*c) {
            marks.length = i;
            return marks;
        }
        marks = marks.with(column, i, *c);
    }
    marks
}
