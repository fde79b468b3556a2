//! Bytes of a line.

ghost use Rattle.std.specs.Prelude.{◌≡◌};
ghost use Rattle.km_model.specs.Grammar.{is_foreign as is_foreign_byte};
ghost use Rattle.km_model.specs.Pieces.{is_blank as is_blank_byte};
ghost use Rattle.km_script.specs.Bytes.{is_digit as is_digit_byte, is_plain as is_plain_byte};

/// Whether a byte stands between words: a space, a tab or a carriage return.
pub fn is_blank(c: u8) -> bool
    ensures { result ≡ is_blank_byte c }
{
    c == b' ' || c == b'\t' || c == b'\r'
}

/// Whether no command has this byte.
pub fn is_foreign(c: u8) -> bool
    ensures { result ≡ is_foreign_byte c }
{
    !is_blank(c) && !(32 <= c && c <= 126)
}

/// Whether a byte is a digit.
pub fn is_digit(c: u8) -> bool
    ensures { result ≡ is_digit_byte c }
{
    48 <= c && c <= 57
}

/// Whether a byte is one of a word of which nothing is noted, by one test: it stands behind `.` and `+`, and before
/// the bytes that no command has.
pub fn is_plain(c: u8) -> bool
    ensures { result ≡ is_plain_byte c }
{
    47 <= c && c <= 126
}
