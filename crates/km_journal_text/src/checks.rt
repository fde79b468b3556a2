//! What a check of a journal file prints.

ghost use Rattle.std.specs.Prelude.{◌≡◌};
ghost use Rattle.km_entries.specs.File.{cut_text, no_line_text, ok_text, wrong_text};

use km_text::Text;

/// Of a whole journal: the numbers of its events and of its completed scans.
pub fn check_ok(events: u64, scans: u64, out: &mut Text)
    ensures { out.new ≡ ok_text events scans }
{
    out.clear();
    out.push(b"kmcheck: ok, ");
    out.push_decimal(events);
    out.push(b" events, ");
    out.push_decimal(scans);
    out.push(b" scans");
    out.end_line();
}

/// Of a line that isn't the one that the lines before it give.
pub fn check_wrong(line: u64, out: &mut Text)
    ensures { out.new ≡ wrong_text line }
{
    out.clear();
    out.push(b"kmcheck: wrong at line ");
    out.push_decimal(line);
    out.end_line();
}

/// Of a line that is no line of a journal.
pub fn check_form(line: u64, out: &mut Text)
    ensures { out.new ≡ no_line_text line }
{
    out.clear();
    out.push(b"kmcheck: not a journal line: ");
    out.push_decimal(line);
    out.end_line();
}

/// Of a journal without its end.
pub fn check_cut(out: &mut Text)
    ensures { out.new ≡ cut_text }
{
    out.clear();
    out.push(b"kmcheck: cut");
    out.end_line();
}
