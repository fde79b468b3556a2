//! The other lines of a journal file.

ghost use Rattle.std.specs.Prelude.{◌≡◌};
ghost use Rattle.km_entries.specs.declared.lines.JournalLine.TheVariants as line;
ghost use Rattle.km_entries.specs.Lines.{journal_line_text};

use km_text::Text;

/// The first line: how many words the memory has.
pub fn head(words: u64, out: &mut Text)
    ensures { out.new ≡ journal_line_text (line.Head words) }
{
    out.clear();
    out.push(b"kmjournal 1 ");
    out.push_decimal(words);
    out.end_line();
}

/// The line of a listed block, by its start.
pub fn listed(start: u64, out: &mut Text)
    ensures { out.new ≡ journal_line_text (line.Listed start) }
{
    out.clear();
    out.push(b"listed ");
    out.push_hex(start);
    out.end_line();
}

/// The last line: how many events there are.
pub fn end(events: u64, out: &mut Text)
    ensures { out.new ≡ journal_line_text (line.End events) }
{
    out.clear();
    out.push(b"end ");
    out.push_decimal(events);
    out.end_line();
}
