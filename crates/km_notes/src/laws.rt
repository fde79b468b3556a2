//! Laws of notes, each the contract of a function.

ghost use Rattle.km_notes.specs.Notes.{EntriesAreNoted};
ghost use Rattle.km_notes.specs.Rounds.{RoundsReadNothing};

/// The journal file grows by the lines of a round's entries, of which none reads the file.
pub fn entries_are_noted()
    ensures { EntriesAreNoted }
{}

/// No entry of a round reads the file.
pub fn rounds_read_nothing()
    ensures { RoundsReadNothing }
{}
