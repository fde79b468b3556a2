//! A row of a table: its name, its fields, each of which begins with `- ` at the head of a line, its live script, and
//! after a line `=` the report.

use crate::troubles::Trouble;

/// The room of a sink that is never full here.
const AMPLE: usize = 65_536;

/// The numbers from one on that are below the end.
#[derive(Clone, Copy)]
pub struct Numbers {
    pub from: usize,
    pub end: usize,
}

impl Numbers {
    /// The numbers from one to another, with both.
    fn between(from: usize, to: usize) -> Numbers {
        Numbers {
            from,
            end: to.saturating_add(1),
        }
    }

    /// `5`, or `1 to 5`.
    fn read(text: &str) -> Result<Numbers, Trouble> {
        let (from, to) = text.split_once(" to ").unwrap_or((text, text));
        Ok(Numbers::between(number_of(from)?, number_of(to)?))
    }
}

/// The number that a word writes in decimal digits.
pub fn number_of(word: &str) -> Result<usize, Trouble> {
    match word.trim().parse::<usize>() {
        Ok(number) => Ok(number),
        Err(_) => Err(Trouble::Malformed("a word that should be a number")),
    }
}

/// The first line of a text, and the lines after it.
fn first_and_rest(text: &str) -> (&str, &str) {
    text.split_once('\n').unwrap_or((text, ""))
}

/// A row as its text says it.
#[derive(Clone, Copy)]
pub struct Row<'a> {
    /// The words after the program's name; `""` is the empty one.
    pub words: &'a str,
    /// What is put for each `@` in the script and in the report, one after the other.
    pub with: &'a str,
    /// How many bytes a read gives at most, one after the other.
    pub pieces: &'a str,
    /// The numbers of the reads that fail, each in a run of its own, and of the write that does; 0 is none.
    pub failing_reads: Numbers,
    pub failing_write: usize,
    /// The room of the sink; nothing for each from none to that of the report.
    pub room: Option<usize>,
    /// The exit status.
    pub status: usize,
    pub script: &'a str,
    pub report: &'a str,
}

impl<'a> Row<'a> {
    /// A row without fields.
    fn plain() -> Row<'a> {
        Row {
            words: "",
            with: "",
            pieces: "1 7 4096",
            failing_reads: Numbers::between(0, 0),
            failing_write: 0,
            room: Some(AMPLE),
            status: 0,
            script: "",
            report: "",
        }
    }

    /// Sets a field.
    fn set(&mut self, field: &str, value: &'a str) -> Result<(), Trouble> {
        match field {
            "words" => self.words = value,
            "with" => self.with = value,
            "pieces" => self.pieces = value,
            "failing read" => self.failing_reads = Numbers::read(value)?,
            "failing write" => self.failing_write = number_of(value)?,
            "room" if value == "each" => self.room = None,
            "room" => self.room = Some(number_of(value)?),
            "status" => self.status = number_of(value)?,
            _ => return Err(Trouble::Malformed("a field of no such name")),
        }
        Ok(())
    }

    /// The row of a text.
    pub fn read(text: &'a str) -> Result<Row<'a>, Trouble> {
        let Some((head, report)) = text.split_once("\n=") else {
            return Err(Trouble::Malformed("a row without a report"));
        };
        let mut row = Row::plain();
        row.report = report;
        let mut parts = head.split("\n- ");
        row.script = first_and_rest(parts.next().unwrap_or("")).1;
        for part in parts {
            let (field, rest) = first_and_rest(part);
            let Some((name, value)) = field.split_once(':') else {
                return Err(Trouble::Malformed("a field without a colon"));
            };
            row.set(name, value.trim())?;
            row.script = rest;
        }
        Ok(row)
    }

    /// The rooms of the sink, by the length of the report.
    pub fn rooms(&self, report: usize) -> Numbers {
        match self.room {
            Some(room) => Numbers::between(room, room),
            None => Numbers::between(0, report),
        }
    }
}
