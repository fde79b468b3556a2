//! A row of a table: its name, and then its fields, each of which begins with `- ` at the head of a line.

use crate::notation::number_of;
use crate::troubles::Trouble;

/// The room of a sink that is never full here.
const AMPLE: usize = 65_536;

/// The numbers from one on that are below the end.
#[derive(Clone, Copy)]
pub struct Numbers {
    pub from: usize,
    pub end: usize,
}

impl Numbers {
    /// The numbers from one to another, with both.
    fn between(from: usize, to: usize) -> Numbers {
        Numbers {
            from,
            end: to.saturating_add(1),
        }
    }

    /// This number alone.
    pub fn only(number: usize) -> Numbers {
        Numbers::between(number, number)
    }

    /// `5`, or `1 to 5`.
    fn read(text: &str) -> Result<Numbers, Trouble> {
        match text.split_once(" to ") {
            None => Ok(Numbers::only(number_of(text)?)),
            Some((from, to)) => Ok(Numbers::between(number_of(from)?, number_of(to)?)),
        }
    }
}

/// What a script is read from, and where its report goes.
#[derive(Clone, Copy, PartialEq)]
pub enum Streams {
    /// A source and a sink over memory.
    Memory,
    /// A reader and a writer of std.
    Std,
    /// The same, with a reader that fails at its end.
    FailingStd,
    /// A sink that only counts.
    Count,
}

impl Streams {
    fn read(text: &str) -> Result<Streams, Trouble> {
        match text {
            "std" => Ok(Streams::Std),
            "failing std" => Ok(Streams::FailingStd),
            "count" => Ok(Streams::Count),
            _ => Err(Trouble::Malformed("streams of no such name")),
        }
    }
}

/// A row as its fields say it.
#[derive(Clone, Copy)]
pub struct Row<'a> {
    /// The words after the program's name; `""` is the empty one.
    pub words: &'a str,
    /// The script, and what is put for each `@` in it, one after the other.
    pub script: &'a str,
    pub with: &'a str,
    /// The numbers of first bytes that are run, where it isn't all.
    pub cut: Option<Numbers>,
    /// How many bytes a read gives at most, one after the other.
    pub pieces: &'a str,
    /// The numbers of the reads that fail, each in a run of its own, and of the write that does; 0 is none.
    pub failing_reads: Numbers,
    pub failing_write: usize,
    /// The room of the sink; nothing for each from none to that of the report.
    pub room: Option<usize>,
    pub streams: Streams,
    pub report: &'a str,
    /// Whether the report only begins so. Each run then writes what the first one did.
    pub only_begins: bool,
    pub status: &'a str,
    /// The layer that is called in place of a script, and the calls with what they give.
    pub layer: &'a str,
    pub calls: &'a str,
}

impl<'a> Row<'a> {
    /// A row without fields.
    fn plain() -> Row<'a> {
        Row {
            words: "",
            script: "\\",
            with: "0",
            cut: None,
            pieces: "1 4096",
            failing_reads: Numbers::only(0),
            failing_write: 0,
            room: Some(AMPLE),
            streams: Streams::Memory,
            report: "",
            only_begins: false,
            status: "ok",
            layer: "",
            calls: "",
        }
    }

    /// Sets a field.
    fn set(&mut self, field: &str, value: &'a str) -> Result<(), Trouble> {
        match field {
            "words" => self.words = value,
            "script" => self.script = value,
            "with" => self.with = value,
            "cut" => self.cut = Some(Numbers::read(value)?),
            "pieces" => self.pieces = value,
            "failing read" => self.failing_reads = Numbers::read(value)?,
            "failing write" => self.failing_write = number_of(value)?,
            "room" if value == "each" => self.room = None,
            "room" => self.room = Some(number_of(value)?),
            "streams" => self.streams = Streams::read(value)?,
            "report" => self.report = value,
            "begins" => {
                self.report = value;
                self.only_begins = true;
            }
            "status" => self.status = value,
            "layer" => self.layer = value,
            "calls" => self.calls = value,
            _ => return Err(Trouble::Malformed("a field of no such name")),
        }
        Ok(())
    }

    /// The row of a text.
    pub fn read(text: &'a str) -> Result<Row<'a>, Trouble> {
        let mut row = Row::plain();
        for field in text.split("\n- ").skip(1) {
            let Some((field, value)) = field.split_once(':') else {
                return Err(Trouble::Malformed("a field without a colon"));
            };
            row.set(field, value.trim())?;
        }
        Ok(row)
    }

    /// The rooms of the sink, by the length of the report.
    pub fn rooms(&self, report: usize) -> Numbers {
        match self.room {
            Some(room) => Numbers::only(room),
            None => Numbers::between(0, report),
        }
    }
}
