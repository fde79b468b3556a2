//! Counts the commands of a script, and runs none of them.

ghost use Rattle.km_forms.specs.Counts.{CountsScript};

use km_base::sizes::{LONGEST_INPUT, TOO_LONG};
use km_base::{Line, Status};
use km_edge::Source;
use km_reader::{Next, Reader};
use km_script::read_line;

/// A script between two lines: the number of the next line, from 1, and the number of commands before it.
#[derive(Drop)]
pub struct Count {
    pub number: u64,
    pub commands: u64,
}

impl Count {
    ghost use Rattle.std.specs.Prelude.{◌≡◌, ◌-◌, ◌<◌, ◌^◌};
    ghost use Rattle.km_forms.specs.Counts.{CountsLine, IsRefusal, first_count};

    /// Before the first line.
    fn new() -> Count
        ensures { result ≡ first_count }
    {
        Count {
            number: 1,
            commands: 0,
        }
    }

    /// How a script ends whose next line is refused at a column.
    fn refused(&self, column: u32) -> Status
        ensures { IsRefusal self.now column result }
    {
        Status::NotACommand {
            line: self.number,
            column,
        }
    }

    /// Counts one line, without its line feed. An `Err` is how the script ends.
    fn line(&mut self, bytes: &[u8]) -> Result<(), Status>
        requires numbered { self.old.number < 2 ^ 64 - 1 }
        requires counted { self.old.commands < 2 ^ 64 - 1 }
        ensures { CountsLine self.old self.new bytes.now result }
    {
        match read_line(bytes, self.commands == 0) {
            Err(refused) => return Err(self.refused(refused.column)),
            Ok(Line::Blank) => {}
            Ok(Line::Command(_)) => self.commands += 1,
        }
        self.number += 1;
        Ok(())
    }
}

/// Reads a script to its end, and gives the number of its commands.
pub fn count_script<S: Source>(source: &mut S) -> Result<u64, Status>
    ensures { CountsScript (S.state source.old) (S.state source.new) result }
{
    let mut reader = Reader::new(LONGEST_INPUT);
    let mut count = Count::new();
    loop {
        match reader.next(source) {
            Next::Line => {
                if let Err(ended) = count.line(reader.line()) {
                    return Err(ended);
                }
            }
            Next::Rest => {
                return match count.line(reader.line()) {
                    Ok(()) => Ok(count.commands),
                    Err(ended) => Err(ended),
                };
            }
            Next::Long => return Err(count.refused(TOO_LONG)),
            Next::End => return Ok(count.commands),
            Next::Fault => return Err(Status::ReadFault),
            Next::TooLong => return Err(Status::TooLong),
        }
    }
}
