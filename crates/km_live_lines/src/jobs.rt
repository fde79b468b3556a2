//! The commands that a thread may hold.

ghost use Rattle.std.specs.Prelude.{◌≡◌, bytes_eq, option_map};
ghost use Rattle.std.specs.List.{list_any};
ghost use Rattle.km_live_model.specs.LiveGrammar.{as_job as as_job_line, job_of as job_of_command, job_words, own_register};
ghost use Rattle.km_live_lines.specs.Columns.{job_read};
ghost use Rattle.km_script.specs.Keywords.{text_of};
ghost use Rattle.km_script.specs.Words.{piece_of};

use km_base::{Command, NotACommand, Reg, RegName};
use km_live_model::{JobCommand, LiveLine};
use km_script::{Keyword, Word, Words, read_by};

/// Whether a thread may hold the command that begins with a keyword.
fn is_job(keyword: Keyword) -> bool
    ensures { result ≡ list_any (bytes_eq (text_of keyword)) job_words }
{
    match keyword {
        Keyword::Set
        | Keyword::Load
        | Keyword::Store
        | Keyword::Erase
        | Keyword::Kmalloc
        | Keyword::Kzalloc
        | Keyword::Kfree
        | Keyword::NotLeak
        | Keyword::Ignore
        | Keyword::NoScan
        | Keyword::ScanArea => true,
        _ => false,
    }
}

/// A register of the thread's own task, if one is named.
fn own(reg: Option<RegName>) -> Option<Reg>
    ensures { result ≡ option_map own_register reg }
{
    match reg {
        Some(reg) => Some(reg.reg),
        None => None,
    }
}

/// A command without the name of its thread's task, if a thread may hold it.
fn job_of(command: Command) -> Option<JobCommand>
    ensures { result ≡ job_of_command command }
{
    match command {
        Command::Set { reg, value } => Some(JobCommand::Set {
            reg: reg.reg,
            value,
        }),
        Command::Load { reg, addr } => Some(JobCommand::Load { reg: reg.reg, addr }),
        Command::Store { addr, value } => Some(JobCommand::Store { addr, value }),
        Command::Erase(addr) => Some(JobCommand::Erase(addr)),
        Command::Kmalloc { size, reg } => Some(JobCommand::Kmalloc {
            size,
            reg: own(reg),
        }),
        Command::Kzalloc { size, reg } => Some(JobCommand::Kzalloc {
            size,
            reg: own(reg),
        }),
        Command::Kfree(addr) => Some(JobCommand::Kfree(addr)),
        Command::NotLeak(addr) => Some(JobCommand::NotLeak(addr)),
        Command::Ignore(addr) => Some(JobCommand::Ignore(addr)),
        Command::NoScan(addr) => Some(JobCommand::NoScan(addr)),
        Command::ScanArea { addr, size } => Some(JobCommand::ScanArea { addr, size }),
        _ => None,
    }
}

/// A command as a line of a thread, whose first word stands at a column.
fn as_job(column: u32, read: Result<Command, NotACommand>) -> Result<LiveLine, NotACommand>
    ensures { result ≡ as_job_line column read }
{
    let command = read?;
    match job_of(command) {
        Some(job) => Ok(LiveLine::InThread(job)),
        None => Err(NotACommand { column }),
    }
}

/// Reads a command of a thread, from its first word on. Its operands may still name other tasks.
pub fn read_job(word: Word, words: &mut Words) -> Result<LiveLine, NotACommand>
    ensures read { result ≡ job_read (piece_of word.entry) words.old.end words.old.pieces }
    ensures kept { words.new.foreign ≡ words.old.foreign }
{
    let Some(keyword) = Keyword::of(word.first, word.rest) else {
        return Err(word.refused());
    };
    if is_job(keyword) {
        as_job(word.column, read_by(keyword, words))
    } else {
        Err(word.refused())
    }
}
