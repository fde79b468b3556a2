//! How the words behind each command's first word are read.

ghost use Rattle.std.specs.Prelude.{◌≡◌};
ghost use Rattle.km_base.specs.Names.{name_of};
ghost use Rattle.km_model.specs.Grammar.{allocation, alone, any_word, file_command as file_command_of, memory_size, number, number_within, one_word, operand, register_of, two_words};
ghost use Rattle.km_base.specs.declared.lines.Command.TheVariants as command;

use crate::file::file_command_behind;
use crate::words::Words;
use km_base::sizes::MOST_STEPS;
use km_base::{Base, Command, NotACommand, Operand};

/// The longest time that a line lets pass, in milliseconds.
const LONGEST_TICK: u64 = 3_600_000;

/// `memory W`
pub fn memory(words: &mut Words) -> Result<Command, NotACommand>
    ensures read { result ≡ one_word memory_size words.old.end words.old.pieces command.Memory }
    ensures kept { words.new.foreign ≡ words.old.foreign }
{
    let size = words.only_memory_size()?;
    Ok(Command::Memory(size))
}

/// `section NAME W`
pub fn section(words: &mut Words) -> Result<Command, NotACommand>
    ensures read { result ≡ two_words name_of number words.old.end words.old.pieces command.Section }
    ensures kept { words.new.foreign ≡ words.old.foreign }
{
    let name = words.name()?;
    let size = words.only_number()?;
    Ok(Command::Section { name, words: size })
}

/// `task NAME`
pub fn task(words: &mut Words) -> Result<Command, NotACommand>
    ensures read { result ≡ one_word name_of words.old.end words.old.pieces command.Task }
    ensures kept { words.new.foreign ≡ words.old.foreign }
{
    let name = words.only_name()?;
    Ok(Command::Task(name))
}

/// `exit NAME`
pub fn exit(words: &mut Words) -> Result<Command, NotACommand>
    ensures read { result ≡ one_word name_of words.old.end words.old.pieces command.Exit }
    ensures kept { words.new.foreign ≡ words.old.foreign }
{
    let name = words.only_name()?;
    Ok(Command::Exit(name))
}

/// `set REG VAL`
pub fn set(words: &mut Words) -> Result<Command, NotACommand>
    ensures read { result ≡ two_words register_of operand words.old.end words.old.pieces command.Set }
    ensures kept { words.new.foreign ≡ words.old.foreign }
{
    let reg = words.register()?;
    let value = words.only_operand()?;
    Ok(Command::Set { reg, value })
}

/// `load REG ADDR`
pub fn load(words: &mut Words) -> Result<Command, NotACommand>
    ensures read { result ≡ two_words register_of operand words.old.end words.old.pieces command.Load }
    ensures kept { words.new.foreign ≡ words.old.foreign }
{
    let reg = words.register()?;
    let addr = words.only_operand()?;
    Ok(Command::Load { reg, addr })
}

/// `store ADDR VAL`
pub fn store(words: &mut Words) -> Result<Command, NotACommand>
    ensures read { result ≡ two_words operand operand words.old.end words.old.pieces command.Store }
    ensures kept { words.new.foreign ≡ words.old.foreign }
{
    let addr = words.operand()?;
    let value = words.only_operand()?;
    Ok(Command::Store { addr, value })
}

/// `erase ADDR`
pub fn erase(words: &mut Words) -> Result<Command, NotACommand>
    ensures read { result ≡ one_word operand words.old.end words.old.pieces command.Erase }
    ensures kept { words.new.foreign ≡ words.old.foreign }
{
    let addr = words.only_operand()?;
    Ok(Command::Erase(addr))
}

/// `print VAL`
pub fn print(words: &mut Words) -> Result<Command, NotACommand>
    ensures read { result ≡ one_word operand words.old.end words.old.pieces command.Print }
    ensures kept { words.new.foreign ≡ words.old.foreign }
{
    let value = words.only_operand()?;
    Ok(Command::Print(value))
}

/// `kmalloc SIZE [REG]`
pub fn kmalloc(words: &mut Words) -> Result<Command, NotACommand>
    ensures read { result ≡ allocation words.old.end words.old.pieces command.Kmalloc }
    ensures kept { words.new.foreign ≡ words.old.foreign }
{
    let size = words.number()?;
    let reg = words.register_or_none()?;
    Ok(Command::Kmalloc { size, reg })
}

/// `kzalloc SIZE [REG]`
pub fn kzalloc(words: &mut Words) -> Result<Command, NotACommand>
    ensures read { result ≡ allocation words.old.end words.old.pieces command.Kzalloc }
    ensures kept { words.new.foreign ≡ words.old.foreign }
{
    let size = words.number()?;
    let reg = words.register_or_none()?;
    Ok(Command::Kzalloc { size, reg })
}

/// `kfree ADDR`
pub fn kfree(words: &mut Words) -> Result<Command, NotACommand>
    ensures read { result ≡ one_word operand words.old.end words.old.pieces command.Kfree }
    ensures kept { words.new.foreign ≡ words.old.foreign }
{
    let addr = words.only_operand()?;
    Ok(Command::Kfree(addr))
}

/// `pages N [REG]`
pub fn pages(words: &mut Words) -> Result<Command, NotACommand>
    ensures read { result ≡ allocation words.old.end words.old.pieces command.Pages }
    ensures kept { words.new.foreign ≡ words.old.foreign }
{
    let size = words.number()?;
    let reg = words.register_or_none()?;
    Ok(Command::Pages { count: size, reg })
}

/// `freepages ADDR`
pub fn freepages(words: &mut Words) -> Result<Command, NotACommand>
    ensures read { result ≡ one_word operand words.old.end words.old.pieces command.FreePages }
    ensures kept { words.new.foreign ≡ words.old.foreign }
{
    let addr = words.only_operand()?;
    Ok(Command::FreePages(addr))
}

/// `vmalloc SIZE [REG]`
pub fn vmalloc(words: &mut Words) -> Result<Command, NotACommand>
    ensures read { result ≡ allocation words.old.end words.old.pieces command.Vmalloc }
    ensures kept { words.new.foreign ≡ words.old.foreign }
{
    let size = words.number()?;
    let reg = words.register_or_none()?;
    Ok(Command::Vmalloc { size, reg })
}

/// `vfree ADDR`
pub fn vfree(words: &mut Words) -> Result<Command, NotACommand>
    ensures read { result ≡ one_word operand words.old.end words.old.pieces command.Vfree }
    ensures kept { words.new.foreign ≡ words.old.foreign }
{
    let addr = words.only_operand()?;
    Ok(Command::Vfree(addr))
}

/// `bootmem SIZE [REG]`
pub fn bootmem(words: &mut Words) -> Result<Command, NotACommand>
    ensures read { result ≡ allocation words.old.end words.old.pieces command.BootMem }
    ensures kept { words.new.foreign ≡ words.old.foreign }
{
    let size = words.number()?;
    let reg = words.register_or_none()?;
    Ok(Command::BootMem { size, reg })
}

/// `free_part ADDR SIZE`
pub fn free_part(words: &mut Words) -> Result<Command, NotACommand>
    ensures read { result ≡ two_words operand number words.old.end words.old.pieces command.FreePart }
    ensures kept { words.new.foreign ≡ words.old.foreign }
{
    let addr = words.operand()?;
    let size = words.only_number()?;
    Ok(Command::FreePart { addr, size })
}

/// `not_leak ADDR`
pub fn not_leak(words: &mut Words) -> Result<Command, NotACommand>
    ensures read { result ≡ one_word operand words.old.end words.old.pieces command.NotLeak }
    ensures kept { words.new.foreign ≡ words.old.foreign }
{
    let addr = words.only_operand()?;
    Ok(Command::NotLeak(addr))
}

/// `ignore ADDR`
pub fn ignore(words: &mut Words) -> Result<Command, NotACommand>
    ensures read { result ≡ one_word operand words.old.end words.old.pieces command.Ignore }
    ensures kept { words.new.foreign ≡ words.old.foreign }
{
    let addr = words.only_operand()?;
    Ok(Command::Ignore(addr))
}

/// `no_scan ADDR`
pub fn no_scan(words: &mut Words) -> Result<Command, NotACommand>
    ensures read { result ≡ one_word operand words.old.end words.old.pieces command.NoScan }
    ensures kept { words.new.foreign ≡ words.old.foreign }
{
    let addr = words.only_operand()?;
    Ok(Command::NoScan(addr))
}

/// `scan_area ADDR SIZE`
pub fn scan_area(words: &mut Words) -> Result<Command, NotACommand>
    ensures read { result ≡ two_words operand number words.old.end words.old.pieces command.ScanArea }
    ensures kept { words.new.foreign ≡ words.old.foreign }
{
    let addr = words.operand()?;
    let size = words.only_number()?;
    Ok(Command::ScanArea { addr, size })
}

/// `transient_leak ADDR`
pub fn transient_leak(words: &mut Words) -> Result<Command, NotACommand>
    ensures read { result ≡ one_word operand words.old.end words.old.pieces command.TransientLeak }
    ensures kept { words.new.foreign ≡ words.old.foreign }
{
    let addr = words.only_operand()?;
    Ok(Command::TransientLeak(addr))
}

/// `write WORD`, with any word
pub fn write(words: &mut Words) -> Result<Command, NotACommand>
    ensures read { result ≡ one_word any_word words.old.end words.old.pieces (λ word. command.Write (file_command_of word)) }
    ensures kept { words.new.foreign ≡ words.old.foreign }
{
    let word = words.only_word()?;
    Ok(Command::Write(file_command_behind(word.first, word.rest)))
}

/// `read`
pub fn read(words: &mut Words) -> Result<Command, NotACommand>
    ensures read { result ≡ alone command.Read words.old.end words.old.pieces }
    ensures kept { words.new.foreign ≡ words.old.foreign }
{
    words.none_left()?;
    Ok(Command::Read)
}

/// `tick N`
pub fn tick(words: &mut Words) -> Result<Command, NotACommand>
    ensures read { result ≡ one_word (number_within 0 3600000) words.old.end words.old.pieces command.Tick }
    ensures kept { words.new.foreign ≡ words.old.foreign }
{
    let time = words.only_number_within(0, LONGEST_TICK)?;
    Ok(Command::Tick(time))
}

/// `begin`
pub fn begin(words: &mut Words) -> Result<Command, NotACommand>
    ensures read { result ≡ alone command.Begin words.old.end words.old.pieces }
    ensures kept { words.new.foreign ≡ words.old.foreign }
{
    words.none_left()?;
    Ok(Command::Begin)
}

/// `step N`
pub fn step(words: &mut Words) -> Result<Command, NotACommand>
    ensures read { result ≡ one_word (number_within 1 1000000) words.old.end words.old.pieces command.Step }
    ensures kept { words.new.foreign ≡ words.old.foreign }
{
    let count = words.only_number_within(1, MOST_STEPS)?;
    Ok(Command::Step(count))
}

/// `finish`
pub fn finish(words: &mut Words) -> Result<Command, NotACommand>
    ensures read { result ≡ alone command.Finish words.old.end words.old.pieces }
    ensures kept { words.new.foreign ≡ words.old.foreign }
{
    words.none_left()?;
    Ok(Command::Finish)
}
