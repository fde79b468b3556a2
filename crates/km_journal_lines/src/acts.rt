//! How the words after each act's first word are read.

ghost use Rattle.std.specs.Prelude.{◌≡◌, ◌∷◌};
ghost use Rattle.km_base.specs.Names.{name_of};
ghost use Rattle.km_base.specs.declared.acts.Act.TheVariants as act;
ghost use Rattle.km_entries.specs.Words.{plain_address, plain_number};
ghost use Rattle.km_entries.specs.Reading.{act_of, file_of, reg_of, with_one, with_three, with_two};
ghost use Rattle.km_journal_lines.specs.Keywords.{read_as};
ghost use Rattle.km_journal_lines.specs.Words.{Reads};

use crate::keywords::Keyword;
use crate::words::Words;
use km_base::Act;

/// `section NAME n`
fn section(words: &mut Words) -> Option<Act>
    ensures { Reads result words.new (with_two name_of plain_number act.Section words.old) }
{
    let name = words.name()?;
    let words_count = words.number()?;
    Some(Act::Section {
        name,
        words: words_count,
    })
}

/// `task NAME`
fn task(words: &mut Words) -> Option<Act>
    ensures { Reads result words.new (with_one name_of act.TaskStart words.old) }
{
    let name = words.name()?;
    Some(Act::TaskStart(name))
}

/// `exit NAME`
fn exit(words: &mut Words) -> Option<Act>
    ensures { Reads result words.new (with_one name_of act.TaskExit words.old) }
{
    let name = words.name()?;
    Some(Act::TaskExit(name))
}

/// `reg NAME n a`
fn reg(words: &mut Words) -> Option<Act>
    ensures { Reads result words.new (with_three name_of reg_of plain_address act.SetReg words.old) }
{
    let task = words.name()?;
    let reg = words.reg()?;
    let value = words.address()?;
    Some(Act::SetReg { task, reg, value })
}

/// `load NAME n a`
fn load(words: &mut Words) -> Option<Act>
    ensures { Reads result words.new (with_three name_of reg_of plain_address act.Load words.old) }
{
    let task = words.name()?;
    let reg = words.reg()?;
    let addr = words.address()?;
    Some(Act::Load { task, reg, addr })
}

/// `store a a`
fn store(words: &mut Words) -> Option<Act>
    ensures { Reads result words.new (with_two plain_address plain_address act.Store words.old) }
{
    let addr = words.address()?;
    let value = words.address()?;
    Some(Act::Store { addr, value })
}

/// `kmalloc n`
fn kmalloc(words: &mut Words) -> Option<Act>
    ensures { Reads result words.new (with_one plain_number act.Kmalloc words.old) }
{
    let size = words.number()?;
    Some(Act::Kmalloc(size))
}

/// `kfree a`
fn kfree(words: &mut Words) -> Option<Act>
    ensures { Reads result words.new (with_one plain_address act.Kfree words.old) }
{
    let start = words.address()?;
    Some(Act::Kfree(start))
}

/// `pages n`
fn pages(words: &mut Words) -> Option<Act>
    ensures { Reads result words.new (with_one plain_number act.Pages words.old) }
{
    let count = words.number()?;
    Some(Act::Pages(count))
}

/// `freepages a`
fn freepages(words: &mut Words) -> Option<Act>
    ensures { Reads result words.new (with_one plain_address act.FreePages words.old) }
{
    let start = words.address()?;
    Some(Act::FreePages(start))
}

/// `vmtake n`
fn vmtake(words: &mut Words) -> Option<Act>
    ensures { Reads result words.new (with_one plain_number act.VmTake words.old) }
{
    let size = words.number()?;
    Some(Act::VmTake(size))
}

/// `vmgive a`
fn vmgive(words: &mut Words) -> Option<Act>
    ensures { Reads result words.new (with_one plain_address act.VmGive words.old) }
{
    let start = words.address()?;
    Some(Act::VmGive(start))
}

/// `bootmem n`
fn bootmem(words: &mut Words) -> Option<Act>
    ensures { Reads result words.new (with_one plain_number act.BootMem words.old) }
{
    let size = words.number()?;
    Some(Act::BootMem(size))
}

/// `free_part a n`
fn free_part(words: &mut Words) -> Option<Act>
    ensures { Reads result words.new (with_two plain_address plain_number act.FreePart words.old) }
{
    let addr = words.address()?;
    let size = words.number()?;
    Some(Act::FreePart { addr, size })
}

/// `not_leak a`
fn not_leak(words: &mut Words) -> Option<Act>
    ensures { Reads result words.new (with_one plain_address act.NotLeak words.old) }
{
    let start = words.address()?;
    Some(Act::NotLeak(start))
}

/// `ignore a`
fn ignore(words: &mut Words) -> Option<Act>
    ensures { Reads result words.new (with_one plain_address act.Ignore words.old) }
{
    let start = words.address()?;
    Some(Act::Ignore(start))
}

/// `no_scan a`
fn no_scan(words: &mut Words) -> Option<Act>
    ensures { Reads result words.new (with_one plain_address act.NoScan words.old) }
{
    let start = words.address()?;
    Some(Act::NoScan(start))
}

/// `scan_area a n`
fn scan_area(words: &mut Words) -> Option<Act>
    ensures { Reads result words.new (with_two plain_address plain_number act.ScanArea words.old) }
{
    let addr = words.address()?;
    let size = words.number()?;
    Some(Act::ScanArea { addr, size })
}

/// `transient_leak a`
fn transient_leak(words: &mut Words) -> Option<Act>
    ensures { Reads result words.new (with_one plain_address act.TransientLeak words.old) }
{
    let start = words.address()?;
    Some(Act::TransientLeak(start))
}

/// `file WORD`
fn file(words: &mut Words) -> Option<Act>
    ensures { Reads result words.new (with_one file_of act.File words.old) }
{
    let word = words.file()?;
    Some(Act::File(word))
}

/// `tick n`
fn tick(words: &mut Words) -> Option<Act>
    ensures { Reads result words.new (with_one plain_number act.Tick words.old) }
{
    let n = words.number()?;
    Some(Act::Tick(n))
}

/// The act that begins with a keyword, and has these words after it.
fn read_by(keyword: Keyword, words: &mut Words) -> Option<Act>
    ensures { Reads result words.new (read_as keyword words.old) }
{
    match keyword {
        Keyword::Section => section(words),
        Keyword::Task => task(words),
        Keyword::Exit => exit(words),
        Keyword::Reg => reg(words),
        Keyword::Load => load(words),
        Keyword::Store => store(words),
        Keyword::Kmalloc => kmalloc(words),
        Keyword::Kfree => kfree(words),
        Keyword::Pages => pages(words),
        Keyword::FreePages => freepages(words),
        Keyword::VmTake => vmtake(words),
        Keyword::VmGive => vmgive(words),
        Keyword::BootMem => bootmem(words),
        Keyword::FreePart => free_part(words),
        Keyword::NotLeak => not_leak(words),
        Keyword::Ignore => ignore(words),
        Keyword::NoScan => no_scan(words),
        Keyword::ScanArea => scan_area(words),
        Keyword::TransientLeak => transient_leak(words),
        Keyword::File => file(words),
        Keyword::Tick => tick(words),
        Keyword::Read => Some(Act::Read),
        Keyword::Auto => Some(Act::AutoBegin),
        Keyword::Step => Some(Act::Step),
        Keyword::Halt => Some(Act::Halt),
    }
}

/// An act.
pub fn read_act(words: &mut Words) -> Option<Act>
    ensures { Reads result words.new (act_of words.old) }
{
    let word = words.next()?;
    let Some(keyword) = Keyword::of(word) else {
        return None;
    };
    read_by(keyword, words)
}
