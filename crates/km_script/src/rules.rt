//! The commands of the whole language.

ghost use Rattle.std.specs.Prelude.{◌≡◌};
ghost use Rattle.km_script.specs.Keywords.{read_as};

use crate::keywords::Keyword;
use crate::rows;
use crate::words::Words;
use km_base::{Command, NotACommand};

/// The command that begins with a keyword, and has these words behind it.
pub fn read_by(keyword: Keyword, words: &mut Words) -> Result<Command, NotACommand>
    ensures read { result ≡ read_as keyword words.old.end words.old.pieces }
    ensures kept { words.new.foreign ≡ words.old.foreign }
{
    match keyword {
        Keyword::Memory => rows::memory(words),
        Keyword::Section => rows::section(words),
        Keyword::Task => rows::task(words),
        Keyword::Exit => rows::exit(words),
        Keyword::Set => rows::set(words),
        Keyword::Load => rows::load(words),
        Keyword::Store => rows::store(words),
        Keyword::Erase => rows::erase(words),
        Keyword::Print => rows::print(words),
        Keyword::Kmalloc => rows::kmalloc(words),
        Keyword::Kzalloc => rows::kzalloc(words),
        Keyword::Kfree => rows::kfree(words),
        Keyword::Pages => rows::pages(words),
        Keyword::FreePages => rows::freepages(words),
        Keyword::Vmalloc => rows::vmalloc(words),
        Keyword::Vfree => rows::vfree(words),
        Keyword::BootMem => rows::bootmem(words),
        Keyword::FreePart => rows::free_part(words),
        Keyword::NotLeak => rows::not_leak(words),
        Keyword::Ignore => rows::ignore(words),
        Keyword::NoScan => rows::no_scan(words),
        Keyword::ScanArea => rows::scan_area(words),
        Keyword::TransientLeak => rows::transient_leak(words),
        Keyword::Write => rows::write(words),
        Keyword::Read => rows::read(words),
        Keyword::Tick => rows::tick(words),
        Keyword::Begin => rows::begin(words),
        Keyword::Step => rows::step(words),
        Keyword::Finish => rows::finish(words),
    }
}
