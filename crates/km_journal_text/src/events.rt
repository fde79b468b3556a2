//! The line of an event, in two parts: a name stands between them in some lines, and what holds it can tell no bound on its length.

ghost use Rattle.std.specs.Prelude.{◌≡◌, ℕ, ◌+◌, ◌≤◌, ◌∷◌, ◌++◌, length, MatchOption, None, Some, decimal};
ghost use Rattle.km_base.specs.Digits.{hex};
ghost use Rattle.km_entries.specs.Lines.{file_word, refusal_number, refusal_numbers, reg_number, said_of, said_words};
ghost use Rattle.km_journal_text.specs.Events.{after_name, after_spaces, before_name, keyword as keyword_of, name_in, operands_of};

use km_base::{Act, Answer, FileCmd, Name, Refusal, Reg};
use km_text::Text;

/// The first word of an act.
fn keyword(act: &Act) -> &'static [u8]
    ensures word { result.now ≡ keyword_of act.now }
    ensures short { length result.now ≤ 14 }
{
    match act {
        Act::Section { .. } => b"section",
        Act::TaskStart(_) => b"task",
        Act::TaskExit(_) => b"exit",
        Act::SetReg { .. } => b"reg",
        Act::Load { .. } => b"load",
        Act::Store { .. } => b"store",
        Act::Kmalloc(_) => b"kmalloc",
        Act::Kfree(_) => b"kfree",
        Act::Pages(_) => b"pages",
        Act::FreePages(_) => b"freepages",
        Act::VmTake(_) => b"vmtake",
        Act::VmGive(_) => b"vmgive",
        Act::BootMem(_) => b"bootmem",
        Act::FreePart { .. } => b"free_part",
        Act::NotLeak(_) => b"not_leak",
        Act::Ignore(_) => b"ignore",
        Act::NoScan(_) => b"no_scan",
        Act::ScanArea { .. } => b"scan_area",
        Act::TransientLeak(_) => b"transient_leak",
        Act::File(_) => b"file",
        Act::Read => b"read",
        Act::Tick(_) => b"tick",
        Act::AutoBegin => b"auto",
        Act::Step => b"step",
        Act::Halt => b"halt",
    }
}

/// The name in an act, if there is one.
pub fn event_name(act: &Act) -> Option<&Name>
    ensures { MatchOption result (name_in act.now ≡ None) (λ name. name_in act.now ≡ Some name.now) }
{
    match act {
        Act::Section { name, .. } => Some(name),
        Act::TaskStart(name) => Some(name),
        Act::TaskExit(name) => Some(name),
        Act::SetReg { task, .. } => Some(task),
        Act::Load { task, .. } => Some(task),
        Act::Store { .. }
        | Act::Kmalloc(_)
        | Act::Kfree(_)
        | Act::Pages(_)
        | Act::FreePages(_)
        | Act::VmTake(_)
        | Act::VmGive(_)
        | Act::BootMem(_)
        | Act::FreePart { .. }
        | Act::NotLeak(_)
        | Act::Ignore(_)
        | Act::NoScan(_)
        | Act::ScanArea { .. }
        | Act::TransientLeak(_)
        | Act::File(_)
        | Act::Read
        | Act::Tick(_)
        | Act::AutoBegin
        | Act::Step
        | Act::Halt => None,
    }
}

/// The part of an event's line before its name: who made it, and the first word of its act.
pub fn event_begin(by: u32, act: &Act, out: &mut Text)
    ensures text { out.new ≡ before_name by act.now }
    ensures length { length out.new ≤ 35 }
{
    out.clear();
    out.push_decimal(by as u64);
    out.push(b" ");
    out.push(keyword(act));
}

/// Puts a space and a number at the end.
fn push_number(n: u64, out: &mut Text)
    requires { length out.old ≤ 107 }
    ensures text { out.new ≡ out.old ++ 32 ∷ decimal n }
    ensures length { length out.new ≤ length out.old + 21 }
{
    out.push(b" ");
    out.push_decimal(n);
}

/// Puts a space and an address at the end.
fn push_address(a: u64, out: &mut Text)
    requires { length out.old ≤ 109 }
    ensures text { out.new ≡ out.old ++ 32 ∷ hex a }
    ensures length { length out.new ≤ length out.old + 19 }
{
    out.push(b" ");
    out.push_hex(a);
}

/// The number of a register.
fn number_of(reg: Reg) -> u64
    ensures { result ≡ reg_number reg }
{
    match reg {
        Reg::R0 => 0,
        Reg::R1 => 1,
        Reg::R2 => 2,
        Reg::R3 => 3,
    }
}

/// Puts a space and a word of the file at the end.
fn push_file_word(word: FileCmd, out: &mut Text)
    requires { length out.old ≤ 36 }
    ensures text { out.new ≡ out.old ++ 32 ∷ file_word word }
    ensures length { length out.new ≤ length out.old + 26 }
{
    match word {
        FileCmd::Off => out.push(b" off"),
        FileCmd::StackOn => out.push(b" stack=on"),
        FileCmd::StackOff => out.push(b" stack=off"),
        FileCmd::ScanOn => out.push(b" scan=on"),
        FileCmd::ScanOff => out.push(b" scan=off"),
        FileCmd::ScanEvery(n) => {
            out.push(b" scan=");
            out.push_decimal(n as u64);
        }
        FileCmd::Scan => out.push(b" scan"),
        FileCmd::Clear => out.push(b" clear"),
        FileCmd::Dump(a) => {
            out.push(b" dump=");
            out.push_decimal(a);
        }
        FileCmd::Why(a) => {
            out.push(b" why=");
            out.push_decimal(a);
        }
    }
}

/// Puts the words of an act after its first word and its name at the end.
fn push_operands(act: &Act, out: &mut Text)
    requires { length out.old ≤ 36 }
    ensures text { out.new ≡ out.old ++ after_spaces (operands_of act.now) }
    ensures length { length out.new ≤ length out.old + 40 }
{
    match *act {
        Act::TaskStart(_) | Act::TaskExit(_) | Act::Read | Act::AutoBegin | Act::Step | Act::Halt =>
            {}
        Act::Section { words: n, .. }
        | Act::Kmalloc(n)
        | Act::Pages(n)
        | Act::VmTake(n)
        | Act::BootMem(n)
        | Act::Tick(n) => push_number(n, out),
        Act::Kfree(a)
        | Act::FreePages(a)
        | Act::VmGive(a)
        | Act::NotLeak(a)
        | Act::Ignore(a)
        | Act::NoScan(a)
        | Act::TransientLeak(a) => push_address(a, out),
        Act::SetReg { reg, value, .. } => {
            push_number(number_of(reg), out);
            push_address(value, out);
        }
        Act::Load { reg, addr, .. } => {
            push_number(number_of(reg), out);
            push_address(addr, out);
        }
        Act::Store { addr, value } => {
            push_address(addr, out);
            push_address(value, out);
        }
        Act::FreePart { addr, size } => {
            push_address(addr, out);
            push_number(size, out);
        }
        Act::ScanArea { addr, size } => {
            push_address(addr, out);
            push_number(size, out);
        }
        Act::File(word) => push_file_word(word, out),
    }
}

/// The number of a refusal.
fn refusal_code(refusal: Refusal) -> u64
    ensures { result ≡ refusal_number refusal }
{
    match refusal {
        Refusal::BadAddress => 1,
        Refusal::BadSize => 2,
        Refusal::NoRoom => 3,
        Refusal::NoSlot => 4,
        Refusal::NotAllocated => 5,
        Refusal::NoObject => 6,
        Refusal::NotInside => 7,
        Refusal::AreaOverlap => 8,
        Refusal::TooManyAreas => 9,
        Refusal::NoTask => 10,
        Refusal::TaskExists => 11,
        Refusal::TooManyTasks => 12,
        Refusal::NoSection => 13,
        Refusal::SectionExists => 14,
        Refusal::TooManySections => 15,
        Refusal::Busy(_) => 16,
        Refusal::NoScanRunning => 17,
        Refusal::Disabled => 18,
        Refusal::Invalid => 19,
        Refusal::NotBoot => 20,
    }
}

/// Puts the numbers of a refusal at the end.
fn push_refusal(refusal: Refusal, out: &mut Text)
    requires { length out.old ≤ 85 }
    ensures text { out.new ≡ out.old ++ after_spaces (refusal_numbers refusal) }
    ensures length { length out.new ≤ length out.old + 42 }
{
    push_number(refusal_code(refusal), out);
    if let Refusal::Busy(scan) = refusal {
        push_number(scan, out);
    }
}

/// Puts the words of an answer at the end.
fn push_answer(answer: &Answer, out: &mut Text)
    requires { length out.old ≤ 77 }
    ensures text { out.new ≡ out.old ++ after_spaces (said_words (said_of answer.now)) }
    ensures length { length out.new ≤ 127 }
{
    match *answer {
        Answer::Done => out.push(b" done"),
        Answer::At(a) => {
            out.push(b" at");
            push_address(a, out);
        }
        Answer::Loaded { addr, value } => {
            out.push(b" loaded");
            push_address(addr, out);
            push_address(value, out);
        }
        Answer::Ended { scan, new } => {
            out.push(b" ended");
            push_number(scan, out);
            push_number(new as u64, out);
        }
        Answer::Stopped { scan } => {
            out.push(b" stopped");
            push_number(scan, out);
        }
        Answer::Skipped => out.push(b" skipped"),
        Answer::Dumped(_) => out.push(b" dumped"),
        Answer::Refused(refusal) => {
            out.push(b" refused");
            push_refusal(refusal, out);
        }
    }
}

/// Puts the part of an event's line after its name at the end: the other words of its act, and what it was answered.
pub fn event_rest(act: &Act, answer: &Answer, out: &mut Text)
    requires { length out.old ≤ 35 }
    ensures { out.new ≡ out.old ++ after_name act.now answer.now }
{
    push_operands(act, out);
    out.push(b" =");
    push_answer(answer, out);
    out.end_line();
}
