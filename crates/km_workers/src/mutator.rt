//! A mutator of a round.

ghost use Rattle.std.specs.Prelude.{◌≡◌, ◌||◌, ℕ, ◌/◌, map, Some, is_none};
ghost use Rattle.km_model.specs.Memory.{words_from};
ghost use Rattle.km_model.specs.Placement.{kmalloc_span};
ghost use Rattle.km_laws.specs.Laws.{BlockLies};
ghost use Rattle.km_words.specs.Told.{StoreStep};
ghost use Rattle.km_live_model.specs.Courses.{act_in, made_at, step_at, zeroed};
ghost use Rattle.km_workers.specs.Workers.{Acted, Asked, Followed, IsCourse, IsFull, IsZeroable, LineMade, LoadsInto, May, Stepped, loads_of, standing};

use crate::acts::Acts;
use crate::registers::{set, set_start, value};
use km_base::{Act, Addr, Answer, Reg};
use km_live_model::JobLine;
use km_slab::words_for;
use km_words::{Words, in_memory};

/// A thread of a round: its registers, whether an act of it was left out, and its words.
#[derive(Drop)]
pub struct Mutator<W> {
    pub registers: [u64; 4],
    pub full: bool,
    pub words: W,
}

/// Where an allocation was made, if it was.
fn start_of(answer: Option<Answer>) -> Option<u64>
    ensures { result ≡ made_at answer }
{
    match answer {
        Some(Answer::At(start)) => Some(start),
        _ => None,
    }
}

/// The act of a line, if it has one.
pub fn act_of(registers: &[u64; 4], line: &JobLine) -> Option<Act>
    ensures { result ≡ act_in registers.now line.now }
{
    match *line {
        JobLine::Kmalloc { size, .. } => Some(Act::Kmalloc(size)),
        JobLine::Kzalloc { size, .. } => Some(Act::Kmalloc(size)),
        JobLine::Kfree(addr) => Some(Act::Kfree(value(registers, &addr))),
        JobLine::NotLeak(addr) => Some(Act::NotLeak(value(registers, &addr))),
        JobLine::Ignore(addr) => Some(Act::Ignore(value(registers, &addr))),
        JobLine::NoScan(addr) => Some(Act::NoScan(value(registers, &addr))),
        JobLine::ScanArea { addr, size } => Some(Act::ScanArea {
            addr: value(registers, &addr),
            size,
        }),
        _ => None,
    }
}

/// Stores a word, if there is one at the address.
fn store<W: Words>(words: &mut W, addr: u64, value: u64)
    ensures { Stepped (W.told words.old) (W.told words.new) (step_at (W.told words.old).size addr (StoreStep addr value)) }
{
    if in_memory(Addr(addr), words.words()) {
        words.store(Addr(addr), value);
    }
}

/// Loads a word into a register, if there is one at the address.
fn load<W: Words>(words: &mut W, registers: &mut [u64; 4], reg: Reg, addr: u64)
    ensures { LoadsInto (W.told words.old) (W.told words.new) registers.old registers.new reg addr }
{
    if in_memory(Addr(addr), words.words()) {
        let found = words.load(Addr(addr));
        set(registers, reg, found);
    }
}

/// Stores 0 into the words of a new block, in rising order.
fn clear<W: Words>(words: &mut W, size: u64, start: u64)
    requires { BlockLies (W.told words.old).size size start }
    ensures { Stepped (W.told words.old) (W.told words.new) (map (λ b. StoreStep b 0) (words_from (kmalloc_span size / 8) start)) }
{
    for i in 0..words_for(size) {
        words.store(Addr(start.wrapping_add(8 * i)), 0);
    }
}

/// Stores 0 into the words of the block of an allocation, if it was made.
fn clear_made<W: Words>(words: &mut W, size: u64, start: Option<u64>)
    requires { (a : ℕ) → start ≡ Some a → BlockLies (W.told words.old).size size a }
    ensures { Stepped (W.told words.old) (W.told words.new) (zeroed size start) }
{
    if let Some(start) = start {
        clear(words, size, start);
    }
}

/// Makes the steps of a line and sets its registers, after the answer to its act.
fn follow<W: Words>(words: &mut W, registers: &mut [u64; 4], line: &JobLine, answer: Option<Answer>)
    requires { IsZeroable (W.told words.old).size line.now answer }
    ensures { Followed (W.told words.old) (W.told words.new) registers.old registers.new line.now answer }
{
    match *line {
        JobLine::Set { reg, value: new } => {
            let new = value(registers, &new);
            set(registers, reg, new);
        }
        JobLine::Load { reg, addr } => {
            let addr = value(registers, &addr);
            load(words, registers, reg, addr);
        }
        JobLine::Store { addr, value: new } => {
            store(words, value(registers, &addr), value(registers, &new));
        }
        JobLine::Erase(addr) => store(words, value(registers, &addr), 0),
        JobLine::Kmalloc { reg, .. } => set_start(registers, reg, start_of(answer)),
        JobLine::Kzalloc { size, reg } => {
            clear_made(words, size, start_of(answer));
            set_start(registers, reg, start_of(answer));
        }
        JobLine::Kfree(_)
        | JobLine::NotLeak(_)
        | JobLine::Ignore(_)
        | JobLine::NoScan(_)
        | JobLine::ScanArea { .. } => {}
    }
}

impl<W: Words> Mutator<W> {
    /// Makes an act, unless the journal has no room for it.
    fn ask<A: Acts<W>>(&mut self, acts: &mut A, act: Act) -> Option<Answer>
        requires may { May (A.acting acts.old) (W.told self.old.words).size act }
        ensures acted { Acted (A.acting acts.old) (A.acting acts.new) act result }
        ensures stepped { Stepped (W.told self.old.words) (W.told self.new.words) (loads_of result) }
        ensures registers { self.new.registers ≡ self.old.registers }
        ensures full { self.new.full ≡ (self.old.full || is_none result) }
    {
        let answer = acts.act(&mut self.words, act);
        if answer.is_none() {
            self.full = true;
        }
        answer
    }

    /// Makes the act of a line, if it has one.
    fn asked<A: Acts<W>>(&mut self, acts: &mut A, line: &JobLine) -> Option<Answer>
        requires words { (A.acting acts.old).words ≡ (W.told self.old.words).size }
        requires full { IsFull (A.acting acts.old) (standing self.old.registers self.old.full) }
        ensures asked { Asked (A.acting acts.old) (A.acting acts.new) (W.told self.old.words) (W.told self.new.words) self.old.registers self.old.full self.new.full line.now result }
        ensures registers { self.new.registers ≡ self.old.registers }
    {
        match act_of(&self.registers, line) {
            Some(act) => self.ask(acts, act),
            None => None,
        }
    }

    /// Runs one line.
    pub fn line<A: Acts<W>>(&mut self, acts: &mut A, line: &JobLine)
        requires words { (A.acting acts.old).words ≡ (W.told self.old.words).size }
        requires full { IsFull (A.acting acts.old) (standing self.old.registers self.old.full) }
        ensures made { LineMade (A.acting acts.old) (A.acting acts.new) (W.told self.old.words) (W.told self.new.words) (standing self.old.registers self.old.full) (standing self.new.registers self.new.full) line.now }
        ensures full { IsFull (A.acting acts.new) (standing self.new.registers self.new.full) }
    {
        let answer = self.asked(acts, line);
        follow(&mut self.words, &mut self.registers, line, answer);
    }

    /// Runs the lines of a thread, in order.
    pub fn run<A: Acts<W>>(&mut self, acts: &mut A, lines: &[JobLine])
        requires words { (A.acting acts.old).words ≡ (W.told self.old.words).size }
        requires full { IsFull (A.acting acts.old) (standing self.old.registers self.old.full) }
        ensures course { IsCourse (A.acting acts.old) (A.acting acts.new) (W.told self.old.words) (W.told self.new.words) (standing self.old.registers self.old.full) (standing self.new.registers self.new.full) lines.now }
        ensures full { IsFull (A.acting acts.new) (standing self.new.registers self.new.full) }
    {
        for line in lines {
            self.line(acts, line);
        }
    }
}
