//! The parts of a kernel, and what each act does to them.

ghost use Rattle.std.specs.Prelude.{◌≡◌, ℕ, ◌+◌, ◌<◌, ◌≤◌, ◌^◌, ◌%◌, true, [], Some, None, option_map, IfOk, IfSome};
ghost use Rattle.km_base.specs.declared.acts.Act.TheVariants as acts;
ghost use Rattle.km_base.specs.declared.acts.Answer.TheVariants.{Loaded, Refused};
ghost use Rattle.km_model.specs.Answers.{is_uneven as is_uneven_size, part_answer};
ghost use Rattle.km_model.specs.Blocks.{Block, block_with};
ghost use Rattle.km_model.specs.Headline.{IsMemorySize};
ghost use Rattle.km_model.specs.Placement.{head_with, slot_of_area};
ghost use Rattle.km_vmalloc.specs.Areas.{area_at};
ghost use Rattle.km_core.specs.Kernels.{act_of, answered, done_if, heeded, is_setting};
ghost use Rattle.km_state.specs.State.{State, blocks_in, opened, running_of};
ghost use Rattle.km_base.specs.declared.acts.FileCmd.TheVariants as file;
ghost use Rattle.km_state.specs.StateAfter.{registered_at};
ghost use Rattle.km_tasks.specs.Roll.{Roll};
ghost use Rattle.km_objects.specs.Objects.{Agree, AreOf, places};
ghost use Rattle.km_words.specs.Told.{Told};
ghost use Rattle.km_core.specs.Parts.{Answers, HasPlace, IsReady, IsWhole, StandsAs, Touches, set_in};

use crate::settings::Settings;
use km_base::sizes::{MOST_WORDS, PAGE_WORDS};
use km_base::{Act, Addr, Answer, FileCmd, Name, NoMemory, Refusal, Reg, Span};
use km_hosts::Hosts;
use km_map::ObjectMap;
use km_objects::Objects;
use km_record::Note;
use km_sections::Sections;
use km_tasks::Tasks;
use km_track::Track;
use km_vmalloc::VmArea;
use km_words::{Words, in_memory};
use std::alloc::Global;
use std::marker::Model;

/// The bytes of the largest memory.
const MOST_BYTES: u64 = 8 * MOST_WORDS;

/// The hosts of a memory, the live blocks with their scanner, and what is set.
#[derive(Drop)]
pub struct Kernel<M: ObjectMap> {
    words: u64,
    hosts: Hosts,
    objects: Objects<M>,
    settings: Settings,
}

impl<M: ObjectMap> Model for Kernel<M> {
    ghost use Rattle.km_core.specs.Parts.{Parts};

    ghost Value = { Parts };

    ghost view = { λ k. record { words = k.words; hosts = k.hosts; objects = k.objects; settings = k.settings } };
}

impl<M: ObjectMap> Kernel<M> {
    /// A kernel with so many words of memory, and nothing but the page of vmap slots.
    pub fn boot(alloc: Global, words: u64, map: M) -> Result<Kernel<M>, NoMemory>
        requires memory { IsMemorySize words }
        requires empty { M.entries map ≡ [] }
        requires room { words ≤ M.room map }
        ensures stands { IfOk result (λ k. StandsAs k (opened words)) }
        ensures whole { IfOk result (λ k. IsWhole k) }
    {
        Ok(Kernel {
            words,
            hosts: Hosts::new(alloc, (words / PAGE_WORDS) as u32)?,
            objects: Objects::new(alloc, words as u32, map)?,
            settings: Settings::new(),
        })
    }

    /// Registers a block where `off` was not written. References to it are passed on to a block at `excess`.
    fn register(&mut self, span: Span, minimum: u8, excess: Option<Addr>)
        requires { self.old.settings.enabled ≡ true → HasPlace self.old.objects span }
        ensures registered { (s : State) → set_in s ≡ self.old.settings → AreOf self.old.objects s → AreOf self.new.objects (registered_at s span.start.0 span.size minimum (option_map (λ a. a.0) excess)) }
        ensures agree { (roll : Roll) → Agree self.old.objects roll → Agree self.new.objects roll }
        ensures places { places self.new.objects ≡ places self.old.objects }
        ensures others { self.new ≡ record self.old { objects = self.new.objects } }
    {
        if self.settings.enabled {
            self.objects
                .register(span, minimum, self.settings.now, excess);
        }
    }

    /// Adds a section and registers its words. It needs no reference.
    fn section(&mut self, name: Name, words: u64) -> Result<Answer, Refusal>
        requires ready { IsReady self.old }
        ensures answers { Answers self.old self.new (acts.Section name words) (answered result) }
        ensures quiet { (t : Told) → Touches (acts.Section name words) (answered result) t t }
    {
        let span = self.hosts.section(name, words)?;
        self.register(span, 0, None);
        Ok(Answer::Done)
    }

    /// Starts a task.
    fn start_task(&mut self, name: Name) -> Result<Answer, Refusal>
        requires ready { IsReady self.old }
        ensures answers { Answers self.old self.new (acts.TaskStart name) (answered result) }
        ensures quiet { (t : Told) → Touches (acts.TaskStart name) (answered result) t t }
    {
        self.hosts.start_task(name)?;
        Ok(Answer::Done)
    }

    /// Ends a task.
    fn exit_task(&mut self, name: Name) -> Result<Answer, Refusal>
        requires ready { IsReady self.old }
        ensures answers { Answers self.old self.new (acts.TaskExit name) (answered result) }
        ensures quiet { (t : Told) → Touches (acts.TaskExit name) (answered result) t t }
    {
        self.hosts.exit_task(name)?;
        Ok(Answer::Done)
    }

    /// Sets a register of a task.
    fn set_reg(&mut self, task: Name, reg: Reg, value: u64) -> Result<Answer, Refusal>
        requires ready { IsReady self.old }
        ensures answers { Answers self.old self.new (acts.SetReg task reg value) (answered result) }
        ensures quiet { (t : Told) → Touches (acts.SetReg task reg value) (answered result) t t }
    {
        self.hosts.set_reg(task, reg, value)?;
        Ok(Answer::Done)
    }

    /// Loads a word into a register of a task.
    fn load<W: Words>(
        &mut self,
        words: &mut W,
        task: Name,
        reg: Reg,
        a: Addr,
    ) -> Result<Answer, Refusal>
        requires ready { IsReady self.old }
        requires size { (W.told words.old).size ≡ self.old.words }
        ensures answers { Answers self.old self.new (acts.Load task reg a.0) (answered result) }
        ensures words { Touches (acts.Load task reg a.0) (answered result) (W.told words.old) (W.told words.new) }
    {
        if self.hosts.tasks().reg(task, reg).is_err() {
            return Err(Refusal::NoTask);
        }
        if !in_memory(a, self.words) {
            return Err(Refusal::BadAddress);
        }
        let value = words.load(a);
        let _ = self.hosts.set_reg(task, reg, value);
        Ok(Answer::Loaded { addr: a.0, value })
    }

    /// Stores a word.
    fn store<W: Words>(&mut self, words: &mut W, a: Addr, value: u64) -> Result<Answer, Refusal>
        requires ready { IsReady self.old }
        requires size { (W.told words.old).size ≡ self.old.words }
        ensures answers { Answers self.old self.new (acts.Store a.0 value) (answered result) }
        ensures words { Touches (acts.Store a.0 value) (answered result) (W.told words.old) (W.told words.new) }
    {
        if !in_memory(a, self.words) {
            return Err(Refusal::BadAddress);
        }
        words.store(a, value);
        Ok(Answer::Done)
    }

    /// Allocates a block and registers it. It needs one reference.
    fn kmalloc(&mut self, size: u64) -> Result<Answer, Refusal>
        requires ready { IsReady self.old }
        ensures answers { Answers self.old self.new (acts.Kmalloc size) (answered result) }
        ensures quiet { (t : Told) → Touches (acts.Kmalloc size) (answered result) t t }
    {
        let span = self.hosts.kmalloc(size)?;
        self.register(span, 1, None);
        Ok(Answer::At(span.start.0))
    }

    /// Frees a block and unregisters it.
    fn kfree(&mut self, start: Addr) -> Result<Answer, Refusal>
        requires ready { IsReady self.old }
        ensures answers { Answers self.old self.new (acts.Kfree start.0) (answered result) }
        ensures quiet { (t : Told) → Touches (acts.Kfree start.0) (answered result) t t }
    {
        self.hosts.kfree(start)?;
        self.objects.unregister(start);
        Ok(Answer::Done)
    }

    /// Takes untracked pages.
    fn take_pages(&mut self, count: u64) -> Result<Answer, Refusal>
        requires ready { IsReady self.old }
        ensures answers { Answers self.old self.new (acts.Pages count) (answered result) }
        ensures quiet { (t : Told) → Touches (acts.Pages count) (answered result) t t }
    {
        let start = self.hosts.take_pages(count)?;
        Ok(Answer::At(start.0))
    }

    /// Gives untracked pages back.
    fn give_pages(&mut self, start: Addr) -> Result<Answer, Refusal>
        requires ready { IsReady self.old }
        ensures answers { Answers self.old self.new (acts.FreePages start.0) (answered result) }
        ensures quiet { (t : Told) → Touches (acts.FreePages start.0) (answered result) t t }
    {
        self.hosts.give_pages(start)?;
        Ok(Answer::Done)
    }

    /// Takes an area with its head and registers both: the head needs one reference and passes
    /// further ones on to the area, which needs two.
    fn take_area(&mut self, size: u64) -> Result<Answer, Refusal>
        requires ready { IsReady self.old }
        ensures answers { Answers self.old self.new (acts.VmTake size) (answered result) }
        ensures quiet { (t : Told) → Touches (acts.VmTake size) (answered result) t t }
    {
        let taken = self.hosts.take_area(size)?;
        self.register(taken.head, 1, Some(taken.area.start));
        self.register(taken.area, 2, None);
        Ok(Answer::At(taken.area.start.0))
    }

    /// Gives an area and its head back, and unregisters both.
    fn give_area(&mut self, start: Addr) -> Result<Answer, Refusal>
        requires ready { IsReady self.old }
        ensures answers { Answers self.old self.new (acts.VmGive start.0) (answered result) }
        ensures quiet { (t : Told) → Touches (acts.VmGive start.0) (answered result) t t }
    {
        let given = self.hosts.give_area(start)?;
        self.objects.unregister(start);
        self.objects.unregister(given.head.start);
        Ok(Answer::Done)
    }

    /// Takes boot memory and registers its bytes. It needs no reference.
    fn take_boot(&mut self, size: u64) -> Result<Answer, Refusal>
        requires ready { IsReady self.old }
        ensures answers { Answers self.old self.new (acts.BootMem size) (answered result) }
        ensures quiet { (t : Told) → Touches (acts.BootMem size) (answered result) t t }
    {
        let start = self.hosts.take_boot(size)?;
        self.register(Span { start, size }, 0, None);
        Ok(Answer::At(start.0))
    }

    /// Takes a part out of a block of boot memory.
    fn free_part(&mut self, a: Addr, size: u64) -> Result<Answer, Refusal>
        requires ready { IsReady self.old }
        ensures answers { Answers self.old self.new (acts.FreePart a.0 size) (answered result) }
        ensures quiet { (t : Told) → Touches (acts.FreePart a.0 size) (answered result) t t }
    {
        if !in_memory(a, self.words) {
            return Err(Refusal::BadAddress);
        }
        if is_uneven(size) {
            return Err(Refusal::BadSize);
        }
        if !self.hosts.is_boot(a) {
            return Err(Refusal::NotBoot);
        }
        if size > MOST_BYTES {
            return Err(self.part_behind(a));
        }
        let part = Span { start: a, size };
        self.objects.free_part(part, self.settings.enabled)?;
        Ok(Answer::Done)
    }

    /// Why a part that goes past the memory is refused.
    fn part_behind(&self, a: Addr) -> Refusal
        ensures { (s : State) (end : ℕ) → AreOf self.now.objects s → ((b : Block) → block_with (blocks_in s.tracked) a.0 ≡ Some b → b.start + b.size < end) → Refused result ≡ part_answer (block_with (blocks_in s.tracked) a.0) end }
    {
        match self.objects.track().look(a) {
            Some(_) => Refusal::NotInside,
            None => Refusal::NoObject,
        }
    }

    /// Takes a note of a block.
    fn annotate(&mut self, start: Addr, note: Note) -> Result<Answer, Refusal>
        requires ready { IsReady self.old }
        ensures answers { Answers self.old self.new (act_of note start.0) (answered result) }
        ensures quiet { (t : Told) → Touches (act_of note start.0) (answered result) t t }
    {
        if !self.settings.enabled {
            return Err(Refusal::Disabled);
        }
        done_where(self.objects.annotate(start, note))
    }

    /// A part of a block is scanned, and else only other such parts.
    fn scan_area(&mut self, a: Addr, size: u64) -> Result<Answer, Refusal>
        requires ready { IsReady self.old }
        ensures answers { Answers self.old self.new (acts.ScanArea a.0 size) (answered result) }
        ensures quiet { (t : Told) → Touches (acts.ScanArea a.0 size) (answered result) t t }
    {
        if !self.settings.enabled {
            return Err(Refusal::Disabled);
        }
        if !in_memory(a, self.words) {
            return Err(Refusal::BadAddress);
        }
        if is_uneven(size) {
            return Err(Refusal::BadSize);
        }
        self.objects.add_area(a, size)?;
        Ok(Answer::Done)
    }

    /// Nothing is watched any more, and a running scan stops.
    fn off(&mut self) -> Result<Answer, Refusal>
        requires ready { IsReady self.old }
        ensures answers { Answers self.old self.new (acts.File file.Off) (answered result) }
        ensures quiet { (t : Told) → Touches (acts.File file.Off) (answered result) t t }
    {
        if !self.settings.enabled {
            return Err(Refusal::Disabled);
        }
        self.settings.enabled = false;
        self.settings.due = None;
        Ok(match self.objects.stop() {
            Some(scan) => Answer::Stopped { scan },
            None => Answer::Done,
        })
    }

    /// The listed blocks need no reference any more; after `off` all blocks are dropped.
    fn clear(&mut self) -> Result<Answer, Refusal>
        requires ready { IsReady self.old }
        ensures answers { Answers self.old self.new (acts.File file.Clear) (answered result) }
        ensures quiet { (t : Told) → Touches (acts.File file.Clear) (answered result) t t }
    {
        if let Some(scan) = self.objects.running() {
            return Err(Refusal::Busy(scan));
        }
        if self.settings.enabled {
            self.objects.clear();
        } else {
            self.objects.drop_all();
        }
        Ok(Answer::Done)
    }

    /// What is shown of the block that has a byte.
    fn dump(&mut self, a: u64) -> Result<Answer, Refusal>
        requires ready { IsReady self.old }
        ensures answers { Answers self.old self.new (acts.File (file.Dump a)) (answered result) }
        ensures quiet { (t : Told) → Touches (acts.File (file.Dump a)) (answered result) t t }
    {
        self.heeds_words()?;
        match self.objects.dump(Addr(a)) {
            Some(info) => Ok(Answer::Dumped(info)),
            None => Err(Refusal::NoObject),
        }
    }

    /// Whether a block has a byte, so that it can be asked why the block is held.
    fn why(&mut self, a: u64) -> Result<Answer, Refusal>
        requires ready { IsReady self.old }
        ensures answers { Answers self.old self.new (acts.File (file.Why a)) (answered result) }
        ensures quiet { (t : Told) → Touches (acts.File (file.Why a)) (answered result) t t }
    {
        self.heeds_words()?;
        done_where(self.objects.track().look(Addr(a)).is_some())
    }

    /// Whether a word is heeded, or why not: `off` was written, or a scan is running.
    fn heeds_words(&self) -> Result<(), Refusal>
        ensures { (s : State) → StandsAs self.now s → result ≡ heeded s.enabled (running_of s) }
    {
        if !self.settings.enabled {
            return Err(Refusal::Disabled);
        }
        match self.objects.running() {
            Some(scan) => Err(Refusal::Busy(scan)),
            None => Ok(()),
        }
    }

    /// A scan begins.
    fn begin(&mut self) -> Result<Answer, Refusal>
        requires ready { IsReady self.old }
        ensures answers { Answers self.old self.new (acts.File file.Scan) (answered result) }
        ensures quiet { (t : Told) → Touches (acts.File file.Scan) (answered result) t t }
    {
        self.heeds_words()?;
        self.objects.begin(self.settings.now, self.settings.stacks);
        Ok(Answer::Done)
    }

    /// A word that sets something.
    fn set(&mut self, word: FileCmd) -> Result<Answer, Refusal>
        requires ready { IsReady self.old }
        requires setting { is_setting word ≡ true }
        ensures answers { Answers self.old self.new (acts.File word) (answered result) }
        ensures quiet { (t : Told) → Touches (acts.File word) (answered result) t t }
    {
        self.heeds_words()?;
        self.settings.write(word);
        Ok(Answer::Done)
    }

    /// A word is written to the file.
    fn write(&mut self, word: FileCmd) -> Result<Answer, Refusal>
        requires ready { IsReady self.old }
        ensures answers { Answers self.old self.new (acts.File word) (answered result) }
        ensures quiet { (t : Told) → Touches (acts.File word) (answered result) t t }
    {
        match word {
            FileCmd::Off => self.off(),
            FileCmd::Clear => self.clear(),
            FileCmd::Dump(a) => self.dump(a),
            FileCmd::Why(a) => self.why(a),
            FileCmd::Scan => self.begin(),
            _ => self.set(word),
        }
    }

    /// The file is read.
    fn read(&mut self) -> Result<Answer, Refusal>
        requires ready { IsReady self.old }
        ensures answers { Answers self.old self.new (acts.Read) (answered result) }
        ensures quiet { (t : Told) → Touches (acts.Read) (answered result) t t }
    {
        match self.objects.running() {
            Some(scan) => Err(Refusal::Busy(scan)),
            None => Ok(Answer::Done),
        }
    }

    /// Time passes, in milliseconds.
    fn tick(&mut self, n: u64) -> Result<Answer, Refusal>
        requires ready { IsReady self.old }
        requires small { self.old.settings.now + n ≤ 2 ^ 62 }
        ensures answers { Answers self.old self.new (acts.Tick n) (answered result) }
        ensures quiet { (t : Told) → Touches (acts.Tick n) (answered result) t t }
    {
        self.settings.now += n;
        Ok(Answer::Done)
    }

    /// An automatic scan begins, or is left out where one is running. The next is due a period later.
    fn begin_automatic(&mut self) -> Result<Answer, Refusal>
        requires ready { IsReady self.old }
        ensures answers { Answers self.old self.new (acts.AutoBegin) (answered result) }
        ensures quiet { (t : Told) → Touches (acts.AutoBegin) (answered result) t t }
    {
        if !self.settings.enabled {
            return Err(Refusal::Disabled);
        }
        self.settings.due = Some(self.settings.now + self.settings.period);
        if self.objects.running().is_some() {
            return Ok(Answer::Skipped);
        }
        self.objects.begin(self.settings.now, self.settings.stacks);
        Ok(Answer::Done)
    }

    /// Makes a step of a running scan that is a load and needs no move to it, and tells its word and its value. Else
    /// nothing changes.
    #[inline(always)]
    pub fn load_due<W: Words>(&mut self, words: &mut W) -> Option<(Addr, u64)>
        requires ready { IsReady self.old }
        requires size { (W.told words.old).size ≡ self.old.words }
        ensures answers { IfSome result (λ r. Answers self.old self.new (acts.Step) (Loaded r.0.0 r.1)) }
        ensures words { IfSome result (λ r. Touches (acts.Step) (Loaded r.0.0 r.1) (W.told words.old) (W.told words.new)) }
        ensures same { result ≡ None → self.new ≡ self.old }
        ensures same_words { result ≡ None → W.told words.new ≡ W.told words.old }
    {
        let load = self.objects.load_due(self.hosts.tasks(), words)?;
        Some(load)
    }

    /// A load of the running scan, or its end.
    fn step<W: Words>(&mut self, words: &mut W) -> Answer
        requires ready { IsReady self.old }
        requires size { (W.told words.old).size ≡ self.old.words }
        ensures answers { Answers self.old self.new (acts.Step) result }
        ensures words { Touches (acts.Step) result (W.told words.old) (W.told words.new) }
    {
        self.objects.step(self.hosts.tasks(), words)
    }

    /// A running scan stops.
    fn halt(&mut self) -> Result<Answer, Refusal>
        requires ready { IsReady self.old }
        ensures answers { Answers self.old self.new (acts.Halt) (answered result) }
        ensures quiet { (t : Told) → Touches (acts.Halt) (answered result) t t }
    {
        match self.objects.stop() {
            Some(scan) => Ok(Answer::Stopped { scan }),
            None => Err(Refusal::NoScanRunning),
        }
    }

    /// Answers an act. A step, of which a scan makes one a word, doesn't go through the table.
    #[inline(always)]
    pub fn act<W: Words>(&mut self, words: &mut W, act: Act) -> Answer
        requires ready { IsReady self.old }
        requires size { (W.told words.old).size ≡ self.old.words }
        requires small { (n : ℕ) → act ≡ acts.Tick n → self.old.settings.now + n ≤ 2 ^ 62 }
        ensures answers { Answers self.old self.new act result }
        ensures words { Touches act result (W.told words.old) (W.told words.new) }
    {
        if let Act::Step = act {
            return self.step(words);
        }
        match self.answer_by_table(words, act) {
            Ok(answer) => answer,
            Err(refusal) => Answer::Refused(refusal),
        }
    }

    /// Answers an act by the helper that owns it.
    #[inline(never)]
    fn answer_by_table<W: Words>(&mut self, words: &mut W, act: Act) -> Result<Answer, Refusal>
        requires ready { IsReady self.old }
        requires size { (W.told words.old).size ≡ self.old.words }
        requires small { (n : ℕ) → act ≡ acts.Tick n → self.old.settings.now + n ≤ 2 ^ 62 }
        ensures answers { Answers self.old self.new act (answered result) }
        ensures words { Touches act (answered result) (W.told words.old) (W.told words.new) }
    {
        match act {
            Act::Section { name, words } => self.section(name, words),
            Act::TaskStart(name) => self.start_task(name),
            Act::TaskExit(name) => self.exit_task(name),
            Act::SetReg { task, reg, value } => self.set_reg(task, reg, value),
            Act::Load { task, reg, addr } => self.load(words, task, reg, Addr(addr)),
            Act::Store { addr, value } => self.store(words, Addr(addr), value),
            Act::Kmalloc(size) => self.kmalloc(size),
            Act::Kfree(start) => self.kfree(Addr(start)),
            Act::Pages(count) => self.take_pages(count),
            Act::FreePages(start) => self.give_pages(Addr(start)),
            Act::VmTake(size) => self.take_area(size),
            Act::VmGive(start) => self.give_area(Addr(start)),
            Act::BootMem(size) => self.take_boot(size),
            Act::FreePart { addr, size } => self.free_part(Addr(addr), size),
            Act::NotLeak(start) => self.annotate(Addr(start), Note::NotLeak),
            Act::Ignore(start) => self.annotate(Addr(start), Note::Ignore),
            Act::NoScan(start) => self.annotate(Addr(start), Note::NoScan),
            Act::ScanArea { addr, size } => self.scan_area(Addr(addr), size),
            Act::TransientLeak(start) => self.annotate(Addr(start), Note::TransientLeak),
            Act::File(word) => self.write(word),
            Act::Read => self.read(),
            Act::Tick(n) => self.tick(n),
            Act::AutoBegin => self.begin_automatic(),
            Act::Step => Ok(self.step(words)),
            Act::Halt => self.halt(),
        }
    }

    /// Whether the words of stacks are scanned.
    pub fn stacks(&self) -> bool
        ensures { result ≡ self.now.settings.stacks }
    {
        self.settings.stacks
    }

    /// How many words of memory there are.
    pub fn words(&self) -> u64
        ensures { result ≡ self.now.words }
    {
        self.words
    }

    /// The moment.
    pub fn now(&self) -> u64
        ensures { result ≡ self.now.settings.now }
    {
        self.settings.now
    }

    /// When the next automatic scan is due.
    pub fn due(&self) -> Option<u64>
        ensures { result ≡ self.now.settings.due }
    {
        self.settings.due
    }

    /// The number of the running scan.
    pub fn running(&self) -> Option<u64>
        ensures { (s : State) → StandsAs self.now s → result ≡ running_of s }
    {
        self.objects.running()
    }

    /// Whether `off` was not written.
    pub fn enabled(&self) -> bool
        ensures { result ≡ self.now.settings.enabled }
    {
        self.settings.enabled
    }

    /// The live blocks.
    pub fn track(&self) -> &Track<M>
        ensures { result.now ≡ self.now.objects.tracker }
    {
        self.objects.track()
    }

    /// The sections.
    pub fn sections(&self) -> &Sections
        ensures { result.now ≡ self.now.hosts.sections }
    {
        self.hosts.sections()
    }

    /// The tasks.
    pub fn tasks(&self) -> &Tasks
        ensures { result.now ≡ self.now.hosts.roll }
    {
        self.hosts.tasks()
    }

    /// The live area that begins at an address.
    pub fn area(&self, start: Addr) -> Option<VmArea>
        ensures slot { (s : State) → StandsAs self.now s → option_map (λ v. v.slot) result ≡ slot_of_area s.used start.0 }
        ensures head { IfSome result (λ v. (s : State) → StandsAs self.now s → head_with s.used v.slot ≡ Some v.head.start.0) }
        ensures live { IfSome result (λ v. area_at self.now.hosts.areas v.slot ≡ Some v) }
        ensures start { IfSome result (λ v. v.area.start ≡ start) }
    {
        self.hosts.area(start)
    }
}

/// Whether a size is 0 or no whole number of words.
fn is_uneven(size: u64) -> bool
    ensures { result ≡ is_uneven_size size }
{
    size == 0 || size % 8 != 0
}

/// Done where there is a block, else refused.
fn done_where(there: bool) -> Result<Answer, Refusal>
    ensures { answered result ≡ done_if there }
{
    if there {
        Ok(Answer::Done)
    } else {
        Err(Refusal::NoObject)
    }
}
