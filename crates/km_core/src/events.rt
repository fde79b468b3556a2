//! The core: a kernel, and how many events it answered.

ghost use Rattle.std.specs.Prelude.{◌≡◌, ℕ, ◌+◌, ◌<◌, ◌≤◌, ◌^◌, ◌∷◌, [], true, IfOk, IfSome, None, Some};
ghost use Rattle.std.specs.Prelude.{option_map};
ghost use Rattle.km_base.specs.declared.acts.Act.TheVariants.{Step, Tick};
ghost use Rattle.km_base.specs.declared.acts.Answer.TheVariants.{Loaded};
ghost use Rattle.km_model.specs.Headline.{IsMemorySize};
ghost use Rattle.km_model.specs.History.{History, ticks_of, value_of};
ghost use Rattle.km_model.specs.Past.{is_loaded, is_refused};
ghost use Rattle.km_model.specs.Follows.{past_of};
ghost use Rattle.km_model.specs.Answers.{answer as answer_of};
ghost use Rattle.km_laws.specs.Left.{left};
ghost use Rattle.km_model.specs.Placement.{head_with, slot_of_area};
ghost use Rattle.km_state.specs.State.{State, opened, running_of};
ghost use Rattle.km_state.specs.StateAnswers.{state_answer};
ghost use Rattle.km_state.specs.StateAfter.{state_after};
ghost use Rattle.km_vmalloc.specs.Areas.{area_at};
ghost use Rattle.km_core.specs.Cores.{IsAnswered, Stands};
ghost use Rattle.km_core.specs.Parts.{Touches};

use crate::kernel::Kernel;
use km_base::{Act, Addr, Answer, NoMemory};
use km_map::ObjectMap;
use km_sections::Sections;
use km_tasks::Tasks;
use km_track::Track;
use km_vmalloc::VmArea;
use km_words::Words;
use std::alloc::Global;
use std::marker::Model;

/// A simulated kernel with its leak detector. What it answers, and what it is then, are those of the
/// definitions, for each history that it stands for.
#[derive(Drop)]
pub struct Core<M: ObjectMap> {
    events: u64,
    kernel: Kernel<M>,
}

impl<M: ObjectMap> Model for Core<M> {
    ghost use Rattle.km_core.specs.Cores.{IsCore, Seen};

    ghost Value = { Seen };

    ghost view = { λ c. record { events = c.events; parts = c.kernel } };

    ghost invariant = { λ c. IsCore (record { events = c.events; parts = c.kernel }) };
}

impl<M: ObjectMap> Core<M> {
    /// A kernel with so many words of memory, all 0, and nothing but the page of vmap slots. The map is
    /// empty and takes a span for each word.
    pub fn boot(alloc: Global, words: u64, map: M) -> Result<Core<M>, NoMemory>
        requires memory { IsMemorySize words }
        requires empty { M.entries map ≡ [] }
        requires room { words ≤ M.room map }
        ensures words { IfOk result (λ c. c.parts.words ≡ words) }
        ensures stands { IfOk result (λ c. Stands c [] (opened words)) }
    {
        Ok(Core {
            events: 0,
            kernel: Kernel::boot(alloc, words, map)?,
        })
    }

    /// Answers an act. It takes no memory.
    ///
    /// `Load` and `Step` load at most one word, an accepted `Store` stores one, and no other act touches
    /// the words.
    pub fn apply<W: Words>(&mut self, words: &mut W, act: Act) -> Answer
        requires size { (W.told words.old).size ≡ self.old.parts.words }
        requires few { self.old.events < 2 ^ 62 }
        requires small { (n : ℕ) → act ≡ Tick n → self.old.parts.settings.now + n ≤ 2 ^ 62 }
        ensures answer { (h : History) (s : State) → Stands self.old h s → result ≡ state_answer s act (value_of result) }
        ensures stands { (h : History) (s : State) → Stands self.old h s → Stands self.new (record { act = act; answer = result } ∷ h) (state_after s act result) }
        ensures history { (h : History) (s : State) → Stands self.old h s → result ≡ answer_of self.old.parts.words (past_of h) act (value_of result) }
        ensures left { (h : History) (s : State) → Stands self.old h s → is_loaded result ≡ true → act ≡ Step → left (past_of (record { act = act; answer = result } ∷ h)) + 1 ≤ left (past_of h) }
        ensures refused { is_refused result ≡ true → self.new ≡ record self.old { events = self.old.events + 1 } }
        ensures touches { Touches act result (W.told words.old) (W.told words.new) }
        ensures words { self.new.parts.words ≡ self.old.parts.words }
        ensures events { self.new.events ≡ self.old.events + 1 }
        ensures now { self.new.parts.settings.now ≡ self.old.parts.settings.now + ticks_of act }
    {
        let answer = self.kernel.act(words, act);
        self.events += 1;
        answer
    }

    /// Makes a step that is a load and needs no move to it, and tells its word and its value. Where the next step isn't
    /// such, nothing changes, and `apply` makes it. It is for loops that make many steps.
    #[inline(always)]
    pub fn load_due<W: Words>(&mut self, words: &mut W) -> Option<(Addr, u64)>
        requires size { (W.told words.old).size ≡ self.old.parts.words }
        requires few { self.old.events < 2 ^ 62 }
        ensures made { IfSome result (λ r. IsAnswered self.old self.new Step (Loaded r.0.0 r.1) (W.told words.old) (W.told words.new)) }
        ensures same { result ≡ None → self.new ≡ self.old }
        ensures same_words { result ≡ None → W.told words.new ≡ W.told words.old }
    {
        let load = self.kernel.load_due(words)?;
        self.events += 1;
        Some(load)
    }

    /// How many words of memory there are.
    pub fn words(&self) -> u64
        ensures { result ≡ self.now.parts.words }
    {
        self.kernel.words()
    }

    /// How many acts were answered.
    pub fn events(&self) -> u64
        ensures { result ≡ self.now.events }
    {
        self.events
    }

    /// The moment, in milliseconds.
    pub fn now(&self) -> u64
        ensures { result ≡ self.now.parts.settings.now }
    {
        self.kernel.now()
    }

    /// When the next automatic scan is due, in milliseconds; none where they are off.
    pub fn auto_at(&self) -> Option<u64>
        ensures { result ≡ self.now.parts.settings.due }
    {
        self.kernel.due()
    }

    /// The number of the running scan.
    pub fn running(&self) -> Option<u64>
        ensures { (h : History) (s : State) → Stands self.now h s → result ≡ running_of s }
    {
        self.kernel.running()
    }

    /// Whether `off` was not written.
    pub fn enabled(&self) -> bool
        ensures { result ≡ self.now.parts.settings.enabled }
    {
        self.kernel.enabled()
    }

    /// Whether the words of stacks are scanned.
    pub fn stacks(&self) -> bool
        ensures { result ≡ self.now.parts.settings.stacks }
    {
        self.kernel.stacks()
    }

    /// The live blocks.
    pub fn track(&self) -> &Track<M>
        ensures { result.now ≡ self.now.parts.objects.tracker }
    {
        self.kernel.track()
    }

    /// The sections.
    pub fn sections(&self) -> &Sections
        ensures { result.now ≡ self.now.parts.hosts.sections }
    {
        self.kernel.sections()
    }

    /// The tasks.
    pub fn tasks(&self) -> &Tasks
        ensures { result.now ≡ self.now.parts.hosts.roll }
    {
        self.kernel.tasks()
    }

    /// The live area that begins at an address.
    pub fn vm_area(&self, start: Addr) -> Option<VmArea>
        ensures slot { (h : History) (s : State) → Stands self.now h s → option_map (λ v. v.slot) result ≡ slot_of_area s.used start.0 }
        ensures head { IfSome result (λ v. (h : History) (s : State) → Stands self.now h s → head_with s.used v.slot ≡ Some v.head.start.0) }
        ensures live { IfSome result (λ v. area_at self.now.parts.hosts.areas v.slot ≡ Some v) }
        ensures start { IfSome result (λ v. v.area.start ≡ start) }
    {
        self.kernel.area(start)
    }
}
