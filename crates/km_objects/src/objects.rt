//! The blocks and their scanner.

ghost use Rattle.std.specs.List.{All};
ghost use Rattle.std.specs.Prelude.{◌≡◌, ◌+◌, ◌%◌, ◌<◌, ◌≤◌, ◌^◌, ℕ, [], Some, None, true, false, is_some, option_map, IfOk, IfSome, OnErr, map};
ghost use Rattle.km_base.specs.declared.acts.Act.TheVariants.{Step};
ghost use Rattle.km_base.specs.declared.acts.Answer.TheVariants.{Loaded};
ghost use Rattle.km_free_part.specs.Parts.{front_of, rear_of};
ghost use Rattle.km_model.specs.Answers.{part_answer};
ghost use Rattle.km_model.specs.Blocks.{block_at, block_with, painted_grey, contains};
ghost use Rattle.km_model.specs.History.{value_of};
ghost use Rattle.km_model.specs.Memory.{in_memory as is_word};
ghost use Rattle.km_model.specs.Past.{Place, is_loaded, is_refused};
ghost use Rattle.km_objects.specs.Objects.{Agree, AreOf, IfLoaded, all_dropped, annotated, area_answered, done, places, refusal_of, scan_begun, scan_stopped};
ghost use Rattle.km_record.specs.Records.{with_area};
ghost use Rattle.km_scan.specs.Stand.{StackEnds, scanning_of, seen};
ghost use Rattle.km_scan.specs.declared.sweep.Sweep.{Sweep};
ghost use Rattle.km_state.specs.State.{State, blocks_in, is_listed_now, running_of, tracked_where, opened};
ghost use Rattle.km_state.specs.StateAfter.{painted, part_freed, registered_at, unregistered, state_after};
ghost use Rattle.km_state.specs.StateAnswers.{info_in, state_answer};
ghost use Rattle.km_state.specs.StateNext.{next_in};
ghost use Rattle.km_tasks.specs.Roll.{Roll};
ghost use Rattle.km_track.specs.Tracker.{live_where, meets, AreRising, Live, NeverMeet};
ghost use Rattle.km_words.specs.Told.{IsGiven, loaded_in};

use crate::step;
use km_base::sizes::{BASE, PAGE};
use km_base::{Addr, Answer, Info, NoMemory, Refusal, Span};
use km_free_part::{PartFault, check_part, split};
use km_map::ObjectMap;
use km_record::Note;
use km_scan::Scanner;
use km_tasks::Tasks;
use km_track::{AreaRefusal, Track};
use km_verdict::{clear, dump};
use km_words::Words;
use std::alloc::Global;
use std::marker::Model;

/// Changes nothing: it is called for what its contract tells of live blocks at any time.
fn observe<M: ObjectMap>(track: &Track<M>)
    ensures rising { AreRising 0 track.now.live track.now.registered }
    ensures apart { NeverMeet track.now.live }
{
    let _ = track.first();
}

/// The refusal of an area.
fn refusal(fault: AreaRefusal) -> Refusal
    ensures { result ≡ refusal_of fault }
{
    match fault {
        AreaRefusal::NoObject => Refusal::NoObject,
        AreaRefusal::NotInside => Refusal::NotInside,
        AreaRefusal::AreaOverlap => Refusal::AreaOverlap,
        AreaRefusal::TooManyAreas => Refusal::TooManyAreas,
    }
}

/// The live blocks, and the scanner over them.
#[derive(Drop)]
pub struct Objects<M: ObjectMap> {
    track: Track<M>,
    scanner: Scanner,
}

impl<M: ObjectMap> Model for Objects<M> {
    ghost use Rattle.km_objects.specs.Objects.{Objects as Seen};

    ghost Value = { Seen };

    ghost view = { λ o. record { tracker = o.track; stand = o.scanner } };
}

impl<M: ObjectMap> Objects<M> {
    /// At first the page of vmap slots is the one block. The map is empty and takes `capacity` spans.
    pub fn new(alloc: Global, capacity: u32, map: M) -> Result<Objects<M>, NoMemory>
        requires empty { M.entries map ≡ [] }
        requires room { capacity ≤ M.room map }
        requires some { 0 < capacity }
        ensures state { IfOk result (λ o. (words : ℕ) → AreOf o (opened words)) }
        ensures agree { IfOk result (λ o. (roll : Roll) → Agree o roll) }
        ensures places { IfOk result (λ o. places o ≡ capacity) }
    {
        let mut track = Track::new(alloc, capacity, map)?;
        let slots = Span {
            start: Addr(BASE),
            size: PAGE,
        };
        let _ = track.register(slots, 0, 0);
        Ok(Objects {
            track,
            scanner: Scanner::new(),
        })
    }

    /// Registers a block that meets no other. References to it are passed on to a block at `excess`.
    pub fn register(&mut self, span: Span, minimum: u8, born: u64, excess: Option<Addr>)
        requires start { span.start.0 % 8 ≡ 0 }
        requires size { span.size % 8 ≡ 0 }
        requires sized { 0 < span.size }
        requires end { span.start.0 + span.size < 2 ^ 64 }
        requires spare { 0 < self.old.tracker.spare }
        requires ids { self.old.tracker.registered + 1 < 2 ^ 64 }
        requires apart { live_where (meets span) self.old.tracker ≡ None }
        ensures state { (s : State) → s.enabled ≡ true → s.now ≡ born → AreOf self.old s → AreOf self.new (registered_at s span.start.0 span.size minimum (option_map (λ a. a.0) excess)) }
        ensures agree { (roll : Roll) → Agree self.old roll → Agree self.new roll }
        ensures places { places self.new ≡ places self.old }
        ensures taken { self.new.tracker.spare + 1 ≡ self.old.tracker.spare }
    {
        observe(&self.track);
        let Ok(id) = self.track.register(span, minimum, born) else {
            return;
        };
        if let Some(to) = excess {
            self.track.set_excess(id, to);
        }
    }

    /// Unregisters the block that begins at an address, if there is one. The scanner leaves it first.
    pub fn unregister(&mut self, start: Addr)
        ensures state { (s : State) → AreOf self.old s → AreOf self.new (unregistered s start.0) }
        ensures agree { (roll : Roll) → Agree self.old roll → Agree self.new roll }
        ensures places { places self.new ≡ places self.old }
    {
        observe(&self.track);
        let Some(id) = self.track.starting_at(start) else {
            return;
        };
        self.scanner.forget(&self.track, id);
        let _ = self.track.unregister(start);
    }

    /// Takes a part out of the block that has its first byte. Where `keep` is true, what is left in front and behind
    /// is registered.
    pub fn free_part(&mut self, part: Span, keep: bool) -> Result<(), Refusal>
        requires start { part.start.0 % 8 ≡ 0 }
        requires size { part.size % 8 ≡ 0 }
        requires sized { 0 < part.size }
        requires end { part.start.0 + part.size < 2 ^ 64 }
        requires spare { (l : Live) → live_where (contains part.start.0) self.old.tracker ≡ Some l → keep ≡ true → 0 < (front_of part l.tracked.block).size → 0 < (rear_of part l.tracked.block).size → 0 < self.old.tracker.spare }
        requires ids { self.old.tracker.registered + 2 < 2 ^ 64 }
        ensures answer { (s : State) → AreOf self.old s → done result ≡ part_answer (block_with (blocks_in s.tracked) part.start.0) (part.start.0 + part.size) }
        ensures state { IfOk result (λ _. (s : State) → s.enabled ≡ keep → AreOf self.old s → AreOf self.new (part_freed s part.start.0 part.size (block_with (blocks_in s.tracked) part.start.0))) }
        ensures refused { OnErr result (self.new ≡ self.old) }
        ensures agree { (roll : Roll) → Agree self.old roll → Agree self.new roll }
        ensures places { places self.new ≡ places self.old }
    {
        observe(&self.track);
        match check_part(&self.track, part) {
            Ok(id) => {
                self.scanner.forget(&self.track, id);
                split(&mut self.track, id, part, keep);
                Ok(())
            }
            Err(PartFault::NoObject) => Err(Refusal::NoObject),
            Err(PartFault::NotInside) => Err(Refusal::NotInside),
        }
    }

    /// Takes a note of the block that begins at an address, and tells whether there is one.
    pub fn annotate(&mut self, start: Addr, note: Note) -> bool
        ensures answer { (s : State) → AreOf self.old s → result ≡ is_some (block_at (blocks_in s.tracked) start.0) }
        ensures state { (s : State) → AreOf self.old s → AreOf self.new (annotated note start.0 s) }
        ensures agree { (roll : Roll) → Agree self.old roll → Agree self.new roll }
        ensures places { places self.new ≡ places self.old }
        ensures none { result ≡ false → self.new ≡ self.old }
    {
        self.track.annotate(start, note).is_ok()
    }

    /// Adds an area, given in whole words, to the block that has its first byte.
    pub fn add_area(&mut self, a: Addr, size: u64) -> Result<(), Refusal>
        requires start { a.0 % 8 ≡ 0 }
        requires size { size % 8 ≡ 0 }
        requires sized { 0 < size }
        ensures answer { (s : State) → AreOf self.old s → done result ≡ area_answered (block_with (blocks_in s.tracked) a.0) a.0 size }
        ensures state { IfOk result (λ _. (s : State) → AreOf self.old s → AreOf self.new (painted (λ t. contains a.0 t.block) (with_area a.0 size) s)) }
        ensures refused { OnErr result (self.new ≡ self.old) }
        ensures agree { (roll : Roll) → Agree self.old roll → Agree self.new roll }
        ensures places { places self.new ≡ places self.old }
    {
        if let Err(fault) = self.track.add_area(a, size) {
            return Err(refusal(fault));
        }
        Ok(())
    }

    /// Begins a scan at a moment, in milliseconds. It loads the words of stacks where `stacks` says so.
    pub fn begin(&mut self, now: u64, stacks: bool)
        requires idle { self.old.stand.sweep ≡ None }
        requires few { self.old.stand.scans + 1 < 2 ^ 64 }
        ensures state { (s : State) → s.now ≡ now → s.stacks ≡ stacks → AreOf self.old s → AreOf self.new (scan_begun s) }
        ensures agree { (roll : Roll) → All StackEnds roll.tasks → Agree self.new roll }
        ensures places { places self.new ≡ places self.old }
    {
        self.scanner.begin(&mut self.track, now, stacks);
    }

    /// Ends a running scan without a verdict, and gives its number.
    pub fn stop(&mut self) -> Option<u64>
        ensures answer { (s : State) → AreOf self.old s → result ≡ running_of s }
        ensures state { (s : State) → AreOf self.old s → AreOf self.new (scan_stopped s) }
        ensures idle { result ≡ None → self.new ≡ self.old }
        ensures agree { (roll : Roll) → Agree self.new roll }
        ensures places { places self.new ≡ places self.old }
    {
        self.scanner.stop()
    }

    /// Makes a step of a running scan that is a load and needs no move to it, and tells its word and its value. Else
    /// nothing changes.
    #[inline(always)]
    pub fn load_due<W: Words>(&mut self, tasks: &Tasks, words: &mut W) -> Option<(Addr, u64)>
        requires agree { Agree self.old tasks.now }
        requires words { (w : Sweep) (p : Place) → self.old.stand.sweep ≡ Some w → next_in (seen self.old.stand.stacks self.old.tracker tasks.now) (scanning_of self.old.tracker w) ≡ Some p → is_word (W.told words.old).size p.word ≡ true }
        ensures answer { IfSome result (λ r. (s : State) → AreOf self.old s → s.tasks ≡ tasks.now.tasks → Loaded r.0.0 r.1 ≡ state_answer s Step r.1) }
        ensures state { IfSome result (λ r. (s : State) → AreOf self.old s → s.tasks ≡ tasks.now.tasks → AreOf self.new (state_after s Step (Loaded r.0.0 r.1))) }
        ensures agree { IfSome result (λ r. Agree self.new tasks.now) }
        ensures places { IfSome result (λ r. places self.new ≡ places self.old) }
        ensures range { IfSome result (λ r. r.1 < 2 ^ 64) }
        ensures given { IfSome result (λ r. IsGiven (W.told words.old).given r.0.0 r.1) }
        ensures memory { IfSome result (λ r. IsGiven (W.told words.old).memory r.0.0 r.1) }
        ensures after { IfSome result (λ r. W.told words.new ≡ loaded_in (W.told words.old) r.0.0 r.1) }
        ensures same { result ≡ None → self.new ≡ self.old }
        ensures same_words { result ≡ None → W.told words.new ≡ W.told words.old }
    {
        step::load_due(&mut self.track, &mut self.scanner, tasks, words)
    }

    /// One step of a running scan: a load, or its end with the verdict.
    pub fn step<W: Words>(&mut self, tasks: &Tasks, words: &mut W) -> Answer
        requires agree { Agree self.old tasks.now }
        requires words { (w : Sweep) (p : Place) → self.old.stand.sweep ≡ Some w → next_in (seen self.old.stand.stacks self.old.tracker tasks.now) (scanning_of self.old.tracker w) ≡ Some p → is_word (W.told words.old).size p.word ≡ true }
        ensures answer { (s : State) → AreOf self.old s → s.tasks ≡ tasks.now.tasks → result ≡ state_answer s Step (value_of result) }
        ensures state { (s : State) → AreOf self.old s → s.tasks ≡ tasks.now.tasks → AreOf self.new (state_after s Step result) }
        ensures loaded { IfLoaded result (λ a value. (value < 2 ^ 64) × IsGiven (W.told words.old).given a value × IsGiven (W.told words.old).memory a value × (W.told words.new ≡ loaded_in (W.told words.old) a value)) }
        ensures unloaded { is_loaded result ≡ false → W.told words.new ≡ W.told words.old }
        ensures refused { is_refused result ≡ true → self.new ≡ self.old }
        ensures agree { Agree self.new tasks.now }
        ensures places { places self.new ≡ places self.old }
    {
        step::step(&mut self.track, &mut self.scanner, tasks, words)
    }

    /// Paints the listed blocks grey.
    pub fn clear(&mut self)
        ensures state { (s : State) → AreOf self.old s → AreOf self.new (painted is_listed_now painted_grey s) }
        ensures agree { (roll : Roll) → Agree self.old roll → Agree self.new roll }
        ensures places { places self.new ≡ places self.old }
    {
        clear(&mut self.track);
    }

    /// Unregisters every block, while no scan is running.
    pub fn drop_all(&mut self)
        requires idle { self.old.stand.sweep ≡ None }
        ensures state { (s : State) → AreOf self.old s → AreOf self.new (all_dropped s) }
        ensures agree { (roll : Roll) → Agree self.new roll }
        ensures places { places self.new ≡ places self.old }
    {
        self.track.drop_all();
    }

    /// What is shown of the block that has the byte at an address.
    pub fn dump(&self, a: Addr) -> Option<Info>
        ensures { (s : State) → AreOf self.now s → result ≡ option_map info_in (tracked_where (contains a.0) s.tracked) }
    {
        dump(&self.track, a)
    }

    /// The number of the running scan.
    pub fn running(&self) -> Option<u64>
        ensures running { (s : State) → AreOf self.now s → result ≡ running_of s }
        ensures idle { result ≡ None → self.now.stand.sweep ≡ None }
    {
        self.scanner.running()
    }

    /// The live blocks.
    pub fn track(&self) -> &Track<M>
        ensures { result.now ≡ self.now.tracker }
    {
        &self.track
    }
}
