//! The scanner.

ghost use Rattle.std.specs.Prelude.{◌≡◌, ◌+◌, ◌^◌, ◌<◌, [], IfSome, None, Some, true, false, option_map};
ghost use Rattle.std.specs.List.{All};
ghost use Rattle.km_model.specs.Past.{Place};
ghost use Rattle.km_state.specs.StateNext.{next_in, queue_at};
ghost use Rattle.km_tasks.specs.Roll.{Roll};
ghost use Rattle.km_track.specs.Tracker.{Live, is_live, live_with, scan_started, unregistered_at};
ghost use Rattle.km_scan.specs.Places.{place_of};
ghost use Rattle.km_scan.specs.Stand.{Fits, IsDue, IsSettled, StackEnds, due_in, idle, load_told, running_in, scanning_of, seen, started, sweep_told, sweep_without, want_of};
ghost use Rattle.km_base.specs.declared.spans.Addr.{Addr as Address};
ghost use Rattle.km_scan.specs.declared.scanner.Want.TheVariants.{Load as LoadWord};
ghost use Rattle.km_scan.specs.declared.places.At.{At as Spot};
ghost use Rattle.km_scan.specs.declared.sweep.Sweep.{Sweep as Run};

use crate::places::{At, Cursor};
use crate::sweep::Sweep;
use km_base::Addr;
use km_map::ObjectMap;
use km_record::RecId;
use km_sum::Sum;
use km_tasks::Tasks;
use km_track::Track;
use std::marker::Model;

/// What a scanner wants next: to load a word, to be moved on first, or nothing, where no scan is running.
#[derive(Clone, Copy, Debug, PartialEq)]
pub enum Want {
    Load(Addr),
    Move,
    Idle,
}

/// The scans that were begun, and how far the running one has come.
#[derive(Debug, Drop)]
pub struct Scanner {
    scans: u64,
    begun: u64,
    stacks: bool,
    sweep: Option<Sweep>,
}

impl Model for Scanner {
    ghost use Rattle.km_scan.specs.Stand.{Stand};

    ghost Value = { Stand };

    ghost view = { λ s. record { scans = s.scans; begun = s.begun; stacks = s.stacks; sweep = s.sweep } };

    ghost inverse = { λ s. record { scans = s.scans; begun = s.begun; stacks = s.stacks; sweep = s.sweep } };
}

impl Scanner {
    /// A scanner that began no scan.
    pub fn new() -> Scanner
        ensures { result ≡ idle }
    {
        Scanner {
            scans: 0,
            begun: 0,
            stacks: false,
            sweep: None,
        }
    }

    /// Begins a scan at a moment, and gives its number, from 1. It loads the words of stacks where
    /// `stacks` says so.
    pub fn begin<M: ObjectMap>(&mut self, track: &mut Track<M>, now: u64, stacks: bool) -> u64
        requires idle { self.old.sweep ≡ None }
        requires few { self.old.scans + 1 < 2 ^ 64 }
        ensures number { result ≡ self.old.scans + 1 }
        ensures begun { self.new ≡ record { scans = self.old.scans + 1; begun = now; stacks = stacks; sweep = Some started } }
        ensures queue { track.new ≡ scan_started track.old }
        ensures fits { (roll : Roll) → All StackEnds roll.tasks → Fits self.new track.new roll }
        ensures settled { IsSettled self.new }
    {
        track.start_scan();
        self.scans += 1;
        self.begun = now;
        self.stacks = stacks;
        self.sweep = Some(Sweep {
            cursor: Cursor::Start,
            ready: None,
            sum: Sum::new(),
        });
        self.scans
    }

    /// What it wants next.
    pub fn want<M: ObjectMap>(&self, track: &Track<M>, tasks: &Tasks) -> Want
        requires { Fits self.now track.now tasks.now }
        ensures idle { self.now.sweep ≡ None → result ≡ Want.Idle }
        ensures want { (w : Run) → self.now.sweep ≡ Some w → result ≡ want_of (due_in w track.now tasks.now) }
        ensures load { (a : Address) → result ≡ LoadWord a → (w : Run) × (p : Place) × (self.now.sweep ≡ Some w) × (due_in w track.now tasks.now ≡ Some p) × (p.word ≡ a.0) }
        ensures moves { result ≡ Want.Move → (w : Run) × (self.now.sweep ≡ Some w) × (due_in w track.now tasks.now ≡ None) }
        ensures next { (w : Run) (p : Place) → self.now.sweep ≡ Some w → w.ready ≡ None → due_in w track.now tasks.now ≡ Some p → next_in (seen self.now.stacks track.now tasks.now) (scanning_of track.now w) ≡ Some p }
    {
        let Some(sweep) = &self.sweep else {
            return Want::Idle;
        };
        match sweep.due(track, tasks) {
            Some(at) => Want::Load(at.word()),
            None => Want::Move,
        }
    }

    /// The load that needs no further move, if a scan is running and has one.
    #[inline(always)]
    pub fn due<M: ObjectMap>(&self, track: &Track<M>, tasks: &Tasks) -> Option<At>
        requires { Fits self.now track.now tasks.now }
        ensures due { IfSome result (λ at. IsDue self.now at track.now tasks.now) }
        ensures none { result ≡ None → (w : Run) → self.now.sweep ≡ Some w → due_in w track.now tasks.now ≡ None }
        ensures next { (w : Run) (p : Place) → self.now.sweep ≡ Some w → w.ready ≡ None → due_in w track.now tasks.now ≡ Some p → next_in (seen self.now.stacks track.now tasks.now) (scanning_of track.now w) ≡ Some p }
    {
        let Some(sweep) = &self.sweep else {
            return None;
        };
        sweep.due(track, tasks)
    }

    /// Moves on to the next load, and gives the scan's number where there is none: then it has ended.
    ///
    /// What it passes by in the queue is taken out.
    pub fn move_on<M: ObjectMap>(&mut self, track: &mut Track<M>, tasks: &Tasks) -> Option<u64>
        requires fits { Fits self.old track.old tasks.now }
        requires moved { (w : Run) × (self.old.sweep ≡ Some w) × (due_in w track.old tasks.now ≡ None) }
        ensures place { (w : Run) (p : Place) → self.old.sweep ≡ Some w → next_in (seen self.old.stacks track.old tasks.now) (scanning_of track.old w) ≡ Some p → (result ≡ None) × (at : Spot) × (place_of at ≡ p) × (self.new ≡ record self.old { sweep = Some (record w { ready = Some at }) }) }
        ensures queue { (w : Run) (p : Place) → self.old.sweep ≡ Some w → next_in (seen self.old.stacks track.old tasks.now) (scanning_of track.old w) ≡ Some p → track.new ≡ record track.old { queue = queue_at (scanning_of track.old w) p } }
        ensures ended { (w : Run) → self.old.sweep ≡ Some w → next_in (seen self.old.stacks track.old tasks.now) (scanning_of track.old w) ≡ None → (result ≡ Some self.old.scans) × (self.new ≡ record self.old { sweep = None }) × (track.new ≡ record track.old { queue = [] }) }
        ensures fits { Fits self.new track.new tasks.now }
    {
        let mut sweep = self.sweep?;
        let Some(at) = sweep.next(self.stacks, track, tasks) else {
            self.sweep = None;
            return Some(self.scans);
        };
        sweep.ready = Some(at);
        self.sweep = Some(sweep);
        None
    }

    /// Takes the value of the load that is due.
    #[inline(always)]
    pub fn take<M: ObjectMap>(&mut self, track: &mut Track<M>, at: At, value: u64)
        requires { (roll : Roll) × IsDue self.old at track.old roll }
        ensures sweep { (w : Run) → self.old.sweep ≡ Some w → self.new ≡ record self.old { sweep = Some (sweep_told w at value track.old) } }
        ensures track { (w : Run) (roll : Roll) → self.old.sweep ≡ Some w → track.new ≡ load_told self.old.stacks w (place_of at) value track.old roll }
        ensures fits { (roll : Roll) → Fits self.old track.old roll → IsDue self.old at track.old roll → Fits self.new track.new roll }
        ensures settled { IsSettled self.new }
    {
        let Some(sweep) = &mut self.sweep else {
            return;
        };
        sweep.take(track, at, value);
    }

    /// Takes the value of the load that it wants.
    pub fn told<M: ObjectMap>(&mut self, track: &mut Track<M>, tasks: &Tasks, value: u64)
        requires fits { Fits self.old track.old tasks.now }
        requires due { (w : Run) × (p : Place) × (self.old.sweep ≡ Some w) × (due_in w track.old tasks.now ≡ Some p) }
        ensures sweep { (w : Run) (p : Place) → self.old.sweep ≡ Some w → due_in w track.old tasks.now ≡ Some p → (at : Spot) × (place_of at ≡ p) × (self.new ≡ record self.old { sweep = Some (sweep_told w at value track.old) }) }
        ensures track { (w : Run) (p : Place) → self.old.sweep ≡ Some w → due_in w track.old tasks.now ≡ Some p → track.new ≡ load_told self.old.stacks w p value track.old tasks.now }
        ensures fits { Fits self.new track.new tasks.now }
        ensures settled { IsSettled self.new }
    {
        let Some(at) = self.due(track, tasks) else {
            return;
        };
        self.take(track, at, value);
    }

    /// Leaves a block that is about to be unregistered. An id that isn't live changes nothing.
    pub fn forget<M: ObjectMap>(&mut self, track: &Track<M>, id: RecId)
        ensures sweep { is_live id track.now ≡ true → self.new ≡ record self.old { sweep = option_map (sweep_without id.generation) self.old.sweep } }
        ensures stale { is_live id track.now ≡ false → self.new ≡ self.old }
        ensures fits { (roll : Roll) (l : Live) → Fits self.old track.now roll → live_with id track.now ≡ Some l → Fits self.new (unregistered_at l.tracked.block.start track.now) roll }
        ensures settled { IsSettled self.old → IsSettled self.new }
    {
        if track.record(id).is_none() {
            return;
        }
        let Some(sweep) = &mut self.sweep else {
            return;
        };
        sweep.leave(id.generation);
    }

    /// Ends a running scan, and gives its number.
    pub fn stop(&mut self) -> Option<u64>
        ensures number { result ≡ running_in self.old }
        ensures stopped { self.new ≡ record self.old { sweep = None } }
    {
        let running = self.running();
        self.sweep = None;
        running
    }

    /// The number of the running scan.
    pub fn running(&self) -> Option<u64>
        ensures { result ≡ running_in self.now }
    {
        match self.sweep {
            Some(_) => Some(self.scans),
            None => None,
        }
    }

    /// The moment at which the last scan began, in milliseconds, and 0 before any.
    pub fn began_at(&self) -> u64
        ensures { result ≡ self.now.begun }
    {
        self.begun
    }
}
