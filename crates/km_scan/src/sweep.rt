//! A running scan.

ghost use Rattle.std.specs.Prelude.{◌≡◌, Bool, true, Some, None, [], IfSome, IfNone, if◌then◌else◌, nat_le, option_map, ℕ};
ghost use Rattle.km_model.specs.Scan.{behind, first_in, unless_over};
ghost use Rattle.km_state.specs.State as state;
ghost use Rattle.km_state.specs.State.{blocks_in};
ghost use Rattle.km_state.specs.StateNext.{is_at, next_in, phase_at, queue_at, sum_after};
ghost use Rattle.km_tasks.specs.Roll.{Roll};
ghost use Rattle.km_track.specs.Tracker.{Tracker, is_live, tracked_in};
ghost use Rattle.km_base.specs.declared.spans.Addr.{Addr as Address};
ghost use Rattle.km_record.specs.declared.kinds.RecId.{RecId as Id};
ghost use Rattle.km_scan.specs.Places.{cursor_of, place_of};
ghost use Rattle.km_scan.specs.Stand.{FitsAt, FitsDue, FitsSweep, StackEnds, due_in, going_on, load_told, scanning_of, seen, stack_start_in, sweep_told, sweep_without, white_next_in};
ghost use Rattle.km_scan.specs.declared.sweep.Sweep.{Sweep as Run};
ghost use Rattle.km_scan.specs.declared.places.At.TheVariants.{Block};
ghost use Rattle.km_scan.specs.declared.places.Cursor.TheVariants.{Last};
ghost use Rattle.km_scan.specs.declared.places.Pass.TheVariants.{Sums};
ghost use Rattle.std.specs.List.{All};

use crate::places::{At, Cursor, Pass};
use crate::{grey, hits, stacks, sums};
use km_map::ObjectMap;
use km_record::RecId;
use km_sum::Sum;
use km_tasks::Tasks;
use km_track::Track;

/// How far a running scan has come, the load that it moved to, and the sum under way.
#[derive(Clone, Copy, Debug, PartialEq)]
pub struct Sweep {
    pub cursor: Cursor,
    pub ready: Option<At>,
    pub sum: Sum,
}

/// The number of the phase in which a cursor is, from 1.
fn phase(cursor: Cursor) -> u8
    ensures { result ≡ phase_at (cursor_of cursor) }
{
    match cursor {
        Cursor::Start | Cursor::Last(At::Stack { .. }) => 1,
        Cursor::Last(At::Block { pass, .. }) | Cursor::Behind { pass, .. } => match pass {
            Pass::First => 2,
            Pass::Sums => 3,
            Pass::Second => 4,
        },
    }
}

/// The word behind another in its stack or block.
#[inline(always)]
fn word_behind<M: ObjectMap>(at: At, track: &Track<M>, tasks: &Tasks) -> Option<At>
    requires at { (stacks : Bool) × FitsAt stacks at track.now tasks.now }
    requires end { All StackEnds tasks.now.tasks }
    ensures place { option_map place_of result ≡ going_on (tracked_in track.now) tasks.now.tasks (state.Last (place_of at)) }
    ensures fits { (stacks : Bool) → FitsAt stacks at track.now tasks.now → FitsDue stacks result track.now tasks.now }
{
    match at {
        At::Stack { task, word } => stacks::word_behind(tasks, task, word),
        At::Block { pass, id, word } => match pass {
            Pass::Sums => sums::word_behind(track, id, word),
            Pass::First | Pass::Second => grey::word_behind(track, pass, id, word),
        },
    }
}

/// The first word of the next stack, before any block.
fn next_stack(cursor: Cursor, stacks: bool, tasks: &Tasks) -> Option<At>
    ensures place { option_map place_of result ≡ unless_over 1 (phase_at (cursor_of cursor)) (if stacks then stack_start_in tasks.now.tasks (cursor_of cursor) else None) }
    ensures fits { (t : Tracker) → FitsDue stacks result t tasks.now }
{
    if !stacks {
        return None;
    }
    match cursor {
        Cursor::Start => stacks::first_above(tasks, 0),
        Cursor::Last(At::Stack { task, .. }) => stacks::first_above(tasks, task),
        Cursor::Last(At::Block { .. }) | Cursor::Behind { .. } => None,
    }
}

/// The first word of the next grey block, before the sums.
fn next_grey<M: ObjectMap>(cursor: Cursor, track: &mut Track<M>) -> Option<At>
    ensures place { option_map place_of result ≡ unless_over 2 (phase_at (cursor_of cursor)) (first_in 2 (blocks_in (tracked_in track.old)) track.old.queue) }
    ensures queue { IfSome result (λ at. track.new ≡ record track.old { queue = behind (place_of at).holder track.old.queue }) }
    ensures empty { IfNone result (track.new ≡ record track.old { queue = if nat_le (phase_at (cursor_of cursor)) 2 then [] else track.old.queue }) }
    ensures fits { (stacks : Bool) (roll : Roll) → FitsDue stacks result track.new roll }
{
    if phase(cursor) > 2 {
        return None;
    }
    grey::next_held(track, Pass::First)
}

/// The first word of the next white block, before the second grey pass.
fn next_white<M: ObjectMap>(cursor: Cursor, track: &Track<M>) -> Option<At>
    requires { (id : Id) (word : Address) → cursor ≡ Last (Block Sums id word) → is_live id track.now ≡ true }
    ensures place { option_map place_of result ≡ unless_over 3 (phase_at (cursor_of cursor)) (white_next_in (tracked_in track.now) (cursor_of cursor)) }
    ensures fits { (stacks : Bool) (roll : Roll) → FitsDue stacks result track.now roll }
{
    if phase(cursor) > 3 {
        return None;
    }
    sums::next_white(track, cursor)
}

/// Counts what a loaded value refers to, or keeps the sum that it ends.
#[inline(always)]
fn count<M: ObjectMap>(track: &mut Track<M>, at: At, value: u64, sum: Sum)
    requires { (stacks : Bool) × (roll : Roll) × FitsDue stacks (Some at) track.old roll }
    ensures { (stacks : Bool) (w : Run) (roll : Roll) → sum ≡ sum_after (scanning_of track.old w) (place_of at) value → track.new ≡ load_told stacks w (place_of at) value track.old roll }
{
    match at {
        At::Stack { .. } => hits::refer(track, None, value),
        At::Block { pass, id, word } => match pass {
            Pass::Sums => sums::keep(track, id, word, sum.value()),
            Pass::First | Pass::Second => hits::refer(track, Some(id.generation), value),
        },
    }
}

/// No load is ready any more. Seldom was one, and a test costs less than a write.
#[inline(always)]
fn drop_ready(ready: &mut Option<At>)
    ensures { ready.new ≡ None }
{
    if let Some(_) = *ready {
        *ready = None;
    }
}

impl Sweep {
    /// The load that needs no further move.
    #[inline(always)]
    pub fn due<M: ObjectMap>(&self, track: &Track<M>, tasks: &Tasks) -> Option<At>
        requires { (stacks : Bool) × FitsSweep stacks self.now track.now tasks.now }
        ensures place { option_map place_of result ≡ due_in self.now track.now tasks.now }
        ensures fits { (stacks : Bool) → FitsSweep stacks self.now track.now tasks.now → FitsDue stacks result track.now tasks.now }
    {
        if let Some(at) = self.ready {
            return Some(at);
        }
        match self.cursor {
            Cursor::Last(at) => word_behind(at, track, tasks),
            Cursor::Start | Cursor::Behind { .. } => None,
        }
    }

    /// The next load of the scan, where none is due. What it passes by in the queue is taken out.
    pub fn next<M: ObjectMap>(
        &self,
        stacks: bool,
        track: &mut Track<M>,
        tasks: &Tasks,
    ) -> Option<At>
        requires fits { FitsSweep stacks self.now track.old tasks.now }
        requires moved { due_in self.now track.old tasks.now ≡ None }
        ensures place { option_map place_of result ≡ next_in (seen stacks track.old tasks.now) (scanning_of track.old self.now) }
        ensures queue { IfSome result (λ at. track.new ≡ record track.old { queue = queue_at (scanning_of track.old self.now) (place_of at) }) }
        ensures empty { IfNone result (track.new ≡ record track.old { queue = [] }) }
        ensures fits { FitsDue stacks result track.new tasks.now }
    {
        if let Some(at) = next_stack(self.cursor, stacks, tasks) {
            return Some(at);
        }
        if let Some(at) = next_grey(self.cursor, track) {
            return Some(at);
        }
        if let Some(at) = next_white(self.cursor, track) {
            return Some(at);
        }
        grey::next_held(track, Pass::Second)
    }

    /// Whether the last load was one of the sums, for this block.
    fn is_summing(&self, id: RecId) -> bool
        ensures { result ≡ is_at 3 id.generation (cursor_of self.now.cursor) }
    {
        match self.cursor {
            Cursor::Last(
                At::Block {
                    pass: Pass::Sums,
                    id: last,
                    ..
                },
            ) => last.generation == id.generation,
            _ => false,
        }
    }

    /// The sum under way after a value was loaded at a place.
    fn sum_with(&self, at: At, value: u64) -> Sum
        ensures { (t : Tracker) → result ≡ sum_after (scanning_of t self.now) (place_of at) value }
    {
        let At::Block {
            pass: Pass::Sums,
            id,
            ..
        } = at
        else {
            return Sum::new();
        };
        let mut sum = if self.is_summing(id) {
            self.sum
        } else {
            Sum::new()
        };
        sum.add(value);
        sum
    }

    /// Takes the value that was loaded at a place.
    #[inline(always)]
    pub fn take<M: ObjectMap>(&mut self, track: &mut Track<M>, at: At, value: u64)
        requires { (stacks : Bool) × (roll : Roll) × FitsDue stacks (Some at) track.old roll }
        ensures sweep { self.new ≡ sweep_told self.old at value track.old }
        ensures track { (stacks : Bool) (roll : Roll) → track.new ≡ load_told stacks self.old (place_of at) value track.old roll }
    {
        let sum = self.sum_with(at, value);
        count(track, at, value, sum);
        self.cursor = Cursor::Last(at);
        drop_ready(&mut self.ready);
        self.sum = sum;
    }

    /// Leaves the block of a registration, wherever it stands on it.
    pub fn leave(&mut self, generation: u64)
        ensures { self.new ≡ sweep_without generation self.old }
    {
        if let Cursor::Last(At::Block { pass, id, .. }) = self.cursor {
            if id.generation == generation {
                self.cursor = Cursor::Behind { pass, generation };
            }
        }
        if let Some(At::Block { id, .. }) = self.ready {
            if id.generation == generation {
                self.ready = None;
            }
        }
    }
}
