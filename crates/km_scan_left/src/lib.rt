//! What a scanner has left of its running scan, and its laws.
#![tactic(auto)]

ghost use Rattle.std.specs.Prelude.{◌≡◌, ℕ, ◌+◌, ◌*◌, ◌≤◌, Bool, List, [], length, None, Some, option_map};
ghost use Rattle.km_base.specs.declared.sizes.TheConstants.{PAGE};
ghost use Rattle.km_base.specs.declared.acts.Reg.{Reg};
ghost use Rattle.km_laws.specs.Left.{total};
ghost use Rattle.km_model.specs.Blocks.{Block};
ghost use Rattle.km_model.specs.Follows.{Follows, past_of};
ghost use Rattle.km_model.specs.Headline.{IsMemorySize};
ghost use Rattle.km_model.specs.History.{History};
ghost use Rattle.km_model.specs.Past.{world};
ghost use Rattle.km_record.specs.declared.kinds.RecId.{RecId};
ghost use Rattle.km_state.specs.State.{Tracked, blocks_in};
ghost use Rattle.km_state.specs.StateNext.{next_in, queue_at};
ghost use Rattle.km_tasks.specs.Lives.{AreNumbered};
ghost use Rattle.km_tasks.specs.Roll.{Roll, with_value, without};
ghost use Rattle.km_track.specs.Tracker.{AreRising, Live, NeverMeet, Tracker, changed, live_with, tracked_in, unregistered_at};
ghost use Rattle.km_scan.specs.Places.{place_of};
ghost use Rattle.km_scan.specs.Stand.{Fits, IsDue, KeepsPlaces, Stand, due_in, load_told, scanning_of, seen, sweep_told, sweep_without};
ghost use Rattle.km_scan.specs.declared.places.At.{At};
ghost use Rattle.km_scan.specs.declared.sweep.Sweep.{Sweep};
ghost use Rattle.km_scan_left.specs.Left.{scanner_left};

/// Each step of a scan lowers what is left, in the words of the contracts of `move_on`, `stop`, `told` and `take`: a move
/// to a load, the move that ends the scan, a scan that is stopped, and a load that is told, moved to or not.
///
/// That ids and numbers of tasks rise is what `Track::first` and `Tasks::next_after` show at any time. That the scanner
/// fits after a move is what `move_on` ensures.
pub fn steps_lower()
    ensures moves { (s : Stand) (w : Sweep) (t : Tracker) (roll : Roll) (at : At) → AreRising 0 t.live t.registered → s.sweep ≡ Some w → due_in w t roll ≡ None → next_in (seen s.stacks t roll) (scanning_of t w) ≡ Some (place_of at) → Fits (record s { sweep = Some (record w { ready = Some at }) }) (record t { queue = queue_at (scanning_of t w) (place_of at) }) roll → scanner_left (record s { sweep = Some (record w { ready = Some at }) }) (record t { queue = queue_at (scanning_of t w) (place_of at) }) roll + 1 ≤ scanner_left s t roll }
    ensures ends { (s : Stand) (w : Sweep) (t : Tracker) (roll : Roll) → s.sweep ≡ Some w → scanner_left (record s { sweep = None }) (record t { queue = [] }) roll + 1 ≤ scanner_left s t roll }
    ensures stops { (s : Stand) (w : Sweep) (t : Tracker) (roll : Roll) → s.sweep ≡ Some w → scanner_left (record s { sweep = None }) t roll + 1 ≤ scanner_left s t roll }
    ensures told { (s : Stand) (w : Sweep) (t : Tracker) (roll : Roll) (at : At) (value : ℕ) → AreRising 0 t.live t.registered → AreNumbered 0 roll.tasks roll.started → s.sweep ≡ Some w → Fits s t roll → due_in w t roll ≡ Some (place_of at) → scanner_left (record s { sweep = Some (sweep_told w at value t) }) (load_told s.stacks w (place_of at) value t roll) roll + 1 ≤ scanner_left s t roll }
    ensures taken { (s : Stand) (w : Sweep) (t : Tracker) (roll : Roll) (at : At) (value : ℕ) → AreRising 0 t.live t.registered → s.sweep ≡ Some w → IsDue s at t roll → scanner_left (record s { sweep = Some (sweep_told w at value t) }) (load_told s.stacks w (place_of at) value t roll) roll + 1 ≤ scanner_left s t roll }
{}

/// What is left is bounded, where the live blocks and the stacks have room in a memory of so many words. Those that
/// stand after a history have; neither a move nor a load that is told changes them, so that holds between the two as well.
pub fn left_is_bounded()
    ensures room { (words : ℕ) (s : Stand) (t : Tracker) (roll : Roll) → total (λ b. b.size) (blocks_in (tracked_in t)) + PAGE * length roll.tasks ≤ 8 * words → scanner_left s t roll ≤ 2 * words + 2 * length t.live + 5 }
    ensures stands { (words : ℕ) (h : History) (s : Stand) (t : Tracker) (roll : Roll) → IsMemorySize words → Follows words h → blocks_in (tracked_in t) ≡ (world (past_of h)).blocks → roll.tasks ≡ (world (past_of h)).tasks → scanner_left s t roll ≤ 2 * words + 2 * length t.live + 5 }
{}

/// Nothing but a block that is registered and a task that starts raises it, also between a move and its load: no block
/// that is forgotten and unregistered, no change of blocks that moves none and makes none white, as a paint; no tracker
/// that drops all blocks, no end of a task, and no register that is set.
pub fn nothing_raises()
    ensures leaves { (s : Stand) (t : Tracker) (roll : Roll) (id : RecId) (l : Live) → AreRising 0 t.live t.registered → NeverMeet t.live → Fits s t roll → live_with id t ≡ Some l → scanner_left (record s { sweep = option_map (sweep_without id.generation) s.sweep }) (unregistered_at l.tracked.block.start t) roll ≤ scanner_left s t roll }
    ensures changes { (s : Stand) (t : Tracker) (roll : Roll) (test : Live → Bool) (change : Tracked → Tracked) → KeepsPlaces change → scanner_left s (changed test change t) roll ≤ scanner_left s t roll }
    ensures dropped { (s : Stand) (t dropped : Tracker) (roll : Roll) → dropped.live ≡ [] → scanner_left s dropped roll ≤ scanner_left s t roll }
    ensures exit { (s : Stand) (t : Tracker) (roll : Roll) (name : List ℕ) → scanner_left s t (without roll name) ≤ scanner_left s t roll }
    ensures register { (s : Stand) (t : Tracker) (roll : Roll) (name : List ℕ) (reg : Reg) (value : ℕ) → scanner_left s t (with_value roll name reg value) ≤ scanner_left s t roll }
{}
