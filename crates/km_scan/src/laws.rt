//! What other calls do to the tracker and to tasks leaves a scanner fitting, as long as it hasn't
//! moved on since its last load; and its own steps are those of the state.

ghost use Rattle.std.specs.Prelude.{◌≡◌, ℕ, ◌+◌, ◌^◌, ◌<◌, Bool, None, Some, Option, List, map, true};
ghost use Rattle.std.specs.List.{All};
ghost use Rattle.km_base.specs.declared.sizes.TheConstants.{PAGE};
ghost use Rattle.km_base.specs.declared.acts.Reg.{Reg};
ghost use Rattle.km_base.specs.declared.spans.Span.{Span};
ghost use Rattle.km_model.specs.Past.{Place};
ghost use Rattle.km_record.specs.declared.kinds.Note.{Note};
ghost use Rattle.km_record.specs.declared.kinds.RecId.{RecId};
ghost use Rattle.km_record.specs.Records.{with_area};
ghost use Rattle.km_state.specs.State.{Scanning, State, Tracked};
ghost use Rattle.km_state.specs.StateAfter.{begins_at, begun_scan, scan_without, uncounted};
ghost use Rattle.km_state.specs.StateNext.{load_at, next_in, queue_at, scan_told, sum_after, told};
ghost use Rattle.km_tasks.specs.Roll.{Roll, with_task, with_value, without};
ghost use Rattle.km_track.specs.Tracker.{AreRising, Live, NeverMeet, Tracker, changed, live_with, registered_in, scan_started, tracked_in, tracked_noted, unregistered_at};
ghost use Rattle.km_scan.specs.Places.{place_of};
ghost use Rattle.km_scan.specs.Stand.{EachStackWordPasses, EachWordPasses, Fits, FitsSweep, IsSettled, KeepsPlaces, Stand, due_in, load_told, scanning_of, seen, started, sweep_told, sweep_without};
ghost use Rattle.km_scan.specs.declared.places.At.{At};
ghost use Rattle.km_scan.specs.declared.sweep.Sweep.{Sweep};

/// With no scan running, anything fits.
pub fn idle_fits()
    ensures { (s : Stand) (t : Tracker) (roll : Roll) → s.sweep ≡ None → Fits s t roll }
{}

/// A registration leaves it fitting.
pub fn registered_fits()
    ensures { (s : Stand) (t : Tracker) (roll : Roll) (slot : ℕ) (span : Span) (references born : ℕ) → IsSettled s → Fits s t roll → Fits s (registered_in slot span references born t) roll }
{}

/// So does a change of blocks that moves none and makes none white: a note, an area, an excess.
pub fn changed_fits()
    ensures all { (s : Stand) (t : Tracker) (roll : Roll) (test : Live → Bool) (change : Tracked → Tracked) → KeepsPlaces change → IsSettled s → Fits s t roll → Fits s (changed test change t) roll }
    ensures note { (note : Note) → KeepsPlaces (tracked_noted note) }
    ensures area { (a size : ℕ) → KeepsPlaces (λ u. record u { block = with_area a size u.block }) }
    ensures excess { (excess : Option ℕ) → KeepsPlaces (λ u. record u { block = record u.block { excess = excess } }) }
{}

/// So do the start and the end of a task, and a register that is set.
pub fn tasks_fit()
    ensures start { (s : Stand) (t : Tracker) (roll : Roll) (name : List ℕ) (stack : ℕ) → stack + PAGE < 2 ^ 64 → IsSettled s → Fits s t roll → Fits s t (with_task roll name stack) }
    ensures exit { (s : Stand) (t : Tracker) (roll : Roll) (name : List ℕ) → IsSettled s → Fits s t roll → Fits s t (without roll name) }
    ensures register { (s : Stand) (t : Tracker) (roll : Roll) (name : List ℕ) (reg : Reg) (value : ℕ) → IsSettled s → Fits s t roll → Fits s t (with_value roll name reg value) }
{}

/// What a scanner does is what the running scan of the state does, and the blocks follow: its begin, a
/// load that was due, a load that it moved to, and a block that it leaves.
pub fn scans_follow_the_state()
    ensures begun { (t : Tracker) → scanning_of (scan_started t) started ≡ begun_scan (tracked_in t) }
    ensures uncounted { (t : Tracker) → tracked_in (scan_started t) ≡ map uncounted (tracked_in t) }
    ensures due { (stacks : Bool) (w : Sweep) (t : Tracker) (roll : Roll) (at : At) (value : ℕ) → w.ready ≡ None → due_in w t roll ≡ Some (place_of at) → scanning_of (load_told stacks w (place_of at) value t roll) (sweep_told w at value t) ≡ scan_told (scanning_of t w) (load_at (seen stacks t roll) (scanning_of t w) (place_of at) value) }
    ensures moved { (stacks : Bool) (w : Sweep) (t : Tracker) (roll : Roll) (at : At) (value : ℕ) → scanning_of (load_told stacks (record w { ready = Some at }) (place_of at) value (record t { queue = queue_at (scanning_of t w) (place_of at) }) roll) (sweep_told (record w { ready = Some at }) at value (record t { queue = queue_at (scanning_of t w) (place_of at) })) ≡ scan_told (scanning_of t w) (load_at (seen stacks t roll) (scanning_of t w) (place_of at) value) }
    ensures blocks { (stacks : Bool) (w : Sweep) (t : Tracker) (roll : Roll) (p : Place) (value : ℕ) → tracked_in (load_told stacks w p value t roll) ≡ map (told (load_at (seen stacks t roll) (scanning_of t w) p value) (sum_after (scanning_of t w) p value)) (tracked_in t) }
    ensures left { (stacks : Bool) (w : Sweep) (t : Tracker) (roll : Roll) (id : RecId) (l : Live) → AreRising 0 t.live t.registered → NeverMeet t.live → FitsSweep stacks w t roll → live_with id t ≡ Some l → Some (scanning_of (unregistered_at l.tracked.block.start t) (sweep_without id.generation w)) ≡ scan_without (begins_at (tracked_in t) l.tracked.block.start) (Some (scanning_of t w)) }
{}

/// What each word of the live blocks and of the stacks of live tasks passes is passed by the word that
/// is loaded next.
pub fn next_is_a_word()
    ensures { (test : ℕ → Bool) (s : State) (c : Scanning) (p : Place) → All (λ u. EachWordPasses test u.block) s.tracked → All (EachStackWordPasses test) s.tasks → next_in s c ≡ Some p → test p.word ≡ true }
{}
