//! One step of the scanner.

ghost use Rattle.std.specs.Prelude.{◌≡◌, ◌<◌, ◌^◌, IfSome, Some, None, true, false};
ghost use Rattle.km_base.specs.declared.acts.Answer.TheVariants.{Loaded};
ghost use Rattle.km_model.specs.Memory.{in_memory as is_word};
ghost use Rattle.km_model.specs.Past.{Place, is_loaded, is_refused};
ghost use Rattle.km_objects.specs.Objects.{Agree, IfLoaded};
ghost use Rattle.km_objects.specs.Steps.{IsStep};
ghost use Rattle.km_scan.specs.Places.{place_of};
ghost use Rattle.km_scan.specs.Stand.{Fits, IsDue, due_in, load_told, scanning_of, seen, sweep_told};
ghost use Rattle.km_scan.specs.declared.sweep.Sweep.{Sweep};
ghost use Rattle.km_state.specs.StateNext.{next_in};
ghost use Rattle.km_tasks.specs.Roll.{Roll};
ghost use Rattle.km_words.specs.Told.{IsGiven, loaded_in};

use km_base::{Addr, Answer, Refusal};
use km_map::ObjectMap;
use km_scan::{At, Scanner};
use km_tasks::Tasks;
use km_track::Track;
use km_verdict::flag;
use km_words::Words;

/// Loads the word that is due, gives the scanner its value, and tells it.
#[inline(always)]
fn load<M: ObjectMap, W: Words>(
    track: &mut Track<M>,
    scanner: &mut Scanner,
    words: &mut W,
    at: At,
) -> u64
    requires due { (roll : Roll) × IsDue scanner.old at track.old roll }
    requires word { is_word (W.told words.old).size (place_of at).word ≡ true }
    ensures sweep { (w : Sweep) → scanner.old.sweep ≡ Some w → scanner.new ≡ record scanner.old { sweep = Some (sweep_told w at result track.old) } }
    ensures track { (w : Sweep) (roll : Roll) → scanner.old.sweep ≡ Some w → track.new ≡ load_told scanner.old.stacks w (place_of at) result track.old roll }
    ensures agree { (roll : Roll) → Fits scanner.old track.old roll → IsDue scanner.old at track.old roll → Agree (record { tracker = track.new; stand = scanner.new }) roll }
    ensures given { IsGiven (W.told words.old).given (place_of at).word result }
    ensures memory { IsGiven (W.told words.old).memory (place_of at).word result }
    ensures after { W.told words.new ≡ loaded_in (W.told words.old) (place_of at).word result }
{
    let value = words.load(at.word());
    scanner.take(track, at, value);
    value
}

/// Makes a step that is a load and needs no move to it, and tells its word and its value. Else nothing changes.
#[inline(always)]
pub fn load_due<M: ObjectMap, W: Words>(
    track: &mut Track<M>,
    scanner: &mut Scanner,
    tasks: &Tasks,
    words: &mut W,
) -> Option<(Addr, u64)>
    requires agree { Agree (record { tracker = track.old; stand = scanner.old }) tasks.now }
    requires words { (w : Sweep) (p : Place) → scanner.old.sweep ≡ Some w → next_in (seen scanner.old.stacks track.old tasks.now) (scanning_of track.old w) ≡ Some p → is_word (W.told words.old).size p.word ≡ true }
    ensures step { IfSome result (λ r. IsStep (record { tracker = track.old; stand = scanner.old }) tasks.now (Loaded r.0.0 r.1) (record { tracker = track.new; stand = scanner.new })) }
    ensures range { IfSome result (λ r. r.1 < 2 ^ 64) }
    ensures given { IfSome result (λ r. IsGiven (W.told words.old).given r.0.0 r.1) }
    ensures memory { IfSome result (λ r. IsGiven (W.told words.old).memory r.0.0 r.1) }
    ensures after { IfSome result (λ r. W.told words.new ≡ loaded_in (W.told words.old) r.0.0 r.1) }
    ensures same_track { result ≡ None → track.new ≡ track.old }
    ensures same_scanner { result ≡ None → scanner.new ≡ scanner.old }
    ensures same_words { result ≡ None → W.told words.new ≡ W.told words.old }
{
    let at = scanner.due(track, tasks)?;
    let value = load(track, scanner, words, at);
    Some((at.word(), value))
}

/// Moves on to the next load and makes it, or ends the scan with its verdict.
#[inline(never)]
fn load_next<M: ObjectMap, W: Words>(
    track: &mut Track<M>,
    scanner: &mut Scanner,
    tasks: &Tasks,
    words: &mut W,
) -> Answer
    requires agree { Agree (record { tracker = track.old; stand = scanner.old }) tasks.now }
    requires moved { (w : Sweep) × (scanner.old.sweep ≡ Some w) × (due_in w track.old tasks.now ≡ None) }
    requires words { (w : Sweep) (p : Place) → scanner.old.sweep ≡ Some w → next_in (seen scanner.old.stacks track.old tasks.now) (scanning_of track.old w) ≡ Some p → is_word (W.told words.old).size p.word ≡ true }
    ensures step { IsStep (record { tracker = track.old; stand = scanner.old }) tasks.now result (record { tracker = track.new; stand = scanner.new }) }
    ensures loaded { IfLoaded result (λ a value. (value < 2 ^ 64) × IsGiven (W.told words.old).given a value × IsGiven (W.told words.old).memory a value × (W.told words.new ≡ loaded_in (W.told words.old) a value)) }
    ensures unloaded { is_loaded result ≡ false → W.told words.new ≡ W.told words.old }
    ensures same_track { is_refused result ≡ true → track.new ≡ track.old }
    ensures same_scanner { is_refused result ≡ true → scanner.new ≡ scanner.old }
{
    if let Some(scan) = scanner.move_on(track, tasks) {
        return Answer::Ended {
            scan,
            new: flag(track, scanner.began_at()),
        };
    }
    let Some(at) = scanner.due(track, tasks) else {
        unreachable!()
    };
    let value = load(track, scanner, words, at);
    Answer::Loaded {
        addr: at.word().0,
        value,
    }
}

/// A load of the running scan, or its end.
pub fn step<M: ObjectMap, W: Words>(
    track: &mut Track<M>,
    scanner: &mut Scanner,
    tasks: &Tasks,
    words: &mut W,
) -> Answer
    requires agree { Agree (record { tracker = track.old; stand = scanner.old }) tasks.now }
    requires words { (w : Sweep) (p : Place) → scanner.old.sweep ≡ Some w → next_in (seen scanner.old.stacks track.old tasks.now) (scanning_of track.old w) ≡ Some p → is_word (W.told words.old).size p.word ≡ true }
    ensures step { IsStep (record { tracker = track.old; stand = scanner.old }) tasks.now result (record { tracker = track.new; stand = scanner.new }) }
    ensures loaded { IfLoaded result (λ a value. (value < 2 ^ 64) × IsGiven (W.told words.old).given a value × IsGiven (W.told words.old).memory a value × (W.told words.new ≡ loaded_in (W.told words.old) a value)) }
    ensures unloaded { is_loaded result ≡ false → W.told words.new ≡ W.told words.old }
    ensures same_track { is_refused result ≡ true → track.new ≡ track.old }
    ensures same_scanner { is_refused result ≡ true → scanner.new ≡ scanner.old }
{
    if let Some(at) = scanner.due(track, tasks) {
        let value = load(track, scanner, words, at);
        return Answer::Loaded {
            addr: at.word().0,
            value,
        };
    }
    match scanner.running() {
        Some(_) => load_next(track, scanner, tasks, words),
        None => Answer::Refused(Refusal::NoScanRunning),
    }
}
