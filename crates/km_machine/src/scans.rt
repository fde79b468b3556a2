//! Lines that make scanner steps or move time.

ghost use Rattle.std.specs.Prelude.{◌≡◌, ℕ, ◌+◌, ◌-◌, ◌<◌, ◌≤◌, ◌^◌, Ok, Some, IfSome};
ghost use Rattle.km_base.specs.declared.acts.Act.TheVariants as act;
ghost use Rattle.km_base.specs.declared.acts.FileCmd.TheVariants as word;
ghost use Rattle.km_edge.specs.Streams.{SinkState};
ghost use Rattle.km_base.specs.declared.lines.Command.TheVariants as command;
ghost use Rattle.km_model.specs.Expansion.{due_by as due_in, newest_answer, run_at, world_after};
ghost use Rattle.km_model.specs.Follows.{Run, happens};
ghost use Rattle.km_machine.specs.Machines.{For, HasRoom, Spent};
ghost use Rattle.km_machine.specs.Lines.{SaysLine, SoFar};
ghost use Rattle.km_machine.specs.Scans.{Scanned, ScansUntil, Stepped};

use crate::behind::say;
use crate::machine::Machine;
use crate::witness::Witness;
use km_base::{Act, Answer, FileCmd};
use km_edge::{Failed, Sink};

/// More steps than a scan has: it loads at most five times the words of the greatest memory.
const SCAN_STEPS: u64 = 33_554_432;

/// More automatic scans than fall due in an hour, a second apart.
const MOST_SCANS: u64 = 3_602;

/// At most so many scanner steps; the last is the one that doesn't load.
pub fn steps<W: Witness, K: Sink>(
    machine: &mut Machine,
    n: u64,
    witness: &W,
    sink: &mut K,
) -> Result<(), Failed>
    requires { HasRoom machine.old n 0 }
    ensures says { (run : Run) → For machine.old run → SaysLine (W.says witness.now) machine.new run (command.Step n) (K.state sink.old) (K.state sink.new) (Ok result) }
    ensures spent { Spent machine.old machine.new n 0 }
{
    step_on(machine, n, Ok(()), witness, sink)
}

/// Scanner steps until no scan runs; one, which is refused, if none ran.
pub fn finish<W: Witness, K: Sink>(
    machine: &mut Machine,
    witness: &W,
    sink: &mut K,
) -> Result<(), Failed>
    requires { HasRoom machine.old (2 ^ 25) 0 }
    ensures says { (run : Run) → For machine.old run → SaysLine (W.says witness.now) machine.new run command.Finish (K.state sink.old) (K.state sink.new) (Ok result) }
    ensures spent { Spent machine.old machine.new (2 ^ 25) 0 }
{
    step_on(machine, SCAN_STEPS, Ok(()), witness, sink)
}

/// A whole scan, if none runs.
pub fn scan<W: Witness, K: Sink>(
    machine: &mut Machine,
    witness: &W,
    sink: &mut K,
) -> Result<(), Failed>
    requires { HasRoom machine.old (2 ^ 25 + 1) 0 }
    ensures says { (run : Run) → For machine.old run → SaysLine (W.says witness.now) machine.new run (command.Write (Some word.Scan)) (K.state sink.old) (K.state sink.new) (Ok result) }
    ensures spent { Spent machine.old machine.new (2 ^ 25 + 1) 0 }
{
    let act = Act::File(FileCmd::Scan);
    let begun = machine.event(&act);
    let written = say(machine, &act, &begun, Ok(()), witness, sink);
    scan_on(machine, begun, written, witness, sink)
}

/// Moves time by so many milliseconds, over the automatic scans that fall due.
pub fn tick<W: Witness, K: Sink>(
    machine: &mut Machine,
    n: u64,
    witness: &W,
    sink: &mut K,
) -> Result<(), Failed>
    requires few { n ≤ 3600000 }
    requires room { HasRoom machine.old (2 ^ 37) n }
    ensures says { (run : Run) → For machine.old run → SaysLine (W.says witness.now) machine.new run (command.Tick n) (K.state sink.old) (K.state sink.new) (Ok result) }
    ensures spent { Spent machine.old machine.new (2 ^ 37) n }
{
    let target = machine.core().now() + n;
    let written = automatic_scans(machine, target, witness, sink);
    move_to(machine, target, written, witness, sink)
}

/// Makes the automatic scans that are due by a moment.
fn automatic_scans<W: Witness, K: Sink>(
    machine: &mut Machine,
    target: u64,
    witness: &W,
    sink: &mut K,
) -> Result<(), Failed>
    requires ahead { machine.old.core.parts.settings.now ≤ target }
    requires few { target ≤ machine.old.core.parts.settings.now + 3600000 }
    requires room { HasRoom machine.old (2 ^ 37) (target - machine.old.core.parts.settings.now) }
    ensures scans { (run : Run) → For machine.old run → ScansUntil (W.says witness.now) target run machine.new (K.state sink.old) (K.state sink.new) result }
    ensures spent { Spent machine.old machine.new (2 ^ 37 - 1) (target - machine.old.core.parts.settings.now) }
{
    let mut written = Ok(());
    for _ in 0..MOST_SCANS {
        let Some(due) = due_by(machine, target) else {
            return written;
        };
        written = automatic_scan(machine, due, written, witness, sink);
    }
    // No hour has so many.
    written
}

/// Makes the automatic scan that is due at a moment.
fn automatic_scan<W: Witness, K: Sink>(
    machine: &mut Machine,
    due: u64,
    written: Result<(), Failed>,
    witness: &W,
    sink: &mut K,
) -> Result<(), Failed>
    requires { HasRoom machine.old (2 ^ 25 + 2) (due - machine.old.core.parts.settings.now) }
    ensures scanned { (first run : Run) (k : SinkState) → SoFar (W.says witness.now) first run machine.old k (K.state sink.old) written
        → Scanned (W.says witness.now) first (happens (run_at run due) act.AutoBegin) machine.new k (K.state sink.new) result }
    ensures spent { Spent machine.old machine.new (2 ^ 25 + 2) (due - machine.old.core.parts.settings.now) }
{
    let moved = move_to(machine, due, written, witness, sink);
    let begun = machine.event(&Act::AutoBegin);
    let said = say(machine, &Act::AutoBegin, &begun, moved, witness, sink);
    scan_on(machine, begun, said, witness, sink)
}

/// When the next automatic scan is due, if it is by a moment.
fn due_by(machine: &Machine, target: u64) -> Option<u64>
    ensures due { (run : Run) → For machine.now run → result ≡ due_in target (world_after run.history) }
    ensures by { IfSome result (λ m. m ≤ target) }
{
    match machine.core().auto_at() {
        Some(due) if due <= target => Some(due),
        _ => None,
    }
}

/// Moves time to a moment that isn't before it.
fn move_to<W: Witness, K: Sink>(
    machine: &mut Machine,
    moment: u64,
    written: Result<(), Failed>,
    witness: &W,
    sink: &mut K,
) -> Result<(), Failed>
    requires { HasRoom machine.old 1 (moment - machine.old.core.parts.settings.now) }
    ensures moved { (first run : Run) (k : SinkState) → SoFar (W.says witness.now) first run machine.old k (K.state sink.old) written
        → SoFar (W.says witness.now) first (run_at run moment) machine.new k (K.state sink.new) result }
    ensures spent { Spent machine.old machine.new 1 (moment - machine.old.core.parts.settings.now) }
{
    let act = Act::Tick(moment.saturating_sub(machine.core().now()));
    let answer = machine.event(&act);
    say(machine, &act, &answer, written, witness, sink)
}

/// Makes a whole scan if an event began one, by its answer.
fn scan_on<W: Witness, K: Sink>(
    machine: &mut Machine,
    begun: Answer,
    written: Result<(), Failed>,
    witness: &W,
    sink: &mut K,
) -> Result<(), Failed>
    requires { HasRoom machine.old (2 ^ 25) 0 }
    ensures scanned { (first run : Run) (k : SinkState) → newest_answer run.history ≡ Some begun → SoFar (W.says witness.now) first run machine.old k (K.state sink.old) written
        → Scanned (W.says witness.now) first run machine.new k (K.state sink.new) result }
    ensures spent { Spent machine.old machine.new (2 ^ 25) 0 }
{
    match begun {
        Answer::Done => step_on(machine, SCAN_STEPS, written, witness, sink),
        _ => written,
    }
}

/// Makes at most so many scanner steps; the last is the one that doesn't load.
fn step_on<W: Witness, K: Sink>(
    machine: &mut Machine,
    most: u64,
    written: Result<(), Failed>,
    witness: &W,
    sink: &mut K,
) -> Result<(), Failed>
    requires { HasRoom machine.old most 0 }
    ensures stepped { (first run : Run) (k : SinkState) → SoFar (W.says witness.now) first run machine.old k (K.state sink.old) written
        → Stepped (W.says witness.now) first run most machine.new k (K.state sink.new) result }
    ensures spent { Spent machine.old machine.new most 0 }
{
    let mut written = written;
    for _ in 0..most {
        // Most steps are such loads, and need no answer in its full size.
        if let Some((word, value)) = machine.load_due() {
            let load = Answer::Loaded {
                addr: word.0,
                value,
            };
            written = say(machine, &Act::Step, &load, written, witness, sink);
        } else {
            let answer = machine.event(&Act::Step);
            match answer {
                Answer::Loaded { .. } => {
                    written = say(machine, &Act::Step, &answer, written, witness, sink);
                }
                _ => return say(machine, &Act::Step, &answer, written, witness, sink),
            }
        }
    }
    written
}
