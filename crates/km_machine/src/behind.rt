//! The events of a line behind its first.

ghost use Rattle.std.specs.Prelude.{◌≡◌, ℕ, ◌+◌, ◌*◌, ◌/◌, ◌<◌, ◌≤◌, ◌^◌, List, length, map, [], ◌∷◌, true};
ghost use Rattle.km_base.specs.declared.acts.Act.TheVariants.{Kmalloc, Read, Store, VmTake};
ghost use Rattle.km_base.specs.declared.sizes.TheConstants.{PAGE};
ghost use Rattle.km_model.specs.Memory.{words_from};
ghost use Rattle.km_model.specs.Placement.{kmalloc_span, pages_for};
ghost use Rattle.km_edge.specs.Streams.{SinkState};
ghost use Rattle.km_model.specs.Follows.{Run, all_happen, happens, told_answer};
ghost use Rattle.km_model.specs.Expansion.{acts_behind, head_stores, set_register, slot_word as slot_word_of, stores_from, world_after};
ghost use Rattle.km_machine.specs.Machines.{For, HasRoom, Spent};
ghost use Rattle.km_machine.specs.Lines.{Gave, HasSaid, IsGiven, SoFar, is_allocation, is_request, is_simple};

use crate::machine::Machine;
use crate::witness::Witness;
use km_base::sizes::{BASE, PAGE};
use km_base::{Act, Addr, Answer, Command, RegName};
use km_edge::{Failed, Sink};
use km_slab::words_for;

/// Has a witness say an event that was just made, unless a write has failed before.
#[inline(always)]
pub fn say<W: Witness, K: Sink>(
    machine: &mut Machine,
    act: &Act,
    answer: &Answer,
    written: Result<(), Failed>,
    witness: &W,
    sink: &mut K,
) -> Result<(), Failed>
    ensures so_far { (first run : Run) (k : SinkState) → HasSaid (W.says witness.now) first run k (K.state sink.old) written
        → For machine.old (happens run act.now) → answer.now ≡ told_answer run act.now
        → (is_request act.now ≡ true → W.asks witness.now ≡ true) → (act.now ≡ Read → first.memory ≡ run.memory)
        → SoFar (W.says witness.now) first (happens run act.now) machine.new k (K.state sink.new) result }
    ensures same { machine.new ≡ machine.old }
{
    match written {
        Ok(()) => witness.event(machine, act, answer, sink),
        Err(failed) => Err(failed),
    }
}

/// Makes one event of a line, which is answered by no address, and has a witness say it.
#[inline]
pub fn made<W: Witness, K: Sink>(
    machine: &mut Machine,
    act: &Act,
    written: Result<(), Failed>,
    witness: &W,
    sink: &mut K,
) -> Result<(), Failed>
    requires room { HasRoom machine.old 1 0 }
    requires simple { is_simple act.now ≡ true }
    ensures so_far { (first run : Run) (k : SinkState) → SoFar (W.says witness.now) first run machine.old k (K.state sink.old) written → SoFar (W.says witness.now) first (happens run act.now) machine.new k (K.state sink.new) result }
    ensures spent { Spent machine.old machine.new 1 0 }
{
    let answer = machine.event(act);
    say(machine, act, &answer, written, witness, sink)
}

/// The word of a vmap slot.
pub fn slot_word(slot: u32) -> u64
    ensures { result ≡ slot_word_of slot }
{
    BASE + 8 * slot as u64
}

/// Sets the register that an allocation names to its address.
fn set<W: Witness, K: Sink>(
    machine: &mut Machine,
    reg: Option<RegName>,
    start: u64,
    written: Result<(), Failed>,
    witness: &W,
    sink: &mut K,
) -> Result<(), Failed>
    requires { HasRoom machine.old 1 0 }
    ensures so_far { (first run : Run) (k : SinkState) → SoFar (W.says witness.now) first run machine.old k (K.state sink.old) written
        → SoFar (W.says witness.now) first (all_happen run (set_register reg start)) machine.new k (K.state sink.new) result }
    ensures spent { Spent machine.old machine.new 1 0 }
{
    match reg {
        Some(reg) => {
            let act = Act::SetReg {
                task: reg.task,
                reg: reg.reg,
                value: start,
            };
            made(machine, &act, written, witness, sink)
        }
        None => written,
    }
}

/// Stores 0 into each word of a block.
fn clear<W: Witness, K: Sink>(
    machine: &mut Machine,
    size: u64,
    start: u64,
    written: Result<(), Failed>,
    witness: &W,
    sink: &mut K,
) -> Result<(), Failed>
    requires { HasRoom machine.old (2 ^ 12) 0 }
    ensures so_far { (first run : Run) (k : SinkState) → Gave (Kmalloc size) start run.history → SoFar (W.says witness.now) first run machine.old k (K.state sink.old) written
        → SoFar (W.says witness.now) first (all_happen run (map (λ b. Store b 0) (words_from (kmalloc_span size / 8) start))) machine.new k (K.state sink.new) result }
    ensures spent { Spent machine.old machine.new (2 ^ 12) 0 }
{
    let mut written = written;
    for i in 0..words_for(size) {
        let act = Act::Store {
            addr: start.wrapping_add(8 * i),
            value: 0,
        };
        written = made(machine, &act, written, witness, sink);
    }
    written
}

/// The bytes of the pages that so many bytes need, where they have an end in 64 bits.
fn area_bytes(size: u64) -> u64
    ensures { size + PAGE ≤ 2 ^ 64 → result ≡ PAGE * pages_for size }
{
    size.saturating_add(PAGE - 1) / PAGE * PAGE
}

/// Stores values into the words from an address on.
fn fill<W: Witness, K: Sink>(
    machine: &mut Machine,
    start: u64,
    values: &[u64],
    written: Result<(), Failed>,
    witness: &W,
    sink: &mut K,
) -> Result<(), Failed>
    requires few { length values.now ≤ 8 }
    requires room { HasRoom machine.old 8 0 }
    ensures so_far { (first run : Run) (k : SinkState) → start + 64 ≤ 2 ^ 64 → SoFar (W.says witness.now) first run machine.old k (K.state sink.old) written
        → SoFar (W.says witness.now) first (all_happen run (stores_from start values.now)) machine.new k (K.state sink.new) result }
    ensures spent { Spent machine.old machine.new 8 0 }
{
    let mut written = written;
    for i in 0..values.len() {
        let act = Act::Store {
            addr: start.wrapping_add(8 * i as u64),
            value: values[i],
        };
        written = made(machine, &act, written, witness, sink);
    }
    written
}

/// Writes the head of a new area, and its slot.
fn write_head<W: Witness, K: Sink>(
    machine: &mut Machine,
    size: u64,
    start: u64,
    written: Result<(), Failed>,
    witness: &W,
    sink: &mut K,
) -> Result<(), Failed>
    requires { HasRoom machine.old 9 0 }
    ensures so_far { (first run : Run) (k : SinkState) → Gave (VmTake size) start run.history → SoFar (W.says witness.now) first run machine.old k (K.state sink.old) written
        → SoFar (W.says witness.now) first (all_happen run (head_stores (world_after run.history) size start)) machine.new k (K.state sink.new) result }
    ensures spent { Spent machine.old machine.new 9 0 }
{
    match machine.core().vm_area(Addr(start)) {
        Some(area) => {
            let head = area.head.start.0;
            let values = [0, start, area_bytes(size), 0, 0, 0, 0, 0];
            let filled = fill(machine, head, &values, written, witness, sink);
            let slot = Act::Store {
                addr: slot_word(area.slot),
                value: head,
            };
            made(machine, &slot, filled, witness, sink)
        }
        None => written,
    }
}

/// Makes the events behind an allocation at an address, and has a witness say them.
pub fn acts<W: Witness, K: Sink>(
    machine: &mut Machine,
    command: &Command,
    start: u64,
    written: Result<(), Failed>,
    witness: &W,
    sink: &mut K,
) -> Result<(), Failed>
    requires allocation { is_allocation command.now ≡ true }
    requires room { HasRoom machine.old (2 ^ 13) 0 }
    ensures so_far { (first run : Run) (k : SinkState) → IsGiven command.now start run.history → SoFar (W.says witness.now) first run machine.old k (K.state sink.old) written
        → SoFar (W.says witness.now) first (all_happen run (acts_behind (world_after run.history) command.now start)) machine.new k (K.state sink.new) result }
    ensures spent { Spent machine.old machine.new (2 ^ 13) 0 }
{
    match *command {
        Command::Kmalloc { reg, .. } => set(machine, reg, start, written, witness, sink),
        Command::Kzalloc { size, reg } => {
            let cleared = clear(machine, size, start, written, witness, sink);
            set(machine, reg, start, cleared, witness, sink)
        }
        Command::Pages { reg, .. } => set(machine, reg, start, written, witness, sink),
        Command::Vmalloc { size, reg } => {
            let headed = write_head(machine, size, start, written, witness, sink);
            set(machine, reg, start, headed, witness, sink)
        }
        Command::BootMem { reg, .. } => set(machine, reg, start, written, witness, sink),
        _ => unreachable!(),
    }
}
