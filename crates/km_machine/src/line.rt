//! One line.

ghost use Rattle.std.specs.Prelude.{◌≡◌, ℕ, List, ◌+◌, ◌≤◌, ◌^◌, true, false, [], ◌∷◌, length, Ok, Err, IfOk};
ghost use Rattle.km_base.specs.declared.acts.Act.{Act};
ghost use Rattle.km_edge.specs.Streams.{SinkState, WritesAll};
ghost use Rattle.km_base.specs.declared.lines.Command.TheVariants as command;
ghost use Rattle.km_model.specs.Follows.{Run, all_happen};
ghost use Rattle.km_model.specs.Operands.{operand_value, task_or_refusal, then_do};
ghost use Rattle.km_model.specs.Text.{refusal_text};
ghost use Rattle.km_model.specs.Expansion.{first_acts, for_register as for_register_of, vfree_acts, world_after};
ghost use Rattle.km_machine.specs.Machines.{For, HasRoom, RunsLine, Spent};
ghost use Rattle.km_machine.specs.Lines.{IsFew, SaysLine, SoFar, acts_of, is_allocation, is_alone, is_memory, is_print, is_request, is_simple};

use crate::behind::{made, say};
use crate::machine::Machine;
use crate::texts::Texts;
use crate::witness::Witness;
use crate::{behind, operands, scans};
use km_base::{Act, Addr, Answer, Base, Command, FileCmd, Operand, Refusal, RegName};
use km_edge::{Failed, Sink, write_all};
use km_text::Text;

/// Writes the text of a refusal.
#[inline(never)]
fn refuse<K: Sink>(refusal: Refusal, sink: &mut K) -> Result<(), Failed>
    ensures { WritesAll (K.state sink.old) (K.state sink.new) (refusal_text refusal) result }
{
    let mut text = Text::new();
    km_text::refused(refusal, &mut text);
    write_all(sink, text.bytes())
}

/// Refuses a register of a task that isn't live. It can be set where it can be read.
fn live(machine: &Machine, reg: RegName) -> Result<(), Refusal>
    ensures { (run : Run) → For machine.now run → result ≡ then_do (task_or_refusal (world_after run.history) reg.task) (λ _. Ok tt) }
{
    let base = Base::Reg {
        task: reg.task,
        reg: reg.reg,
    };
    operands::value(machine, &Operand { base, plus: 0 })?;
    Ok(())
}

/// The event that sets a register.
fn set(machine: &Machine, reg: RegName, value: &Operand) -> Result<Act, Refusal>
    ensures acts { (run : Run) → For machine.now run → acts_of result ≡ first_acts (world_after run.history) (command.Set reg value.now) }
    ensures simple { IfOk result (λ act. is_simple act ≡ true) }
{
    live(machine, reg)?;
    Ok(Act::SetReg {
        task: reg.task,
        reg: reg.reg,
        value: operands::value(machine, value)?,
    })
}

/// The event that loads a word into a register.
fn load(machine: &Machine, reg: RegName, addr: &Operand) -> Result<Act, Refusal>
    ensures acts { (run : Run) → For machine.now run → acts_of result ≡ first_acts (world_after run.history) (command.Load reg addr.now) }
    ensures simple { IfOk result (λ act. is_simple act ≡ true) }
{
    live(machine, reg)?;
    Ok(Act::Load {
        task: reg.task,
        reg: reg.reg,
        addr: operands::value(machine, addr)?,
    })
}

/// The event that stores a word.
fn store(machine: &Machine, addr: &Operand, value: &Operand) -> Result<Act, Refusal>
    ensures acts { (run : Run) → For machine.now run → acts_of result ≡ first_acts (world_after run.history) (command.Store addr.now value.now) }
    ensures simple { IfOk result (λ act. is_simple act ≡ true) }
{
    Ok(Act::Store {
        addr: operands::value(machine, addr)?,
        value: operands::value(machine, value)?,
    })
}

/// The event of a line that makes one, or the refusal of what is missing.
fn alone(machine: &Machine, command: &Command) -> Result<Act, Refusal>
    requires { is_alone command.now ≡ true }
    ensures acts { (run : Run) → For machine.now run → acts_of result ≡ first_acts (world_after run.history) command.now }
    ensures simple { IfOk result (λ act. is_simple act ≡ true) }
{
    match *command {
        Command::Section { name, words } => Ok(Act::Section { name, words }),
        Command::Task(name) => Ok(Act::TaskStart(name)),
        Command::Exit(name) => Ok(Act::TaskExit(name)),
        Command::Set { reg, value } => set(machine, reg, &value),
        Command::Load { reg, addr } => load(machine, reg, &addr),
        Command::Store { addr, value } => store(machine, &addr, &value),
        Command::Erase(addr) => Ok(Act::Store {
            addr: operands::value(machine, &addr)?,
            value: 0,
        }),
        Command::Kfree(addr) => Ok(Act::Kfree(operands::value(machine, &addr)?)),
        Command::FreePages(addr) => Ok(Act::FreePages(operands::value(machine, &addr)?)),
        Command::FreePart { addr, size } => Ok(Act::FreePart {
            addr: operands::value(machine, &addr)?,
            size,
        }),
        Command::NotLeak(addr) => Ok(Act::NotLeak(operands::value(machine, &addr)?)),
        Command::Ignore(addr) => Ok(Act::Ignore(operands::value(machine, &addr)?)),
        Command::NoScan(addr) => Ok(Act::NoScan(operands::value(machine, &addr)?)),
        Command::ScanArea { addr, size } => Ok(Act::ScanArea {
            addr: operands::value(machine, &addr)?,
            size,
        }),
        Command::TransientLeak(addr) => Ok(Act::TransientLeak(operands::value(machine, &addr)?)),
        Command::Write(Some(word)) => Ok(Act::File(word)),
        Command::Write(None) => Err(Refusal::Invalid),
        Command::Begin => Ok(Act::File(FileCmd::Scan)),
        _ => unreachable!(),
    }
}

/// Makes the event of a line that makes one simple event, if no operand is missing.
fn make_alone<W: Witness, K: Sink>(
    machine: &mut Machine,
    command: &Command,
    witness: &W,
    sink: &mut K,
) -> Result<Result<(), Failed>, Refusal>
    requires alone { is_alone command.now ≡ true }
    requires room { HasRoom machine.old 1 0 }
    ensures says { (run : Run) → For machine.old run → SaysLine (W.says witness.now) machine.new run command.now (K.state sink.old) (K.state sink.new) result }
    ensures spent { Spent machine.old machine.new 1 0 }
{
    match alone(machine, command) {
        Ok(act) => Ok(made(machine, &act, Ok(()), witness, sink)),
        Err(refusal) => Err(refusal),
    }
}

/// An act, unless it is for a register of a task that isn't live.
fn for_register(machine: &Machine, reg: Option<RegName>, act: Act) -> Result<Act, Refusal>
    ensures acts { (run : Run) → For machine.now run → acts_of result ≡ for_register_of (world_after run.history) reg act }
    ensures same { IfOk result (λ a. a ≡ act) }
{
    match reg {
        Some(reg) => {
            live(machine, reg)?;
            Ok(act)
        }
        None => Ok(act),
    }
}

/// The request of a line for an allocation, or the refusal of its register.
fn request(machine: &Machine, command: &Command) -> Result<Act, Refusal>
    requires { is_allocation command.now ≡ true }
    ensures acts { (run : Run) → For machine.now run → acts_of result ≡ first_acts (world_after run.history) command.now }
    ensures request { IfOk result (λ act. is_request act ≡ true) }
{
    match *command {
        Command::Kmalloc { size, reg } => for_register(machine, reg, Act::Kmalloc(size)),
        Command::Kzalloc { size, reg } => for_register(machine, reg, Act::Kmalloc(size)),
        Command::Pages { count, reg } => for_register(machine, reg, Act::Pages(count)),
        Command::Vmalloc { size, reg } => for_register(machine, reg, Act::VmTake(size)),
        Command::BootMem { size, reg } => for_register(machine, reg, Act::BootMem(size)),
        _ => unreachable!(),
    }
}

/// Makes the request of a line for an allocation, and what comes after it.
fn requested<W: Witness, K: Sink>(
    machine: &mut Machine,
    command: &Command,
    act: &Act,
    witness: &W,
    sink: &mut K,
) -> Result<(), Failed>
    requires allocation { is_allocation command.now ≡ true }
    requires request { is_request act.now ≡ true }
    requires asks { W.asks witness.now ≡ true }
    requires room { HasRoom machine.old (2 ^ 14) 0 }
    ensures says { (run : Run) → For machine.old run → Ok (act.now ∷ []) ≡ first_acts (world_after run.history) command.now → SaysLine (W.says witness.now) machine.new run command.now (K.state sink.old) (K.state sink.new) (Ok result) }
    ensures spent { Spent machine.old machine.new (2 ^ 14) 0 }
{
    let answer = machine.event(act);
    let written = say(machine, act, &answer, Ok(()), witness, sink);
    match answer {
        Answer::At(start) => behind::acts(machine, command, start, written, witness, sink),
        _ => written,
    }
}

/// Makes the events of a line for an allocation.
fn allocate<W: Witness, K: Sink>(
    machine: &mut Machine,
    command: &Command,
    witness: &W,
    sink: &mut K,
) -> Result<Result<(), Failed>, Refusal>
    requires allocation { is_allocation command.now ≡ true }
    requires asks { W.asks witness.now ≡ true }
    requires room { HasRoom machine.old (2 ^ 14) 0 }
    ensures says { (run : Run) → For machine.old run → SaysLine (W.says witness.now) machine.new run command.now (K.state sink.old) (K.state sink.new) result }
    ensures spent { Spent machine.old machine.new (2 ^ 14) 0 }
{
    match request(machine, command) {
        Ok(act) => Ok(requested(machine, command, &act, witness, sink)),
        Err(refusal) => Err(refusal),
    }
}

/// Makes the event of a line that reads the file.
fn read<W: Witness, K: Sink>(machine: &mut Machine, witness: &W, sink: &mut K) -> Result<(), Failed>
    requires { HasRoom machine.old 1 0 }
    ensures says { (run : Run) → For machine.old run → SaysLine (W.says witness.now) machine.new run command.Read (K.state sink.old) (K.state sink.new) (Ok result) }
    ensures spent { Spent machine.old machine.new 1 0 }
{
    let answer = machine.event(&Act::Read);
    say(machine, &Act::Read, &answer, Ok(()), witness, sink)
}

/// Clears the slot of an area, and then gives the area back.
fn give<W: Witness, K: Sink>(
    machine: &mut Machine,
    start: u64,
    witness: &W,
    sink: &mut K,
) -> Result<(), Failed>
    requires { HasRoom machine.old 2 0 }
    ensures so_far { (run : Run) → For machine.old run → SoFar (W.says witness.now) run (all_happen run (vfree_acts (world_after run.history) start)) machine.new (K.state sink.old) (K.state sink.new) result }
    ensures spent { Spent machine.old machine.new 2 0 }
{
    match machine.core().vm_area(Addr(start)) {
        Some(area) => {
            let act = Act::Store {
                addr: behind::slot_word(area.slot),
                value: 0,
            };
            let written = made(machine, &act, Ok(()), witness, sink);
            made(machine, &Act::VmGive(start), written, witness, sink)
        }
        None => made(machine, &Act::VmGive(start), Ok(()), witness, sink),
    }
}

/// Makes the events of `vfree`.
fn give_area<W: Witness, K: Sink>(
    machine: &mut Machine,
    operand: &Operand,
    witness: &W,
    sink: &mut K,
) -> Result<Result<(), Failed>, Refusal>
    requires { HasRoom machine.old 2 0 }
    ensures says { (run : Run) → For machine.old run → SaysLine (W.says witness.now) machine.new run (command.Vfree operand.now) (K.state sink.old) (K.state sink.new) result }
    ensures spent { Spent machine.old machine.new 2 0 }
{
    match operands::value(machine, operand) {
        Ok(start) => Ok(give(machine, start, witness, sink)),
        Err(refusal) => Err(refusal),
    }
}

/// Writes what `print` shows.
#[inline(never)]
fn show<K: Sink>(machine: &Machine, operand: &Operand, sink: &mut K) -> Result<(), Failed>
    ensures { (run : Run) → For machine.now run → RunsLine machine.now run (command.Print operand.now) (K.state sink.old) (K.state sink.new) result }
{
    match operands::value(machine, operand) {
        Ok(value) => {
            let mut text = Text::new();
            km_text::value(value, &mut text);
            write_all(sink, text.bytes())
        }
        Err(refusal) => refuse(refusal, sink),
    }
}

impl Machine {
    /// Makes the events of a line but `print`, which has none, and has a witness say each as soon as it is made.
    ///
    /// An `Err` refuses the line, which makes no event then. An `Ok` holds whether a write failed. The events are all
    /// made, also those after a fault.
    pub fn events<W: Witness, K: Sink>(
        &mut self,
        command: &Command,
        witness: &W,
        sink: &mut K,
    ) -> Result<Result<(), Failed>, Refusal>
        requires later { (is_memory command.now ≡ false) × (is_print command.now ≡ false) }
        requires few { IsFew command.now }
        requires room { HasRoom self.old (2 ^ 38) 3600000 }
        requires asks { is_allocation command.now ≡ true → W.asks witness.now ≡ true }
        ensures says { (run : Run) → For self.old run → SaysLine (W.says witness.now) self.new run command.now (K.state sink.old) (K.state sink.new) result }
        ensures spent { Spent self.old self.new (2 ^ 38) 3600000 }
    {
        match *command {
            Command::Memory(_) | Command::Print(_) => unreachable!(),
            Command::Write(Some(FileCmd::Scan)) => Ok(scans::scan(self, witness, sink)),
            Command::Step(n) => Ok(scans::steps(self, n, witness, sink)),
            Command::Finish => Ok(scans::finish(self, witness, sink)),
            Command::Tick(n) => Ok(scans::tick(self, n, witness, sink)),
            Command::Read => Ok(read(self, witness, sink)),
            Command::Vfree(addr) => give_area(self, &addr, witness, sink),
            Command::Kmalloc { .. }
            | Command::Kzalloc { .. }
            | Command::Pages { .. }
            | Command::Vmalloc { .. }
            | Command::BootMem { .. } => allocate(self, command, witness, sink),
            _ => make_alone(self, command, witness, sink),
        }
    }

    /// Runs a line. What it is to print is written, or written up to a fault.
    pub fn line<K: Sink>(&mut self, command: &Command, sink: &mut K) -> Result<(), Failed>
        requires later { is_memory command.now ≡ false }
        requires few { IsFew command.now }
        requires room { HasRoom self.old (2 ^ 38) 3600000 }
        ensures runs { (run : Run) → For self.old run → RunsLine self.new run command.now (K.state sink.old) (K.state sink.new) result }
        ensures spent { Spent self.old self.new (2 ^ 38) 3600000 }
    {
        match *command {
            Command::Print(value) => show(self, &value, sink),
            _ => print_events(self, command, sink),
        }
    }
}

/// Makes the events of a line but `print`, and writes their texts.
fn print_events<K: Sink>(
    machine: &mut Machine,
    command: &Command,
    sink: &mut K,
) -> Result<(), Failed>
    requires later { (is_memory command.now ≡ false) × (is_print command.now ≡ false) }
    requires few { IsFew command.now }
    requires room { HasRoom machine.old (2 ^ 38) 3600000 }
    ensures runs { (run : Run) → For machine.old run → RunsLine machine.new run command.now (K.state sink.old) (K.state sink.new) result }
    ensures spent { Spent machine.old machine.new (2 ^ 38) 3600000 }
{
    match machine.events(command, &Texts::of(command), sink) {
        Ok(written) => written,
        Err(refusal) => refuse(refusal, sink),
    }
}
