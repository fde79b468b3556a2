//! The lines of live scripts.

use km_base::{Command, Name, Operand, Reg};

/// A command that a thread may hold. Its registers are those of the thread's own task.
#[derive(Clone, Copy)]
pub enum JobCommand {
    Set { reg: Reg, value: Operand },
    Load { reg: Reg, addr: Operand },
    Store { addr: Operand, value: Operand },
    Erase(Operand),
    Kmalloc { size: u64, reg: Option<Reg> },
    Kzalloc { size: u64, reg: Option<Reg> },
    Kfree(Operand),
    NotLeak(Operand),
    Ignore(Operand),
    NoScan(Operand),
    ScanArea { addr: Operand, size: u64 },
}

/// A line of a live script that isn't refused by itself.
#[derive(Clone, Copy)]
pub enum LiveLine {
    Blank,
    Command(Command),
    Thread(Name),
    End,
    InThread(JobCommand),
    Round { scans: u32, gap: u64, entries: u64 },
}
