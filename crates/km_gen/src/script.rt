//! The script of a number.

ghost use Rattle.std.specs.Prelude.{◌≡◌, ◌+◌, ◌*◌, ◌%◌, ◌<◌, ◌≤◌, ◌++◌, IfOk, OnOk, length};
ghost use Rattle.km_gen.specs.Generated.{allocation_text, clear_text, drawn_offset, free_text, generated_script, link_text, next_kind, next_state, scan_text, state_after, step_text, wait_text};

use crate::generator::Generator;
use km_base::NoMemory;
use std::alloc::Global;

/// The lines before the steps.
const OPENING: &[u8] = b"memory 65536\nsection data 512\ntask t\n";

/// The lines behind the steps.
const CLOSING: &[u8] = b"finish\ntick 1000\nwrite scan\nwrite scan\nread\n";

/// The most bytes that a step has.
const LONGEST_STEP: usize = 38;

impl Generator {
    /// Draws the offset of a word of the section.
    fn offset(&mut self) -> u64
        ensures offset { result ≡ drawn_offset (next_state self.old.state) }
        ensures state { self.new.state ≡ next_state self.old.state }
        ensures same { self.new.script.items ≡ self.old.script.items }
    {
        8 * (self.draw() % 512)
    }

    /// Allocates a block, and stores its address into the section.
    fn allocation(&mut self) -> Result<(), NoMemory>
        ensures written { OnOk result (self.new.script.items ≡ self.old.script.items ++ allocation_text self.old.state) }
        ensures state { OnOk result (self.new.state ≡ next_state (next_state self.old.state)) }
    {
        let size = 1 + self.draw() % 512;
        self.number_line(b"kmalloc ", size, b" t.r0")?;
        let offset = self.offset();
        self.number_line(b"store data+", offset, b" t.r0")
    }

    /// Sets a word of the section to 0.
    fn clear(&mut self) -> Result<(), NoMemory>
        ensures written { OnOk result (self.new.script.items ≡ self.old.script.items ++ clear_text self.old.state) }
        ensures state { OnOk result (self.new.state ≡ next_state self.old.state) }
    {
        let offset = self.offset();
        self.number_line(b"store data+", offset, b" 0")
    }

    /// Frees a block that the section names.
    fn free(&mut self) -> Result<(), NoMemory>
        ensures written { OnOk result (self.new.script.items ≡ self.old.script.items ++ free_text self.old.state) }
        ensures state { OnOk result (self.new.state ≡ next_state self.old.state) }
    {
        let offset = self.offset();
        self.number_line(b"load t.r1 data+", offset, b"")?;
        self.line(b"kfree t.r1")
    }

    /// Makes a block that the section names name the last one.
    fn link(&mut self) -> Result<(), NoMemory>
        ensures written { OnOk result (self.new.script.items ≡ self.old.script.items ++ link_text self.old.state) }
        ensures state { OnOk result (self.new.state ≡ next_state self.old.state) }
    {
        let offset = self.offset();
        self.number_line(b"load t.r1 data+", offset, b"")?;
        self.line(b"store t.r1 t.r0")
    }

    /// Lets time pass.
    fn wait(&mut self) -> Result<(), NoMemory>
        ensures written { OnOk result (self.new.script.items ≡ self.old.script.items ++ wait_text self.old.state) }
        ensures state { OnOk result (self.new.state ≡ next_state self.old.state) }
    {
        let time = self.draw() % 500;
        self.number_line(b"tick ", time, b"")
    }

    /// Begins a scan, or makes steps of one.
    fn scan(&mut self) -> Result<(), NoMemory>
        ensures written { OnOk result (self.new.script.items ≡ self.old.script.items ++ scan_text self.old.state) }
        ensures state { OnOk result (self.new.state ≡ next_state self.old.state) }
    {
        if self.draw() % 4 == 0 {
            self.line(b"begin")
        } else {
            self.line(b"step 64")
        }
    }

    /// Writes the lines of a step of a kind.
    fn step_of(&mut self, kind: u64) -> Result<(), NoMemory>
        ensures written { OnOk result (self.new.script.items ≡ self.old.script.items ++ step_text kind self.old.state) }
        ensures state { OnOk result (self.new.state ≡ state_after kind self.old.state) }
    {
        match kind {
            0..=2 => self.allocation(),
            3 => self.clear(),
            4 => self.free(),
            5 => self.link(),
            6 => self.wait(),
            _ => self.scan(),
        }
    }

    /// Writes the lines of the next step.
    fn step(&mut self) -> Result<(), NoMemory>
        ensures written { OnOk result (self.new.script.items ≡ self.old.script.items ++ step_text (next_kind self.old.state) (next_state self.old.state)) }
        ensures state { OnOk result (self.new.state ≡ state_after (next_kind self.old.state) (next_state self.old.state)) }
    {
        let kind = self.draw() % 8;
        self.step_of(kind)
    }
}

/// The script of a number with a number of steps: allocations, frees, stores, loads and scans that are
/// drawn one after another. Some of its lines are refused when it is run.
pub fn script_of(alloc: Global, number: u64, steps: u32) -> Result<Vec<u8>, NoMemory>
    requires { steps ≤ 1000000 }
    ensures script { IfOk result (λ script. script.items ≡ generated_script number steps) }
    ensures short { IfOk result (λ script. length script.items ≤ 81 + 38 * steps) }
{
    let room = OPENING.len() + LONGEST_STEP * steps as usize + CLOSING.len();
    let script = Vec::with_capacity(alloc, room).map_err(|_| NoMemory)?;
    let mut generator = Generator {
        state: number,
        script,
    };
    generator.push(OPENING)?;
    for _ in 0..steps {
        generator.step()?;
    }
    generator.push(CLOSING)?;
    Ok(generator.script)
}
