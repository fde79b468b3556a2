//! Draws numbers, and writes lines.

ghost use Rattle.std.specs.Prelude.{◌≡◌, ◌+◌, ◌/◌, ◌<◌, ◌^◌, ◌++◌, OnOk, decimal};
ghost use Rattle.km_gen.specs.Generated.{drawn, next_state, number_line};
ghost use Rattle.km_model.specs.Text.{as_text_line};

use km_base::{NoMemory, put_decimal};

/// What a draw multiplies the state by, and what it adds.
const FACTOR: u64 = 6_364_136_223_846_793_005;

const ADDED: u64 = 1_442_695_040_888_963_407;

/// A state of draws, and the lines that are written.
#[derive(Drop)]
pub struct Generator {
    pub state: u64,
    pub script: Vec<u8>,
}

impl Generator {
    /// Draws a number of 31 bits.
    #[tactic(auto, unfolding(crate::specs::Generated::next_state, crate::specs::Generated::drawn))]
    pub fn draw(&mut self) -> u64
        ensures state { self.new.state ≡ next_state self.old.state }
        ensures drawn { result ≡ drawn (next_state self.old.state) }
        ensures small { result < 2 ^ 31 }
        ensures same { self.new.script.items ≡ self.old.script.items }
    {
        self.state = self.state.wrapping_mul(FACTOR).wrapping_add(ADDED);
        self.state >> 33
    }

    /// Writes bytes.
    pub fn push(&mut self, bytes: &[u8]) -> Result<(), NoMemory>
        ensures written { OnOk result (self.new.script.items ≡ self.old.script.items ++ bytes.now) }
        ensures same { self.new.state ≡ self.old.state }
    {
        self.script.extend_from_slice(bytes).map_err(|_| NoMemory)
    }

    /// Writes a number in decimal.
    fn push_decimal(&mut self, n: u64) -> Result<(), NoMemory>
        ensures written { OnOk result (self.new.script.items ≡ self.old.script.items ++ decimal n) }
        ensures same { self.new.state ≡ self.old.state }
    {
        let mut digits = [0; 20];
        let count = put_decimal(n, &mut digits);
        self.push(&digits[..count])
    }

    /// Writes a line.
    pub fn line(&mut self, text: &[u8]) -> Result<(), NoMemory>
        ensures written { OnOk result (self.new.script.items ≡ self.old.script.items ++ as_text_line text.now) }
        ensures same { self.new.state ≡ self.old.state }
    {
        self.push(text)?;
        self.push(b"\n")
    }

    /// Writes a line with a number.
    pub fn number_line(&mut self, before: &[u8], n: u64, behind: &[u8]) -> Result<(), NoMemory>
        ensures written { OnOk result (self.new.script.items ≡ self.old.script.items ++ number_line before.now n behind.now) }
        ensures same { self.new.state ≡ self.old.state }
    {
        self.push(before)?;
        self.push_decimal(n)?;
        self.line(behind)
    }
}
