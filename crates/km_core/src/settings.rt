//! What is set: whether blocks are watched, whether stacks are scanned, and when.

ghost use Rattle.std.specs.Prelude.{◌≡◌, ◌≤◌, ◌<◌, ◌^◌, ℕ, true};
ghost use Rattle.km_state.specs.State.{State, opened};
ghost use Rattle.km_state.specs.StateAfter.{word_written};
ghost use Rattle.km_core.specs.Parts.{set_in};
ghost use Rattle.km_core.specs.Kernels.{is_setting};

use km_base::FileCmd;

/// The settings of the leak detector, and the moment. Moments and periods are in milliseconds.
#[derive(Clone, Copy, Debug, Drop, PartialEq)]
pub struct Settings {
    /// `off` was not written.
    pub enabled: bool,
    /// The words of stacks are scanned.
    pub stacks: bool,
    /// The time between automatic scans.
    pub period: u64,
    /// When the next automatic scan is due; none where they are off.
    pub due: Option<u64>,
    pub now: u64,
}

/// The time between automatic scans at first.
const PERIOD: u64 = 600_000;

/// When the first automatic scan is due.
const FIRST: u64 = 60_000;

impl Settings {
    /// What is set at first.
    pub fn new() -> Settings
        ensures { (words : ℕ) → result ≡ set_in (opened words) }
    {
        Settings {
            enabled: true,
            stacks: true,
            period: PERIOD,
            due: Some(FIRST),
            now: 0,
        }
    }

    /// Sets what a written word says. `scan=0` is the same as `scan=off`, and leaves the period.
    pub fn write(&mut self, word: FileCmd)
        requires now { self.old.now ≤ 2 ^ 62 }
        requires period { self.old.period < 2 ^ 43 }
        requires setting { is_setting word ≡ true }
        ensures set { (s : State) → set_in s ≡ self.old → self.new ≡ set_in (word_written s word) }
        ensures now { self.new.now ≡ self.old.now }
        ensures period { self.new.period < 2 ^ 43 }
    {
        match word {
            FileCmd::StackOn => self.stacks = true,
            FileCmd::StackOff => self.stacks = false,
            FileCmd::ScanOn => {
                if self.due.is_none() {
                    self.due = Some(self.now + self.period);
                }
            }
            FileCmd::ScanOff | FileCmd::ScanEvery(0) => self.due = None,
            FileCmd::ScanEvery(seconds) => {
                self.period = 1000 * seconds as u64;
                self.due = Some(self.now + self.period);
            }
            _ => {}
        }
    }
}
