//! How a run ends.

ghost use Rattle.std.specs.Prelude.{◌≡◌};
ghost use Rattle.km_base.specs.Codes.{code_of};

/// How a run ends.
#[derive(Clone, Copy, Debug, PartialEq)]
pub enum Status {
    Ok,
    NotACommand { line: u64, column: u32 },
    ReadFault,
    WriteFault,
    NoMemory,
    BadWords { word: u32 },
    TooLong,
}

impl Status {
    /// The exit status of a program that ends so.
    pub fn code(&self) -> u8
        ensures { result ≡ code_of self.now }
    {
        match self {
            Status::Ok => 0,
            Status::NotACommand { .. } => 1,
            Status::ReadFault => 2,
            Status::WriteFault => 3,
            Status::NoMemory => 4,
            Status::BadWords { .. } => 5,
            Status::TooLong => 6,
        }
    }
}
