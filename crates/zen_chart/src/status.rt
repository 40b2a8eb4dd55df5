//! How a run ends.

/// How a run of the program ends.
#[derive(Clone, Copy, Debug, PartialEq, Eq)]
pub enum Status {
    /// The picture is written.
    Ok,
    /// There are words after the program's name.
    Usage,
    /// The input is no trace.
    BadTrace,
    /// Memory ran out.
    NoMemory,
    /// The input failed: its count of faults rose.
    ReadFault,
    /// The output failed: its count of faults rose.
    WriteFault,
}

impl Status {
    ghost use Rattle.std.specs.Prelude.{◌≡◌};
    ghost use Rattle.zen_chart.specs.Codes.{code_of};

    /// The exit status that stands for it.
    pub fn code(self) -> u8
        ensures { result ≡ code_of self }
    {
        match self {
            Status::Ok => 0,
            Status::Usage => 2,
            Status::BadTrace => 3,
            Status::NoMemory => 4,
            Status::ReadFault => 5,
            Status::WriteFault => 6,
        }
    }
}
