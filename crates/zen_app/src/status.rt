//! The exit statuses.

/// How a run of the program ends.
#[derive(Clone, Copy, Debug, PartialEq, Eq)]
pub enum Status {
    /// The command is done.
    Ok,
    /// The words are no command.
    Usage,
    /// The input is no schedule.
    BadSchedule,
    /// Memory ran out.
    NoMemory,
    /// The input failed: its count of faults rose.
    ReadFault,
    /// The output failed: its count of faults rose.
    WriteFault,
    /// The disk that the host gave failed: its count of faults rose.
    DiskFault,
    /// The link that the host gave failed: its count of faults rose.
    LinkFault,
    /// The host failed: its count of faults rose.
    HostFault,
    /// The two files in the folder are no journal.
    NotAJournal,
    /// A node has taken all its turns.
    Turns,
    /// A node of a trial ended with another status than 0 and 11.
    TrialFailed,
    /// There is no rescue, and why was written.
    RescueRefused,
    /// An entry of a recorded trace is not legal.
    NotLegal,
    /// The input is no recorded trace.
    BadTrace,
    /// A tool has refused the record of a journal.
    ToolRefused,
}

impl Status {
    ghost use Rattle.std.specs.Prelude.{◌≡◌};
    ghost use Rattle.zen_app.specs.Codes.{code_of};

    /// The exit status that stands for it.
    pub fn code(self) -> u8
        ensures { result ≡ code_of self }
    {
        match self {
            Status::Ok => 0,
            Status::Usage => 2,
            Status::BadSchedule => 3,
            Status::NoMemory => 4,
            Status::ReadFault => 5,
            Status::WriteFault => 6,
            Status::DiskFault => 7,
            Status::LinkFault => 8,
            Status::HostFault => 9,
            Status::NotAJournal => 10,
            Status::Turns => 11,
            Status::TrialFailed => 12,
            Status::RescueRefused => 13,
            Status::NotLegal => 14,
            Status::BadTrace => 15,
            Status::ToolRefused => 16,
        }
    }
}
