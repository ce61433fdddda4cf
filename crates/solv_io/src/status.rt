ghost use Rattle.std.specs.Prelude.{◌≡◌};
ghost use Rattle.solv_io.specs.Inner.Statuses.{status_number};

/// How a program ends.
#[derive(Clone, Copy, PartialEq, Eq, Debug, Drop)]
pub enum Status {
    /// An answer was reached, and nothing differs.
    Done,
    /// A line is missing or too many, or a comparison of versions is false.
    Differs,
    /// The input has a bad line, or passes a limit.
    Refused,
    /// A file could not be read.
    ReadFault,
    /// The answer could not be written.
    WriteFault,
    /// The budget was spent before an answer.
    Spent,
    /// Memory ran out. No report of a run says so: a program ends with it where a run has no report.
    Memory,
    /// The words of the command line are not of its form.
    Usage,
}

impl Status {
    /// The exit status.
    pub fn number(self) -> u8
        ensures { result ≡ status_number self }
    {
        match self {
            Status::Done => 0,
            Status::Differs => 1,
            Status::Refused => 2,
            Status::ReadFault => 3,
            Status::WriteFault => 4,
            Status::Spent => 5,
            Status::Memory => 6,
            Status::Usage => 7,
        }
    }
}
