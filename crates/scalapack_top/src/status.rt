//! What becomes of a call, and what it writes on err.
ghost use Rattle.std.specs.Prelude.{◌≡◌};
ghost use Rattle.scalapack_top.specs.Status.{exit_number};

/// What became of a call.
#[derive(Clone, Copy, Debug, PartialEq, Eq)]
pub enum Status {
    /// The script was run, and its text and journal were written.
    Done,
    /// An input breaks a rule: the file, 0 for the script and otherwise the number of its matrix line; the line there, 0 for the
    /// whole file; and the code of the rule.
    Refused { file: u32, line: u32, code: i32 },
    /// The words are of none of the accepted forms.
    Usage,
    /// A file was not read: 0 for the script, and otherwise the number of its matrix line.
    ReadFault { file: u32 },
    /// What was to be written was not all written.
    WriteFault,
    /// Memory ran out.
    NoMemory,
    /// The run was cut short: a process row of a grid that holds something live lost more ranks than it has code columns. The first
    /// such grid, and its first such row, both from 0. What the lines that had ended printed, and the journal, were written.
    Beyond { grid: u32, row: u32 },
    /// The run was cut short: no spare rank was left for a lost one. The first that got none, from 0. What the lines that had ended
    /// printed, and the journal, were written.
    NoSpare { rank: u32 },
}

impl Status {
    /// The number that the program ends with.
    pub fn number(&self) -> u8
        ensures { result ≡ exit_number self.now }
    {
        match self {
            Status::Done => 0,
            Status::Refused { .. } => 1,
            Status::Usage => 2,
            Status::ReadFault { .. } => 3,
            Status::WriteFault => 4,
            Status::NoMemory => 5,
            Status::Beyond { .. } => 6,
            Status::NoSpare { .. } => 7,
        }
    }
}
