//! Marks: how far a run is.
ghost use Rattle.std.specs.Prelude.{◌≡◌};
ghost use Rattle.rank_machine.specs.State.{first_mark, end_mark};
ghost use Rattle.rank_machine.specs.Effect.{has_ended};

/// How far the run is: the line, whether it has ended, and inside a factorization how many panels are closed, whether one is
/// open, and how many groups are merged.
#[derive(Clone, Copy)]
pub struct Mark {
    pub line: u32,
    pub ended: bool,
    pub closed: u32,
    pub opened: bool,
    pub merged: u32,
}

impl Mark {
    /// The mark before the first commit.
    pub fn first() -> Mark
        ensures { result ≡ first_mark }
    {
        Mark {
            line: 0,
            ended: false,
            closed: 0,
            opened: false,
            merged: 0,
        }
    }

    /// The mark of a line that has ended.
    pub fn end_of(line: u32) -> Mark
        ensures { result ≡ end_mark line }
    {
        Mark {
            line,
            ended: true,
            closed: 0,
            opened: false,
            merged: 0,
        }
    }

    /// Whether a line has ended under the mark.
    pub fn has_ended(self, line: u32) -> bool
        ensures { result ≡ has_ended self line }
    {
        line < self.line || (line == self.line && self.ended)
    }
}
