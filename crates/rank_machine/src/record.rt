//! Records of a journal.
ghost use Rattle.std.specs.Prelude.{◌≡◌};
ghost use Rattle.rank_machine.specs.Losses.{is_numbered};

use crate::kernel::Kernel;
use crate::mark::Mark;
use crate::slot::{Piece, Slot};

/// A record of a journal. The first number of each is its rank.
#[derive(Clone, Copy)]
pub enum Rec {
    /// The slot becomes the file's padded strip.
    Feed(u32, Slot),
    /// A step of a rank on its own memory.
    Kernel(u32, Kernel),
    /// A piece goes from the first rank to the second.
    Send(u32, u32, Piece),
    /// The first rank's piece gets the first message from the second.
    Recv(u32, u32, Piece),
    /// A copy of the slot is saved.
    Save(u32, Slot),
    /// The host gets the slot's tile.
    Take(u32, Slot),
    /// On all live ranks saved tiles go back and fresh slots go.
    Restore,
    /// A lost rank is replaced by one that holds nothing.
    Spawn(u32),
    /// The state becomes that of a mark; true where it ends a recovery.
    Commit(Mark, bool),
    /// The rank is lost, with its memory and its messages.
    Lose(u32),
}

impl Rec {
    /// Whether the record has a number: each has but `Lose`.
    pub fn is_numbered(&self) -> bool
        ensures { result ≡ is_numbered self.now }
    {
        match self {
            Rec::Lose(_) => false,
            _ => true,
        }
    }
}

/// A loss that a script asks for: the rank is lost directly before the record of that number.
#[derive(Clone, Copy)]
pub struct Loss {
    pub at: u32,
    pub rank: u32,
}
