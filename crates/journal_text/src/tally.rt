//! The counts of a journal.

/// How many records of a journal there are of some sorts.
#[derive(Clone, Copy)]
pub struct Counts {
    /// The records that have a number: all but the losses.
    pub records: u32,
    /// The messages that were sent.
    pub sends: u32,
    /// The losses of ranks.
    pub losses: u32,
    /// The commits that end a recovery.
    pub healed: u32,
    /// The commits of both sorts.
    pub commits: u32,
}
