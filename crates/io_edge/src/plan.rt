//! Calls that are planned to fail.
ghost use Rattle.std.specs.Prelude.{◌≡◌, ◌||◌, is_some, nat_lt};
ghost use Rattle.io_edge.specs.Causes.{is_planned};
ghost use Rattle.io_edge.specs.MemSink.{planned_keep, count_kept};

/// A put that is planned to fail, by its number, and how many of its bytes it keeps.
#[derive(Clone, Copy)]
pub struct PlannedPut {
    pub call: u32,
    pub keep: usize,
}

// Whether the call of this number is planned to fail.
pub fn has_call(plan: &[u32], call: u64) -> bool
    ensures { result ≡ is_planned plan.now call }
{
    plan.iter().any(|n| u64::from(*n) == call)
}

// How many bytes the put of this number keeps, where it is planned to fail; its first entry counts.
pub fn keep_of(plan: &[PlannedPut], call: u64) -> Option<usize>
    ensures { result ≡ planned_keep plan.now call }
{
    plan.iter()
        .find(|put| u64::from(put.call) == call)
        .map(|put| put.keep)
}

// How many bytes are kept of a put of `len`, where `left` fit.
pub fn kept_len(keep: Option<usize>, left: usize, len: usize) -> usize
    ensures { result ≡ count_kept keep left len }
{
    keep.unwrap_or(len).min(left.min(len))
}

// Whether a put of `len` bytes fails, where `left` fit.
pub fn is_refused(keep: Option<usize>, left: usize, len: usize) -> bool
    ensures { result ≡ (is_some keep || nat_lt left len) }
{
    keep.is_some() || left < len
}
