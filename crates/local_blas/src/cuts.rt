//! Parts cut in two, by rows and by columns.

ghost use Rattle.std.specs.Prelude.{◌≡◌, ◌+◌, ◌-◌, ◌<◌, ◌≤◌};

use run_data::Part;

/// How many of at least two rows come first when they are cut in two: about half of them, and above
/// sixteen a multiple of sixteen, since the lanes of a product work on sixteen rows at a time.
pub(crate) fn half_of(rows: u32) -> u32
    requires { 1 < rows }
    ensures some { 0 < result }
    ensures rest { result < rows }
{
    if rows > 16 {
        (rows - 1) / 32 * 16 + 16
    } else {
        rows / 2
    }
}

/// The first `count` rows of a part.
pub(crate) fn top_rows(at: Part, count: u32) -> Part
    requires { count ≤ at.r1 - at.r0 }
    ensures { result ≡ record { r0 = at.r0; r1 = at.r0 + count; c0 = at.c0; c1 = at.c1 } }
{
    Part {
        r1: at.r0 + count,
        ..at
    }
}

/// The rows of a part behind its first `count`.
pub(crate) fn bottom_rows(at: Part, count: u32) -> Part
    requires { count ≤ at.r1 - at.r0 }
    ensures { result ≡ record { r0 = at.r0 + count; r1 = at.r1; c0 = at.c0; c1 = at.c1 } }
{
    Part {
        r0: at.r0 + count,
        ..at
    }
}

/// The first `count` columns of a part.
pub(crate) fn first_columns(at: Part, count: u32) -> Part
    requires { count ≤ at.c1 - at.c0 }
    ensures { result ≡ record { r0 = at.r0; r1 = at.r1; c0 = at.c0; c1 = at.c0 + count } }
{
    Part {
        c1: at.c0 + count,
        ..at
    }
}

/// The columns of a part behind its first `count`.
pub(crate) fn last_columns(at: Part, count: u32) -> Part
    requires { count ≤ at.c1 - at.c0 }
    ensures { result ≡ record { r0 = at.r0; r1 = at.r1; c0 = at.c0 + count; c1 = at.c1 } }
{
    Part {
        c0: at.c0 + count,
        ..at
    }
}
