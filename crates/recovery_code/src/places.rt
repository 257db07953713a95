//! What a mark says of a group.
ghost use Rattle.std.specs.Prelude.{◌≡◌};
ghost use Rattle.rank_machine.specs.Setting as machine;
ghost use Rattle.script_lines.specs.Lines.{setting_on, AreSound};
ghost use Rattle.recovery_code.specs.Spots.{spot_seen, spot_under};

use crate::mending::Place;
use rank_machine::Mark;
use script_lines::{Layout, Line, factoring};

/// A group of a process row of the matrix of a line, and what a mark says of it.
pub fn place_of(
    table: &[Line],
    mark: Mark,
    layout: Layout,
    line: u32,
    row: u32,
    group: u32,
) -> Place
    requires sound { AreSound table.now }
    requires layout { layout ≡ machine.layout (setting_on 0 table.now) line }
    ensures { spot_seen result ≡ spot_under (setting_on 0 table.now) mark line row group }
{
    let is_factored = 0 < line && factoring(table, mark) == line;
    Place {
        layout,
        line,
        row,
        group,
        low: is_factored && mark.merged <= group,
        opened: is_factored && mark.opened,
        closed: mark.closed,
    }
}
