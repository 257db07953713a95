//! What a driver of commands knows of a script and of the last mark of its run.
ghost use Rattle.std.specs.Prelude.{◌≡◌, ◌<◌, ◌≤◌, ◌&&◌, not, nat_lt, ℕ, true, is_some, length, IfOk, IfSome};
ghost use Rattle.run_data.specs.Script.{commands_of, command_at};
ghost use Rattle.blacs_grid.specs.Limits.{IsGrid};
ghost use Rattle.rank_machine.specs.State.{first_mark};
ghost use Rattle.rank_machine.specs.Setting.{grid_numbered, layout, factored};
ghost use Rattle.rank_machine.specs.Scripts.{grids_from};
ghost use Rattle.rank_machine.specs.Effect as effect;
ghost use Rattle.script_lines.specs.Layouts as lines;
ghost use Rattle.script_lines.specs.Lines.{setting_on, AreSound, IsTableOf};
ghost use Rattle.dist_matrix.specs.Site.{shape_of, desc_under, list_under, factoring_under};

use array_desc::Desc;
use blacs_grid::Grid;
use rank_machine::Mark;
use run_data::Script;
use script_lines::{
    Layout, Line, factoring, find, grids_of, is_live_list, is_live_matrix, layout_at, lines_of,
};
use std::alloc::{AllocError as NoMemory, Global};
use std::marker::Model;

/// Where a list of pivots lies, and how long it grows.
#[derive(Clone, Copy)]
pub struct ListShape {
    /// The number of the grid on whose ranks it lies.
    pub grid: u32,
    /// How many pivots there are: min(M, N) of the matrix that is factored.
    pub n: u32,
}

/// The grids of a script, and which of its matrices and lists of pivots are there under the last mark. Clauses see a site as the
/// script and the mark. Lines count from 1, grids from 0.
#[derive(Drop)]
pub struct Site<'a> {
    script: &'a Script,
    grids: Vec<Grid>,
    table: Vec<Line>,
    mark: Mark,
}

impl<'a> Model for Site<'a> {
    ghost use Rattle.dist_matrix.specs.Site.{SiteView};

    ghost Value = { SiteView };

    ghost use Rattle.dist_matrix.specs.SiteFields.{view_of, AreFields};

    ghost view = { view_of };

    ghost invariant = { AreFields };
}

impl<'a> Site<'a> {
    ghost use Rattle.dist_matrix.specs.Site.{setting_in, is_matrix_line, IsBare};

    /// The site of a script under the mark before its first commit, when nothing is there yet.
    ///
    /// The grids are to be within their limits, and so each matrix on its grid. It fails only where memory runs out.
    pub fn new(alloc: Global, script: &'a Script) -> Result<Site<'a>, NoMemory>
        requires grids { lines.AreGrids (grids_from 0 (commands_of script.now)) }
        requires laid_out { (line : ℕ) → lines.makes_matrix script.now line ≡ true → lines.IsLayout (lines.layout_in script.now line) }
        ensures made { IfOk result (λ s. s ≡ record { script = script.now; mark = first_mark }) }
        ensures bare { IfOk result IsBare }
    {
        let grids = grids_of(alloc, script)?;
        let table = lines_of(alloc, script)?;
        Ok(Site {
            script,
            grids,
            table,
            mark: Mark::first(),
        })
    }

    /// The grid of a number, which is to be below `grids`.
    pub fn grid(&self, g: u32) -> Grid
        requires there { g < length (setting_in self.now).grids }
        ensures value { result ≡ grid_numbered (setting_in self.now) g }
        ensures within { IsGrid result }
    {
        self.grids[g as usize]
    }

    /// How many grids the script makes: at most 64.
    pub fn grids(&self) -> u32
        ensures value { result ≡ length (setting_in self.now).grids }
        ensures few { result ≤ 64 }
    {
        self.grids.len() as u32
    }

    /// The grids of the script, by their numbers: at most 64.
    pub fn grid_list(&self) -> &[Grid]
        ensures value { result.now ≡ (setting_in self.now).grids }
        ensures within { lines.AreGrids result.now }
        ensures few { length result.now ≤ 64 }
    {
        &self.grids
    }

    /// The table of the script's lines.
    pub fn table(&self) -> &[Line]
        ensures value { IsTableOf (setting_in self.now).jobs result.now }
        ensures sound { AreSound result.now }
    {
        &self.table
    }

    /// How many lines the script has, those without words too.
    pub fn lines(&self) -> u32
        ensures { result ≡ length self.now.script }
    {
        self.script.lines()
    }

    /// The descriptor of the matrix that a line makes, whether it is there or not. None exactly where the line is no `matrix` line.
    pub fn shape(&self, line: u32) -> Option<Desc>
        ensures value { result ≡ shape_of (setting_in self.now) line }
        ensures none_elsewhere { is_some result ≡ is_matrix_line (command_at (commands_of self.now.script) line) }
        ensures laid_out { IfSome result (λ _. lines.IsLayout (layout (setting_in self.now) line)) }
        ensures on_grid { IfSome result (λ d. (layout (setting_in self.now) line).grid ≡ grid_numbered (setting_in self.now) d.ctxt) }
    {
        shape_in(&self.table, line)
    }

    /// Where the matrix that a line makes lies, whether it is there or not; where a line makes none, as a matrix of one word on one
    /// rank without code columns.
    pub fn layout(&self, line: u32) -> Layout
        ensures value { result ≡ layout (setting_in self.now) line }
        ensures laid_out { lines.IsLayout result }
    {
        layout_at(&self.table, line)
    }

    /// The descriptor of the matrix that a line made, while it is there. None exactly where no matrix of that line is live.
    pub fn desc(&self, line: u32) -> Option<Desc>
        ensures value { result ≡ desc_under (setting_in self.now) self.now.mark line }
        ensures none_elsewhere { is_some result ≡ effect.is_live_matrix (setting_in self.now) self.now.mark line }
        ensures shape { IfSome result (λ d. shape_of (setting_in self.now) line ≡ Some d) }
        ensures laid_out { IfSome result (λ _. lines.IsLayout (layout (setting_in self.now) line)) }
        ensures on_grid { IfSome result (λ d. (layout (setting_in self.now) line).grid ≡ grid_numbered (setting_in self.now) d.ctxt) }
    {
        desc_in(&self.table, self.mark, line)
    }

    /// Where the list of pivots that a line made lies, while it is there. None exactly where no list of that line is live.
    pub fn list(&self, line: u32) -> Option<ListShape>
        ensures value { result ≡ list_under (setting_in self.now) self.now.mark line }
        ensures none_elsewhere { is_some result ≡ effect.is_live_list (setting_in self.now) self.now.mark line }
    {
        list_in(&self.table, self.mark, line)
    }

    /// The line of the matrix that is being factored, and the `pgetrf` line that factors it. None exactly where the last mark is no
    /// mark inside a line that factors: it ends its line, or the line factors nothing.
    pub fn factoring(&self) -> Option<(u32, u32)>
        ensures value { result ≡ factoring_under (setting_in self.now) self.now.mark }
        ensures none_elsewhere { is_some result ≡ (not self.now.mark.ended && nat_lt 0 (factored (setting_in self.now) self.now.mark.line)) }
    {
        factoring_in(&self.table, self.mark)
    }

    /// The last mark.
    pub fn mark(&self) -> Mark
        ensures { result ≡ self.now.mark }
    {
        self.mark
    }

    /// Goes on to a later mark of a run of the site's own script.
    pub fn set(&mut self, mark: Mark, _script: &Script)
        requires { _script.now ≡ self.old.script }
        ensures { self.new ≡ record self.old { mark = mark } }
    {
        self.mark = mark;
    }
}

// The descriptor of the matrix that a line makes.
fn shape_in(table: &[Line], line: u32) -> Option<Desc>
    requires { AreSound table.now }
    ensures { result ≡ shape_of (setting_on 0 table.now) line }
{
    match find(table, line).makes {
        Some(layout) => Some(layout.desc),
        None => None,
    }
}

// The descriptor of the matrix that a line made, while it is live.
fn desc_in(table: &[Line], mark: Mark, line: u32) -> Option<Desc>
    requires { AreSound table.now }
    ensures { result ≡ desc_under (setting_on 0 table.now) mark line }
{
    if is_live_matrix(table, mark, line) {
        Some(layout_at(table, line).desc)
    } else {
        None
    }
}

// Where the list of pivots that a line made lies, while it is live.
fn list_in(table: &[Line], mark: Mark, line: u32) -> Option<ListShape>
    requires { AreSound table.now }
    ensures { result ≡ list_under (setting_on 0 table.now) mark line }
{
    if !is_live_list(table, mark, line) {
        return None;
    }
    let desc = layout_at(table, find(table, line).factors).desc;
    Some(ListShape {
        grid: desc.ctxt,
        n: desc.m.min(desc.n),
    })
}

// The line of the matrix that is being factored, and the line that factors it.
fn factoring_in(table: &[Line], mark: Mark) -> Option<(u32, u32)>
    requires { AreSound table.now }
    ensures { result ≡ factoring_under (setting_on 0 table.now) mark }
{
    let matrix = factoring(table, mark);
    if matrix == 0 {
        None
    } else {
        Some((matrix, mark.line))
    }
}
