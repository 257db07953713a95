//! Process grids: ranks, coordinates and scopes.
//!
//! A grid has `p` process rows and `q + f` process columns, of which the first `q` are data columns and the others code
//! columns. Its ranks follow one another row by row, from `first` on (the row-major order of the BLACS routine
//! BLACS_GRIDINIT). Rows, columns and ranks count from 0.
#![tactic(auto)]

ghost use Rattle.std.specs.Prelude.{◌≡◌, ◌<◌, ◌↔◌, IsTrue, IsSome, IfSome, IsOk, IfOk, IfErr, Some, None};
ghost use Rattle.blacs_grid.specs.Places.{width, size, rank_at, is_member, row_of, col_of, IsScopeOf, is_in_scope, members, member, AreMembers};
ghost use Rattle.blacs_grid.specs.Limits.{IsGrid, first_fault};

/// The greatest number of process rows and of data columns.
pub const MAX_PROCESSES: u32 = 16;

/// The greatest number of code columns.
pub const MAX_CODE_COLUMNS: u32 = 4;

/// The greatest number of ranks of all grids of a run.
pub const MAX_RANKS: u32 = 64;

/// A process grid.
#[derive(Clone, Copy, Debug, PartialEq, Eq)]
pub struct Grid {
    /// The number of process rows.
    pub p: u32,
    /// The number of data columns.
    pub q: u32,
    /// The number of code columns.
    pub f: u32,
    /// The rank at row 0, column 0.
    pub first: u32,
}

/// Which limit of a grid is broken.
#[derive(Clone, Copy, Debug, PartialEq, Eq)]
pub enum GridFault {
    /// There are no process rows, or more than 16.
    Rows,
    /// There are no data columns, or more than 16.
    Cols,
    /// There are more than 4 code columns.
    Code,
    /// A rank would be 64 or more.
    Ranks,
}

/// Which ranks of a grid take part in an operation (the scopes of the BLACS: row, column and all).
#[derive(Clone, Copy, Debug, PartialEq, Eq)]
pub enum Scope {
    /// The ranks of a process row, those on code columns too.
    Row(u32),
    /// The ranks of a process column.
    Column(u32),
    /// The ranks on data columns, row by row.
    All,
}

impl Grid {
    /// A grid of `p` process rows, `q` data columns and `f` code columns, whose ranks begin with `first`.
    ///
    /// The answer is the first limit that is broken, in this order: `p` is 1 to 16, `q` is 1 to 16, `f` is at most 4, and
    /// `first + p * (q + f)` is at most 64.
    pub fn new(p: u32, q: u32, f: u32, first: u32) -> Result<Grid, GridFault>
        ensures accepted { IsOk result ↔ (first_fault p q f first ≡ None) }
        ensures made { IfOk result (λ g. g ≡ record { p = p; q = q; f = f; first = first }) }
        ensures within_limits { IfOk result IsGrid }
        ensures refused { IfErr result (λ fault. first_fault p q f first ≡ Some fault) }
    {
        if p < 1 || p > MAX_PROCESSES {
            return Err(GridFault::Rows);
        }
        if q < 1 || q > MAX_PROCESSES {
            return Err(GridFault::Cols);
        }
        if f > MAX_CODE_COLUMNS {
            return Err(GridFault::Code);
        }
        let ranks = p * (q + f);
        if first > MAX_RANKS || ranks > MAX_RANKS - first {
            return Err(GridFault::Ranks);
        }
        Ok(Grid { p, q, f, first })
    }

    /// The number of process columns, data and code.
    pub fn width(&self) -> u32
        requires { IsGrid self.now }
        ensures { result ≡ width self.now }
    {
        self.q + self.f
    }

    /// The number of ranks.
    pub fn size(&self) -> u32
        requires { IsGrid self.now }
        ensures { result ≡ size self.now }
    {
        self.p * self.width()
    }

    /// The rank at process row `row`, process column `col`.
    pub fn rank(&self, row: u32, col: u32) -> u32
        requires grid { IsGrid self.now }
        requires row_in { row < self.now.p }
        requires col_in { col < width self.now }
        ensures value { result ≡ rank_at self.now row col }
        ensures in_grid { IsTrue (is_member self.now result) }
        ensures at_row { row_of self.now result ≡ row }
        ensures at_col { col_of self.now result ≡ col }
    {
        self.first + row * self.width() + col
    }

    /// The process row and the process column of a rank, or None exactly for a rank of another grid.
    pub fn coords(&self, rank: u32) -> Option<(u32, u32)>
        requires { IsGrid self.now }
        ensures found { IsSome result ↔ IsTrue (is_member self.now rank) }
        ensures value { IfSome result (λ at. (at.0 ≡ row_of self.now rank) × (at.1 ≡ col_of self.now rank)) }
        ensures in_grid { IfSome result (λ at. (at.0 < self.now.p) × (at.1 < width self.now)) }
        ensures inverse { IfSome result (λ at. rank_at self.now at.0 at.1 ≡ rank) }
    {
        if rank < self.first || rank >= self.first + self.size() {
            return None;
        }
        let place = rank - self.first;
        Some((place / self.width(), place % self.width()))
    }

    /// How many members a scope has.
    pub fn members(&self, scope: Scope) -> u32
        requires grid { IsGrid self.now }
        requires scope_in { IsScopeOf self.now scope }
        ensures value { result ≡ members self.now scope }
        ensures exact { AreMembers self.now scope result }
    {
        match scope {
            Scope::Row(_) => self.width(),
            Scope::Column(_) => self.p,
            Scope::All => self.p * self.q,
        }
    }

    /// Member `i` of a scope: the rank on column `i` of the row, on row `i` of the column, or the data rank of that number,
    /// row by row.
    pub fn member(&self, scope: Scope, i: u32) -> u32
        requires grid { IsGrid self.now }
        requires scope_in { IsScopeOf self.now scope }
        requires index_in { i < members self.now scope }
        ensures value { result ≡ member self.now scope i }
        ensures meant { IsTrue (is_in_scope self.now scope result) }
    {
        match scope {
            Scope::Row(row) => self.rank(row, i),
            Scope::Column(col) => self.rank(i, col),
            Scope::All => self.rank(i / self.q, i % self.q),
        }
    }
}
