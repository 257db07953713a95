//! Commands.
ghost use Rattle.std.specs.Prelude.{◌≡◌, OnOk};
ghost use Rattle.std.specs.Option.{option_copied};
ghost use Rattle.run_data.specs.Flips.{pending_after};
ghost use Rattle.run_data.specs.Script.{is_grid, is_name, maker_after, makes_records, name_at, name_dropped, name_made};

use crate::flips::Flip;
use crate::index_list::IndexList;
use crate::word::Word;
use std::alloc::AllocError as NoMemory;

/// A command of a script: one variant a command, and in the order of its line one field for each word after the first.
#[derive(Drop)]
pub enum Command {
    /// `grid G P Q F`: a new process grid.
    Grid {
        name: Word,
        p: u32,
        q: u32,
        f: u32,
    },
    /// `matrix A G M N MB NB RSRC CSRC FILE`: a new matrix from a file.
    Matrix {
        name: Word,
        grid: Word,
        m: u32,
        n: u32,
        mb: u32,
        nb: u32,
        rsrc: u32,
        csrc: u32,
        file: Word,
    },
    /// `pgemm TRANSA TRANSB M N K ALPHA A IA JA B IB JB BETA C IC JC`: C becomes ALPHA A B + BETA C.
    Pgemm {
        transa: Word,
        transb: Word,
        m: u32,
        n: u32,
        k: u32,
        alpha: u32,
        a: Word,
        ia: u32,
        ja: u32,
        b: Word,
        ib: u32,
        jb: u32,
        beta: u32,
        c: Word,
        ic: u32,
        jc: u32,
    },
    /// `ptrsm SIDE UPLO TRANSA DIAG M N ALPHA A IA JA B IB JB`: B becomes the X with A X = ALPHA B.
    Ptrsm {
        side: Word,
        uplo: Word,
        transa: Word,
        diag: Word,
        m: u32,
        n: u32,
        alpha: u32,
        a: Word,
        ia: u32,
        ja: u32,
        b: Word,
        ib: u32,
        jb: u32,
    },
    /// `pgetrf M N A IA JA V`: A becomes its factors, and V a new pivot list.
    Pgetrf {
        m: u32,
        n: u32,
        a: Word,
        ia: u32,
        ja: u32,
        v: Word,
    },
    /// `pgetrs TRANS N NRHS A IA JA V B IB JB`: B becomes the solution.
    Pgetrs {
        trans: Word,
        n: u32,
        nrhs: u32,
        a: Word,
        ia: u32,
        ja: u32,
        v: Word,
        b: Word,
        ib: u32,
        jb: u32,
    },
    /// `pgemr2d M N A IA JA B IB JB CTXT`: a window of A is copied into B.
    Pgemr2d {
        m: u32,
        n: u32,
        a: Word,
        ia: u32,
        ja: u32,
        b: Word,
        ib: u32,
        jb: u32,
        ctxt: Word,
    },
    /// `print A`.
    Print {
        name: Word,
    },
    /// `pivots V`.
    Pivots {
        name: Word,
    },
    /// `drop X`: a matrix or a pivot list goes.
    Discard {
        name: Word,
    },
    /// `topology W`, for the lines after it.
    Topology {
        kind: Word,
    },
    /// `links n`: how many messages a link holds.
    Links {
        n: u32,
    },
    /// `order` and its numbers.
    Order {
        numbers: IndexList,
    },
    /// `lose T R`: rank R is lost directly before record T.
    Lose {
        at: u32,
        rank: u32,
    },
    /// `spares n`: how many lost ranks can be replaced.
    Spares {
        n: u32,
    },
    /// `field n`: all words of the run are numbers modulo n.
    Field {
        n: u32,
    },
    /// `ptran M N ALPHA A IA JA BETA C IC JC`: C becomes ALPHA times the transpose of A, plus BETA C.
    Ptran {
        m: u32,
        n: u32,
        alpha: u32,
        a: Word,
        ia: u32,
        ja: u32,
        beta: u32,
        c: Word,
        ic: u32,
        jc: u32,
    },
    /// `pgetri N A IA JA V B IB JB`: B becomes the inverse of the matrix with the factors A and the pivots V.
    Pgetri {
        n: u32,
        a: Word,
        ia: u32,
        ja: u32,
        v: Word,
        b: Word,
        ib: u32,
        jb: u32,
    },
    /// `flip A I J X`: a word of A is silently wrong, by X too much, until the next `pverify A`.
    Flip {
        name: Word,
        i: u32,
        j: u32,
        x: u32,
    },
    /// `pverify A`: wrong words of A are found and corrected.
    Pverify {
        name: Word,
    },
}

impl Command {
    /// Whether lines of this command make records of a journal. `grid`, `topology`, `links`, `order`, `lose`, `spares`, `field`
    /// and `flip` make none.
    pub fn makes_records(&self) -> bool
        ensures { result ≡ makes_records self.now }
    {
        match self {
            Command::Grid { .. } => false,
            Command::Topology { .. } => false,
            Command::Links { .. } => false,
            Command::Order { .. } => false,
            Command::Lose { .. } => false,
            Command::Spares { .. } => false,
            Command::Field { .. } => false,
            Command::Flip { .. } => false,
            _ => true,
        }
    }

    /// Whether it is a `grid`.
    pub(crate) fn is_grid(&self) -> bool
        ensures { result ≡ is_grid self.now }
    {
        matches!(self, Command::Grid { .. })
    }

    /// The name of a grid, a matrix or a pivot list that a word of the line is; words count from 0, the command's own word included.
    pub(crate) fn name_at(&self, word: u32) -> Option<&[u8]>
        ensures { option_copied result ≡ name_at self.now word }
    {
        let name = match (self, word) {
            (Command::Grid { name, .. }, 1) => name,
            (Command::Matrix { name, .. }, 1) => name,
            (Command::Matrix { grid, .. }, 2) => grid,
            (Command::Pgemm { a, .. }, 7) => a,
            (Command::Pgemm { b, .. }, 10) => b,
            (Command::Pgemm { c, .. }, 14) => c,
            (Command::Ptrsm { a, .. }, 8) => a,
            (Command::Ptrsm { b, .. }, 11) => b,
            (Command::Pgetrf { a, .. }, 3) => a,
            (Command::Pgetrf { v, .. }, 6) => v,
            (Command::Pgetrs { a, .. }, 4) => a,
            (Command::Pgetrs { v, .. }, 7) => v,
            (Command::Pgetrs { b, .. }, 8) => b,
            (Command::Pgemr2d { a, .. }, 3) => a,
            (Command::Pgemr2d { b, .. }, 6) => b,
            (Command::Ptran { a, .. }, 4) => a,
            (Command::Ptran { c, .. }, 8) => c,
            (Command::Pgetri { a, .. }, 2) => a,
            (Command::Pgetri { v, .. }, 5) => v,
            (Command::Pgetri { b, .. }, 6) => b,
            (Command::Flip { name, .. }, 1) => name,
            (Command::Pverify { name }, 1) => name,
            (Command::Print { name }, 1) => name,
            (Command::Pivots { name }, 1) => name,
            (Command::Discard { name }, 1) => name,
            _ => return None,
        };
        Some(name.bytes())
    }

    // Whether it makes a thing of this name.
    fn makes(&self, name: &[u8]) -> bool
        ensures { result ≡ is_name (name_made self.now) name.now }
    {
        match self {
            Command::Grid { name: made, .. } => made.bytes() == name,
            Command::Matrix { name: made, .. } => made.bytes() == name,
            Command::Pgetrf { v, .. } => v.bytes() == name,
            _ => false,
        }
    }

    // Whether it drops the thing of this name.
    fn drops(&self, name: &[u8]) -> bool
        ensures { result ≡ is_name (name_dropped self.now) name.now }
    {
        match self {
            Command::Discard { name: dropped } => dropped.bytes() == name,
            _ => false,
        }
    }

    /// The line that made what a name means after this command on a line, where `before` is that line before the command.
    pub(crate) fn maker_after(&self, line: u32, name: &[u8], before: Option<u32>) -> Option<u32>
        ensures { result ≡ maker_after (record { line = line; command = self.now }) name.now before }
    {
        if self.makes(name) {
            Some(line)
        } else if self.drops(name) {
            None
        } else {
            before
        }
    }

    /// The pending flips of a name after this command on a line, where `flips` are those before it.
    pub(crate) fn flip(&self, line: u32, name: &[u8], flips: &mut Vec<Flip>) -> Result<(), NoMemory>
        ensures { OnOk result (flips.new.items ≡ pending_after line self.now name.now flips.old.items) }
    {
        match self {
            Command::Flip {
                name: flipped,
                i,
                j,
                x,
            } if flipped.bytes() == name => flips.push(Flip {
                line,
                row: *i,
                column: *j,
                error: *x,
            })?,
            Command::Pverify { name: verified } if verified.bytes() == name => flips.clear(),
            Command::Discard { name: dropped } if dropped.bytes() == name => flips.clear(),
            _ => {}
        }
        Ok(())
    }
}
