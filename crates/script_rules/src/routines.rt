//! The argument rules of the routines.
ghost use Rattle.std.specs.Prelude.{◌≡◌, ◌==◌, ◌&&◌, ◌||◌, codes, not};
ghost use Rattle.std.specs.Str.{bytes_eq};
ghost use Rattle.run_data.specs.Script.{commands_of};
ghost use Rattle.script_words.specs.Tables.{first_code};
ghost use Rattle.script_rules.specs.Rules.{pgemm_line, ptrsm_line, pgetrf_line, pgetrs_line, pgemr2d_line, ptran_line, pgetri_line, routine_rules};
ghost use Rattle.script_rules.specs.Routines.{is_option, factor_rules, sum_rules, pgemm_rules, option_rules, left_rules, right_rules, ptrsm_rules, pgetrf_rules, pgetrs_rules, is_within, pgemr2d_rules, ptran_rules, pgetri_rules};

use crate::distributions::{Distribution, distribution_of, factored};
use run_data::{Command, Script};
use script_words::is_word;

/// The code of the first rule that is not kept; a rule is its code, and whether it is kept.
pub fn first_code(rules: &[(i32, bool)]) -> Option<i32>
    ensures { result ≡ first_code rules.now }
{
    for (code, kept) in rules {
        if !*kept {
            return Some(*code);
        }
    }
    None
}

/// Whether a word is an option of one letter, in either case.
pub fn is_option(upper: &[u8], lower: &[u8], word: &[u8]) -> bool
    ensures { result ≡ is_option upper.now lower.now word.now }
{
    word == upper || word == lower
}

// Whether two words are different names.
fn are_apart(a: &[u8], b: &[u8]) -> bool
    ensures { result ≡ not (bytes_eq a.now b.now) }
{
    a != b
}

// Whether so many indices from `first` on, counted from 1, lie within a size.
fn is_within(first: u32, count: u32, size: u32) -> bool
    ensures { result ≡ is_within first count size }
{
    1 <= first && u64::from(first) + u64::from(count) <= u64::from(size) + 1
}

// The first broken rule of PGEMM's factors.
fn factor_code(
    p: u32,
    transa: &[u8],
    transb: &[u8],
    m: u32,
    n: u32,
    k: u32,
    alpha: u32,
    ia: u32,
    ja: u32,
    ib: u32,
    jb: u32,
    a: Distribution,
    b: Distribution,
) -> Option<i32>
    ensures { result ≡ first_code (factor_rules p transa.now transb.now m n k alpha ia ja ib jb a b) }
{
    first_code(&[
        (-1, is_option(b"N", b"n", transa)),
        (-2, is_option(b"N", b"n", transb)),
        (-3, m == a.m),
        (-4, n == b.n),
        (-5, k == a.n),
        (-6, alpha < p),
        (-8, ia == 1),
        (-9, ja == 1),
        (-12, ib == 1),
        (-13, jb == 1),
        (-1402, b.grid == a.grid),
        (-1403, b.m == k),
        (-1405, b.mb == a.nb),
    ])
}

// The first broken rule of what PGEMM adds to.
fn sum_code(
    p: u32,
    m: u32,
    n: u32,
    beta: u32,
    apart: bool,
    ic: u32,
    jc: u32,
    a: Distribution,
    b: Distribution,
    c: Distribution,
) -> Option<i32>
    ensures { result ≡ first_code (sum_rules p m n beta apart ic jc a b c) }
{
    first_code(&[
        (-15, beta < p),
        (-16, apart),
        (-17, ic == 1),
        (-18, jc == 1),
        (-1902, c.grid == a.grid),
        (-1903, c.m == m),
        (-1904, c.n == n),
        (-1905, c.mb == a.mb),
        (-1906, c.nb == b.nb),
        (-1907, c.rsrc == a.rsrc),
        (-1908, c.csrc == b.csrc),
    ])
}

// The first broken rule of PGEMM.
fn pgemm_code(
    p: u32,
    transa: &[u8],
    transb: &[u8],
    m: u32,
    n: u32,
    k: u32,
    alpha: u32,
    ia: u32,
    ja: u32,
    ib: u32,
    jb: u32,
    beta: u32,
    apart: bool,
    ic: u32,
    jc: u32,
    a: Distribution,
    b: Distribution,
    c: Distribution,
) -> Option<i32>
    ensures { result ≡ first_code (pgemm_rules p transa.now transb.now m n k alpha ia ja ib jb beta apart ic jc a b c) }
{
    let code = factor_code(p, transa, transb, m, n, k, alpha, ia, ja, ib, jb, a, b);
    match code {
        Some(_) => code,
        None => sum_code(p, m, n, beta, apart, ic, jc, a, b, c),
    }
}

// Whether a word names the lower or the upper triangle.
fn is_triangle(word: &[u8]) -> bool
    ensures { result ≡ (is_option (codes "L") (codes "l") word.now || is_option (codes "U") (codes "u") word.now) }
{
    is_option(b"L", b"l", word) || is_option(b"U", b"u", word)
}

// Whether a word says how a diagonal counts: as it stands, or as 1.
fn is_diagonal(word: &[u8]) -> bool
    ensures { result ≡ (is_option (codes "N") (codes "n") word.now || is_option (codes "U") (codes "u") word.now) }
{
    is_option(b"N", b"n", word) || is_option(b"U", b"u", word)
}

// Whether a word names the side of a triangle.
fn is_side(word: &[u8]) -> bool
    ensures { result ≡ (is_option (codes "L") (codes "l") word.now || is_option (codes "R") (codes "r") word.now) }
{
    is_option(b"L", b"l", word) || is_option(b"R", b"r", word)
}

// Whether a word says how a matrix counts: as it stands, or as its transpose.
fn is_transpose(word: &[u8]) -> bool
    ensures { result ≡ (is_option (codes "N") (codes "n") word.now || is_option (codes "T") (codes "t") word.now) }
{
    is_option(b"N", b"n", word) || is_option(b"T", b"t", word)
}

// The first broken rule of PTRSM's options.
fn option_code(side: &[u8], uplo: &[u8], transa: &[u8], diag: &[u8]) -> Option<i32>
    ensures { result ≡ first_code (option_rules side.now uplo.now transa.now diag.now) }
{
    first_code(&[
        (-1, is_side(side)),
        (-2, is_triangle(uplo)),
        (-3, is_transpose(transa)),
        (-4, is_diagonal(diag)),
    ])
}

// The first broken rule of PTRSM with the triangle on the left.
fn left_code(
    p: u32,
    m: u32,
    n: u32,
    alpha: u32,
    ia: u32,
    ja: u32,
    apart: bool,
    ib: u32,
    jb: u32,
    a: Distribution,
    b: Distribution,
) -> Option<i32>
    ensures { result ≡ first_code (left_rules p m n alpha ia ja apart ib jb a b) }
{
    first_code(&[
        (-5, m == a.m),
        (-6, n == b.n),
        (-7, alpha < p),
        (-9, ia == 1),
        (-10, ja == 1),
        (-1104, a.n == m),
        (-1106, a.nb == a.mb),
        (-12, apart),
        (-13, ib == 1),
        (-14, jb == 1),
        (-1502, b.grid == a.grid),
        (-1503, b.m == m),
        (-1505, b.mb == a.mb),
        (-1507, b.rsrc == a.rsrc),
    ])
}

// The first broken rule of PTRSM with the triangle on the right.
fn right_code(
    p: u32,
    m: u32,
    n: u32,
    alpha: u32,
    ia: u32,
    ja: u32,
    apart: bool,
    ib: u32,
    jb: u32,
    a: Distribution,
    b: Distribution,
) -> Option<i32>
    ensures { result ≡ first_code (right_rules p m n alpha ia ja apart ib jb a b) }
{
    first_code(&[
        (-5, m == b.m),
        (-6, n == a.m),
        (-7, alpha < p),
        (-9, ia == 1),
        (-10, ja == 1),
        (-1104, a.n == n),
        (-1106, a.nb == a.mb),
        (-12, apart),
        (-13, ib == 1),
        (-14, jb == 1),
        (-1502, b.grid == a.grid),
        (-1504, b.n == n),
        (-1506, b.nb == a.nb),
    ])
}

// The first broken rule of PTRSM.
fn ptrsm_code(
    p: u32,
    side: &[u8],
    uplo: &[u8],
    transa: &[u8],
    diag: &[u8],
    m: u32,
    n: u32,
    alpha: u32,
    ia: u32,
    ja: u32,
    apart: bool,
    ib: u32,
    jb: u32,
    a: Distribution,
    b: Distribution,
) -> Option<i32>
    ensures { result ≡ first_code (ptrsm_rules p side.now uplo.now transa.now diag.now m n alpha ia ja apart ib jb a b) }
{
    let code = option_code(side, uplo, transa, diag);
    match code {
        Some(_) => code,
        None if is_option(b"L", b"l", side) => left_code(
            p, m, n, alpha, ia, ja, apart, ib, jb, a, b,
        ),
        None => right_code(p, m, n, alpha, ia, ja, apart, ib, jb, a, b),
    }
}

// The first broken rule of PGETRF.
fn pgetrf_code(m: u32, n: u32, ia: u32, ja: u32, a: Distribution) -> Option<i32>
    ensures { result ≡ first_code (pgetrf_rules m n ia ja a) }
{
    first_code(&[
        (-1, m == a.m),
        (-2, n == a.n),
        (-4, ia == 1),
        (-5, ja == 1),
        (-606, a.nb == a.mb),
    ])
}

// Whether the matrix `v`, whose factorization made a pivot list, has n rows and n columns on the grid of another.
fn is_factored(n: u32, v: Distribution, a: Distribution) -> bool
    ensures { result ≡ ((v.m == n) && (v.n == n) && (v.grid == a.grid)) }
{
    v.m == n && v.n == n && v.grid == a.grid
}

// The first broken rule of PGETRS; `v` is the matrix whose factorization made the pivot list.
fn pgetrs_code(
    trans: &[u8],
    n: u32,
    nrhs: u32,
    ia: u32,
    ja: u32,
    apart: bool,
    ib: u32,
    jb: u32,
    a: Distribution,
    v: Distribution,
    b: Distribution,
) -> Option<i32>
    ensures { result ≡ first_code (pgetrs_rules trans.now n nrhs ia ja apart ib jb a v b) }
{
    first_code(&[
        (-1, is_transpose(trans)),
        (-2, n == a.m),
        (-3, nrhs == b.n),
        (-5, ia == 1),
        (-6, ja == 1),
        (-704, a.n == n),
        (-706, a.nb == a.mb),
        (-8, is_factored(n, v, a)),
        (-9, apart),
        (-10, ib == 1),
        (-11, jb == 1),
        (-1202, b.grid == a.grid),
        (-1203, b.m == n),
        (-1205, b.mb == a.mb),
        (-1207, b.rsrc == a.rsrc),
    ])
}

// The first broken rule of PGEMR2D.
fn pgemr2d_code(
    m: u32,
    n: u32,
    ia: u32,
    ja: u32,
    apart: bool,
    ib: u32,
    jb: u32,
    ctxt: &[u8],
    a: Distribution,
    b: Distribution,
) -> Option<i32>
    ensures { result ≡ first_code (pgemr2d_rules m n ia ja apart ib jb ctxt.now a b) }
{
    first_code(&[
        (-1, 1 <= m),
        (-2, 1 <= n),
        (-4, is_within(ia, m, a.m)),
        (-5, is_within(ja, n, a.n)),
        (-7, apart),
        (-8, is_within(ib, m, b.m)),
        (-9, is_within(jb, n, b.n)),
        (-11, is_word(ctxt, b"all")),
    ])
}

// The first broken rule of PTRAN.
fn ptran_code(
    p: u32,
    m: u32,
    n: u32,
    alpha: u32,
    ia: u32,
    ja: u32,
    beta: u32,
    apart: bool,
    ic: u32,
    jc: u32,
    a: Distribution,
    c: Distribution,
) -> Option<i32>
    ensures { result ≡ first_code (ptran_rules p m n alpha ia ja beta apart ic jc a c) }
{
    first_code(&[
        (-1, m == c.m),
        (-2, n == c.n),
        (-3, alpha < p),
        (-5, ia == 1),
        (-6, ja == 1),
        (-703, a.m == n),
        (-704, a.n == m),
        (-8, beta < p),
        (-9, apart),
        (-10, ic == 1),
        (-11, jc == 1),
        (-1202, c.grid == a.grid),
    ])
}

// The first broken rule of PGETRI; `v` is the matrix whose factorization made the pivot list.
fn pgetri_code(
    n: u32,
    ia: u32,
    ja: u32,
    apart: bool,
    ib: u32,
    jb: u32,
    a: Distribution,
    v: Distribution,
    b: Distribution,
) -> Option<i32>
    ensures { result ≡ first_code (pgetri_rules n ia ja apart ib jb a v b) }
{
    first_code(&[
        (-1, n == a.m),
        (-3, ia == 1),
        (-4, ja == 1),
        (-504, a.n == n),
        (-506, a.nb == a.mb),
        (-6, is_factored(n, v, a)),
        (-7, apart),
        (-8, ib == 1),
        (-9, jb == 1),
        (-1002, b.grid == a.grid),
        (-1003, b.m == n),
        (-1004, b.n == n),
        (-1005, b.mb == a.mb),
        (-1007, b.rsrc == a.rsrc),
    ])
}

// The first broken rule of a `pgemm` line.
fn pgemm_line(p: u32, script: &Script, line: u32, command: &Command) -> Option<i32>
    ensures { result ≡ first_code (pgemm_line p (commands_of script.now) line command.now) }
{
    let Command::Pgemm {
        transa,
        transb,
        m,
        n,
        k,
        alpha,
        a,
        ia,
        ja,
        b,
        ib,
        jb,
        beta,
        c,
        ic,
        jc,
    } = command
    else {
        return None;
    };
    pgemm_code(
        p,
        transa.bytes(),
        transb.bytes(),
        *m,
        *n,
        *k,
        *alpha,
        *ia,
        *ja,
        *ib,
        *jb,
        *beta,
        are_apart(c.bytes(), a.bytes()) && are_apart(c.bytes(), b.bytes()),
        *ic,
        *jc,
        distribution_of(script, line, a.bytes()),
        distribution_of(script, line, b.bytes()),
        distribution_of(script, line, c.bytes()),
    )
}

// The first broken rule of a `ptrsm` line.
fn ptrsm_line(p: u32, script: &Script, line: u32, command: &Command) -> Option<i32>
    ensures { result ≡ first_code (ptrsm_line p (commands_of script.now) line command.now) }
{
    let Command::Ptrsm {
        side,
        uplo,
        transa,
        diag,
        m,
        n,
        alpha,
        a,
        ia,
        ja,
        b,
        ib,
        jb,
    } = command
    else {
        return None;
    };
    ptrsm_code(
        p,
        side.bytes(),
        uplo.bytes(),
        transa.bytes(),
        diag.bytes(),
        *m,
        *n,
        *alpha,
        *ia,
        *ja,
        are_apart(b.bytes(), a.bytes()),
        *ib,
        *jb,
        distribution_of(script, line, a.bytes()),
        distribution_of(script, line, b.bytes()),
    )
}

// The first broken rule of the routine of a `pgetrf` line.
fn pgetrf_line(script: &Script, line: u32, command: &Command) -> Option<i32>
    ensures { result ≡ first_code (pgetrf_line (commands_of script.now) line command.now) }
{
    let Command::Pgetrf {
        m,
        n,
        a,
        ia,
        ja,
        ..
    } = command
    else {
        return None;
    };
    pgetrf_code(*m, *n, *ia, *ja, distribution_of(script, line, a.bytes()))
}

// The first broken rule of a `pgetrs` line.
fn pgetrs_line(script: &Script, line: u32, command: &Command) -> Option<i32>
    ensures { result ≡ first_code (pgetrs_line (commands_of script.now) line command.now) }
{
    let Command::Pgetrs {
        trans,
        n,
        nrhs,
        a,
        ia,
        ja,
        v,
        b,
        ib,
        jb,
    } = command
    else {
        return None;
    };
    pgetrs_code(
        trans.bytes(),
        *n,
        *nrhs,
        *ia,
        *ja,
        are_apart(b.bytes(), a.bytes()),
        *ib,
        *jb,
        distribution_of(script, line, a.bytes()),
        factored(script, line, v.bytes()),
        distribution_of(script, line, b.bytes()),
    )
}

// The first broken rule of a `pgemr2d` line.
fn pgemr2d_line(script: &Script, line: u32, command: &Command) -> Option<i32>
    ensures { result ≡ first_code (pgemr2d_line (commands_of script.now) line command.now) }
{
    let Command::Pgemr2d {
        m,
        n,
        a,
        ia,
        ja,
        b,
        ib,
        jb,
        ctxt,
    } = command
    else {
        return None;
    };
    pgemr2d_code(
        *m,
        *n,
        *ia,
        *ja,
        are_apart(b.bytes(), a.bytes()),
        *ib,
        *jb,
        ctxt.bytes(),
        distribution_of(script, line, a.bytes()),
        distribution_of(script, line, b.bytes()),
    )
}

// The first broken rule of a `ptran` line.
fn ptran_line(p: u32, script: &Script, line: u32, command: &Command) -> Option<i32>
    ensures { result ≡ first_code (ptran_line p (commands_of script.now) line command.now) }
{
    let Command::Ptran {
        m,
        n,
        alpha,
        a,
        ia,
        ja,
        beta,
        c,
        ic,
        jc,
    } = command
    else {
        return None;
    };
    ptran_code(
        p,
        *m,
        *n,
        *alpha,
        *ia,
        *ja,
        *beta,
        are_apart(c.bytes(), a.bytes()),
        *ic,
        *jc,
        distribution_of(script, line, a.bytes()),
        distribution_of(script, line, c.bytes()),
    )
}

// The first broken rule of a `pgetri` line.
fn pgetri_line(script: &Script, line: u32, command: &Command) -> Option<i32>
    ensures { result ≡ first_code (pgetri_line (commands_of script.now) line command.now) }
{
    let Command::Pgetri {
        n,
        a,
        ia,
        ja,
        v,
        b,
        ib,
        jb,
    } = command
    else {
        return None;
    };
    pgetri_code(
        *n,
        *ia,
        *ja,
        are_apart(b.bytes(), a.bytes()),
        *ib,
        *jb,
        distribution_of(script, line, a.bytes()),
        factored(script, line, v.bytes()),
        distribution_of(script, line, b.bytes()),
    )
}

/// The first broken rule of the routine that a command calls, on a line after those of a script, over the field of modulus p.
pub fn routine_code(p: u32, script: &Script, line: u32, command: &Command) -> Option<i32>
    ensures { result ≡ first_code (routine_rules p (commands_of script.now) line command.now) }
{
    match command {
        Command::Pgemm { .. } => pgemm_line(p, script, line, command),
        Command::Ptrsm { .. } => ptrsm_line(p, script, line, command),
        Command::Pgetrf { .. } => pgetrf_line(script, line, command),
        Command::Pgetrs { .. } => pgetrs_line(script, line, command),
        Command::Pgemr2d { .. } => pgemr2d_line(script, line, command),
        Command::Ptran { .. } => ptran_line(p, script, line, command),
        Command::Pgetri { .. } => pgetri_line(script, line, command),
        _ => None,
    }
}
