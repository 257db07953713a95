//! The block-cyclic distribution of a dense matrix: array descriptors and index maps.
//!
//! A dimension of `n` indices is cut into blocks of `nb`; block `k` lies on process `(src + k) mod procs`, and a process
//! keeps its blocks side by side. All indices, places and processes count from 0. The distribution and the descriptor are
//! those of the ScaLAPACK Users' Guide, section 4.3.
#![tactic(auto)]

ghost use Rattle.std.specs.Prelude.{◌≡◌, ℕ, ◌+◌, ◌-◌, ◌*◌, ◌/◌, ◌%◌, ◌^◌, ◌<◌, ◌≤◌, ◌↔◌, Some, None, IsOk, IfOk, IfErr};
ghost use Rattle.array_desc.specs.Maps.{owner, local, distance, global, numroc, AreNumbered, groups, group_of, ceil_div, block_in};
ghost use Rattle.array_desc.specs.Limits.{process_limit};
ghost use Rattle.array_desc.specs.Descriptors.{first_bad_entry, desc_of, IsDesc};

/// The greatest number of rows and of columns of a matrix.
pub const MAX_SIZE: u32 = 1024;

/// The greatest number of rows and of columns of a block.
pub const MAX_BLOCK: u32 = 128;

/// An array descriptor: how a matrix lies on a process grid.
///
/// The fields are the nine entries of the descriptor of a dense matrix, in their order, DTYPE_ (1) to LLD_ (9)
/// (ScaLAPACK Users' Guide, section 4.3.3).
#[derive(Clone, Copy, Debug, PartialEq, Eq)]
pub struct Desc {
    /// DTYPE_, the type of the descriptor: 1, for a dense matrix.
    pub dtype: u32,
    /// CTXT_, the number of the process grid.
    pub ctxt: u32,
    /// M_, the number of rows.
    pub m: u32,
    /// N_, the number of columns.
    pub n: u32,
    /// MB_, the number of rows of a block.
    pub mb: u32,
    /// NB_, the number of columns of a block.
    pub nb: u32,
    /// RSRC_, the process row that holds the first row.
    pub rsrc: u32,
    /// CSRC_, the process column that holds the first column.
    pub csrc: u32,
    /// LLD_, the greatest number of local rows on a process row.
    pub lld: u32,
}

/// The number, from 3 (M_) to 8 (CSRC_), of the first descriptor entry that is out of its range.
#[derive(Clone, Copy, Debug, PartialEq, Eq)]
pub struct BadEntry(pub u32);

impl Desc {
    /// The descriptor of an `m` by `n` matrix in blocks of `mb` by `nb` on a grid of `p` process rows and `q` process
    /// columns, of which `rsrc` and `csrc` hold the first block.
    ///
    /// `m` and `n` are to be 1 to 1024, `mb` and `nb` 1 to 128, `rsrc` below `p` and `csrc` below `q`. The answer is the
    /// number of the first entry that is not. The numbers are those of the entries in the descriptor, so that they are
    /// greater by one than the argument numbers that the TOOLS routine DESCINIT answers.
    pub fn new(
        ctxt: u32,
        p: u32,
        q: u32,
        m: u32,
        n: u32,
        mb: u32,
        nb: u32,
        rsrc: u32,
        csrc: u32,
    ) -> Result<Desc, BadEntry>
        requires some_process_rows { 1 ≤ p }
        requires process_rows { p ≤ process_limit }
        requires some_process_columns { 1 ≤ q }
        requires process_columns { q ≤ process_limit }
        ensures accepted { IsOk result ↔ (first_bad_entry p q m n mb nb rsrc csrc ≡ None) }
        ensures made { IfOk result (λ desc. desc ≡ desc_of ctxt p q m n mb nb rsrc csrc) }
        ensures in_range { IfOk result (IsDesc p q) }
        ensures refused { IfErr result (λ e. first_bad_entry p q m n mb nb rsrc csrc ≡ Some e.0) }
    {
        if m < 1 || m > MAX_SIZE {
            return Err(BadEntry(3));
        }
        if n < 1 || n > MAX_SIZE {
            return Err(BadEntry(4));
        }
        if mb < 1 || mb > MAX_BLOCK {
            return Err(BadEntry(5));
        }
        if nb < 1 || nb > MAX_BLOCK {
            return Err(BadEntry(6));
        }
        if rsrc >= p {
            return Err(BadEntry(7));
        }
        if csrc >= q {
            return Err(BadEntry(8));
        }
        Ok(Desc {
            dtype: 1,
            ctxt,
            m,
            n,
            mb,
            nb,
            rsrc,
            csrc,
            lld: numroc(m, mb, rsrc, rsrc, p),
        })
    }
}

/// How many of the indices below `n` lie on process `proc` (TOOLS routine NUMROC).
pub fn numroc(n: u32, nb: u32, proc: u32, src: u32, procs: u32) -> u32
    requires block_size { 0 < nb }
    requires process { proc < procs }
    requires source { src < procs }
    ensures count { result ≡ numroc n nb proc src procs }
    ensures numbered { AreNumbered n nb proc src procs result }
    ensures reached { (l : ℕ) → (l < result) ↔ (global l nb proc src procs < n) }
{
    let blocks = n / nb;
    let from_source = distance(proc, src, procs);
    blocks / procs * nb + in_last_round(from_source, blocks % procs, nb, n % nb)
}

/// How many indices of the last round of blocks lie on a process that comes `from_source` processes after the source. The
/// round has `whole` whole blocks of `nb` indices, and one more block, with the `rest` of the indices.
fn in_last_round(from_source: u32, whole: u32, nb: u32, rest: u32) -> u32
    ensures whole_block { from_source < whole → result ≡ nb }
    ensures last_block { from_source ≡ whole → result ≡ rest }
    ensures no_block { whole < from_source → result ≡ 0 }
{
    if from_source < whole {
        nb
    } else if from_source == whole {
        rest
    } else {
        0
    }
}

/// How many processes after the source a process comes, going round.
fn distance(proc: u32, src: u32, procs: u32) -> u32
    requires process { proc < procs }
    requires source { src < procs }
    ensures { result ≡ distance proc src procs }
{
    if proc < src {
        procs - (src - proc)
    } else {
        proc - src
    }
}

/// The process that holds index `g` (TOOLS routine INDXG2P).
pub fn owner(g: u32, nb: u32, src: u32, procs: u32) -> u32
    requires block_size { 0 < nb }
    requires source { src < procs }
    ensures value { result ≡ owner g nb src procs }
    ensures process { result < procs }
    ensures holds { global (local g nb procs) nb result src procs ≡ g }
    ensures alone { (proc l : ℕ) → proc < procs → global l nb proc src procs ≡ g → proc ≡ result }
{
    ((u64::from(src) + u64::from(g / nb)) % u64::from(procs)) as u32
}

/// The local place of index `g` on the process that holds it (TOOLS routine INDXG2L).
///
/// It is the same for every source, and as many indices below `g` lie on that process.
pub fn local(g: u32, nb: u32, procs: u32) -> u32
    requires block_size { 0 < nb }
    requires processes { 0 < procs }
    ensures value { result ≡ local g nb procs }
    ensures counts_before { (src : ℕ) → src < procs → numroc g nb (owner g nb src procs) src procs ≡ result }
    ensures within { (n src : ℕ) → src < procs → g < n → result < numroc n nb (owner g nb src procs) src procs }
{
    g / nb / procs * nb + g % nb
}

/// The index at local place `l` of process `proc` (TOOLS routine INDXL2G).
pub fn global(l: u32, nb: u32, proc: u32, src: u32, procs: u32) -> u32
    requires block_size { 0 < nb }
    requires process { proc < procs }
    requires source { src < procs }
    requires fits { global l nb proc src procs < 2 ^ 32 }
    ensures value { result ≡ global l nb proc src procs }
    ensures on_process { owner result nb src procs ≡ proc }
    ensures at_place { local result nb procs ≡ l }
{
    (l / nb * procs + distance(proc, src, procs)) * nb + l % nb
}

/// How many groups `n` columns make, where a group is `q` block columns of `nb` columns side by side and the last group
/// may have fewer.
pub fn groups(n: u32, nb: u32, q: u32) -> u32
    requires block_size { 0 < nb }
    requires process_columns { 0 < q }
    ensures value { result ≡ groups n nb q }
    ensures reached { (group : ℕ) → (group < result) ↔ (group * q * nb < n) }
{
    n.div_ceil(nb).div_ceil(q)
}

/// The group of a block column, where a group is `q` block columns side by side.
pub fn group_of(block: u32, q: u32) -> u32
    requires { 0 < q }
    ensures value { result ≡ group_of block q }
    ensures alone { (src : ℕ) → src < q → block_in result ((src + block) % q) src q ≡ block }
    ensures counted { (n nb : ℕ) → block < ceil_div n nb → result < groups n nb q }
{
    block / q
}
