//! What the tests share: texts and what is read from them, and assertions, one for each type. Each call ends the test where memory lacks.
ghost use Rattle.script_bounds.specs.Accepted.{KeepsRules};

use run_data::{Mat, Script};
use script_text::{Refused, TextFault, parse_matrix, parse_script};
use std::alloc::Global;
use std::panic::Expect;
use std::process::Abort;

/// The greatest number of bytes of a file.
const MAX_BYTES: usize = 16_777_216;

/// Two grids, of which the second has a code column, and matrices on them.
pub const MATRICES: &[u8] =
    b"grid g 2 2 0\ngrid h 2 2 1\nmatrix A g 4 4 2 2 0 0 f\nmatrix B g 4 4 2 2 0 0 f\nmatrix C g 4 4 2 2 0 0 f\nmatrix D h 4 4 2 2 0 0 f\n";

/// Stops where bytes are not these.
pub fn check_is(rt: &impl Abort, bytes: &[u8], want: &[u8]) {
    assert_eq!(rt; bytes, want);
}

/// Stops where a number is not this one.
pub fn check_number(rt: &impl Abort, number: u64, want: u64) {
    assert_eq!(rt; number, want);
}

/// Stops where the line and the code of a refusal are not these, by the row of a table.
pub fn check_refusal(rt: &impl Abort, row: usize, found: (u32, i32), want: (u32, i32)) {
    assert_eq!(rt; found, want, "row {row}");
}

/// Stops where a script of a head and some lines has another refusal than the table says.
pub fn check_refusals(rt: &impl Abort, alloc: Global, head: &[u8], table: &[(&[u8], (u32, i32))]) {
    for (row, (lines, want)) in table.iter().enumerate() {
        let text = repeated(rt, alloc, head, lines, 1);
        check_refusal(rt, row, refusal(rt, alloc, &text), *want);
    }
}

/// A head and then so many times the same text.
pub fn repeated(rt: &impl Abort, alloc: Global, head: &[u8], text: &[u8], times: u32) -> Vec<u8> {
    let mut all = head.to_vec(alloc).expect(rt, "memory");
    for _ in 0..times {
        all.extend_from_slice(text).expect(rt, "memory");
    }
    all
}

/// The script that a text spells.
pub fn script(rt: &impl Abort, alloc: Global, text: &[u8]) -> Script
    ensures { KeepsRules result }
{
    assert!(rt; text.len() <= MAX_BYTES);
    parse_script(alloc, text).expect(rt, "a script")
}

/// The line and the code of a script's refusal; line 0 and code 0 where it is accepted.
pub fn refusal(rt: &impl Abort, alloc: Global, text: &[u8]) -> (u32, i32) {
    assert!(rt; text.len() <= MAX_BYTES);
    match parse_script(alloc, text) {
        Ok(_) => (0, 0),
        Err(TextFault::Refused(refused)) => (refused.line, refused.code),
        Err(TextFault::NoMemory) => rt.panic("no memory"),
    }
}

/// The matrix of words modulo 65537 that the bytes of a file spell.
pub fn matrix(rt: &impl Abort, alloc: Global, bytes: &[u8], m: u32, n: u32) -> Mat {
    assert!(rt; bytes.len() <= MAX_BYTES);
    parse_matrix(alloc, bytes, 2, m, n, 65537).expect(rt, "a matrix")
}

/// The line and the code of the refusal of file 2, whose words are to be below a modulus; line 0 and code 0 where it is read.
pub fn file_refusal(
    rt: &impl Abort,
    alloc: Global,
    bytes: &[u8],
    m: u32,
    n: u32,
    modulus: u32,
) -> (u32, i32) {
    assert!(rt; bytes.len() <= MAX_BYTES);
    match parse_matrix(alloc, bytes, 2, m, n, modulus) {
        Ok(_) => (0, 0),
        Err(
            TextFault::Refused(
                Refused {
                    file: 2,
                    line,
                    code,
                },
            ),
        ) => (line, code),
        Err(_) => rt.panic("no refusal of file 2"),
    }
}
