//! The texts of printed values by example.
use crate::checks::{check_is, matrix};
use run_data::IndexList;
use script_text::{info_text, matrix_text, pivots_text};
use std::alloc::Global;
use std::panic::Expect;
use std::process::Abort;

// A list of numbers.
fn list(rt: &impl Abort, alloc: Global, numbers: &[u32]) -> IndexList {
    let mut list = IndexList::new(alloc);
    for number in numbers {
        list.push(*number).expect(rt, "memory");
    }
    list
}

#[test]
fn prints_values(rt: HostRuntime) {
    let alloc = rt.alloc();
    let two_by_three = matrix(&rt, alloc, b"1 2 3\n4 5 65536\n", 2, 3);
    let pivots = list(&rt, alloc, &[2, 10]);
    let matrix = matrix_text(alloc, "A_1", &two_by_three).expect(&rt, "memory");
    let list = pivots_text(alloc, "v", &pivots).expect(&rt, "memory");
    let info = info_text(alloc, "pgetrf", "A_1", 4294967295).expect(&rt, "memory");
    check_is(&rt, &matrix, b"A_1 2 3\n1 2 3\n4 5 65536\n");
    check_is(&rt, &list, b"v 2\n2 10\n");
    check_is(&rt, &info, b"pgetrf A_1 info 4294967295\n");
}
