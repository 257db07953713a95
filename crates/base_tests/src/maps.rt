//! Index maps and descriptors.
use crate::checks::check_numbers;
use array_desc::{BadEntry, Desc, global, group_of, groups, local, numroc, owner};
use std::process::Abort;

/// Answers of ScaLAPACK 2.2.1, with indices, places and processes counted from 0:
/// n, nb, proc, src, procs, NUMROC of these; g, INDXG2P and INDXG2L of it; l, INDXL2G of it on proc.
const MAPS: [[u32; 11]; 60] = [
    [10, 3, 0, 0, 2, 6, 7, 0, 4, 5, 8],
    [10, 3, 1, 0, 2, 4, 7, 0, 4, 2, 5],
    [1, 1, 14, 14, 15, 1, 0, 14, 0, 0, 0],
    [1024, 1, 0, 15, 16, 64, 1023, 14, 63, 60, 961],
    [9, 2, 1, 2, 4, 2, 0, 2, 0, 0, 6],
    [1, 128, 0, 0, 1, 1, 0, 0, 0, 0, 0],
    [2, 128, 15, 15, 16, 2, 1, 15, 1, 1, 1],
    [123, 123, 11, 11, 15, 123, 65, 11, 65, 38, 38],
    [1024, 128, 1, 0, 2, 512, 1023, 1, 511, 345, 729],
    [112, 1, 1, 11, 16, 7, 65, 12, 4, 6, 102],
    [2, 2, 0, 0, 1, 2, 1, 0, 1, 1, 1],
    [1024, 127, 0, 14, 15, 127, 1023, 7, 7, 111, 238],
    [1, 2, 1, 1, 3, 1, 0, 1, 0, 0, 0],
    [5, 1, 1, 2, 3, 1, 3, 2, 1, 0, 2],
    [1, 1, 0, 0, 16, 1, 0, 0, 0, 0, 0],
    [2, 128, 0, 0, 15, 2, 1, 0, 1, 0, 0],
    [1024, 1, 0, 0, 1, 1024, 1023, 0, 1023, 834, 834],
    [990, 128, 5, 3, 8, 128, 510, 6, 126, 104, 360],
    [1024, 12, 10, 5, 13, 84, 587, 1, 47, 46, 538],
    [53, 116, 0, 0, 1, 53, 48, 0, 48, 43, 43],
    [9, 1, 1, 0, 3, 3, 0, 0, 0, 1, 4],
    [9, 2, 0, 1, 3, 2, 0, 1, 0, 1, 5],
    [127, 2, 14, 0, 15, 8, 126, 3, 8, 7, 119],
    [128, 128, 0, 0, 2, 128, 127, 0, 127, 45, 45],
    [887, 126, 15, 14, 16, 126, 882, 5, 0, 3, 129],
    [74, 11, 1, 3, 5, 11, 73, 4, 18, 10, 43],
    [129, 128, 0, 1, 2, 1, 128, 0, 0, 0, 128],
    [1024, 1, 15, 15, 16, 64, 1023, 14, 63, 63, 1008],
    [9, 3, 3, 3, 4, 3, 3, 0, 0, 0, 0],
    [861, 3, 6, 4, 8, 108, 652, 5, 82, 81, 654],
    [219, 8, 5, 13, 14, 16, 160, 5, 8, 12, 164],
    [9, 2, 0, 2, 3, 3, 3, 0, 1, 2, 8],
    [482, 15, 1, 3, 4, 120, 180, 3, 45, 118, 463],
    [9, 3, 3, 2, 4, 3, 3, 3, 0, 0, 3],
    [901, 62, 1, 1, 3, 310, 708, 0, 212, 9, 9],
    [857, 5, 7, 6, 11, 80, 126, 9, 11, 0, 5],
    [874, 4, 3, 1, 8, 110, 711, 2, 91, 109, 873],
    [207, 32, 1, 1, 5, 64, 41, 2, 9, 56, 184],
    [712, 3, 2, 5, 12, 58, 394, 4, 31, 57, 711],
    [683, 43, 2, 4, 9, 43, 618, 0, 59, 1, 302],
    [161, 2, 1, 1, 6, 28, 22, 0, 2, 21, 121],
    [1023, 127, 0, 14, 15, 127, 1022, 7, 6, 61, 188],
    [5, 2, 1, 1, 4, 2, 0, 1, 0, 0, 0],
    [418, 18, 12, 3, 13, 36, 338, 8, 32, 20, 398],
    [5, 1, 0, 0, 3, 2, 3, 0, 1, 0, 0],
    [940, 95, 0, 0, 1, 940, 908, 0, 908, 239, 239],
    [906, 11, 3, 6, 8, 110, 370, 7, 51, 102, 850],
    [281, 2, 6, 1, 11, 26, 144, 7, 12, 23, 253],
    [937, 80, 12, 8, 13, 80, 176, 10, 16, 23, 343],
    [748, 8, 0, 1, 2, 372, 415, 0, 207, 310, 622],
    [1, 2, 0, 0, 1, 1, 0, 0, 0, 0, 0],
    [778, 11, 0, 3, 4, 198, 653, 2, 158, 153, 593],
    [308, 2, 0, 0, 1, 308, 101, 0, 101, 261, 261],
    [693, 53, 10, 0, 13, 53, 676, 12, 40, 14, 544],
    [389, 8, 3, 5, 16, 24, 348, 0, 20, 11, 243],
    [1024, 128, 15, 15, 16, 128, 1023, 6, 127, 111, 111],
    [473, 12, 8, 1, 14, 36, 417, 7, 33, 31, 427],
    [5, 4, 1, 1, 4, 4, 3, 1, 3, 1, 1],
    [474, 9, 0, 1, 3, 153, 86, 1, 32, 138, 426],
    [9, 1, 1, 0, 3, 3, 3, 0, 1, 0, 1],
];

/// Processes on which no index lies: n, nb, proc, src, procs.
const NONE: [[u32; 5]; 4] = [
    [1, 1, 1, 0, 2],
    [1, 2, 0, 15, 16],
    [0, 3, 0, 0, 1],
    [1024, 127, 14, 0, 15],
];

/// Compares the calls with a row of `MAPS`.
fn compare_maps(rt: &impl Abort, row: &[u32; 11]) {
    let [n, nb, proc, src, procs, count, g, holder, place, l, index] = *row;
    assert!(rt; nb > 0 && proc < procs && src < procs, "{row:?}");
    let size = numroc(n, nb, proc, src, procs);
    assert!(rt; l < size, "{row:?}");
    let found = [
        size,
        owner(g, nb, src, procs),
        local(g, nb, procs),
        global(l, nb, proc, src, procs),
    ];
    check_numbers(rt, &found, &[count, holder, place, index]);
}

/// Compares `numroc` with a row of `NONE`.
fn compare_none(rt: &impl Abort, row: &[u32; 5]) {
    let [n, nb, proc, src, procs] = *row;
    assert!(rt; nb > 0 && proc < procs && src < procs, "{row:?}");
    check_numbers(rt, &[numroc(n, nb, proc, src, procs)], &[0]);
}

#[test]
fn maps_as_scalapack(rt: HostRuntime) {
    for row in &MAPS {
        compare_maps(&rt, row);
    }
    for row in &NONE {
        compare_none(&rt, row);
    }
}

#[test]
fn counts_groups(rt: HostRuntime) {
    let found = [
        groups(10, 3, 2),
        groups(1024, 1, 16),
        groups(1, 128, 16),
        group_of(3, 2),
    ];
    check_numbers(&rt, &found, &[2, 64, 1, 1]);
}

/// m, n, mb, nb, rsrc, csrc on a grid of 3 by 4, and the first bad entry; 0 where the entries are good.
const ENTRIES: [[u32; 7]; 20] = [
    [1, 1, 1, 1, 0, 0, 0],
    [1024, 1024, 128, 128, 2, 3, 0],
    [0, 1, 1, 1, 0, 0, 3],
    [1025, 1, 1, 1, 0, 0, 3],
    [1, 0, 1, 1, 0, 0, 4],
    [1, 1025, 1, 1, 0, 0, 4],
    [1, 1, 0, 1, 0, 0, 5],
    [1, 1, 129, 1, 0, 0, 5],
    [1, 1, 1, 0, 0, 0, 6],
    [1, 1, 1, 129, 0, 0, 6],
    [1, 1, 1, 1, 3, 0, 7],
    [1, 1, 1, 1, 0, 4, 8],
    [0, 0, 1, 1, 0, 0, 3],
    [1025, 1, 1, 1, 0, 4, 3],
    [1, 0, 0, 1, 0, 0, 4],
    [1, 1025, 1, 1, 3, 0, 4],
    [1, 1, 0, 0, 0, 0, 5],
    [1, 1, 1, 129, 3, 0, 6],
    [1, 1, 1, 0, 0, 4, 6],
    [1, 1, 1, 1, 3, 4, 7],
];

/// Compares the answer of `Desc::new` with a row of `ENTRIES`.
fn compare_entries(rt: &impl Abort, row: &[u32; 7]) {
    let [m, n, mb, nb, rsrc, csrc, bad] = *row;
    let answer = match Desc::new(7, 3, 4, m, n, mb, nb, rsrc, csrc) {
        Ok(_) => 0,
        Err(BadEntry(entry)) => entry,
    };
    assert_eq!(rt; answer, bad, "{row:?}");
}

#[test]
fn names_first_bad_entry(rt: HostRuntime) {
    for row in &ENTRIES {
        compare_entries(&rt, row);
    }
}

#[test]
fn makes_descriptor(rt: HostRuntime) {
    let desc = Desc {
        dtype: 1,
        ctxt: 7,
        m: 10,
        n: 9,
        mb: 3,
        nb: 2,
        rsrc: 1,
        csrc: 2,
        lld: 6,
    };
    assert_eq!(rt; Desc::new(7, 2, 4, 10, 9, 3, 2, 1, 2), Ok(desc));
}
