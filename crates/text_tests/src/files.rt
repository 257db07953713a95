//! Matrix files by example.
use crate::checks::{check_number, check_refusal, file_refusal, matrix, repeated};
use run_data::Mat;
use std::process::Abort;

// Stops where the words of a matrix, column by column, are not these.
fn check_words(rt: &impl Abort, matrix: &Mat, want: &[u32]) {
    assert_eq!(rt; matrix.words(), want);
}

#[test]
fn reads_a_matrix_file(rt: HostRuntime) {
    let bytes = b"# words\r\n1 2\t3\r\n\n 0000000004 5 65536 # the last";
    let matrix = matrix(&rt, rt.alloc(), bytes, 2, 3);
    check_number(&rt, u64::from(matrix.rows()), 2);
    check_number(&rt, u64::from(matrix.cols()), 3);
    check_words(&rt, &matrix, &[1, 4, 2, 5, 3, 65536]);
}

#[test]
fn refuses_matrix_files(rt: HostRuntime) {
    let files: [(&[u8], u32, u32, (u32, i32)); 16] = [
        (b"7", 1, 1, (0, 0)),
        (b"\n7\r", 1, 1, (0, 0)),
        (b"65537", 1, 1, (1, 15)),
        (b"7a", 1, 1, (1, 15)),
        (b"7 8\n", 1, 1, (1, 14)),
        (b"7\n\n8\n", 1, 1, (3, 13)),
        (b"7\n8 x\n", 1, 1, (2, 13)),
        (b"", 1, 1, (0, 13)),
        (b"7\r\r\n", 1, 1, (1, 15)),
        (b"2 1\n1\n", 2, 2, (2, 14)),
        (b"2 1\n", 2, 2, (0, 13)),
        (b"2\n1 1 1\n", 2, 2, (1, 14)),
        (b"x y z\n1 1\n", 2, 2, (1, 14)),
        (b"x 1\n1\n", 2, 2, (1, 15)),
        (b"1 2 3\n", 2, 3, (0, 13)),
        (b"1 2\n3 4\n5 6\n", 3, 2, (0, 0)),
    ];
    for (row, (bytes, m, n, want)) in files.into_iter().enumerate() {
        let found = file_refusal(&rt, rt.alloc(), bytes, m, n, 65537);
        check_refusal(&rt, row, found, want);
    }
}

// The first 0 to 8 bytes of a file of 8 bytes.
#[test]
fn refuses_files_cut_off(rt: HostRuntime) {
    let files: [(&[u8], (u32, i32)); 9] = [
        (b"", (0, 13)),
        (b"2", (1, 14)),
        (b"2 ", (1, 14)),
        (b"2 1", (0, 13)),
        (b"2 1\n", (0, 13)),
        (b"2 1\n1", (2, 14)),
        (b"2 1\n1 ", (2, 14)),
        (b"2 1\n1 1", (0, 0)),
        (b"2 1\n1 1\n", (0, 0)),
    ];
    for (row, (bytes, want)) in files.into_iter().enumerate() {
        let found = file_refusal(&rt, rt.alloc(), bytes, 2, 2, 65537);
        check_refusal(&rt, row, found, want);
    }
}

// Words that are below 65537 and not below 65521, in the second row after the greatest word below 65521.
#[test]
fn refuses_words_of_the_other_field(rt: HostRuntime) {
    let words: [&[u8]; 16] = [
        b"65521", b"65522", b"65523", b"65524", b"65525", b"65526", b"65527", b"65528", b"65529",
        b"65530", b"65531", b"65532", b"65533", b"65534", b"65535", b"65536",
    ];
    for (row, word) in words.into_iter().enumerate() {
        let bytes = repeated(&rt, rt.alloc(), b"65520\n", word, 1);
        let small = file_refusal(&rt, rt.alloc(), &bytes, 2, 1, 65521);
        let large = file_refusal(&rt, rt.alloc(), &bytes, 2, 1, 65537);
        check_refusal(&rt, row, small, (2, 15));
        check_refusal(&rt, row, large, (0, 0));
    }
}
