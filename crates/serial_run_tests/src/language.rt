//! Fields, transposes, the inverse and wrong words in scripts that are run serially. The expected texts were worked out by hand.
use crate::serial::check_table;

const OTHER_FIELD: &[u8] =
    b"field 65521\ngrid g 1 1 0\nmatrix A g 2 2 1 1 0 0 a.txt\nmatrix B g 2 1 1 1 0 0 b.txt\npgetrf 2 2 A 1 1 V\npivots V\nprint A\npgetrs N 2 1 A 1 1 V B 1 1\nprint B\n";

const SAME_FIELD: &[u8] = b"field 65537\ngrid g 1 1 0\nmatrix A g 1 1 1 1 0 0 a.txt\nprint A\n";

// The inverse of 2 modulo 65521 is 32761.
#[test]
fn runs_in_another_field(rt: HostRuntime) {
    check_table(
        &rt,
        rt.alloc(),
        &[
            (
                OTHER_FIELD,
                [b"2 1\n1 1\n", b"5\n3\n", b""],
                b"pgetrf A info 0\nV 2\n1 2\nA 2 2\n2 1\n32761 32761\npgetrs B info 0\nB 2 1\n2\n1\n",
            ),
            (SAME_FIELD, [b"65536\n", b"", b""], b"A 1 1\n65536\n"),
        ],
    );
}

const TRANSPOSE: &[u8] =
    b"grid g 1 1 0\nmatrix A g 2 3 1 1 0 0 a.txt\nmatrix C g 3 2 1 1 0 0 c.txt\nptran 3 2 2 A 1 1 1 C 1 1\nprint C\n";

const WITHOUT_BETA: &[u8] =
    b"grid g 1 1 0\nmatrix A g 2 3 1 1 0 0 a.txt\nmatrix C g 3 2 1 1 0 0 c.txt\nptran 3 2 65536 A 1 1 0 C 1 1\nprint C\n";

const WITH_THE_TRANSPOSE: &[u8] =
    b"grid g 1 1 0\nmatrix A g 2 2 1 1 0 0 a.txt\nmatrix B g 2 1 1 1 0 0 b.txt\nptrsm L L T U 2 1 1 A 1 1 B 1 1\nprint B\n";

const FROM_THE_RIGHT: &[u8] =
    b"grid g 1 1 0\nmatrix A g 2 2 1 1 0 0 a.txt\nmatrix B g 1 2 1 1 0 0 b.txt\nptrsm R U N N 1 2 1 A 1 1 B 1 1\nprint B\n";

const TRANSPOSED_FACTORS: &[u8] =
    b"grid g 2 1 0\nmatrix A g 2 2 1 1 0 0 a.txt\nmatrix B g 2 1 1 1 0 0 b.txt\npgetrf 2 2 A 1 1 V\npgetrs T 2 1 A 1 1 V B 1 1\nprint B\n";

// Sums with a transpose; the triangle of a transpose; a triangle from the right; and factors of a transpose, with an exchange of rows.
#[test]
fn transposes(rt: HostRuntime) {
    check_table(
        &rt,
        rt.alloc(),
        &[
            (
                TRANSPOSE,
                [b"1 2 3\n4 5 6\n", b"", b"1 1\n1 1\n1 1\n"],
                b"C 3 2\n3 9\n5 11\n7 13\n",
            ),
            (
                WITHOUT_BETA,
                [b"1 2 3\n4 5 0\n", b"", b"1 1\n1 1\n1 1\n"],
                b"C 3 2\n65536 65533\n65535 65532\n65534 0\n",
            ),
            (
                WITH_THE_TRANSPOSE,
                [b"1 0\n2 1\n", b"5\n2\n", b""],
                b"ptrsm B info 0\nB 2 1\n1\n2\n",
            ),
            (
                FROM_THE_RIGHT,
                [b"2 1\n0 1\n", b"4 5\n", b""],
                b"ptrsm B info 0\nB 1 2\n2 3\n",
            ),
            (
                TRANSPOSED_FACTORS,
                [b"0 1\n2 3\n", b"4\n11\n", b""],
                b"pgetrf A info 0\npgetrs B info 0\nB 2 1\n5\n2\n",
            ),
        ],
    );
}

const INVERSE: &[u8] =
    b"grid g 1 1 0\nmatrix A g 2 2 1 1 0 0 a.txt\nmatrix B g 2 2 1 1 0 0 b.txt\npgetrf 2 2 A 1 1 V\npgetri 2 A 1 1 V B 1 1\nprint B\n";

const NO_WORDS: &[u8] = b"0 0\n0 0\n";

// Inverses without and with an exchange of rows, and a matrix that has none.
#[test]
fn inverts(rt: HostRuntime) {
    check_table(
        &rt,
        rt.alloc(),
        &[
            (
                INVERSE,
                [b"2 1\n1 1\n", NO_WORDS, b""],
                b"pgetrf A info 0\npgetri B info 0\nB 2 2\n1 65536\n65536 2\n",
            ),
            (
                INVERSE,
                [b"0 1\n2 3\n", NO_WORDS, b""],
                b"pgetrf A info 0\npgetri B info 0\nB 2 2\n32767 32769\n1 0\n",
            ),
            (
                INVERSE,
                [b"1 2\n2 4\n", NO_WORDS, b""],
                b"pgetrf A info 2\npgetri B info 2\nB 2 2\n0 0\n0 0\n",
            ),
        ],
    );
}

const ONE_WRONG: &[u8] =
    b"grid g 1 2 2\nmatrix A g 1 2 1 1 0 0 a.txt\nflip A 1 1 3\npverify A\nprint A\n";

const NONE_WRONG: &[u8] =
    b"grid g 1 2 2\nmatrix A g 1 2 1 1 0 0 a.txt\nflip A 1 1 3\nflip A 1 1 65534\npverify A\nprint A\n";

const WITHOUT_A_FLIP: &[u8] = b"grid g 1 2 1\nmatrix A g 1 2 1 1 0 0 a.txt\npverify A\nprint A\n";

const DROPPED: &[u8] =
    b"grid g 1 2 2\nmatrix A g 1 2 1 1 0 0 a.txt\nflip A 1 1 3\ndrop A\nmatrix A g 1 2 1 1 0 0 a.txt\npverify A\n";

const VERIFIED_TWICE: &[u8] =
    b"grid g 1 2 2\nmatrix A g 1 2 1 1 0 0 a.txt\nflip A 1 2 1\npverify A\npverify A\nflip A 1 1 1\npverify A\n";

const FIVE_SEVEN: &[u8] = b"5 7\n";

// One wrong word; flips that make up for each other; none; flips that a drop ends, and those that were verified.
#[test]
fn counts_wrong_words(rt: HostRuntime) {
    check_table(
        &rt,
        rt.alloc(),
        &[
            (
                ONE_WRONG,
                [FIVE_SEVEN, b"", b""],
                b"pverify A wrong 1\nA 1 2\n5 7\n",
            ),
            (
                NONE_WRONG,
                [FIVE_SEVEN, b"", b""],
                b"pverify A wrong 0\nA 1 2\n5 7\n",
            ),
            (
                WITHOUT_A_FLIP,
                [FIVE_SEVEN, b"", b""],
                b"pverify A wrong 0\nA 1 2\n5 7\n",
            ),
            (DROPPED, [FIVE_SEVEN, b"", b""], b"pverify A wrong 0\n"),
            (
                VERIFIED_TWICE,
                [FIVE_SEVEN, b"", b""],
                b"pverify A wrong 1\npverify A wrong 0\npverify A wrong 1\n",
            ),
        ],
    );
}
