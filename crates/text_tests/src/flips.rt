//! Pending flips, and the lines that find them.
use crate::checks::check_refusals;

// Flips of a matrix of 4 by 8 in blocks of 2 by 2 on a grid with Q = 2 and F = 2: columns 1 to 4 are one group, and 5 to 8 another.
#[test]
fn tests_flips(rt: HostRuntime) {
    let head =
        b"grid g 1 2 2\ngrid h 1 2 1\ngrid k 1 2 0\nmatrix A g 4 8 2 2 0 0 f\nmatrix B h 4 8 2 2 0 0 f\nmatrix C k 4 8 2 2 0 0 f\n";
    let lines: [(&[u8], (u32, i32)); 24] = [
        (b"flip A 4 8 65536", (0, 0)),
        (b"flip A 1 1 0", (0, 0)),
        (b"flip A 1 1 x", (7, 3)),
        (b"flip g 1 1 1", (7, 6)),
        (b"flip A 1 1", (7, 2)),
        (b"flip A 0 1 1", (7, 8)),
        (b"flip A 5 1 1", (7, 8)),
        (b"flip A 1 0 1", (7, 8)),
        (b"flip A 1 9 1", (7, 8)),
        (b"flip A 1 1 65537", (7, 8)),
        (b"flip B 1 1 1", (7, 23)),
        (b"flip C 1 1 1", (7, 23)),
        (b"flip A 1 1 1\nflip A 1 1 2", (0, 0)),
        (b"flip A 1 1 1\nflip A 1 3 2", (8, 24)),
        (b"flip A 1 1 0\nflip A 1 3 0", (8, 24)),
        (b"flip A 1 1 1\nflip A 1 2 2", (0, 0)),
        (b"flip A 1 1 1\nflip A 1 5 2", (0, 0)),
        (b"flip A 1 1 1\nflip A 2 3 2", (0, 0)),
        (b"flip A 1 1 1\npverify A\nflip A 1 3 2", (0, 0)),
        (
            b"flip A 1 1 1\ndrop A\nmatrix A g 4 8 2 2 0 0 f\nflip A 1 3 2",
            (0, 0),
        ),
        (
            b"flip A 1 1 1\nmatrix D g 4 8 2 2 0 0 f\npverify D\nflip D 1 3 2\nflip A 1 3 2",
            (11, 24),
        ),
        (b"pverify A\npverify B", (0, 0)),
        (b"pverify C", (7, 22)),
        (b"pverify h", (7, 6)),
    ];
    check_refusals(&rt, rt.alloc(), head, &lines);
}
