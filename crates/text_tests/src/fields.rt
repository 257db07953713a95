//! The field of a script, and what its modulus refuses.
use crate::checks::{MATRICES, check_number, check_refusals, repeated, script};

// The rules of `field` in their order, and scalars at the modulus that it sets.
#[test]
fn refuses_fields(rt: HostRuntime) {
    let scripts: [(&[u8], (u32, i32)); 16] = [
        (b"field 65537", (0, 0)),
        (b"field 65521", (0, 0)),
        (b"field 0000065521", (0, 0)),
        (b"field 65536", (1, 8)),
        (b"field 65522", (1, 8)),
        (b"field 0", (1, 8)),
        (b"field 4294967295", (1, 8)),
        (b"field x", (1, 3)),
        (b"field", (1, 2)),
        (b"field 65537 65521", (1, 2)),
        (b"Field 65537", (1, 1)),
        (b"field 65537\nfield 65537", (2, 19)),
        (b"field 65521\nfield 65536", (2, 8)),
        (
            b"grid g 1 1 0\nfield 65521\nmatrix A g 1 1 1 1 0 0 f\n",
            (0, 0),
        ),
        (
            b"grid g 1 1 0\nmatrix A g 1 1 1 1 0 0 f\ndrop A\nfield 65521",
            (4, 20),
        ),
        (
            b"field 65521\ngrid g 1 1 0\nmatrix A g 1 1 1 1 0 0 f\nfield 65521",
            (4, 19),
        ),
    ];
    check_refusals(&rt, rt.alloc(), b"", &scripts);
}

#[test]
fn reads_fields(rt: HostRuntime) {
    let small = script(&rt, rt.alloc(), b"links 2\nfield 65521\ngrid g 1 1 0\n");
    let large = script(&rt, rt.alloc(), b"field 65537\n");
    let none = script(&rt, rt.alloc(), b"links 2\n");
    check_number(&rt, u64::from(small.modulus()), 65521);
    check_number(&rt, u64::from(large.modulus()), 65537);
    check_number(&rt, u64::from(none.modulus()), 65537);
}

#[test]
fn refuses_scalars_at_the_modulus(rt: HostRuntime) {
    let lines: [(&[u8], (u32, i32)); 8] = [
        (b"pgemm N N 4 4 4 65520 A 1 1 B 1 1 65520 C 1 1", (0, 0)),
        (b"pgemm N N 4 4 4 65521 A 1 1 B 1 1 1 C 1 1", (8, -6)),
        (b"pgemm N N 4 4 4 1 A 1 1 B 1 1 65521 C 1 1", (8, -15)),
        (b"ptrsm L U N U 4 4 65521 A 1 1 B 1 1", (8, -7)),
        (b"ptrsm R U N U 4 4 65521 A 1 1 B 1 1", (8, -7)),
        (b"ptran 4 4 65520 A 1 1 65520 B 1 1", (0, 0)),
        (b"ptran 4 4 65521 A 1 1 1 B 1 1", (8, -3)),
        (b"ptran 4 4 1 A 1 1 65521 B 1 1", (8, -8)),
    ];
    let head = repeated(&rt, rt.alloc(), b"field 65521\n", MATRICES, 1);
    check_refusals(&rt, rt.alloc(), &head, &lines);
    let large: [(&[u8], (u32, i32)); 2] = [
        (b"ptran 4 4 65536 A 1 1 65536 B 1 1", (0, 0)),
        (b"ptran 4 4 65537 A 1 1 1 B 1 1", (8, -3)),
    ];
    let head = repeated(&rt, rt.alloc(), b"field 65537\n", MATRICES, 1);
    check_refusals(&rt, rt.alloc(), &head, &large);
}
