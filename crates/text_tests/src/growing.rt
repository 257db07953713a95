//! Scripts that grow line by line, and the first rule that they break.
use crate::checks::{MATRICES, check_refusal, repeated, script};
use run_data::{Command, IndexList, Script, Word};
use script_text::check;
use std::alloc::Global;
use std::panic::Expect;
use std::process::Abort;

// The line and the code of the first rule that a script breaks; line 0 and code 0 where it breaks none.
fn first_rule(script: &Script) -> (u32, i32) {
    match check(script) {
        Ok(()) => (0, 0),
        Err(refused) => (refused.line, refused.code),
    }
}

// Adds a command.
fn add(rt: &impl Abort, script: &mut Script, command: Command) {
    script.push(Some(command)).expect(rt, "memory");
}

// A script of so many lines without words.
fn blank(rt: &impl Abort, alloc: Global, lines: u32) -> Script {
    let mut script = Script::new(alloc);
    for _ in 0..lines {
        script.push(None).expect(rt, "memory");
    }
    script
}

// Stops where the first rules that growing scripts break are not these.
fn check_rules(rt: &impl Abort, found: &[(u32, i32)], want: &[(u32, i32)]) {
    for (row, (found, want)) in found.iter().zip(want).enumerate() {
        check_refusal(rt, row, *found, *want);
    }
}

#[test]
fn checks_scripts_that_grow(rt: HostRuntime) {
    let text = repeated(&rt, rt.alloc(), MATRICES, b"pgetrf 4 4 A 1 1 V", 1);
    let mut script = script(&rt, rt.alloc(), &text);
    let read = first_rule(&script);
    add(&rt, &mut script, Command::Lose { at: 7, rank: 9 });
    let last_rank = first_rule(&script);
    add(&rt, &mut script, Command::Lose { at: 7, rank: 10 });
    let no_rank = first_rule(&script);
    check_rules(&rt, &[read, last_rank, no_rank], &[(0, 0), (0, 0), (9, 8)]);
}

#[test]
fn checks_losses_beside_code_columns(rt: HostRuntime) {
    let text = b"grid g 2 3 2\nmatrix A g 4 4 2 2 0 0 f\n\npgetrf 4 4 A 1 1 V\n";
    let mut script = script(&rt, rt.alloc(), text);
    let read = first_rule(&script);
    add(&rt, &mut script, Command::Lose { at: 0, rank: 0 });
    check_rules(&rt, &[read, first_rule(&script)], &[(0, 0), (0, 0)]);
}

#[test]
fn checks_pushed_names(rt: HostRuntime) {
    let mut script = Script::new(rt.alloc());
    add(&rt, &mut script, Command::Links { n: 64 });
    let links = first_rule(&script);
    let name = Word::new(rt.alloc(), b"A").expect(&rt, "memory");
    add(&rt, &mut script, Command::Print { name });
    check_rules(&rt, &[links, first_rule(&script)], &[(0, 0), (2, 6)]);
}

#[test]
fn checks_pushed_orders(rt: HostRuntime) {
    let mut script = Script::new(rt.alloc());
    let numbers = IndexList::new(rt.alloc());
    add(&rt, &mut script, Command::Order { numbers });
    check_rules(&rt, &[first_rule(&script)], &[(1, 2)]);
}

#[test]
fn checks_pushed_lines(rt: HostRuntime) {
    let mut script = blank(&rt, rt.alloc(), 4096);
    let most = first_rule(&script);
    add(&rt, &mut script, Command::Links { n: 65 });
    check_rules(&rt, &[most, first_rule(&script)], &[(0, 0), (4097, 11)]);
}

#[test]
fn checks_pushed_spares(rt: HostRuntime) {
    let mut script = Script::new(rt.alloc());
    add(&rt, &mut script, Command::Spares { n: 4096 });
    let most = first_rule(&script);
    add(&rt, &mut script, Command::Spares { n: 4096 });
    check_rules(&rt, &[most, first_rule(&script)], &[(0, 0), (2, 21)]);
}

#[test]
fn checks_pushed_fields(rt: HostRuntime) {
    let mut fields = Script::new(rt.alloc());
    add(&rt, &mut fields, Command::Field { n: 65521 });
    let one = first_rule(&fields);
    add(&rt, &mut fields, Command::Field { n: 65521 });
    let two = first_rule(&fields);
    let mut late = script(&rt, rt.alloc(), MATRICES);
    add(&rt, &mut late, Command::Field { n: 65537 });
    check_rules(
        &rt,
        &[one, two, first_rule(&late)],
        &[(0, 0), (2, 19), (7, 20)],
    );
}

// Pushes `flip A 1 J 1`.
fn add_flip(rt: &impl Abort, script: &mut Script, alloc: Global, j: u32) {
    let name = Word::new(alloc, b"A").expect(rt, "memory");
    add(
        rt,
        script,
        Command::Flip {
            name,
            i: 1,
            j,
            x: 1,
        },
    );
}

#[test]
fn checks_pushed_flips(rt: HostRuntime) {
    let text = b"grid g 2 2 2\nmatrix A g 4 4 1 1 0 0 f\n";
    let mut script = script(&rt, rt.alloc(), text);
    add_flip(&rt, &mut script, rt.alloc(), 1);
    add_flip(&rt, &mut script, rt.alloc(), 3);
    let apart = first_rule(&script);
    add_flip(&rt, &mut script, rt.alloc(), 4);
    check_rules(&rt, &[apart, first_rule(&script)], &[(0, 0), (5, 24)]);
}
