//! Scripts of a program that was read.

use crate::asks::{Plain, ask_of};
use race_hub::{Answer, Routine};
use race_script::{Script, parse_program};
use std::alloc::Global;
use std::test::Fail;

static TEXT: &[u8] =
    b"goprogram 1\nonce o\nvar x\nbody main\ndo o m:1\nread x m:2\nenddo o m:3\nwrite x 7 m:4\nexit m:5\n";

/// An answer, what a script asks then, and where it stands behind that.
type Row = (Answer, Plain, usize);

// The function of the once was run, or it had run.
static TABLES: [&[Row]; 2] = [
    &[
        (Answer::Begin, Plain::Do(0), 1),
        (Answer::Run, Plain::Read(0), 2),
        (Answer::Value(0), Plain::EndDo(0), 3),
        (Answer::Unit, Plain::Write(0, 7), 4),
        (Answer::Unit, Plain::Exit, 4),
        (Answer::Unit, Plain::Exit, 4),
    ],
    &[
        (Answer::Begin, Plain::Do(0), 1),
        (Answer::AlreadyDone, Plain::Write(0, 7), 4),
        (Answer::Unit, Plain::Exit, 4),
        (Answer::AlreadyDone, Plain::Exit, 4),
    ],
];

fn goes_on(script: &mut Script, row: &Row) -> bool {
    let (answer, ask, position) = *row;
    script.next(answer).ask == ask_of(ask) && script.position() == position
}

// The first row at which the script goes on otherwise; all of them where its body has another length.
fn first_wrong(script: &mut Script, rows: &[Row]) -> Option<usize> {
    if script.whole().len() != 5 {
        return Some(rows.len());
    }
    for (at, row) in rows.iter().enumerate() {
        if !goes_on(script, row) {
            return Some(at);
        }
    }
    None
}

fn wrong_in(alloc: Global, rows: &[Row]) -> Result<Option<usize>, Fail> {
    let program = parse_program(alloc, TEXT)?;
    let mut script = Script::new(alloc, &program, 0)?;
    Ok(first_wrong(&mut script, rows))
}

#[test]
fn a_script_asks_its_body_and_passes_over_what_was_done(rt: HostRuntime) -> Result<(), Fail> {
    for (table, rows) in TABLES.iter().enumerate() {
        assert_eq!(rt; wrong_in(rt.alloc(), *rows)?, None, "table {table}");
    }
    Ok(())
}
