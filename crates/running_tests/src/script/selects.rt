//! Selects that are read, as what. What is told of the others is in tests/run.

use race_hub::Offer::{Recv, Send};
use race_hub::{Ask, Offer, Offers};
use race_records::Kind;
use race_script::{Program, parse_program};
use std::test::Fail;

const TEXT: &str = "\
goprogram 1
goroutine w
chan c 0
body main
go w m:1
select send:c:5,recv:c block m:2
select - default m:3
select - block m:4
select send:nil:1,recv:nil default m:5
select send:c:18446744073709551615 block m:6
select recv:c,recv:c,recv:c default m:7
exit m:8
body w
select recv:c,send:c:6 block w:1
exit w:2
";

/// A goroutine, how many steps its body has, the index of a select there, its offers, and whether it has a default.
type Row = (u32, usize, usize, &'static [Offer], bool);

static ROWS: [Row; 7] = [
    (0, 8, 1, &[Send(Some(0), 5), Recv(Some(0))], false),
    (0, 8, 2, &[], true),
    (0, 8, 3, &[], false),
    (0, 8, 4, &[Send(None, 1), Recv(None)], true),
    (0, 8, 5, &[Send(Some(0), 18_446_744_073_709_551_615)], false),
    (
        0,
        8,
        6,
        &[Recv(Some(0)), Recv(Some(0)), Recv(Some(0))],
        true,
    ),
    (1, 2, 0, &[Recv(Some(0)), Send(Some(0), 6)], false),
];

// Whether these are the offers.
fn are_offers(offers: &Offers, wanted: &[Offer]) -> bool {
    if offers.len() != wanted.len() {
        return false;
    }
    for k in 0..wanted.len() {
        if offers.get(k) != wanted[k] {
            return false;
        }
    }
    true
}

fn is_select(ask: &Ask, wanted: &[Offer], wants_default: bool) -> bool {
    match ask {
        Ask::Select(offers, has_default) => *has_default == wants_default
            && are_offers(offers, wanted),
        _ => false,
    }
}

fn has_select(program: &Program, row: &Row) -> bool {
    let (goroutine, steps, at, offers, has_default) = *row;
    if goroutine >= program.decls().count(Kind::Goroutine) {
        return false;
    }
    let body = program.body(goroutine);
    body.len() == steps && at < steps && is_select(&body.get(at).ask, offers, has_default)
}

#[test]
fn selects_are_read(rt: HostRuntime) -> Result<(), Fail> {
    let program = parse_program(rt.alloc(), TEXT.as_bytes())?;
    for (at, row) in ROWS.iter().enumerate() {
        assert!(rt; has_select(&program, row), "row {at}");
    }
    Ok(())
}
