//! Names and places that were chosen to have one hash by the key 0, read with other keys: the report is the same.
use crate::tool::engines::{Engine, answer, judged_by, text_of};
use race_records::{Sink, Source};
use race_tool::status;
use std::alloc::{AllocError, AllocGlobal};
use std::test::Fail;

// The names A, B and places C, D of a row are spelled so; each of the words hashes to 0 by a hasher with the fixed start.
static CHOSEN: [(&str, &str); 4] = [
    ("A", "XhORumEyUXRDkdbRzxW4OGOAaaaaaaaa"),
    ("B", "XhORumEyUXRDkdbRzxW4OGOAbaaaaaaa"),
    ("C", "XhORumEyUXRDkdbRzxW4OGOAcaaaaaaa"),
    ("D", "XhORumEyUXRDkdbRzxW4OGOAdaaaaaaa"),
];

// The lines of a text, what is told of it and the status.
static ROWS: [(Engine, &str, &str, u8); 5] = [
    (
        Engine::Check,
        "gotrace 1 / goroutine w / var A / var B / go main w p / write main A 1 C / write w B 1 D / read w A 1 C",
        "race on A: write by main at C (event 2), read by w at C (event 4) / races: 1",
        status::RACES,
    ),
    (
        Engine::Check,
        "gotrace 2 / var A / var B / write main A 1 C / read main A 2 D",
        "illegal: event 2: stale read",
        status::ILLEGAL,
    ),
    (
        Engine::Check,
        "gotrace 1 / var A / var B / var A",
        "line 4: taken",
        status::TEXT_FAULT,
    ),
    (
        Engine::Edges,
        "gotrace 1 / goroutine A / goroutine B / go main A C / go A B D",
        "edge 1 main 1 A / edge 2 A 2 B / edges: 2",
        status::CLEAN,
    ),
    (
        Engine::Run,
        "goprogram 1 / var A / var B / body main / write A 1 C / write B 2 D / exit C",
        "gotrace 1 / var A / var B / write main A 1 C / write main B 2 D / exit main C",
        status::CLEAN,
    ),
];

// The row's words, of which those that are chosen are written out.
fn spelled(rt: &impl AllocGlobal, row: &str) -> Result<String, AllocError> {
    let mut text = String::new(rt.alloc());
    for (index, word) in row.split(" ").enumerate() {
        if index > 0 {
            text.push(' ')?;
        }
        let (name, end) = match word.strip_suffix(":") {
            Some(name) => (name, ":"),
            None => (word, ""),
        };
        match CHOSEN.iter().find(|chosen| chosen.0 == name) {
            Some(chosen) => text.push_str(chosen.1)?,
            None => text.push_str(name)?,
        }
        text.push_str(end)?;
    }
    Ok(text)
}

#[test]
fn reports_do_not_depend_on_the_key(rt: HostRuntime) -> Result<(), Fail> {
    let options = judged_by(1, 65_536);
    for &(engine, lines, report, status) in &ROWS {
        let text = text_of(rt.alloc(), spelled(&rt, lines)?.as_str())?;
        let want = text_of(rt.alloc(), spelled(&rt, report)?.as_str())?;
        for key in 0..16u64 {
            let mut source = Source::keyed(text.as_slice(), key);
            let mut output = Vec::new(rt.alloc());
            let mut sink = Sink::new(&mut output);
            let told = answer(&rt, (engine, &options), &mut source, &mut sink);
            assert!(rt;
                told == status && output.as_slice() == want.as_slice(),
                "{lines} by {key}"
            );
        }
    }
    Ok(())
}
