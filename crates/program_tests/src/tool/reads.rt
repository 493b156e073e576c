//! Inputs that are read in blocks: how often is read.
use crate::devices::SlowReader;
use crate::tool::engines::{Engine, ended, judged_by};
use race_tool::status;
use std::alloc::Global;
use std::test::Fail;

// Four thousand writes, of which each is a line of 31 bytes; the line of this number is none.
fn long_text(alloc: Global, faulty: u64) -> Result<Vec<u8>, Fail> {
    let mut text = Vec::from_slice(alloc, b"gotrace 1\nvar x\n")?;
    for number in 3..4_003u64 {
        text.extend_from_slice(if number == faulty {
            b"write main x 01 src/file.go:10\n"
        } else {
            b"write main x 1 src/file.go:100\n"
        })?;
    }
    Ok(text)
}

// The faulty line, the status and the report, and how often one thread reads, and several. A block of one thread has
// 65,536 bytes, so the first one ends in the 2,114th write; one of several has 1,048,576.
static LONG: [(u64, u8, &[u8], u64, u64); 5] = [
    (
        0,
        status::CLEAN,
        b"clean: 4000 events, 4000 accesses\n",
        3,
        2,
    ),
    (3, status::TEXT_FAULT, b"line 3: bad number\n", 1, 1),
    (2_115, status::TEXT_FAULT, b"line 2115: bad number\n", 1, 1),
    (2_116, status::TEXT_FAULT, b"line 2116: bad number\n", 2, 1),
    (4_002, status::TEXT_FAULT, b"line 4002: bad number\n", 2, 1),
];

// How many threads there are, and how many events several of them read before these are judged.
static JUDGES: [(usize, usize); 4] = [(1, 65_536), (2, 1), (2, 1_000), (4, 65_536)];

#[test]
fn a_text_is_read_up_to_the_block_with_its_first_faulty_line(rt: HostRuntime) -> Result<(), Fail> {
    for &(faulty, status, report, alone, beside) in &LONG {
        let text = long_text(rt.alloc(), faulty)?;
        for &(shards, block) in &JUDGES {
            let reader = SlowReader {
                bytes: text.as_slice(),
                step: usize::MAX,
                fault: None,
            };
            let engine = (Engine::Check, &judged_by(shards, block));
            let (answer, output, read, _) = ended(&rt, engine, reader);
            let reads = if shards == 1 { alone } else { beside };
            assert_eq!(rt;
                (answer, read),
                (status, reads),
                "{faulty} by {shards}, {block}"
            );
            assert_eq!(rt; output.as_slice(), report, "{faulty} by {shards}, {block}");
        }
    }
    Ok(())
}
