//! Options out of their limits, by which the input stays unread.
use crate::tool::engines::{Engine, Options, ended, text_of};
use race_tool::{CheckOptions, MAX_BLOCK, MAX_SHARDS, RunOptions, status};
use std::test::Fail;

const MOST: u32 = 16_777_216;

/// A limit of events, workers, shards and a block.
type Limits = (u32, usize, usize, usize);

// One of them is out of its limits, or two.
static ROWS: [(Engine, Limits); 18] = [
    (Engine::Check, (1, 1, 0, 0)),
    (Engine::Check, (1, 1, 0, 1)),
    (Engine::Check, (1, 1, 65, 0)),
    (Engine::Check, (1, 1, 65, 1)),
    (Engine::Check, (1, 1, 64, 0)),
    (Engine::Check, (1, 1, 64, 65_537)),
    (Engine::Run, (0, 1, 1, 1)),
    (Engine::Run, (MOST + 1, 1, 1, 1)),
    (Engine::Run, (1, 0, 1, 1)),
    (Engine::Run, (1, 17, 1, 1)),
    (Engine::Race, (0, 1, 1, 1)),
    (Engine::Race, (MOST + 1, 1, 1, 1)),
    (Engine::Race, (1, 0, 1, 1)),
    (Engine::Race, (1, 17, 1, 1)),
    (Engine::Race, (1, 1, 0, 1)),
    (Engine::Race, (1, 1, MAX_SHARDS + 1, 1)),
    (Engine::Race, (1, 1, 1, 0)),
    (Engine::Race, (1, 1, 1, MAX_BLOCK + 1)),
];

#[test]
fn an_option_out_of_its_limits_leaves_the_input_unread(rt: HostRuntime) -> Result<(), Fail> {
    let text = text_of(rt.alloc(), "gotrace 1")?;
    for &(engine, (limit, workers, shards, block)) in &ROWS {
        // The plain judge, and a list of picks, change nothing in that.
        for &plain in &[false, true] {
            let mut picks = Vec::new(rt.alloc());
            picks.push(0)?;
            let options = Options {
                run: RunOptions {
                    limit,
                    workers,
                    picks: plain.then_some(picks),
                    ..RunOptions::default()
                },
                check: CheckOptions {
                    shards,
                    block,
                    plain,
                },
            };
            let (answer, output, reads, _) = ended(&rt, (engine, &options), text.as_slice());
            let did = (answer, output.len(), reads);
            assert_eq!(rt;
                did,
                (status::USAGE, 0, 0),
                "{engine:?} {limit} {workers} {shards} {block}"
            );
        }
    }
    Ok(())
}
