//! `gorace`: judges recorded runs of goroutines by The Go Memory Model.
#![tactic(auto)]

use race_command::run;
use race_records::{Sink, Source};
use std::env;
use std::process::ExitCode;
use std::random::RandomSource;

fn main(rt: HostRuntime) -> ExitCode {
    // Names and places are hashed by it. Where the system has no random bytes it stays 0.
    let mut key = [0u8; 8];
    let _ = rt.fill_bytes(&mut key);
    let mut source = Source::keyed(rt.stdin(), u64::from_le_bytes(key));
    let mut sink = Sink::new(rt.stdout());
    run(&rt, env::args(&rt), &mut source, &mut sink)
}
