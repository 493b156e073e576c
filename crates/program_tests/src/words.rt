//! How the program ends where its words can't be had.
use race_command::run;
use race_records::{Sink, Source};
use race_tool::status;
use std::io;
use std::process::ExitCode;
use std::test::Fail;

static FAILURES: [(io::ErrorKind, u8); 2] = [
    (io::ErrorKind::InvalidData, status::USAGE),
    (io::ErrorKind::OutOfMemory, status::REFUSED),
];

#[test]
fn a_failure_to_give_the_words_decides_the_status(rt: HostRuntime) -> Result<(), Fail> {
    for &(kind, answer) in &FAILURES {
        let mut source = Source::new(b"gotrace 1\n".as_slice());
        let mut output = Vec::new(rt.alloc());
        let mut sink = Sink::new(&mut output);
        let code = run(&rt, Err(io::Error::from(kind)), &mut source, &mut sink);
        assert!(rt;
            code == ExitCode::from(answer) && source.reads() == 0,
            "{answer}"
        );
        assert!(rt; output.is_empty(), "{answer}");
    }
    Ok(())
}
