//! What is printed of each fault.

use race_hub::{HubFault, Mismatch, OffersFull};
use race_record::RecordFault;
use race_script::NotARun;
use std::alloc::Global;
use std::test::Fail;

/// A fault.
enum Fault {
    Hub(HubFault),
    Mismatch(Mismatch),
    NoRun(NotARun),
    Offers(OffersFull),
    Record(RecordFault),
}

static TEXTS: [(Fault, &str); 12] = [
    (
        Fault::Hub(HubFault::WrongCount),
        "there is not one routine for each goroutine",
    ),
    (Fault::Hub(HubFault::BadLimit), "the limit is out of range"),
    (Fault::Hub(HubFault::OutOfMemory), "out of memory"),
    (Fault::Mismatch(Mismatch::NotEnded), "the run has not ended"),
    (Fault::Mismatch(Mismatch::Out(1)), "a job is out"),
    (
        Fault::Mismatch(Mismatch::Log(1)),
        "a log is not its goroutine's part of the trace",
    ),
    (
        Fault::NoRun(NotARun { g: 1, step: 2 }),
        "the recording is no run of the program",
    ),
    (Fault::Offers(OffersFull), "there are too many offers"),
    (
        Fault::Record(RecordFault::BadWorkers),
        "the number of workers is out of range",
    ),
    (
        Fault::Record(RecordFault::NoThread),
        "a worker could not be started",
    ),
    (Fault::Record(RecordFault::OutOfMemory), "out of memory"),
    (
        Fault::Record(RecordFault::Mismatch),
        "a log is not its goroutine's part of the trace",
    ),
];

fn printed(alloc: Global, fault: &Fault) -> Result<String, Fail> {
    match fault {
        Fault::Hub(fault) => Ok(format!(in alloc; "{fault}")?),
        Fault::Mismatch(fault) => Ok(format!(in alloc; "{fault}")?),
        Fault::NoRun(fault) => Ok(format!(in alloc; "{fault}")?),
        Fault::Offers(fault) => Ok(format!(in alloc; "{fault}")?),
        Fault::Record(fault) => Ok(format!(in alloc; "{fault}")?),
    }
}

#[test]
fn each_fault_is_printed(rt: HostRuntime) -> Result<(), Fail> {
    for (fault, text) in &TEXTS {
        assert_eq!(rt; printed(rt.alloc(), fault)?.as_str(), *text);
    }
    Ok(())
}
