//! What is printed of each fault.

use race_edges::EdgeFault;
use race_legal::{Broken, Rule};
use race_records::{CasesFull, DeclFault, PushFault, WriteFault};
use race_shards::{JudgeFault, WitnessFault};
use std::alloc::Global;
use std::test::Fail;

/// A fault.
enum Fault {
    Broken(Broken),
    Cases(CasesFull),
    Decl(DeclFault),
    Edge(EdgeFault),
    Judge(JudgeFault),
    Push(PushFault),
    Witness(WitnessFault),
    Write(WriteFault),
}

static TEXTS: [(Fault, &str); 23] = [
    (Fault::Decl(DeclFault::BadName), "the word is malformed"),
    (Fault::Decl(DeclFault::Taken), "the name is taken"),
    (Fault::Decl(DeclFault::TooMany), "there are too many"),
    (
        Fault::Decl(DeclFault::BadCapacity),
        "the capacity is too large",
    ),
    (Fault::Decl(DeclFault::OutOfMemory), "out of memory"),
    (
        Fault::Push(PushFault::BadNumber),
        "a number is out of range",
    ),
    (
        Fault::Push(PushFault::WrongKind),
        "the operation or its lock is of the wrong kind",
    ),
    (Fault::Push(PushFault::Full), "the trace is full"),
    (Fault::Push(PushFault::OutOfMemory), "out of memory"),
    (Fault::Cases(CasesFull), "there are too many cases"),
    (
        Fault::Write(WriteFault { sent: 5 }),
        "writing failed after 5 bytes",
    ),
    (
        Fault::Broken(Broken::Rule(Rule::StaleRead)),
        "the event breaks a rule",
    ),
    (Fault::Broken(Broken::OutOfMemory), "out of memory"),
    (Fault::Edge(EdgeFault::Illegal), "the trace is illegal"),
    (Fault::Edge(EdgeFault::TooLong), "the trace is too long"),
    (Fault::Edge(EdgeFault::OutOfMemory), "out of memory"),
    (
        Fault::Judge(JudgeFault::BadShards),
        "the number of shards is out of its limits",
    ),
    (
        Fault::Judge(JudgeFault::NoThread),
        "no thread could be started",
    ),
    (Fault::Judge(JudgeFault::OutOfMemory), "out of memory"),
    (
        Fault::Judge(JudgeFault::Failed),
        "the judge has failed before",
    ),
    (
        Fault::Judge(JudgeFault::BadBlock),
        "the number of events of a block is out of its limits",
    ),
    (Fault::Witness(WitnessFault::NotARace), "these don't race"),
    (Fault::Witness(WitnessFault::OutOfMemory), "out of memory"),
];

fn printed(alloc: Global, fault: &Fault) -> Result<String, Fail> {
    match fault {
        Fault::Broken(fault) => Ok(format!(in alloc; "{fault}")?),
        Fault::Cases(fault) => Ok(format!(in alloc; "{fault}")?),
        Fault::Decl(fault) => Ok(format!(in alloc; "{fault}")?),
        Fault::Edge(fault) => Ok(format!(in alloc; "{fault}")?),
        Fault::Judge(fault) => Ok(format!(in alloc; "{fault}")?),
        Fault::Push(fault) => Ok(format!(in alloc; "{fault}")?),
        Fault::Witness(fault) => Ok(format!(in alloc; "{fault}")?),
        Fault::Write(fault) => Ok(format!(in alloc; "{fault}")?),
    }
}

#[test]
fn each_fault_is_printed(rt: HostRuntime) -> Result<(), Fail> {
    for (fault, text) in &TEXTS {
        assert_eq!(rt; printed(rt.alloc(), fault)?.as_str(), *text);
    }
    Ok(())
}
