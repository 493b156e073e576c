//! What an operation says: its word, and its operands in the order of its text.
ghost use Rattle.std.specs.Prelude.{◌≡◌, ◌≤◌, [], ◌∷◌, length, IsTrue};
ghost use Rattle.race_records.specs.Operands as spec;
ghost use Rattle.race_records.specs.Events.{op_is_limited};

use crate::{Cases, Cause, Kind, Named, Op, Version};
use arrayvec::ArrayVec;

/// The words of operations.
#[derive(Clone, Copy, PartialEq, Eq)]
pub enum OpKeyword {
    /// A goroutine is started.
    Go,
    /// A goroutine returns.
    Exit,
    /// A variable is read.
    Read,
    /// A variable is written.
    Write,
    /// A value is sent on a buffered channel.
    Send,
    /// A value is received from a buffered channel.
    Recv,
    /// A value is handed over on an unbuffered channel.
    Meet,
    /// A closed channel is found to have no value left.
    RecvClosed,
    /// A channel is closed.
    Close,
    /// A select takes its default.
    Default,
    /// A mutex or an rwmutex is locked.
    Lock,
    /// A mutex or an rwmutex is unlocked.
    Unlock,
    /// An rwmutex is locked for reading.
    RLock,
    /// An rwmutex is unlocked from reading.
    RUnlock,
    /// A mutex or an rwmutex is locked by a try.
    TryLock,
    /// An rwmutex is locked for reading by a try.
    TryRLock,
    /// A try to lock, or to lock for reading, fails.
    TryFail,
    /// The function of a once begins.
    OnceBegin,
    /// The function of a once ends.
    OnceEnd,
    /// The function of a once is found to have run.
    OnceDone,
    /// The run fails.
    Fault,
}

impl OpKeyword {
    /// Whether the event has a second place, which is that of its second participant.
    pub fn has_two_places(self) -> bool
        ensures { result ≡ spec.has_two_places self }
    {
        matches!(self, OpKeyword::Meet)
    }

    /// The version that brought the word.
    pub fn since(self) -> Version
        ensures { result ≡ spec.since self }
    {
        match self {
            OpKeyword::TryLock | OpKeyword::TryRLock | OpKeyword::TryFail => Version::Two,
            _ => Version::One,
        }
    }
}

/// One thing that an operation says beside its word.
#[derive(PartialEq, Eq, Drop)]
pub enum Operand {
    /// An object.
    Object(Named),
    /// A value.
    Value(u64),
    /// The cases of a select.
    Cases(Cases),
    /// Why the run failed.
    Cause(Cause),
}

/// What an operand can be.
#[derive(Clone, Copy, PartialEq, Eq)]
pub enum OperandKind {
    /// An object of this kind.
    Object(Kind),
    /// An rwmutex, which is a lock that isn't a mutex.
    RwMutex,
    /// A value.
    Value,
    /// The cases of a select.
    Cases,
    /// Why the run failed.
    Cause,
}

impl Default for Operand {
    fn default() -> Operand {
        Operand::Value(0)
    }
}

/// The operands of one operation.
pub type Operands = ArrayVec<Operand, 3>;

/// What the operation says. Its value is a u64, and its cases are 16 at most.
pub fn says(op: &Op) -> (OpKeyword, Operands)
    ensures keyword { result.0 ≡ (spec.says op.now).0 }
    ensures operands { result.1.items ≡ (spec.says op.now).1 }
    ensures value { IsTrue (op_is_limited op.now) }
{
    match op {
        Op::Go(h) => (OpKeyword::Go, one(Operand::Object(Named::Goroutine(*h)))),
        Op::Exit => (OpKeyword::Exit, Operands::new()),
        Op::Read(x, v) => (OpKeyword::Read, with_value(Named::Var(*x), *v)),
        Op::Write(x, v) => (OpKeyword::Write, with_value(Named::Var(*x), *v)),
        Op::Send(c, v) => (OpKeyword::Send, with_value(Named::Chan(*c), *v)),
        Op::Recv(c, v) => (OpKeyword::Recv, with_value(Named::Chan(*c), *v)),
        Op::Meet(r, c, v) => (OpKeyword::Meet, with_receiver(*r, *c, *v)),
        Op::RecvClosed(c) => (OpKeyword::RecvClosed, one(Operand::Object(Named::Chan(*c)))),
        Op::Close(c) => (OpKeyword::Close, one(Operand::Object(Named::Chan(*c)))),
        Op::Default(cases) => (OpKeyword::Default, one(Operand::Cases(cases.copy()))),
        Op::Lock(l) => (OpKeyword::Lock, one(Operand::Object(Named::Lock(*l)))),
        Op::Unlock(l) => (OpKeyword::Unlock, one(Operand::Object(Named::Lock(*l)))),
        Op::RLock(l) => (OpKeyword::RLock, one(Operand::Object(Named::Lock(*l)))),
        Op::RUnlock(l) => (OpKeyword::RUnlock, one(Operand::Object(Named::Lock(*l)))),
        Op::TryLock(l) => (OpKeyword::TryLock, one(Operand::Object(Named::Lock(*l)))),
        Op::TryRLock(l) => (OpKeyword::TryRLock, one(Operand::Object(Named::Lock(*l)))),
        Op::TryFail(l) => (OpKeyword::TryFail, one(Operand::Object(Named::Lock(*l)))),
        Op::OnceBegin(o) => (OpKeyword::OnceBegin, one(Operand::Object(Named::Once(*o)))),
        Op::OnceEnd(o) => (OpKeyword::OnceEnd, one(Operand::Object(Named::Once(*o)))),
        Op::OnceDone(o) => (OpKeyword::OnceDone, one(Operand::Object(Named::Once(*o)))),
        Op::Fault(cause) => (OpKeyword::Fault, one(Operand::Cause(*cause))),
    }
}

fn one(operand: Operand) -> Operands
    ensures { result.items ≡ operand ∷ [] }
{
    let mut operands = Operands::new();
    operands.push(operand);
    operands
}

fn with_value(named: Named, value: u64) -> Operands
    ensures { result.items ≡ Operand.Object named ∷ Operand.Value value ∷ [] }
{
    let mut operands = Operands::new();
    operands.push(Operand::Object(named));
    operands.push(Operand::Value(value));
    operands
}

fn with_receiver(receiver: u32, chan: u32, value: u64) -> Operands
    ensures { result.items ≡ Operand.Object (Named.Goroutine receiver)
        ∷ Operand.Object (Named.Chan chan) ∷ Operand.Value value ∷ [] }
{
    let mut operands = Operands::new();
    operands.push(Operand::Object(Named::Goroutine(receiver)));
    operands.push(Operand::Object(Named::Chan(chan)));
    operands.push(Operand::Value(value));
    operands
}

/// The object at which the run failed; a nil channel is none.
pub fn failed_at(cause: Cause) -> Option<Named>
    ensures { result ≡ spec.failed_at cause }
{
    match cause {
        Cause::SendClosed(chan) => Some(Named::Chan(chan)),
        Cause::CloseClosed(chan) => Some(Named::Chan(chan)),
        Cause::CloseNil => None,
        Cause::UnlockFree(lock) => Some(Named::Lock(lock)),
        Cause::RUnlockFree(lock) => Some(Named::Lock(lock)),
    }
}

/// The lock that the operation names and that has to be an rwmutex.
pub fn rwmutex_of(op: &Op) -> Option<u32>
    ensures { result ≡ spec.rwmutex_of op.now }
{
    match op {
        Op::RLock(lock) => Some(*lock),
        Op::RUnlock(lock) => Some(*lock),
        Op::TryRLock(lock) => Some(*lock),
        Op::Fault(Cause::RUnlockFree(lock)) => Some(*lock),
        _ => None,
    }
}

/// The operation that says so, where there is one.
#[inline(always)]
pub fn op_by(keyword: OpKeyword, operands: &[Operand]) -> Option<Op>
    ensures { result ≡ spec.op_by keyword operands.now }
{
    match keyword {
        OpKeyword::Exit => exit_of(operands),
        OpKeyword::Meet => meet_of(operands),
        OpKeyword::Default => default_of(operands),
        OpKeyword::Fault => fault_of(operands),
        OpKeyword::Read => object_value(Kind::Var, operands).map(|(x, v)| Op::Read(x, v)),
        OpKeyword::Write => object_value(Kind::Var, operands).map(|(x, v)| Op::Write(x, v)),
        OpKeyword::Send => object_value(Kind::Chan, operands).map(|(c, v)| Op::Send(c, v)),
        OpKeyword::Recv => object_value(Kind::Chan, operands).map(|(c, v)| Op::Recv(c, v)),
        OpKeyword::Go => object_alone(Kind::Goroutine, operands).map(Op::Go),
        OpKeyword::RecvClosed => object_alone(Kind::Chan, operands).map(Op::RecvClosed),
        OpKeyword::Close => object_alone(Kind::Chan, operands).map(Op::Close),
        OpKeyword::Lock => object_alone(Kind::Lock, operands).map(Op::Lock),
        OpKeyword::Unlock => object_alone(Kind::Lock, operands).map(Op::Unlock),
        OpKeyword::RLock => object_alone(Kind::Lock, operands).map(Op::RLock),
        OpKeyword::RUnlock => object_alone(Kind::Lock, operands).map(Op::RUnlock),
        OpKeyword::TryLock => object_alone(Kind::Lock, operands).map(Op::TryLock),
        OpKeyword::TryRLock => object_alone(Kind::Lock, operands).map(Op::TryRLock),
        OpKeyword::TryFail => object_alone(Kind::Lock, operands).map(Op::TryFail),
        OpKeyword::OnceBegin => object_alone(Kind::Once, operands).map(Op::OnceBegin),
        OpKeyword::OnceEnd => object_alone(Kind::Once, operands).map(Op::OnceEnd),
        OpKeyword::OnceDone => object_alone(Kind::Once, operands).map(Op::OnceDone),
    }
}

/// The number of the object of this kind, where the operands are that one alone.
#[inline(always)]
pub fn object_alone(kind: Kind, operands: &[Operand]) -> Option<u32>
    ensures { result ≡ spec.object_alone kind operands.now }
{
    match operands {
        [Operand::Object(named)] if named.is_of(kind) => Some(named.number()),
        _ => None,
    }
}

/// The number of the object of this kind and the value, where the operands are these two.
#[inline(always)]
pub fn object_value(kind: Kind, operands: &[Operand]) -> Option<(u32, u64)>
    ensures { result ≡ spec.object_value kind operands.now }
{
    match operands {
        [Operand::Object(named), Operand::Value(v)] if named.is_of(kind) => Some((
            named.number(),
            *v,
        )),
        _ => None,
    }
}

fn exit_of(operands: &[Operand]) -> Option<Op>
    ensures { result ≡ spec.exit_of operands.now }
{
    match operands {
        [] => Some(Op::Exit),
        _ => None,
    }
}

fn meet_of(operands: &[Operand]) -> Option<Op>
    ensures { result ≡ spec.meet_of operands.now }
{
    match operands {
        [
            Operand::Object(Named::Goroutine(r)),
            Operand::Object(Named::Chan(c)),
            Operand::Value(v),
        ] => Some(Op::Meet(*r, *c, *v)),
        _ => None,
    }
}

fn default_of(operands: &[Operand]) -> Option<Op>
    ensures { result ≡ spec.default_of operands.now }
{
    match operands {
        [Operand::Cases(cases)] => Some(Op::Default(cases.copy())),
        _ => None,
    }
}

fn fault_of(operands: &[Operand]) -> Option<Op>
    ensures { result ≡ spec.fault_of operands.now }
{
    match operands {
        [Operand::Cause(cause)] => Some(Op::Fault(*cause)),
        _ => None,
    }
}

static GOROUTINE: [OperandKind; 1] = [OperandKind::Object(Kind::Goroutine)];

static NOTHING: [OperandKind; 0] = [];

static VAR_VALUE: [OperandKind; 2] = [OperandKind::Object(Kind::Var), OperandKind::Value];

static CHAN: [OperandKind; 1] = [OperandKind::Object(Kind::Chan)];

static LOCK: [OperandKind; 1] = [OperandKind::Object(Kind::Lock)];

static RW_MUTEX: [OperandKind; 1] = [OperandKind::RwMutex];

static ONCE: [OperandKind; 1] = [OperandKind::Object(Kind::Once)];

static CASES: [OperandKind; 1] = [OperandKind::Cases];

static CAUSE: [OperandKind; 1] = [OperandKind::Cause];

static CHAN_VALUE: [OperandKind; 2] = [OperandKind::Object(Kind::Chan), OperandKind::Value];

static RECEIVER_CHAN_VALUE: [OperandKind; 3] = [
    OperandKind::Object(Kind::Goroutine),
    OperandKind::Object(Kind::Chan),
    OperandKind::Value,
];

/// What the operands behind the word are.
pub fn operand_kinds(keyword: OpKeyword) -> &'static [OperandKind]
    ensures kinds { result.now ≡ spec.operand_kinds keyword }
    ensures few { length result.now ≤ 3 }
{
    match keyword {
        OpKeyword::Go => &GOROUTINE,
        OpKeyword::Exit => &NOTHING,
        OpKeyword::Read => &VAR_VALUE,
        OpKeyword::Write => &VAR_VALUE,
        OpKeyword::Send => &CHAN_VALUE,
        OpKeyword::Recv => &CHAN_VALUE,
        OpKeyword::Meet => &RECEIVER_CHAN_VALUE,
        OpKeyword::RecvClosed => &CHAN,
        OpKeyword::Close => &CHAN,
        OpKeyword::Default => &CASES,
        OpKeyword::Lock => &LOCK,
        OpKeyword::Unlock => &LOCK,
        OpKeyword::RLock => &RW_MUTEX,
        OpKeyword::RUnlock => &RW_MUTEX,
        OpKeyword::TryLock => &LOCK,
        OpKeyword::TryRLock => &RW_MUTEX,
        OpKeyword::TryFail => &LOCK,
        OpKeyword::OnceBegin => &ONCE,
        OpKeyword::OnceEnd => &ONCE,
        OpKeyword::OnceDone => &ONCE,
        OpKeyword::Fault => &CAUSE,
    }
}
