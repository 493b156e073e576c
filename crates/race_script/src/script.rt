//! A goroutine that asks what the body of a program says, step by step.
ghost use Rattle.std.specs.Prelude.{◌≡◌, ◌<◌, ◌≤◌, ◌+◌, Some, slice_get, length, drop, IfOk};
ghost use Rattle.race_records.specs.Declarations.{count_of};
ghost use Rattle.race_script.specs.Bodies as bodies;
ghost use Rattle.race_script.specs.Program.{asks_of};
ghost use Rattle.race_script.specs.Run as run;

use crate::Program;
use race_hub::{Answer, Ask, Request, Routine};
use race_records::Kind;
use race_requests::RequestList;
use std::alloc::{AllocError, Allocator, Global};
use std::marker::Model;

/// The body of a goroutine, and how far it was asked.
#[derive(Drop)]
pub struct Script<A: Allocator = Global> {
    whole: RequestList<A>,
    position: usize,
}

impl<A: Allocator> Model for Script<A> {
    ghost use Rattle.std.specs.Prelude.{◌≡◌, ◌<◌, true, length};
    ghost use Rattle.race_script.specs.{Bodies.is_body, Program.asks_of, Run.ScriptState};

    ghost Value = { ScriptState };

    ghost view = { λ s. record { whole = s.whole.items; position = s.position } };

    ghost invariant = { λ s. (is_body (asks_of s.whole.items) ≡ true) × (s.position < length s.whole.items) };
}

impl<A: Allocator + Copy> Script<A> {
    /// The goroutine's body, of which nothing was asked.
    pub fn new(alloc: A, program: &Program<A>, goroutine: u32) -> Result<Script<A>, AllocError>
        requires { goroutine < count_of Kind.Goroutine program.now.decls.declarations }
        ensures whole { IfOk result (λ s. slice_get program.now.bodies goroutine ≡ Some s.whole) }
        ensures position { IfOk result (λ s. s.position ≡ 0) }
    {
        let body = program.body(goroutine);
        let mut whole = RequestList::new(alloc);
        for step in 0..body.len() {
            whole.push(body.get(step))?;
        }
        Ok(Script { whole, position: 0 })
    }
}

impl<A: Allocator> Script<A> {
    /// The steps of the whole body.
    pub fn whole(&self) -> &RequestList<A>
        ensures { result.now.items ≡ self.now.whole }
    {
        &self.whole
    }

    /// The index of the step that comes next, unless the function of a once had run.
    pub fn position(&self) -> usize
        ensures { result ≡ self.now.position }
    {
        self.position
    }

    // The step that is asked after the answer.
    fn next_step(&self, answer: Answer) -> usize
        ensures step { result ≡ run.next_step self.now answer }
        ensures within { result < length self.now.whole }
    {
        if self.is_behind_do() && is_done(answer) {
            return behind_end(&self.whole, self.position);
        }
        self.position
    }

    // Whether the step before the position begins the function of a once.
    fn is_behind_do(&self) -> bool
        ensures { result ≡ bodies.is_behind_do (asks_of self.now.whole) self.now.position }
    {
        self.position > 0 && is_do(&self.whole.get(self.position - 1).ask)
    }
}

impl<A: Allocator + Send> Routine for Script<A> {
    ghost use Rattle.race_script.specs.Run.{Asks};

    ghost asks = { Asks };

    fn next(&mut self, answer: Answer) -> Request {
        let step = self.next_step(answer);
        let request = self.whole.get(step);
        // A proof knows that there may be one more once they are counted.
        let _count = self.whole.len();
        if !is_exit(&request.ask) {
            self.position = step + 1;
        } else {
            self.position = step;
        }
        request
    }
}

// Whether the function of the once had run.
pub(crate) fn is_done(answer: Answer) -> bool
    ensures { result ≡ run.is_done answer }
{
    matches!(answer, Answer::AlreadyDone)
}

pub(crate) fn is_exit(ask: &Ask) -> bool
    ensures { result ≡ bodies.is_exit ask.now }
{
    matches!(ask, Ask::Exit)
}

fn is_do(ask: &Ask) -> bool
    ensures { result ≡ bodies.is_do ask.now }
{
    matches!(ask, Ask::Do(_))
}

fn is_end(ask: &Ask) -> bool
    ensures { result ≡ bodies.is_end ask.now }
{
    matches!(ask, Ask::EndDo(_))
}

// The index behind the end of the function in which the step `from` stands.
pub(crate) fn behind_end<A: Allocator>(steps: &RequestList<A>, from: usize) -> usize
    requires { from ≤ length steps.now.items }
    ensures end { result ≡ from + bodies.steps_to_end 0 (drop from (asks_of steps.now.items)) }
    ensures within { result ≤ length steps.now.items }
{
    let mut depth = 0usize;
    for at in from..steps.len() {
        let ask = steps.get(at).ask;
        if is_do(&ask) {
            depth += 1;
        } else if is_end(&ask) {
            if depth == 0 {
                return at + 1;
            }
            depth -= 1;
        }
    }
    steps.len()
}
