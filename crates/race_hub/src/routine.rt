//! What a goroutine runs: it is told an answer, and asks its next request.

use crate::{Answer, Request};

/// The code of one goroutine, which is told an answer and asks its next request. It is started with `Answer::Begin`.
pub trait Routine: Send + Drop {
    ghost use Rattle.race_requests.specs.declared.request.{Answer.Answer, Request.Request};

    // What `next` makes of the routine and the answer: the request, and the routine after.
    ghost asks: { Self → Answer → Request → Self → Type 0 };

    /// Goes on with this answer up to the next request.
    fn next(&mut self, answer: Answer) -> Request
        ensures { asks self.old answer result self.new };
}

/// A routine of any type, for goroutines of several types in one recording.
#[derive(Drop)]
pub struct Boxed(pub Box<dyn Routine + Send>);

impl Routine for Boxed {
    ghost use Rattle.std.specs.Prelude.{⊤};

    // Of the value nothing is known here but that it is a routine.
    ghost asks = { λ _ _ _ _. ⊤ };

    fn next(&mut self, answer: Answer) -> Request {
        self.0.next(answer)
    }
}
