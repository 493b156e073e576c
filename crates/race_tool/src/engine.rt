//! What all engines do: read, find, write the reply and answer its status.
ghost use Rattle.std.specs.{Prelude.{◌≡◌, ℕ, List}, Fn.FnOnceReturnsAtMut};
ghost use Rattle.race_text.specs.{declared.cause.TextFault.TextFault, Lines.first_fault};
ghost use Rattle.race_tool.specs.{Input.ReadsInput, Outcome.{status_of_fault, Answers, Replies}};
ghost use Rattle.race_tool.specs.{declared.reply.Reply.Reply, Reply.{reply_text, reply_status}};

use crate::input::ReadFault;
use crate::reply::{Reply, Shown};
use crate::status;
use race_records::{Sink, Source};
use race_text::{Grammar, TextFault};
use std::alloc::AllocError;
use std::io::{Read, Write};

/// Why there is no reply to what was read.
#[derive(Clone, Copy)]
pub(crate) enum Unanswered {
    /// Memory or a thread was refused.
    Refused,
    /// Nothing was recorded, or what isn't a run of the program.
    Unrecorded,
}

impl From<AllocError> for Unanswered {
    ghost use Rattle.std.specs.Prelude.{◌≡◌};
    ghost use Rattle.race_tool.specs.declared.engine.Unanswered.{Unanswered};

    ghost from_gives = { λ _ why. why ≡ Unanswered.Refused };

    fn from(_refused: AllocError) -> Unanswered {
        Unanswered::Refused
    }
}

/// What is an engine's own: of which texts it reads, what it finds, and which replies are right.
pub(crate) trait Engine {
    ghost use Rattle.std.specs.Prelude.{ℕ, List};
    ghost use Rattle.race_tool.specs.declared.reply.Reply.{Reply};

    /// The reader of its kind of text, line by line.
    type Reader: Grammar;

    /// What it finds of a text, if there is anything.
    type Found: Shown;

    // Which replies are right for a list of bytes.
    ghost is_right: { Self → List ℕ → Reply Self.Found → Type 0 };

    // Of which bytes nothing can be recorded.
    ghost is_unrecorded: { Self → List ℕ → Type 0 };
}

/// Reads an input by `read`, finds by `find` what there is to reply to it, writes that and answers its status.
///
/// Both are closures, since a method of the trait can't start threads.
pub(crate) fn answer<E: Engine, I, F, R: Read, W: Write>(
    engine: &E,
    read: I,
    find: F,
    source: &mut Source<R>,
    sink: &mut Sink<W>,
) -> u8
where
    I: FnOnce(
        &mut Source<R>,
    ) -> Result<Result<<E::Reader as Grammar>::Whole, TextFault>, ReadFault>,
    F: FnOnce(<E::Reader as Grammar>::Whole) -> Result<Reply<E::Found>, Unanswered>,
    requires can_read { I.IsAlwaysCallable read }
    requires reads { (old : Source R) (text : _) (new : Source R) → FnOnceReturnsAtMut I.FnOnce read old text new
        → ReadsInput (E.Reader.is_text_of E.Reader.at_start) E.Reader.causes R.remaining old new text }
    requires can_find { (whole : _) (bytes : List ℕ) → E.Reader.is_text_of E.Reader.at_start whole bytes → F.pre find whole }
    requires finds { (whole : _) (reply : _) → F.post find whole reply
        → Replies (E.Reader.is_text_of E.Reader.at_start) (E.is_right engine.now) (E.is_unrecorded engine.now) whole reply }
    requires faulty { (bytes : List ℕ) (fault : TextFault) → first_fault E.Reader.causes bytes ≡ Some fault
        → E.is_right engine.now bytes (Reply.Faulty fault) }
    requires printable { (bytes : List ℕ) (found : _) → E.is_right engine.now bytes (Reply.Found found)
        → E.Found.is_printable found }
    ensures { Answers E.Reader.causes (E.is_right engine.now) (reply_text E.Found.text) (reply_status E.Found.status_for)
        (E.is_unrecorded engine.now) R.remaining W.contents source.old source.new sink.old sink.new result }
{
    match read(source) {
        Ok(Ok(whole)) => match find(whole) {
            Ok(reply) => reply.send(sink),
            Err(Unanswered::Refused) => status::REFUSED,
            Err(Unanswered::Unrecorded) => status::MISMATCH,
        },
        Ok(Err(fault)) => {
            let reply: Reply<E::Found> = Reply::Faulty(fault);
            reply.send(sink)
        }
        Err(fault) => status_of_fault(fault),
    }
}

/// The status where the input wasn't read.
pub(crate) fn status_of_fault(fault: ReadFault) -> u8
    ensures { result ≡ status_of_fault fault }
{
    match fault {
        ReadFault::Failed => status::DEVICE,
        ReadFault::Endless => status::DEVICE,
        ReadFault::OutOfMemory => status::REFUSED,
    }
}
