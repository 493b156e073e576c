//! What an engine replies to what it read.
ghost use Rattle.std.specs.Prelude.{◌≡◌};
ghost use Rattle.race_text.specs.Output.{Writes};
ghost use Rattle.race_tool.specs.Outcome.{IsOfAFinding, Sends};
ghost use Rattle.race_tool.specs.Reply as spec;

use crate::printing::{write_illegal, write_no_race, write_too_long};
use crate::status;
use race_legal::Illegal;
use race_records::{Sink, WriteFault};
use race_report::write_text_fault;
use race_text::TextFault;
use std::io::Write;

/// What an engine finds, as it shows it.
pub(crate) trait Shown: Drop {
    ghost use Rattle.std.specs.Prelude.{ℕ, ◌≡◌, List};
    ghost use Rattle.race_text.specs.Output.{Writes};
    ghost use Rattle.race_tool.specs.Outcome.{IsOfAFinding};

    // What it names is there.
    ghost is_printable: { Self → Type 0 };

    ghost text: { Self → List ℕ };

    ghost status_for: { Self → ℕ };

    /// Writes its text.
    fn write<W: Write>(&self, sink: &mut Sink<W>) -> Result<(), WriteFault>
        requires { is_printable self.now }
        ensures { Writes W.contents result sink.old sink.new (text self.now) };

    /// Its status, which is none of those where something was wanting.
    fn status(&self) -> u8
        ensures value { result ≡ status_for self.now }
        ensures of_a_finding { IsOfAFinding result };
}

/// What an engine replies to a list of bytes.
#[derive(Drop)]
pub(crate) enum Reply<F> {
    /// It is no text: its first line at fault.
    Faulty(TextFault),
    /// There are so many events, more than are taken.
    TooLong(usize),
    /// This event breaks a rule.
    Broken(Illegal),
    /// No variable with a race has the name that is asked for.
    NoRace,
    /// This was found.
    Found(F),
}

impl<F: Shown> Reply<F> {
    /// Writes the reply, and answers its status, or that of a device that failed.
    pub(crate) fn send<W: Write>(&self, sink: &mut Sink<W>) -> u8
        requires { spec.IfFound F.is_printable self.now }
        ensures { Sends W.contents sink.old sink.new (spec.reply_text F.text self.now)
            (spec.reply_status F.status_for self.now) result }
    {
        match self.write(sink) {
            Ok(()) => self.status(),
            Err(_) => status::DEVICE,
        }
    }

    // Writes what was found, or in a line why there is nothing.
    fn write<W: Write>(&self, sink: &mut Sink<W>) -> Result<(), WriteFault>
        requires { spec.IfFound F.is_printable self.now }
        ensures { Writes W.contents result sink.old sink.new (spec.reply_text F.text self.now) }
    {
        match self {
            Reply::Faulty(fault) => write_text_fault(fault, sink),
            Reply::TooLong(events) => write_too_long(*events, sink),
            Reply::Broken(illegal) => write_illegal(*illegal, sink),
            Reply::NoRace => write_no_race(sink),
            Reply::Found(found) => found.write(sink),
        }
    }

    // The status of what was found, or of why there is nothing.
    fn status(&self) -> u8
        ensures value { result ≡ spec.reply_status F.status_for self.now }
        ensures of_a_finding { IsOfAFinding result }
    {
        match self {
            Reply::Faulty(_) => status::TEXT_FAULT,
            Reply::TooLong(_) => status::USAGE,
            Reply::Broken(_) => status::ILLEGAL,
            Reply::NoRace => status::NO_RACE,
            Reply::Found(found) => found.status(),
        }
    }
}
