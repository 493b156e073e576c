//! What tells one kind of text from another, where a text is read line by line.

use crate::cause::{TextCause, TextFault};

/// A reader of lines that are handed to it whole, one after another.
///
/// What it keeps of them is its own affair: the lines for which it stands are known to proofs alone.
/// After a cause nothing more is to be asked of it.
pub trait Grammar: Drop {
    ghost use Rattle.std.specs.Prelude.{ℕ, ◌≡◌, ◌+◌, ◌≤◌, List, length, IfOk, OnOk, MatchResult};
    ghost use Rattle.race_text.specs.Lines.{Causes};
    ghost use Rattle.race_text.specs.Grammar as spec;
    ghost use Rattle.race_text.specs.Fed as fed;

    /// What a whole text is read as.
    type Whole: Drop;

    // What else is known of it while it takes lines, which no line changes. What follows holds for each such value.
    ghost Known: { Type 0 } = { Unit {0} };

    // What is known where no line was taken.
    ghost at_start: { Known };

    // The causes of such a text.
    ghost causes: { Causes };

    // The lines that it took.
    ghost stands_for: { Known → Self → List (List ℕ) → Type 0 };

    ghost is_text_of: { Known → Self.Whole → List ℕ → Type 0 };

    /// Takes the next line, or tells its least cause: want of memory only where the line has none.
    fn take_line(&mut self, line: &[u8]) -> Result<(), TextCause>
        requires { (k : Known) × spec.StandsForSome (stands_for k self.old) }
        ensures { MatchResult result
            (λ _. (k : Known) → spec.Takes causes (stands_for k self.old) line.now (stands_for k self.new))
            (λ told. (k : Known) → spec.Tells causes (stands_for k self.old) line.now told) };

    /// The number of the line that comes next, counted from 1.
    fn line(&self) -> u64
        requires { (k : Known) × spec.StandsForSome (stands_for k self.now) }
        ensures { (k : Known) → spec.ForEachLines (stands_for k self.now) (λ lines. result ≡ length lines + 1) };

    /// What was read as a whole, where this stands behind the last newline, or the cause of the end.
    fn whole(self, last: &[u8]) -> Result<Self::Whole, TextCause>
        requires { (k : Known) × spec.StandsForSome (stands_for k self) }
        ensures { MatchResult result
            (λ whole. (k : Known) → spec.ForEachLines (stands_for k self) (spec.IsWhole causes (is_text_of k) last.now whole))
            (λ told. (k : Known) → spec.TellsOfEnd causes (stands_for k self) last.now told) };

    /// Takes the line in front of the bytes, where it has a faster way for it, and tells what is behind
    /// it. Tells nothing, and takes nothing, where it has none.
    #[inline(always)]
    fn take_common<'b>(&mut self, bytes: &'b [u8]) -> Result<Option<&'b [u8]>, TextCause>
        requires { (k : Known) × spec.StandsForSome (stands_for k self.old) }
        ensures { MatchResult result
            (λ rest. (k : Known) → spec.TakesIfTold causes (stands_for k self.old) bytes.now rest (stands_for k self.new))
            (λ told. (k : Known) → spec.TellsOfFront causes (stands_for k self.old) bytes.now told) }
    {
        Ok(None)
    }

    /// Takes such lines in front of the bytes, one after another, and tells what is behind them.
    #[inline(always)]
    fn take_commons<'b>(&mut self, bytes: &'b [u8]) -> Result<&'b [u8], TextFault>
        requires { (k : Known) × spec.StandsForSome (stands_for k self.old) }
        ensures taken { MatchResult result
            (λ rest. (k : Known) → fed.TakesBytes causes (stands_for k self.old) bytes.now (stands_for k self.new) rest.now)
            (λ told. (k : Known) → fed.TellsOfWhole causes (stands_for k self.old) bytes.now told) }
        ensures some { OnOk result ((k : Known) → spec.StandsForSome (stands_for k self.old) → spec.StandsForSome (stands_for k self.new)) }
        ensures within { IfOk result (λ rest. length rest.now ≤ length bytes.now) }
    {
        let mut left = bytes;
        loop {
            let number = self.line();
            match self.take_common(left) {
                Err(cause) => {
                    return Err(TextFault {
                        line: number,
                        cause,
                    });
                }
                Ok(taken) => match taken {
                    None => return Ok(left),
                    Some(rest) => left = rest,
                },
            }
        }
    }
}
