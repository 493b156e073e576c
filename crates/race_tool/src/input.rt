//! Reading an input block by block, to its end or to its first faulty line.
ghost use Rattle.std.specs.{Prelude.{◌≡◌, ◌≢◌, [], length, vec_len, None, IfOk, IfErr, OnOk}, Io.KnownBytes.Keeps};
ghost use Rattle.race_records.specs.Devices.{unread, source_reads, source_failures, one_more};
ghost use Rattle.race_text.specs.{declared.{cause.{TextCause.{TextCause as Cause}}}, Fed.{IsFed, IsReady}};
ghost use Rattle.race_tool.specs.Input.{ReadsInput, ReadsAndKeeps, FeedsAndKeeps, IsRoom};

use crate::keeper::{Forgets, Keeper};
use race_records::Source;
use race_text::{Fed, Grammar, TextCause, TextFault};
use std::alloc::{AllocError, Allocator};
use std::io::Read;
use thiserror::Error;

/// How many bytes one read may give.
pub(crate) const BLOCK: usize = 1_048_576;

/// How many reads one input may take: a reader that never ends is refused then.
pub(crate) const MAX_TURNS: u64 = 4_294_967_296;

// Definitions cite these numbers, so each is written down twice.
const _: () = prove!(BLOCK == 1_048_576 && MAX_TURNS == 4_294_967_296);

/// How many bytes one read gives where one thread reads.
pub(crate) const SMALL_BLOCK: usize = 65_536;

/// Why an input wasn't read.
#[derive(Clone, Copy, Debug, PartialEq, Eq, Error)]
pub(crate) enum ReadFault {
    /// The device failed.
    #[error("reading failed")]
    Failed,
    /// It was given up after as many reads as an input may have.
    #[error("the input doesn't end")]
    Endless,
    /// A growth was refused.
    #[error("out of memory")]
    OutOfMemory,
}

/// Reads a text in blocks by a grammar that took no line. It stops at the end of the input, or of the
/// block that ends the first faulty line.
pub(crate) fn read_text<R: Read, G: Grammar, A: Allocator + Copy>(
    alloc: A,
    source: &mut Source<R>,
    grammar: G,
) -> Result<Result<G::Whole, TextFault>, ReadFault>
    requires { G.stands_for G.at_start grammar [] }
    ensures { ReadsInput (G.is_text_of G.at_start) G.causes R.remaining source.old source.new result }
{
    read_kept(alloc, source, grammar, &mut Forgets)
}

/// The same, where what was read is kept.
pub(crate) fn read_kept<R: Read, G: Grammar, K: Keeper, A: Allocator + Copy>(
    alloc: A,
    source: &mut Source<R>,
    grammar: G,
    keeper: &mut K,
) -> Result<Result<G::Whole, TextFault>, ReadFault>
    requires start { G.stands_for G.at_start grammar [] }
    requires none { K.has_kept keeper.old [] }
    ensures { ReadsAndKeeps K.has_kept keeper.new (G.is_text_of G.at_start) G.causes R.remaining source.old source.new result }
{
    let Ok(mut block) = blank_block(alloc, SMALL_BLOCK) else {
        return Err(ReadFault::OutOfMemory);
    };
    let mut reader = Fed::new(alloc, grammar);
    for _ in 0..MAX_TURNS {
        match feed_block(source, block.as_mut_slice(), &mut reader, keeper)? {
            Ok(true) => {}
            Ok(false) => return set_memory_apart(reader.finish()),
            Err(fault) => return Ok(Err(fault)),
        }
    }
    Err(ReadFault::Endless)
}

pub(crate) fn blank_block<A: Allocator>(alloc: A, len: usize) -> Result<Vec<u8, A>, AllocError>
    ensures { IfOk result (λ block. vec_len block ≡ len) }
{
    Vec::from_elem(alloc, 0, len)
}

// Reads once, keeps what was read, and feeds it. Tells whether there were bytes, or the first faulty line.
fn feed_block<R: Read, G: Grammar, K: Keeper, A: Allocator + Copy>(
    source: &mut Source<R>,
    block: &mut [u8],
    reader: &mut Fed<G, A>,
    keeper: &mut K,
) -> Result<Result<bool, TextFault>, ReadFault>
    requires block { IsRoom (length block.old) }
    requires ready { (k : G.Known) × IsReady (G.stands_for k) reader.old }
    ensures ok { IfOk result (λ answer. (k : G.Known) → FeedsAndKeeps K.has_kept keeper.old keeper.new G.causes
        (unread R.remaining source.old) (unread R.remaining source.new)
        (IsFed G.causes (G.stands_for k) reader.old) (IsFed G.causes (G.stands_for k) reader.new) answer) }
    ensures calm { result ≢ Err ReadFault.Failed
        → source_failures source.new ≡ source_failures source.old }
    ensures failed { result ≡ Err ReadFault.Failed
        → source_failures source.new ≡ one_more (source_failures source.old) }
    ensures kept { result ≡ Err ReadFault.Failed
        → Keeps (unread R.remaining source.old) (unread R.remaining source.new) }
    ensures ends { result ≢ Err ReadFault.Endless }
    ensures reads { source_reads source.new ≡ one_more (source_reads source.old) }
    ensures ready { (k : G.Known) → IsReady (G.stands_for k) reader.old → IsReady (G.stands_for k) reader.new }
    ensures fine { IfOk result (λ answer. OnOk answer (reader.new.fault ≡ None)) }
{
    match source.read(block) {
        Ok(taken) => {
            let Ok(()) = keeper.keep(&block[..taken]) else {
                return Err(ReadFault::OutOfMemory);
            };
            match set_memory_apart(reader.feed(&block[..taken])) {
                Ok(Ok(())) => Ok(Ok(taken > 0)),
                Ok(Err(fault)) => Ok(Err(fault)),
                Err(fault) => Err(fault),
            }
        }
        Err(_) => Err(ReadFault::Failed),
    }
}

// Tells want of memory apart from the faults of the text.
pub(crate) fn set_memory_apart<T: Drop>(
    answer: Result<T, TextFault>,
) -> Result<Result<T, TextFault>, ReadFault>
    ensures same { IfOk result (λ text. text ≡ answer) }
    ensures others { IfOk result (λ text. IfErr text (λ fault. fault.cause ≢ Cause.OutOfMemory)) }
    ensures memory { IfErr result (λ fault. fault ≡ ReadFault.OutOfMemory) }
{
    match answer {
        Err(fault) => {
            if fault.cause == TextCause::OutOfMemory {
                Err(ReadFault::OutOfMemory)
            } else {
                Ok(Err(fault))
            }
        }
        Ok(value) => Ok(Ok(value)),
    }
}
