//! What is kept of a variable's accesses.
ghost use Rattle.std.specs.Prelude.{◌≡◌, ◌≤◌, ◌<◌, ◌∷◌, [], false, not, filter, insert, length, vec_capacity, All, ◌≢◌, IfOk, OnOk};
ghost use Rattle.std.specs.{Prelude.{OnErr, IsTrue}, Option.is_some};
ghost use Rattle.race_access.specs.KeptOf.{kept_of};
ghost use Rattle.race_access.specs.Kept as spec;

use crate::access::Access;
use race_clock::Clock;
use race_verdict::ReportedAccess;
use std::alloc::{AllocError, Allocator};

// So many Reads are looked at one by one.
const FEW: usize = 64;

/// What is kept of the accesses.
#[derive(Drop)]
pub(crate) enum Accesses<A: Allocator> {
    /// The last Write and one Read.
    Few {
        /// The last Write.
        write: Access,
        /// The last Read, which knows all earlier ones since the Write.
        read: Access,
    },
    /// The last Write and several Reads.
    Many {
        /// The last Write.
        write: Access,
        /// The last Read since then of some goroutines, in rising order of these. Each other Read
        /// since then is known to one of these, or to the Write.
        reads: Vec<Access, A>,
    },
    /// The pair of the first race.
    Raced {
        /// The earlier access.
        first: ReportedAccess,
        /// The later one.
        second: ReportedAccess,
    },
}

// The access, where the clock doesn't know it.
#[inline(always)]
fn unknown<'a, B: Allocator>(access: &'a Access, clock: &Clock<B>) -> Option<&'a Access>
    ensures { spec.IsGreatestUnknown clock.now (access.now ∷ []) (spec.note_found result) }
{
    if access.is_known(clock) {
        None
    } else {
        Some(access)
    }
}

// The last access that the clock doesn't know.
fn greatest_unknown<'a, B: Allocator>(
    accesses: &'a [Access],
    clock: &Clock<B>,
) -> Option<&'a Access>
    ensures { spec.IsGreatestUnknown clock.now accesses.now (spec.note_found result) }
{
    let mut greatest = None;
    for access in accesses {
        greatest = greater(greatest, unknown(access, clock));
    }
    greatest
}

// The later of two accesses, where there are any.
#[inline(always)]
fn greater<'a>(a: Option<&'a Access>, b: Option<&'a Access>) -> Option<&'a Access>
    ensures { spec.note_found result ≡ spec.greater (spec.note_found a.entry) (spec.note_found b.entry) }
{
    match (a, b) {
        (Some(m), Some(n)) => Some(if m.at < n.at { n } else { m }),
        (Some(m), None) => Some(m),
        (None, Some(n)) => Some(n),
        (None, None) => None,
    }
}

impl<A: Allocator> Accesses<A> {
    pub(crate) fn is_raced(&self) -> bool
        ensures { result ≡ is_some (kept_of self.now).pair }
    {
        match self {
            Accesses::Few { .. } => false,
            Accesses::Many { .. } => false,
            Accesses::Raced { .. } => true,
        }
    }

    pub(crate) fn pair(&self) -> Option<(u32, u32)>
        ensures { result ≡ (kept_of self.now).pair }
    {
        match self {
            Accesses::Few { .. } => None,
            Accesses::Many { .. } => None,
            Accesses::Raced { first, second } => Some((first.at, second.at)),
        }
    }

    pub(crate) fn noted(&self) -> Option<(ReportedAccess, ReportedAccess)>
        ensures { result ≡ (kept_of self.now).noted }
    {
        match self {
            Accesses::Few { .. } => None,
            Accesses::Many { .. } => None,
            Accesses::Raced { first, second } => Some((*first, *second)),
        }
    }

    /// The last access that races with the next one.
    #[inline(always)]
    pub(crate) fn partner<B: Allocator>(&self, next: &Access, clock: &Clock<B>) -> Option<&Access>
        ensures { spec.IsGreatestUnknown clock.now (spec.candidates next.now (kept_of self.now))
            (spec.note_found result) }
    {
        match self {
            Accesses::Few { write, read } => {
                if next.write {
                    greater(unknown(write, clock), unknown(read, clock))
                } else {
                    unknown(write, clock)
                }
            }
            Accesses::Many { write, reads } => {
                if next.write {
                    greater(unknown(write, clock), greatest_unknown(reads, clock))
                } else {
                    unknown(write, clock)
                }
            }
            Accesses::Raced { .. } => None,
        }
    }
}

impl<A: Allocator + Copy> Accesses<A> {
    /// Keeps an access that races with none.
    #[inline(always)]
    pub(crate) fn keep<B: Allocator>(
        &mut self,
        alloc: A,
        access: Access,
        clock: &Clock<B>,
    ) -> Result<(), AllocError>
        requires unraced { is_some (kept_of self.old).pair ≡ false }
        requires rising { spec.AreRising (kept_of self.old).reads }
        ensures ok { OnOk result
            (spec.IsKeptOn (kept_of self.old) (kept_of self.new) access clock.now) }
        ensures rising { spec.AreRising (kept_of self.new).reads }
        ensures unchanged { OnErr result (kept_of self.new ≡ kept_of self.old) }
        ensures write { IsTrue access.write → result ≡ Ok tt }
    {
        match self {
            Accesses::Few { write, read } => {
                if access.write {
                    *write = access;
                    *read = Access::NONE;
                    return Ok(());
                }
                if read.is_known(clock) {
                    *read = access;
                    return Ok(());
                }
                let write = *write;
                // What a call is handed stands in memory. The ways above need not go through it.
                let next = access;
                let reads = beside(alloc, *read, next, clock)?;
                *self = Accesses::Many { write, reads };
                Ok(())
            }
            Accesses::Many { write, reads } => {
                if access.write {
                    *write = access;
                    reads.clear();
                    return Ok(());
                }
                let next = access;
                keep_read(reads, next, clock)
            }
            Accesses::Raced { .. } => Ok(()),
        }
    }
}

// Where the goroutine's Read is, or is to be.
#[inline(always)]
fn place_of(reads: &[Access], who: u32) -> usize
    requires { spec.AreRising reads.now }
    ensures { spec.IsPlaceOf reads.now who result }
{
    if reads.len() <= FEW {
        place_in_few(reads, who)
    } else {
        place_in_many(reads, who)
    }
}

// The same of few Reads. Each turn of a search by halves is a guess, while this one ends but once.
#[inline(always)]
fn place_in_few(reads: &[Access], who: u32) -> usize
    requires { spec.AreRising reads.now }
    ensures { spec.IsPlaceOf reads.now who result }
{
    let mut place = 0;
    while place < reads.len() && reads[place].who < who {
        place += 1;
    }
    place
}

// The same of many.
fn place_in_many(reads: &[Access], who: u32) -> usize
    requires { spec.AreRising reads.now }
    ensures { spec.IsPlaceOf reads.now who result }
{
    reads.partition_point(|read| read.who < who)
}

// Drops what the clock knows before memory is taken. Where one is dropped there is room.
fn drop_known<A: Allocator, B: Allocator>(reads: &mut Vec<Access, A>, clock: &Clock<B>)
    ensures kept { spec.DropsKnown reads.old.items reads.new.items clock.now }
    ensures full { vec_capacity reads.old ≤ length reads.old.items → reads.new.items ≡ filter (λ e. not (spec.is_known clock.now e)) reads.old.items }
    ensures rising { spec.AreRising reads.old.items → spec.AreRising reads.new.items }
    ensures capacity { vec_capacity reads.new ≡ vec_capacity reads.old }
{
    if reads.len() == reads.capacity() {
        reads.retain(|read| !read.is_known(clock));
    }
}

// Keeps a Read in the place of its goroutine's last one, or beside those that it doesn't know.
fn keep_read<A: Allocator, B: Allocator>(
    reads: &mut Vec<Access, A>,
    access: Access,
    clock: &Clock<B>,
) -> Result<(), AllocError>
    requires { spec.AreRising reads.old.items }
    ensures ok { OnOk result (spec.KeepsRead reads.old.items reads.new.items access clock.now) }
    ensures rising { spec.AreRising reads.new.items }
    ensures unchanged { OnErr result (reads.new.items ≡ reads.old.items) }
{
    let place = place_of(reads, access.who);
    if place < reads.len() && reads[place].who == access.who {
        reads[place] = access;
        return Ok(());
    }
    if reads.len() < reads.capacity() {
        put_at(reads, place, access);
        return Ok(());
    }
    keep_first(reads, access, clock)
}

// Puts the Read at the place, where there is room. `Vec::insert` is a call, and hands the Read on in memory.
#[inline(always)]
fn put_at<A: Allocator>(reads: &mut Vec<Access, A>, place: usize, access: Access)
    requires within { place ≤ length reads.old.items }
    requires room { length reads.old.items < vec_capacity reads.old }
    ensures { reads.new.items ≡ insert reads.old.items place access }
{
    let end = reads.len();
    reads.push_reserved(access);
    reads.copy_within(place..end, place + 1);
    reads[place] = access;
}

// Keeps the first Read of a goroutine where there is no room for one more.
#[inline(never)]
fn keep_first<A: Allocator, B: Allocator>(
    reads: &mut Vec<Access, A>,
    access: Access,
    clock: &Clock<B>,
) -> Result<(), AllocError>
    requires rising { spec.AreRising reads.old.items }
    requires first { All (λ e. e.who ≢ access.who) reads.old.items }
    ensures ok { OnOk result (spec.KeepsRead reads.old.items reads.new.items access clock.now) }
    ensures rising { spec.AreRising reads.new.items }
    ensures unchanged { OnErr result (reads.new.items ≡ reads.old.items) }
{
    drop_known(reads, clock);
    let place = place_of(reads, access.who);
    reads.insert(place, access)?;
    Ok(())
}

// A Read beside the only other one.
fn beside<A: Allocator, B: Allocator>(
    alloc: A,
    read: Access,
    access: Access,
    clock: &Clock<B>,
) -> Result<Vec<Access, A>, AllocError>
    ensures ok { IfOk result (λ reads. spec.KeepsRead (read ∷ []) reads.items access clock.now) }
    ensures rising { IfOk result (λ reads. spec.AreRising reads.items) }
{
    let mut reads = Vec::with_capacity(alloc, 4)?;
    reads.push(read)?;
    keep_read(&mut reads, access, clock)?;
    Ok(reads)
}
