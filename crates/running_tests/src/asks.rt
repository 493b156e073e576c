//! Routines that ask what a table says, and hubs of them.

use race_hub::{Answer, Ask, Hub, Offer, Offers, Request, Routine};
use race_records::{Decls, Object};
use std::alloc::{AllocError, Global};
use std::test::Fail;

/// An ask that a table can hold. A select is on channel 0.
#[derive(Clone, Copy)]
pub(crate) enum Plain {
    Go(u32),
    Exit,
    Read(u32),
    Write(u32, u64),
    Send(u32, u64),
    Recv(Option<u32>),
    Close(Option<u32>),
    Lock(u32),
    RLock(u32),
    TryLock(u32),
    TryRLock(u32),
    Do(u32),
    EndDo(u32),
    /// The offers in order: the value that one sends, or none where it receives; and whether it has a default.
    Select(&'static [Option<u64>], bool),
    /// A select that receives from this channel.
    SelectFrom(u32),
}

fn offers(wanted: &[Option<u64>]) -> Offers {
    let mut offers = Offers::new();
    for at in 0..wanted.len() {
        let offer = match wanted[at] {
            Some(value) => Offer::Send(Some(0), value),
            None => Offer::Recv(Some(0)),
        };
        let _full = offers.push(offer);
    }
    offers
}

fn offer_from(chan: u32) -> Offers {
    let mut offers = Offers::new();
    let _fits = offers.push(Offer::Recv(Some(chan)));
    offers
}

pub(crate) fn ask_of(plain: Plain) -> Ask {
    match plain {
        Plain::Go(goroutine) => Ask::Go(goroutine),
        Plain::Exit => Ask::Exit,
        Plain::Read(var) => Ask::Read(var),
        Plain::Write(var, value) => Ask::Write(var, value),
        Plain::Send(chan, value) => Ask::Send(Some(chan), value),
        Plain::Recv(chan) => Ask::Recv(chan),
        Plain::Close(chan) => Ask::Close(chan),
        Plain::Lock(lock) => Ask::Lock(lock),
        Plain::RLock(lock) => Ask::RLock(lock),
        Plain::TryLock(lock) => Ask::TryLock(lock),
        Plain::TryRLock(lock) => Ask::TryRLock(lock),
        Plain::Do(once) => Ask::Do(once),
        Plain::EndDo(once) => Ask::EndDo(once),
        Plain::Select(wanted, has_default) => Ask::Select(offers(wanted), has_default),
        Plain::SelectFrom(chan) => Ask::Select(offer_from(chan), false),
    }
}

/// Asks these one after another, and exits.
#[derive(Drop)]
pub(crate) struct Asks {
    asks: &'static [Plain],
    asked: usize,
}

pub(crate) fn routine_of(asks: &'static [Plain]) -> Asks {
    Asks { asks, asked: 0 }
}

impl Routine for Asks {
    ghost use Rattle.std.specs.Prelude.{⊤};

    ghost asks = { λ _ _ _ _. ⊤ };

    fn next(&mut self, _answer: Answer) -> Request {
        let at = self.asked;
        self.asked = at.saturating_add(1);
        let ask = if at < self.asks.len() {
            ask_of(self.asks[at])
        } else {
            Ask::Exit
        };
        Request { ask, place: 0 }
    }
}

/// Goroutine w, an object and a place.
pub(crate) fn declared(alloc: Global, is_version2: bool, object: Object) -> Result<Decls, Fail> {
    let mut decls = if is_version2 {
        Decls::new_version2(alloc)
    } else {
        Decls::new(alloc)
    };
    decls.declare("w", Object::Goroutine)?;
    decls.declare("x", object)?;
    decls.add_place("p")?;
    Ok(decls)
}

/// A routine for main and one for w.
pub(crate) fn routines_of<R: Routine>(
    alloc: Global,
    main: R,
    other: R,
) -> Result<Vec<R>, AllocError> {
    let mut routines = Vec::new(alloc);
    routines.push(main)?;
    routines.push(other)?;
    Ok(routines)
}

/// A hub of version 1 with this object, of main and w that ask these.
pub(crate) fn hub_of(
    alloc: Global,
    object: Object,
    limit: u32,
    main: &'static [Plain],
    other: &'static [Plain],
) -> Result<Hub<Asks>, Fail> {
    let routines = routines_of(alloc, routine_of(main), routine_of(other))?;
    Ok(Hub::new(alloc, declared(alloc, false, object)?, limit, routines)?)
}
