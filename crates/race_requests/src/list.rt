//! Requests one behind another, each in 24 bytes but for the offers of a select: a request alone has room for 16 offers.
ghost use Rattle.std.specs.Prelude.{◌≡◌, ◌<◌, ◌++◌, ◌∷◌, [], true, length, map, slice_get, Some, OnOk, OnErr, vec_len};
ghost use Rattle.std.specs.Prelude.{vec_capacity};
ghost use Rattle.race_requests.specs.List.{IsWithin, AreWithin, offers_in};
ghost use Rattle.race_requests.specs.List as spec;

use crate::{Ask, Offers, Request};
use std::alloc::{AllocError, Allocator, Global};
use std::marker::Model;

// There is one for each step of each goroutine.
const _: () = prove!(size_of::<Brief>() <= 24);

// What is asked, without the value and without the offers.
#[derive(Clone, Copy)]
pub(crate) enum BriefAsk {
    Go(u32),
    Exit,
    Read(u32),
    Write(u32),
    Send(Option<u32>),
    Recv(Option<u32>),
    Close(Option<u32>),
    // Whether it has a default.
    Select(bool),
    Lock(u32),
    Unlock(u32),
    RLock(u32),
    RUnlock(u32),
    TryLock(u32),
    TryRLock(u32),
    Do(u32),
    EndDo(u32),
}

// A request without its offers.
#[derive(Clone, Copy)]
pub(crate) struct Brief {
    ask: BriefAsk,
    place: u32,
    // What is written or sent; of a select, where its offers stand among those of all selects.
    value: u64,
}

/// A list of requests.
#[derive(Drop)]
pub struct RequestList<A: Allocator = Global> {
    briefs: Vec<Brief, A>,
    // The offers of each select, in order.
    selects: Vec<Offers, A>,
}

impl<A: Allocator> Model for RequestList<A> {
    ghost use Rattle.race_requests.specs.List.{RequestListState};

    ghost Value = { RequestListState };

    ghost use Rattle.race_requests.specs.ListHolds.{list_state, ListHolds};

    ghost view = { list_state };

    ghost invariant = { ListHolds };
}

impl<A: Allocator + Copy> RequestList<A> {
    /// No request. Takes no memory.
    pub fn new(alloc: A) -> RequestList<A>
        ensures { result.items ≡ [] }
    {
        RequestList {
            briefs: Vec::new(alloc),
            selects: Vec::new(alloc),
        }
    }
}

impl<A: Allocator> RequestList<A> {
    /// How many requests there are.
    pub fn len(&self) -> usize
        ensures { result ≡ length self.now.items }
    {
        self.briefs.len()
    }

    /// Request `index`, counted from 0.
    pub fn get(&self, index: usize) -> Request
        requires { index < length self.now.items }
        ensures { slice_get self.now.items index ≡ Some result }
    {
        request_of(self.selects.as_slice(), self.briefs[index])
    }

    /// Makes room for one request more, whichever it is.
    pub fn reserve(&mut self) -> Result<(), AllocError>
        ensures items { self.new.items ≡ self.old.items }
        ensures room { OnOk result (self.new.has_room ≡ true) }
    {
        self.briefs.reserve(1)?;
        self.selects.reserve(1)?;
        Ok(())
    }

    /// Puts a request last. Takes no memory.
    pub fn push_reserved(&mut self, request: Request)
        requires { self.old.has_room ≡ true }
        ensures { self.new.items ≡ self.old.items ++ request ∷ [] }
    {
        put(&mut self.briefs, &mut self.selects, request);
    }

    /// Puts a request last. Takes room for offers only where there are some.
    pub fn push(&mut self, request: Request) -> Result<(), AllocError>
        ensures ok { OnOk result (self.new.items ≡ self.old.items ++ request ∷ []) }
        ensures err { OnErr result (self.new.items ≡ self.old.items) }
    {
        self.briefs.reserve(1)?;
        if is_select(&request.ask) {
            self.selects.reserve(1)?;
        }
        put(&mut self.briefs, &mut self.selects, request);
        Ok(())
    }
}

// Whether it is a select.
fn is_select(ask: &Ask) -> bool
    ensures { result ≡ spec.is_select ask.now }
{
    matches!(ask, Ask::Select(_, _))
}

// Puts a request behind the others, and its offers behind theirs.
fn put<A: Allocator>(briefs: &mut Vec<Brief, A>, selects: &mut Vec<Offers, A>, request: Request)
    requires room { vec_len briefs.old < vec_capacity briefs.old }
    requires offers { spec.is_select request.ask ≡ true → vec_len selects.old < vec_capacity selects.old }
    requires within { AreWithin (length selects.old.items) briefs.old.items }
    ensures requests { map (spec.request_of selects.new.items) briefs.new.items
        ≡ map (spec.request_of selects.old.items) briefs.old.items ++ request ∷ [] }
    ensures within { AreWithin (length selects.new.items) briefs.new.items }
{
    let Request { ask, place } = request;
    let (ask, value) = put_brief(selects, ask);
    briefs.push_reserved(Brief { ask, place, value });
}

// The request that stands there in brief.
fn request_of(selects: &[Offers], brief: Brief) -> Request
    requires { IsWithin (length selects.now) brief.ask brief.value }
    ensures { result ≡ spec.request_of selects.now brief }
{
    Request {
        ask: ask_of(selects, brief.ask, brief.value),
        place: brief.place,
    }
}

// What is asked with this value.
fn ask_of(selects: &[Offers], ask: BriefAsk, value: u64) -> Ask
    requires { IsWithin (length selects.now) ask value }
    ensures { result ≡ spec.ask_of selects.now ask value }
{
    match ask {
        BriefAsk::Go(goroutine) => Ask::Go(goroutine),
        BriefAsk::Exit => Ask::Exit,
        BriefAsk::Read(var) => Ask::Read(var),
        BriefAsk::Write(var) => Ask::Write(var, value),
        BriefAsk::Send(chan) => Ask::Send(chan, value),
        BriefAsk::Recv(chan) => Ask::Recv(chan),
        BriefAsk::Close(chan) => Ask::Close(chan),
        BriefAsk::Select(has_default) => Ask::Select(selects[value as usize].copy(), has_default),
        BriefAsk::Lock(lock) => Ask::Lock(lock),
        BriefAsk::Unlock(lock) => Ask::Unlock(lock),
        BriefAsk::RLock(lock) => Ask::RLock(lock),
        BriefAsk::RUnlock(lock) => Ask::RUnlock(lock),
        BriefAsk::TryLock(lock) => Ask::TryLock(lock),
        BriefAsk::TryRLock(lock) => Ask::TryRLock(lock),
        BriefAsk::Do(once) => Ask::Do(once),
        BriefAsk::EndDo(once) => Ask::EndDo(once),
    }
}

// What is asked in brief, and its value. The offers of a select are put behind those of the others.
fn put_brief<A: Allocator>(selects: &mut Vec<Offers, A>, ask: Ask) -> (BriefAsk, u64)
    requires { spec.is_select ask ≡ true → vec_len selects.old < vec_capacity selects.old }
    ensures selects { selects.new.items ≡ selects.old.items ++ offers_in ask }
    ensures within { IsWithin (length selects.new.items) result.0 result.1 }
    ensures ask { spec.ask_of selects.new.items result.0 result.1 ≡ ask }
{
    match ask {
        Ask::Go(goroutine) => (BriefAsk::Go(goroutine), 0),
        Ask::Exit => (BriefAsk::Exit, 0),
        Ask::Read(var) => (BriefAsk::Read(var), 0),
        Ask::Write(var, value) => (BriefAsk::Write(var), value),
        Ask::Send(chan, value) => (BriefAsk::Send(chan), value),
        Ask::Recv(chan) => (BriefAsk::Recv(chan), 0),
        Ask::Close(chan) => (BriefAsk::Close(chan), 0),
        Ask::Select(offers, has_default) => {
            let at = selects.len() as u64;
            selects.push_reserved(offers);
            (BriefAsk::Select(has_default), at)
        }
        Ask::Lock(lock) => (BriefAsk::Lock(lock), 0),
        Ask::Unlock(lock) => (BriefAsk::Unlock(lock), 0),
        Ask::RLock(lock) => (BriefAsk::RLock(lock), 0),
        Ask::RUnlock(lock) => (BriefAsk::RUnlock(lock), 0),
        Ask::TryLock(lock) => (BriefAsk::TryLock(lock), 0),
        Ask::TryRLock(lock) => (BriefAsk::TryRLock(lock), 0),
        Ask::Do(once) => (BriefAsk::Do(once), 0),
        Ask::EndDo(once) => (BriefAsk::EndDo(once), 0),
    }
}
