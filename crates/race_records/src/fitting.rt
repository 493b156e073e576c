//! Which events fit their declarations.
ghost use Rattle.std.specs.{Prelude.{◌≡◌, length, IsTrue}, List.list_all};
ghost use Rattle.race_records.specs.Operands.{operand_fits, named_is_in_range, chan_is_in_range};
ghost use Rattle.race_records.specs.Declarations as spec;
ghost use Rattle.race_records.specs.Events as events;

use crate::{Cases, Cause, Decls, Event, Kind, Named, Op, Operand, failed_at, rwmutex_of, says};
use std::alloc::Allocator;

impl<A: Allocator> Decls<A> {
    /// Whether all numbers of the event are declared, each of the kind that it stands for, a
    /// second place is there exactly where its operation has one, the version has the operation, and
    /// a lock is an rwmutex where the operation wants one.
    #[tactic(auto, unfolding(crate::specs::Events::fits))]
    pub fn fits(&self, event: &Event) -> bool
        ensures { result ≡ events.fits self.now event.now }
    {
        self.is_in_range(event) && self.is_right_kind(&event.op)
    }

    // Whether all numbers of the event are in range, and a second place is there exactly where its
    // operation has one.
    pub(crate) fn is_in_range(&self, event: &Event) -> bool
        ensures { result ≡ events.is_in_range self.now event.now }
    {
        let (keyword, operands) = says(&event.op);
        event.who < self.count(Kind::Goroutine)
            && self.operands_fit(operands.as_slice())
            && event.place < self.place_count()
            && self.second_place_fits(keyword.has_two_places(), event.place2)
    }

    // Whether the operation is one of this version, and its lock is an rwmutex where it wants one.
    pub(crate) fn is_right_kind(&self, op: &Op) -> bool
        requires { IsTrue (events.op_fits self.now.declarations op.now) }
        ensures { result ≡ events.is_right_kind self.now op.now }
    {
        let (keyword, _operands) = says(op);
        self.version().has(keyword) && self.lock_fits(op)
    }

    // Whether the lock is an rwmutex, where the operation wants one.
    fn lock_fits(&self, op: &Op) -> bool
        requires { IsTrue (events.op_fits self.now.declarations op.now) }
        ensures { result ≡ events.lock_fits self.now.declarations op.now }
    {
        match rwmutex_of(op) {
            None => true,
            Some(lock) => self.is_rw(lock),
        }
    }

    // Whether the second place is there just where there have to be two, and in range then.
    fn second_place_fits(&self, two: bool, place: Option<u32>) -> bool
        ensures { result ≡ events.second_place_fits (length self.now.places) two place }
    {
        match place {
            None => !two,
            Some(place) => two && place < self.place_count(),
        }
    }

    fn operands_fit(&self, operands: &[Operand]) -> bool
        ensures { result ≡ list_all (operand_fits self.now.declarations) operands.now }
    {
        operands.iter().all(|operand| self.operand_fits(operand))
    }

    fn operand_fits(&self, operand: &Operand) -> bool
        ensures { result ≡ operand_fits self.now.declarations operand.now }
    {
        match operand {
            Operand::Object(named) => self.is_declared(*named),
            Operand::Value(_) => true,
            Operand::Cases(cases) => self.cases_fit(cases),
            Operand::Cause(cause) => self.cause_fits(*cause),
        }
    }

    fn is_declared(&self, named: Named) -> bool
        ensures { result ≡ named_is_in_range (spec.counts_of self.now.declarations) named }
    {
        named.number() < self.count(named.kind())
    }

    // Whether the object at which the run failed is nil or declared.
    fn cause_fits(&self, cause: Cause) -> bool
        ensures { result ≡ operand_fits self.now.declarations (Operand.Cause cause) }
    {
        match failed_at(cause) {
            None => true,
            Some(named) => self.is_declared(named),
        }
    }

    // Whether the channel of each case is nil or declared.
    fn cases_fit(&self, cases: &Cases) -> bool
        ensures { result ≡ operand_fits self.now.declarations (Operand.Cases cases.now) }
    {
        for k in 0..cases.len() {
            if !self.chan_fits(cases.get(k).chan) {
                return false;
            }
        }
        true
    }

    fn chan_fits(&self, chan: Option<u32>) -> bool
        ensures { result ≡ chan_is_in_range (spec.count_of Kind.Chan self.now.declarations) chan }
    {
        match chan {
            None => true,
            Some(chan) => chan < self.count(Kind::Chan),
        }
    }
}
