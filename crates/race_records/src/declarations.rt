//! The declarations of a trace, and its table of places.
ghost use Rattle.std.specs.Prelude.{◌≡◌, ◌<◌, ◌≤◌, ◌↔◌, ℕ, [], length, take, IsTrue, true, false, Some, None};
ghost use Rattle.std.specs.{Prelude.{slice_get, IsOk, IfSome, IfNone, OnSome, IfOk, OnOk, OnErr}, List.list_all};
ghost use Rattle.std.specs.Str.{bytes_eq};
ghost use Rattle.race_records.specs.{Name.is_place_byte, Refusal.{Refuses, AllowsUnless}};
ghost use Rattle.race_records.specs.Declarations as spec;

use crate::indexes::Indexes;
use crate::names::{Names, Slot};
use crate::places::Places;
use crate::{Kind, Named, Object, Version, as_text, is_name, is_place};
use std::alloc::{AllocError, Allocator, Global};
use std::marker::Model;
use thiserror::Error;

/// The most different places of a trace.
pub const MAX_PLACES: u32 = 33_554_432;

// Definitions cite this number, so it is written down twice.
const _: () = prove!(MAX_PLACES == 33_554_432);

/// Why a declaration or a place was refused. The first that holds is told.
#[derive(Clone, Copy, Debug, PartialEq, Eq, Error)]
pub enum DeclFault {
    /// The word hasn't the form of a name or of a place.
    #[error("the word is malformed")]
    BadName,
    /// The name is declared, or is `main`.
    #[error("the name is taken")]
    Taken,
    /// There are as many of the kind, or as many places, as a trace can have.
    #[error("there are too many")]
    TooMany,
    /// The capacity is over 65,535.
    #[error("the capacity is too large")]
    BadCapacity,
    /// A growth was refused.
    #[error("out of memory")]
    OutOfMemory,
}

/// A list of declarations in order, a table of places, and the version of the text that they are for.
///
/// The number of an object is the count of objects of its kind that were declared before it;
/// goroutines count from 1, since `main` is 0 and isn't declared. All kinds share one table of
/// names. Each look-up costs the same however many names and places there are, unless they were
/// chosen by who knows the key of their hashes.
pub struct Decls<A: Allocator = Global> {
    version: Version,
    names: Names<A>,
    indexes: Indexes<A>,
    places: Places<A>,
}

impl<A: Allocator> Drop for Decls<A> {
    fn drop(self) {
        let Decls {
            version: _,
            names: _,
            indexes: _,
            places: _,
        } = self;
    }
}

impl<A: Allocator> Model for Decls<A> {
    ghost use Rattle.race_records.specs.Declarations.{DeclsState};

    ghost Value = { DeclsState };

    ghost use Rattle.race_records.specs.DeclsHold.{decls_state, DeclsHold};

    ghost view = { decls_state };

    ghost invariant = { DeclsHold };
}

impl<A: Allocator> Decls<A> {
    /// No declaration and no place, for a text of version 1. Takes no memory.
    pub fn new(alloc: A) -> Decls<A>
    where
        A: Copy,
        ensures version { result.version ≡ Version.One }
        ensures declarations { result.declarations ≡ [] }
        ensures places { result.places ≡ [] }
    {
        Decls::keyed(alloc, Version::One, 0)
    }

    /// No declaration and no place, for a text of version 2. Takes no memory.
    pub fn new_version2(alloc: A) -> Decls<A>
    where
        A: Copy,
        ensures version { result.version ≡ Version.Two }
        ensures declarations { result.declarations ≡ [] }
        ensures places { result.places ≡ [] }
    {
        Decls::keyed(alloc, Version::Two, 0)
    }

    /// No declaration and no place, for a text of this version. Takes no memory.
    ///
    /// The key changes no answer: by it names and places are hashed. Where somebody else writes the text, it should be secret,
    /// since who knows it can choose names of which each look-up costs as much as there are names. `new` has the key 0.
    pub fn keyed(alloc: A, version: Version, key: u64) -> Decls<A>
    where
        A: Copy,
        ensures version { result.version ≡ version }
        ensures declarations { result.declarations ≡ [] }
        ensures places { result.places ≡ [] }
    {
        Decls {
            version,
            names: Names::new(alloc, key),
            indexes: Indexes::new(alloc),
            places: Places::new(alloc, key),
        }
    }

    pub(crate) fn allocator(&self) -> &A
        ensures well_formed { spec.IsWellFormed self.now }
    {
        self.places.allocator()
    }

    /// The version of the text that the declarations are for.
    pub fn version(&self) -> Version
        ensures { result ≡ self.now.version }
    {
        self.version
    }

    /// How many declarations there are.
    pub fn len(&self) -> usize
        ensures len { result ≡ length self.now.declarations }
        ensures well_formed { spec.IsWellFormed self.now }
    {
        self.names.len()
    }

    /// Whether nothing is declared.
    pub fn is_empty(&self) -> bool
        ensures { IsTrue result ↔ (self.now.declarations ≡ []) }
    {
        self.len() == 0
    }

    /// What declaration `i` declares, counted from 0.
    pub fn declared(&self, i: usize) -> Named
        requires { i < length self.now.declarations }
        ensures { spec.declared_at self.now.declarations i ≡ Some result }
    {
        let slot = self.names.slot(i);
        slot.object.named(slot.number)
    }

    /// What declaration `i` declares, and the name, counted from 0.
    pub fn declaration(&self, i: usize) -> (Object, &str)
        requires { i < length self.now.declarations }
        ensures { slice_get self.now.declarations i ≡ Some (record { name = result.1.now; object = result.0 }) }
    {
        (self.names.slot(i).object, self.names.name(i))
    }

    /// What the name stands for; `main` is goroutine 0.
    pub fn find(&self, name: &str) -> Option<Named>
        ensures { result ≡ spec.find_name self.now.declarations name.now }
    {
        if name == "main" {
            return Some(Named::Goroutine(0));
        }
        match self.names.find(name) {
            Some(slot) => Some(slot.object.named(slot.number)),
            None => None,
        }
    }

    /// What the name stands for that the first `len` of these bytes are, as [`Decls::find`] tells it.
    ///
    /// There are so many bytes, and each of them is one of a place (33 to 126). It is faster for a name of at
    /// most 16 bytes, and most where 16 bytes are there.
    #[inline(always)]
    pub fn find_at(&self, bytes: &[u8], len: usize) -> Option<Named>
        requires len { len ≤ length bytes.now }
        requires visible { list_all is_place_byte (take len bytes.now) ≡ true }
        ensures { result ≡ spec.find_name self.now.declarations (take len bytes.now) }
    {
        if let Some(slot) = self.names.find_short(bytes, len) {
            return Some(slot.object.named(slot.number));
        }
        self.find(as_text(&bytes[..len]))
    }

    /// How many of the kind there are, main counted.
    pub fn count(&self, kind: Kind) -> u32
        ensures count { result ≡ spec.count_of kind self.now.declarations }
        ensures limited { result ≤ spec.limit_of kind }
    {
        kind.first_number() + self.indexes.len(kind) as u32
    }

    /// How many values fit into a channel.
    pub fn capacity(&self, chan: u32) -> u32
        requires { chan < spec.count_of Kind.Chan self.now.declarations }
        ensures { result ≡ spec.capacity_of self.now.declarations chan }
    {
        let index = self.indexes.get(Kind::Chan, chan as usize);
        self.names.slot(index).object.width()
    }

    /// Whether a lock is an rwmutex, and no mutex.
    pub fn is_rw(&self, lock: u32) -> bool
        requires { lock < spec.count_of Kind.Lock self.now.declarations }
        ensures { result ≡ spec.is_rw self.now.declarations lock }
    {
        let index = self.indexes.get(Kind::Lock, lock as usize);
        self.names.slot(index).object.is_rwmutex()
    }

    /// The name by which an object was declared, or `main`.
    pub fn name(&self, named: Named) -> &str
        requires { spec.IsDeclared self.now.declarations named }
        ensures { spec.name_of self.now.declarations named ≡ Some result.now }
    {
        match named {
            Named::Goroutine(0) => "main",
            Named::Goroutine(g) => self.nth_name(Kind::Goroutine, g as usize - 1),
            Named::Var(x) => self.nth_name(Kind::Var, x as usize),
            Named::Chan(c) => self.nth_name(Kind::Chan, c as usize),
            Named::Lock(l) => self.nth_name(Kind::Lock, l as usize),
            Named::Once(o) => self.nth_name(Kind::Once, o as usize),
        }
    }

    // The name of the nth declaration of the kind.
    fn nth_name(&self, kind: Kind, n: usize) -> &str
        requires { n < length (spec.of_kind kind self.now.declarations) }
        ensures { spec.nth_name kind self.now.declarations n ≡ Some result.now }
    {
        self.names.name(self.indexes.get(kind, n))
    }

    /// How many places there are.
    pub fn place_count(&self) -> u32
        ensures { result ≡ length self.now.places }
    {
        self.places.len() as u32
    }

    /// The text of a place.
    pub fn place_text(&self, place: u32) -> &str
        requires { place < length self.now.places }
        ensures { slice_get self.now.places place ≡ Some result.now }
    {
        self.places.get(place as usize)
    }
}

impl<A: Allocator + Copy> Decls<A> {
    /// Declares a goroutine beside main, and gives its number. The first has number 1.
    pub fn add_goroutine(&mut self, name: &str) -> Result<u32, DeclFault>
        ensures refused { Refuses (spec.decl_fault self.old.declarations Object.Goroutine name.now)
            result }
        ensures allowed { AllowsUnless
            (spec.decl_fault self.old.declarations Object.Goroutine name.now) result DeclFault.OutOfMemory }
        ensures number { IfOk result (λ n. n ≡ spec.count_of Kind.Goroutine self.old.declarations) }
        ensures added { OnOk result (self.new ≡
            spec.with_declaration self.old name.now Object.Goroutine) }
        ensures err { OnErr result (self.new ≡ self.old) }
    {
        self.declare(name, Object::Goroutine)
    }

    /// Declares a variable, 0 at first, and gives its number.
    pub fn add_var(&mut self, name: &str) -> Result<u32, DeclFault>
        ensures refused { Refuses (spec.decl_fault self.old.declarations Object.Var name.now)
            result }
        ensures allowed { AllowsUnless (spec.decl_fault self.old.declarations Object.Var name.now)
            result DeclFault.OutOfMemory }
        ensures number { IfOk result (λ n. n ≡ spec.count_of Kind.Var self.old.declarations) }
        ensures added { OnOk result (self.new ≡
            spec.with_declaration self.old name.now Object.Var) }
        ensures err { OnErr result (self.new ≡ self.old) }
    {
        self.declare(name, Object::Var)
    }

    /// Declares a channel into which this many values fit, and gives its number.
    pub fn add_chan(&mut self, name: &str, capacity: u32) -> Result<u32, DeclFault>
        ensures refused { Refuses
            (spec.decl_fault self.old.declarations (Object.Chan capacity) name.now) result }
        ensures allowed { AllowsUnless
            (spec.decl_fault self.old.declarations (Object.Chan capacity) name.now) result
            DeclFault.OutOfMemory }
        ensures number { IfOk result (λ n. n ≡ spec.count_of Kind.Chan self.old.declarations) }
        ensures added { OnOk result (self.new ≡
            spec.with_declaration self.old name.now (Object.Chan capacity)) }
        ensures err { OnErr result (self.new ≡ self.old) }
    {
        self.declare(name, Object::Chan(capacity))
    }

    /// Declares an rwmutex where `rw` is true, else a mutex, and gives its number.
    pub fn add_lock(&mut self, name: &str, rw: bool) -> Result<u32, DeclFault>
        ensures refused { Refuses
            (spec.decl_fault self.old.declarations (Object.Lock rw) name.now) result }
        ensures allowed { AllowsUnless
            (spec.decl_fault self.old.declarations (Object.Lock rw) name.now) result
            DeclFault.OutOfMemory }
        ensures number { IfOk result (λ n. n ≡ spec.count_of Kind.Lock self.old.declarations) }
        ensures added { OnOk result (self.new ≡
            spec.with_declaration self.old name.now (Object.Lock rw)) }
        ensures err { OnErr result (self.new ≡ self.old) }
    {
        self.declare(name, Object::Lock(rw))
    }

    /// Declares a once, and gives its number.
    pub fn add_once(&mut self, name: &str) -> Result<u32, DeclFault>
        ensures refused { Refuses (spec.decl_fault self.old.declarations Object.Once name.now)
            result }
        ensures allowed { AllowsUnless (spec.decl_fault self.old.declarations Object.Once name.now)
            result DeclFault.OutOfMemory }
        ensures number { IfOk result (λ n. n ≡ spec.count_of Kind.Once self.old.declarations) }
        ensures added { OnOk result (self.new ≡
            spec.with_declaration self.old name.now Object.Once) }
        ensures err { OnErr result (self.new ≡ self.old) }
    {
        self.declare(name, Object::Once)
    }

    /// Declares the object under the name, and gives its number.
    pub fn declare(&mut self, name: &str, object: Object) -> Result<u32, DeclFault>
        ensures refused { Refuses (spec.decl_fault self.old.declarations object name.now) result }
        ensures allowed { AllowsUnless (spec.decl_fault self.old.declarations object name.now)
            result DeclFault.OutOfMemory }
        ensures number { IfOk result (λ n. n ≡
            spec.count_of (spec.kind_of object) self.old.declarations) }
        ensures added { OnOk result (self.new ≡ spec.with_declaration self.old name.now object) }
        ensures err { OnErr result (self.new ≡ self.old) }
    {
        match self.fault_of(name, object) {
            Some(fault) => Err(fault),
            None => match self.append(name, object) {
                Ok(number) => Ok(number),
                Err(_) => Err(DeclFault::OutOfMemory),
            },
        }
    }

    // Why the declaration is refused, memory aside.
    #[tactic(auto, unfolding(crate::specs::Declarations::decl_fault))]
    fn fault_of(&self, name: &str, object: Object) -> Option<DeclFault>
        ensures { result ≡ spec.decl_fault self.now.declarations object name.now }
    {
        if !is_name(name.as_bytes()) {
            return Some(DeclFault::BadName);
        }
        if self.find(name).is_some() {
            return Some(DeclFault::Taken);
        }
        if self.count(object.kind()) >= object.kind().limit() {
            return Some(DeclFault::TooMany);
        }
        if object.is_too_wide() {
            return Some(DeclFault::BadCapacity);
        }
        None
    }

    // Puts an allowed declaration last. The table of names grows last, so that a refusal there
    // has only the index to take back.
    fn append(&mut self, name: &str, object: Object) -> Result<u32, AllocError>
        requires { spec.decl_fault self.old.declarations object name.now ≡ None }
        ensures number { IfOk result (λ n. n ≡
            spec.count_of (spec.kind_of object) self.old.declarations) }
        ensures added { OnOk result (self.new ≡ spec.with_declaration self.old name.now object) }
        ensures err { OnErr result (self.new ≡ self.old) }
    {
        let kind = object.kind();
        let number = self.count(kind);
        self.indexes.push(kind, self.names.len())?;
        match self.names.push(name, Slot { object, number }) {
            Ok(()) => Ok(number),
            Err(refused) => {
                self.indexes.undo_push(kind);
                Err(refused)
            }
        }
    }

    /// Gives the number of the place, which is added where it is new. A place that is known
    /// takes no memory.
    pub fn add_place(&mut self, text: &str) -> Result<u32, DeclFault>
        ensures refused { Refuses (spec.place_fault self.old.places text.now) result }
        ensures allowed { AllowsUnless (spec.place_fault self.old.places text.now)
            result DeclFault.OutOfMemory }
        ensures known { spec.is_known self.old.places text.now ≡ true → IsOk result }
        ensures number { IfOk result (λ n. n ≡ spec.place_number self.old.places text.now) }
        ensures added { OnOk result (self.new ≡ spec.with_place self.old text.now) }
        ensures err { OnErr result (self.new ≡ self.old) }
    {
        // First the look-up: in a long trace most places are known, and those are well formed.
        if let Some(number) = self.known_place(text) {
            return Ok(number);
        }
        if let Some(fault) = self.new_place_fault(text) {
            return Err(fault);
        }
        match self.append_place(text) {
            Ok(number) => Ok(number),
            Err(_) => Err(DeclFault::OutOfMemory),
        }
    }

    // The number of a place that is in the table.
    fn known_place(&self, text: &str) -> Option<u32>
        ensures allowed { OnSome result (spec.place_fault self.now.places text.now ≡ None) }
        ensures number { IfSome result (λ n. n ≡ spec.place_number self.now.places text.now) }
        ensures same { OnSome result (spec.with_place self.now text.now ≡ self.now) }
        ensures absent { IfNone result (spec.is_known self.now.places text.now ≡ false) }
    {
        match self.places.index_of(text) {
            Some(index) => Some(index as u32),
            None => None,
        }
    }

    // Why a place that isn't in the table is refused, memory aside.
    #[tactic(auto, unfolding(crate::specs::Declarations::place_fault))]
    fn new_place_fault(&self, text: &str) -> Option<DeclFault>
        requires { spec.is_known self.now.places text.now ≡ false }
        ensures { result ≡ spec.place_fault self.now.places text.now }
    {
        if !is_place(text.as_bytes()) {
            return Some(DeclFault::BadName);
        }
        if self.place_count() >= MAX_PLACES {
            return Some(DeclFault::TooMany);
        }
        None
    }

    // Puts an allowed place last.
    fn append_place(&mut self, text: &str) -> Result<u32, AllocError>
        requires new { spec.is_known self.old.places text.now ≡ false }
        requires allowed { spec.place_fault self.old.places text.now ≡ None }
        ensures number { IfOk result (λ n. n ≡ spec.place_number self.old.places text.now) }
        ensures added { OnOk result (self.new ≡ spec.with_place self.old text.now) }
        ensures err { OnErr result (self.new ≡ self.old) }
    {
        let number = self.place_count();
        self.places.push(text)?;
        Ok(number)
    }

    /// An equal one, with the same version and places. Fails for want of memory alone.
    pub fn copy(&self) -> Result<Decls<A>, AllocError>
        ensures { IfOk result (λ copy. copy ≡ self.now) }
    {
        Ok(Decls {
            version: self.version,
            names: self.names.copy()?,
            indexes: self.indexes.copy()?,
            places: self.places.copy()?,
        })
    }
}

/// Equal where the versions and the declarations are; places don't count.
impl<A: Allocator> PartialEq for Decls<A> {
    ghost use Rattle.std.specs.Prelude.{◌≡◌, ◌↔◌, IsTrue};
    ghost use Rattle.race_records.specs.Equality.{declared, same_decls, same_decls_laws};

    ghost eq = { same_decls };

    ghost laws = { same_decls_laws };

    fn eq(&self, other: &Decls<A>) -> bool
        ensures eq { result ≡ same_decls self.now other.now }
        ensures same { IsTrue result ↔ (declared self.now ≡ declared other.now) }
    {
        if !self.version.is_same(other.version) {
            return false;
        }
        self.names.declare_alike(&other.names)
    }
}
