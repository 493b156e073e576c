//! What can be declared, and the numbers by which events name it.
ghost use Rattle.std.specs.Prelude.{◌≡◌};
ghost use Rattle.race_records.specs.Declarations as spec;

/// The most goroutines of a trace, main included.
pub const MAX_GOROUTINES: u32 = 1024;

/// The most variables, channels, locks and onces of a trace, of each.
pub const MAX_OBJECTS: u32 = 65_535;

/// The greatest capacity of a channel.
pub const MAX_CAPACITY: u32 = 65_535;

// Definitions cite these numbers, so each is written down twice.
const _: () = prove!(MAX_GOROUTINES == 1024 && MAX_OBJECTS == 65_535 && MAX_CAPACITY == 65_535);

/// The kinds of things that a trace declares.
#[derive(Clone, Copy, Debug, PartialEq, Eq)]
pub enum Kind {
    /// Goroutines, main among them.
    Goroutine,
    /// Variables.
    Var,
    /// Channels.
    Chan,
    /// Mutexes and rwmutexes.
    Lock,
    /// Onces.
    Once,
}

impl Kind {
    /// The most of this kind that a trace can have, main among the goroutines.
    pub fn limit(self) -> u32
        ensures { result ≡ spec.limit_of self }
    {
        match self {
            Kind::Goroutine => MAX_GOROUTINES,
            _ => MAX_OBJECTS,
        }
    }

    // The number of the first one that is declared: main is goroutine 0 and isn't declared.
    pub(crate) fn first_number(self) -> u32
        ensures { result ≡ spec.first_number self }
    {
        match self {
            Kind::Goroutine => 1,
            _ => 0,
        }
    }
}

/// One declared thing: its kind, and its number among those of its kind.
#[derive(Clone, Copy, Debug, PartialEq, Eq)]
pub enum Named {
    /// A goroutine; main is 0.
    Goroutine(u32),
    /// A variable.
    Var(u32),
    /// A channel.
    Chan(u32),
    /// A mutex or an rwmutex.
    Lock(u32),
    /// A once.
    Once(u32),
}

impl Named {
    /// The kind of what is named.
    pub fn kind(self) -> Kind
        ensures { result ≡ spec.kind_of_named self }
    {
        match self {
            Named::Goroutine(_) => Kind::Goroutine,
            Named::Var(_) => Kind::Var,
            Named::Chan(_) => Kind::Chan,
            Named::Lock(_) => Kind::Lock,
            Named::Once(_) => Kind::Once,
        }
    }

    /// Whether it is of the kind.
    #[inline(always)]
    pub fn is_of(self, kind: Kind) -> bool
        ensures { result ≡ spec.is_named kind self }
    {
        match (kind, self) {
            (Kind::Goroutine, Named::Goroutine(_)) => true,
            (Kind::Var, Named::Var(_)) => true,
            (Kind::Chan, Named::Chan(_)) => true,
            (Kind::Lock, Named::Lock(_)) => true,
            (Kind::Once, Named::Once(_)) => true,
            _ => false,
        }
    }

    /// Its number among those of its kind.
    pub fn number(self) -> u32
        ensures { result ≡ spec.number_of self }
    {
        match self {
            Named::Goroutine(number) => number,
            Named::Var(number) => number,
            Named::Chan(number) => number,
            Named::Lock(number) => number,
            Named::Once(number) => number,
        }
    }
}

/// What a declaration says beside the name.
#[derive(Clone, Copy, PartialEq, Eq)]
pub enum Object {
    /// A goroutine.
    Goroutine,
    /// A variable, 0 at first.
    Var,
    /// A channel of this capacity.
    Chan(u32),
    /// An rwmutex where true, else a mutex.
    Lock(bool),
    /// A once.
    Once,
}

impl Object {
    /// The kind of what is declared.
    pub fn kind(self) -> Kind
        ensures { result ≡ spec.kind_of self }
    {
        match self {
            Object::Goroutine => Kind::Goroutine,
            Object::Var => Kind::Var,
            Object::Chan(_) => Kind::Chan,
            Object::Lock(_) => Kind::Lock,
            Object::Once => Kind::Once,
        }
    }

    // The object of this number.
    pub(crate) fn named(self, number: u32) -> Named
        ensures { result ≡ spec.named self number }
    {
        match self {
            Object::Goroutine => Named::Goroutine(number),
            Object::Var => Named::Var(number),
            Object::Chan(_) => Named::Chan(number),
            Object::Lock(_) => Named::Lock(number),
            Object::Once => Named::Once(number),
        }
    }

    // How many values fit into what is declared, where it is a channel.
    pub(crate) fn width(self) -> u32
        ensures { result ≡ spec.width_of self }
    {
        match self {
            Object::Chan(capacity) => capacity,
            _ => 0,
        }
    }

    // Whether what is declared is an rwmutex.
    pub(crate) fn is_rwmutex(self) -> bool
        ensures { result ≡ spec.is_rwmutex self }
    {
        match self {
            Object::Lock(rw) => rw,
            _ => false,
        }
    }

    // Whether a channel's capacity is over its limit.
    pub(crate) fn is_too_wide(self) -> bool
        ensures { result ≡ spec.is_too_wide self }
    {
        match self {
            Object::Chan(capacity) => capacity > MAX_CAPACITY,
            Object::Goroutine => false,
            Object::Var => false,
            Object::Lock(_) => false,
            Object::Once => false,
        }
    }
}
