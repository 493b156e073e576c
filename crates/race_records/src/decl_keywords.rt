//! What a declaration says: its word, and the number behind the name where it has one.
ghost use Rattle.std.specs.Prelude.{◌≡◌};
ghost use Rattle.race_records.specs.DeclKeywords as spec;

use crate::{Kind, MAX_CAPACITY, Object};

/// The words of declarations.
#[derive(Clone, Copy, PartialEq, Eq)]
pub enum DeclKeyword {
    /// A goroutine beside main.
    Goroutine,
    /// A variable.
    Var,
    /// A channel.
    Chan,
    /// A mutex.
    Mutex,
    /// An rwmutex.
    RwMutex,
    /// A once.
    Once,
}

impl DeclKeyword {
    /// The kind of what the word declares.
    pub fn kind(self) -> Kind
        ensures { result ≡ spec.kind_of_decl_keyword self }
    {
        match self {
            DeclKeyword::Goroutine => Kind::Goroutine,
            DeclKeyword::Var => Kind::Var,
            DeclKeyword::Chan => Kind::Chan,
            DeclKeyword::Mutex => Kind::Lock,
            DeclKeyword::RwMutex => Kind::Lock,
            DeclKeyword::Once => Kind::Once,
        }
    }

    /// The limit of the number behind the name, where there is one: a channel's capacity.
    pub fn number_limit(self) -> Option<u32>
        ensures { result ≡ spec.number_limit self }
    {
        match self {
            DeclKeyword::Chan => Some(MAX_CAPACITY),
            _ => None,
        }
    }
}

/// What the declaration of an object says.
pub fn object_says(object: Object) -> (DeclKeyword, Option<u32>)
    ensures { result ≡ spec.object_says object }
{
    match object {
        Object::Goroutine => (DeclKeyword::Goroutine, None),
        Object::Var => (DeclKeyword::Var, None),
        Object::Chan(capacity) => (DeclKeyword::Chan, Some(capacity)),
        Object::Lock(false) => (DeclKeyword::Mutex, None),
        Object::Lock(true) => (DeclKeyword::RwMutex, None),
        Object::Once => (DeclKeyword::Once, None),
    }
}

/// The object whose declaration says so, where there is one.
pub fn object_by(keyword: DeclKeyword, number: Option<u32>) -> Option<Object>
    ensures { result ≡ spec.object_by keyword number }
{
    match (keyword, number) {
        (DeclKeyword::Goroutine, None) => Some(Object::Goroutine),
        (DeclKeyword::Var, None) => Some(Object::Var),
        (DeclKeyword::Chan, Some(capacity)) => Some(Object::Chan(capacity)),
        (DeclKeyword::Mutex, None) => Some(Object::Lock(false)),
        (DeclKeyword::RwMutex, None) => Some(Object::Lock(true)),
        (DeclKeyword::Once, None) => Some(Object::Once),
        _ => None,
    }
}
