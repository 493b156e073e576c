use race_records::{DeclFault, Decls, Kind, Named, Object, Version, is_name, is_place};
use std::alloc::Global;
use std::test::Fail;

// A check of these tests takes long where a function carries much from call to call. So each public
// call stands once, most in functions without a contract, and a test is a loop over a table that stands
// apart, with one assertion. Each place where a function lets go of declarations or of a trace costs
// seconds, so most functions borrow them.

static WORDS: [(&str, bool, bool); 11] = [
    ("w", true, true),
    ("_9", true, true),
    ("", false, false),
    ("nil", false, true),
    ("nile", true, true),
    ("a.go:1", false, true),
    ("two words", false, false),
    ("~!", false, true),
    ("\u{7f}", false, false),
    // 64 letters, and 65.
    (
        "abcdefghijklmnopqrstuvwxyzABCDEFGHIJKLMNOPQRSTUVWXYZ0123456789__",
        true,
        true,
    ),
    (
        "abcdefghijklmnopqrstuvwxyzABCDEFGHIJKLMNOPQRSTUVWXYZ0123456789__x",
        false,
        true,
    ),
];

#[test]
fn words_have_forms(rt: HostRuntime) {
    for (word, name, place) in &WORDS {
        let bytes = word.as_bytes();
        assert_eq!(rt;
            (is_name(bytes), is_place(bytes)),
            (*name, *place),
            "{word}"
        );
    }
}

/// What is added to declarations.
#[derive(Clone, Copy, Debug)]
pub(crate) enum Addition {
    Goroutine(&'static str),
    Var(&'static str),
    Chan(&'static str, u32),
    Lock(&'static str, bool),
    Once(&'static str),
    Place(&'static str),
}

pub(crate) fn add(decls: &mut Decls, addition: Addition) -> Result<u32, DeclFault> {
    match addition {
        Addition::Goroutine(name) => decls.add_goroutine(name),
        Addition::Var(name) => decls.add_var(name),
        Addition::Chan(name, capacity) => decls.add_chan(name, capacity),
        Addition::Lock(name, rw) => decls.add_lock(name, rw),
        Addition::Once(name) => decls.add_once(name),
        Addition::Place(place) => decls.add_place(place),
    }
}

// Declarations to which all this is added.
pub(crate) fn declared(alloc: Global, additions: &[Addition]) -> Result<Decls, DeclFault> {
    let mut decls = Decls::new(alloc);
    add_all(&mut decls, additions)?;
    Ok(decls)
}

/// The same of version 2.
pub(crate) fn declared_of_version2(alloc: Global, additions: &[Addition]) -> Result<Decls, Fail> {
    let mut decls = Decls::new_version2(alloc);
    add_all(&mut decls, additions)?;
    Ok(decls)
}

fn add_all(decls: &mut Decls, additions: &[Addition]) -> Result<(), DeclFault> {
    for addition in additions {
        add(decls, *addition)?;
    }
    Ok(())
}

// How many values fit into the channel, where there is one.
fn capacity(decls: &Decls, chan: u32) -> Option<u32> {
    if chan < decls.count(Kind::Chan) {
        Some(decls.capacity(chan))
    } else {
        None
    }
}

// How many declarations there are, and how many goroutines, variables and places, and how many values
// fit into the first channel.
fn sizes(decls: &Decls) -> (usize, u32, u32, u32, Option<u32>) {
    (
        decls.len(),
        decls.count(Kind::Goroutine),
        decls.count(Kind::Var),
        decls.place_count(),
        capacity(decls, 0),
    )
}

static ADDITIONS: [(
    Addition,
    Result<u32, DeclFault>,
    (usize, u32, u32, u32, Option<u32>),
); 17] = [
    (
        Addition::Var("main"),
        Err(DeclFault::Taken),
        (0, 1, 0, 0, None),
    ),
    // The name is looked at first, then the capacity.
    (
        Addition::Chan("nil", 70_000),
        Err(DeclFault::BadName),
        (0, 1, 0, 0, None),
    ),
    (
        Addition::Chan("c", 65_536),
        Err(DeclFault::BadCapacity),
        (0, 1, 0, 0, None),
    ),
    (
        Addition::Chan("c", 65_535),
        Ok(0),
        (1, 1, 0, 0, Some(65_535)),
    ),
    (Addition::Goroutine("w"), Ok(1), (2, 2, 0, 0, Some(65_535))),
    (Addition::Var("x"), Ok(0), (3, 2, 1, 0, Some(65_535))),
    (
        Addition::Var("w"),
        Err(DeclFault::Taken),
        (3, 2, 1, 0, Some(65_535)),
    ),
    (
        Addition::Goroutine("nil"),
        Err(DeclFault::BadName),
        (3, 2, 1, 0, Some(65_535)),
    ),
    (Addition::Goroutine("v"), Ok(2), (4, 3, 1, 0, Some(65_535))),
    (Addition::Var("y"), Ok(1), (5, 3, 2, 0, Some(65_535))),
    (Addition::Chan("d", 0), Ok(1), (6, 3, 2, 0, Some(65_535))),
    (
        Addition::Chan("c", 70_000),
        Err(DeclFault::Taken),
        (6, 3, 2, 0, Some(65_535)),
    ),
    (
        Addition::Lock("c", true),
        Err(DeclFault::Taken),
        (6, 3, 2, 0, Some(65_535)),
    ),
    (
        Addition::Once("nil"),
        Err(DeclFault::BadName),
        (6, 3, 2, 0, Some(65_535)),
    ),
    (Addition::Place("a.go:1"), Ok(0), (6, 3, 2, 1, Some(65_535))),
    (Addition::Place("b.go:1"), Ok(1), (6, 3, 2, 2, Some(65_535))),
    (Addition::Place("a.go:1"), Ok(0), (6, 3, 2, 2, Some(65_535))),
];

#[test]
fn declares_in_order(rt: HostRuntime) {
    let mut decls = Decls::new(rt.alloc());
    for (addition, number, after) in &ADDITIONS {
        let answer = add(&mut decls, *addition);
        assert_eq!(rt; (answer, sizes(&decls)), (*number, *after), "{addition:?}");
    }
}

// Two goroutines, two variables, a mutex, an rwmutex and a once.
static SEVEN: [Addition; 7] = [
    Addition::Goroutine("w"),
    Addition::Var("x"),
    Addition::Goroutine("v"),
    Addition::Var("y"),
    Addition::Lock("m", false),
    Addition::Once("o"),
    Addition::Lock("l", true),
];

// What the name stands for, and the name of that.
fn found<'a>(decls: &'a Decls, name: &str) -> Option<(Named, &'a str)> {
    let named = decls.find(name)?;
    if named.number() < decls.count(named.kind()) {
        Some((named, decls.name(named)))
    } else {
        Some((named, ""))
    }
}

// What stands at the index, and how it is declared.
fn declared_at(decls: &Decls, index: usize) -> Option<(Named, Object, &str)> {
    if index < decls.len() {
        let (object, name) = decls.declaration(index);
        Some((decls.declared(index), object, name))
    } else {
        None
    }
}

// Of each of the seven, and of two names more: what is found by the name, and what stands at the index.
static FOUND: [(&str, Option<(Named, &str)>, Option<(Named, Object, &str)>); 9] = [
    (
        "w",
        Some((Named::Goroutine(1), "w")),
        Some((Named::Goroutine(1), Object::Goroutine, "w")),
    ),
    (
        "x",
        Some((Named::Var(0), "x")),
        Some((Named::Var(0), Object::Var, "x")),
    ),
    (
        "v",
        Some((Named::Goroutine(2), "v")),
        Some((Named::Goroutine(2), Object::Goroutine, "v")),
    ),
    (
        "y",
        Some((Named::Var(1), "y")),
        Some((Named::Var(1), Object::Var, "y")),
    ),
    (
        "m",
        Some((Named::Lock(0), "m")),
        Some((Named::Lock(0), Object::Lock(false), "m")),
    ),
    (
        "o",
        Some((Named::Once(0), "o")),
        Some((Named::Once(0), Object::Once, "o")),
    ),
    // A mutex and an rwmutex are of one kind.
    (
        "l",
        Some((Named::Lock(1), "l")),
        Some((Named::Lock(1), Object::Lock(true), "l")),
    ),
    // There are seven declarations.
    ("main", Some((Named::Goroutine(0), "main")), None),
    ("z", None, None),
];

// Whether the lock is an rwmutex, where there is one.
fn is_rw(decls: &Decls, lock: u32) -> Option<bool> {
    if lock < decls.count(Kind::Lock) {
        Some(decls.is_rw(lock))
    } else {
        None
    }
}

// A name in front of more bytes, how long it is, and what it stands for.
static IN_FRONT: [(&[u8], usize, Option<Named>); 7] = [
    (b"w x 1 http/handler.go:3", 1, Some(Named::Goroutine(1))),
    (b"x 1 http/handler.go:3", 1, Some(Named::Var(0))),
    (b"x", 1, Some(Named::Var(0))),
    (b"main x 1 http/handler.go:3", 4, Some(Named::Goroutine(0))),
    (b"xw 1 http/handler.go:3", 2, None),
    (b"seventeen_letters http/handler.go:3", 17, None),
    (b"x http/handler.go:3", 2, None),
];

// What the first bytes stand for, where they can be seen.
fn found_in_front(decls: &Decls, bytes: &[u8], len: usize) -> Option<Named> {
    if len > bytes.len() || !is_place(&bytes[..len]) {
        return None;
    }
    decls.find_at(bytes, len)
}

#[test]
fn an_rwmutex_is_told_from_a_mutex(rt: HostRuntime) -> Result<(), Fail> {
    let decls = declared(rt.alloc(), &SEVEN)?;
    for &(lock, rw) in &[(0, Some(false)), (1, Some(true)), (2, None)] {
        assert_eq!(rt; is_rw(&decls, lock), rw, "{lock}");
    }
    Ok(())
}

#[test]
fn declarations_are_found_again(rt: HostRuntime) -> Result<(), Fail> {
    let decls = declared(rt.alloc(), &SEVEN)?;
    for (index, (name, named, told)) in FOUND.iter().enumerate() {
        assert!(rt; found(&decls, *name) == *named, "{name}");
        assert!(rt; declared_at(&decls, index) == *told, "{name}");
    }
    Ok(())
}

#[test]
fn a_name_is_found_in_front_of_more(rt: HostRuntime) -> Result<(), Fail> {
    let decls = declared(rt.alloc(), &SEVEN)?;
    for &(bytes, len, named) in &IN_FRONT {
        assert_eq!(rt; found_in_front(&decls, bytes, len), named, "{len}");
    }
    Ok(())
}

// A copy to which all this is added.
fn copied(decls: &Decls, additions: &[Addition]) -> Result<Decls, Fail> {
    let mut copy = decls.copy()?;
    add_all(&mut copy, additions)?;
    Ok(copy)
}

fn are_equal(decls: &Decls, others: &Decls) -> bool {
    decls == others
}

// Whether declarations are equal to a copy to which all this is added.
fn is_equal_with(decls: &Decls, additions: &[Addition]) -> Result<bool, Fail> {
    let copy = copied(decls, additions)?;
    Ok(are_equal(decls, &copy))
}

static ADDED: [Addition; 4] = [
    Addition::Place("a.go:1"),
    Addition::Place("b.go:1"),
    Addition::Place("a.go:1"),
    Addition::Var("z"),
];

#[test]
fn equal_by_declarations_alone(rt: HostRuntime) -> Result<(), Fail> {
    let decls = declared(rt.alloc(), &SEVEN)?;
    for &(count, equal) in &[(0, true), (1, true), (2, true), (3, true), (4, false)] {
        let answer = is_equal_with(&decls, &ADDED[..count])?;
        assert_eq!(rt; answer, equal, "{count}");
    }
    Ok(())
}

// The versions of declarations and of their copy, and whether they are equal to that and to those of version 1.
fn versions(one: &Decls, two: &Decls) -> Result<(Version, Version, bool, bool), Fail> {
    let copy = two.copy()?;
    let is_equal = are_equal(two, &copy);
    Ok((two.version(), copy.version(), is_equal, are_equal(two, one)))
}

#[test]
fn declarations_have_a_version(rt: HostRuntime) -> Result<(), Fail> {
    let one = declared(rt.alloc(), &SEVEN)?;
    let two = declared_of_version2(rt.alloc(), &SEVEN)?;
    assert_eq!(rt; one.version(), Version::One);
    let of_two = versions(&one, &two)?;
    assert_eq!(rt; of_two, (Version::Two, Version::Two, true, false));
    Ok(())
}
