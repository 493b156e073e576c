ghost use Rattle.std.specs.Prelude.{◌<◌};

use crate::RefusingHeap;
use std::alloc::{AllocError, Allocator, Global};
use std::collections::BTreeMap;
use std::thread;
use std::thread::Threads;

// Two growths. Shrinking is none.
fn nine<A: Allocator>(heap: A) -> Result<Vec<u8, A>, AllocError> {
    let mut list = Vec::new(heap);
    for i in 0..9u8 {
        list.push(i)?;
    }
    list.shrink_to_fit();
    Ok(list)
}

fn grow_text<A: Allocator>(heap: A) -> usize {
    match String::from_str(heap, "first") {
        Ok(mut text) => {
            let is_grown = text.push_str(", and then a second one").is_ok();
            text.len() * usize::from(is_grown)
        }
        Err(_) => 0,
    }
}

fn grow_map<A: Allocator + Copy>(heap: A) -> usize {
    let mut map = BTreeMap::new(heap);
    let is_grown = map.insert(9, 28).is_ok();
    map.len() * usize::from(is_grown)
}

/// The lengths of a list, a text and a map, of each 0 where it was refused a growth.
type Lengths = (usize, usize, usize);

// Five growths: the list and the text make two each, and the map makes one.
fn grow_each<A: Allocator + Copy>(heap: A) -> Lengths {
    let list = match nine(heap) {
        Ok(list) => list.len(),
        Err(_) => 0,
    };
    (list, grow_text(heap), grow_map(heap))
}

// Whether a growth is refused and how many are left once each has grown, what has grown then, and what grows
// when they are made once more.
fn grow_twice(alloc: Global, nth: u64) -> (bool, u64, Lengths, Lengths)
    requires { 0 < nth }
{
    let heap = RefusingHeap::new(alloc);
    heap.refuse(nth);
    let first = grow_each(&heap);
    let has_refused = heap.has_refused();
    let left = heap.left();
    (has_refused, left, first, grow_each(&heap))
}

static GROWN: [(bool, u64, Lengths, Lengths); 6] = [
    (true, 0, (0, 28, 1), (9, 28, 1)),
    (true, 0, (0, 28, 1), (9, 28, 1)),
    (true, 0, (9, 0, 1), (9, 28, 1)),
    (true, 0, (9, 0, 1), (9, 28, 1)),
    (true, 0, (9, 28, 0), (9, 28, 1)),
    // The sixth is made the second time.
    (false, 1, (9, 28, 1), (0, 28, 1)),
];

#[test]
fn each_growth_in_turn_is_refused_once(rt: HostRuntime) {
    for (index, grown) in GROWN.iter().enumerate() {
        let nth = index as u64 + 1;
        assert!(rt; grow_twice(rt.alloc(), nth) == *grown, "at {nth}");
    }
}

// How many of two lists were refused a growth.
fn nine_twice<R: Threads, A: Allocator + Copy + Send + Sync>(rt: &R, heap: A) -> usize {
    let (one, other) = thread::join(rt, move || nine(heap), move || nine(heap));
    usize::from(one.is_err()) + usize::from(other.is_err())
}

// Whether growth `nth` of the four is refused, in one of the lists.
fn is_refused_in_one<R: Threads>(rt: &R, alloc: Global, nth: u64) -> bool
    requires { 0 < nth }
{
    let heap = RefusingHeap::new(alloc);
    heap.refuse(nth);
    let refused = nine_twice(rt, &heap);
    heap.has_refused() == (nth < 5) && refused == usize::from(nth < 5)
}

#[test]
fn one_growth_of_two_threads_is_refused(rt: HostRuntime) {
    for nth in 1..6u64 {
        assert!(rt; is_refused_in_one(&rt, rt.alloc(), nth), "at {nth}");
    }
}
