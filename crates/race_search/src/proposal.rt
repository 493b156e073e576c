//! The order of the events of another run. Nothing is proved of it but that it returns: each is tested.

use crate::closure::Closure;
use crate::scene::Scene;
use crate::turned::Turned;
use std::alloc::{AllocError, Allocator};

/// What both accesses want before them in the recorded order, and then the two. Where it can be had, the write that one of them read is
/// among it.
pub(crate) fn propose<A: Allocator + Copy>(
    alloc: A,
    scene: &Scene<A>,
    closure: &mut Closure<A>,
    first: u32,
    second: u32,
) -> Result<Vec<u32, A>, AllocError> {
    closure.clear(scene.steps);
    closure.ask_before(scene.steps, scene.part(first))?;
    closure.ask_before(scene.steps, scene.part(second))?;
    for read in [first, second] {
        let want = scene.wants.want(read);
        if want != first && want != second {
            closure.begin();
            closure.ask(scene.part(want))?;
            closure.run(scene.steps)?;
            if closure.has(scene.part(first)) || closure.has(scene.part(second)) {
                closure.take_back();
            } else {
                closure.keep();
            }
        }
    }
    let mut order = Vec::new(alloc);
    for at in 0..second {
        if closure.has(scene.part(at)) {
            order.push(at)?;
        }
    }
    order.push(first)?;
    order.push(second)?;
    Ok(order)
}

/// The same in another order, where one is found.
pub(crate) fn propose_turned<A: Allocator + Copy>(
    alloc: A,
    scene: &Scene<A>,
    closure: &mut Closure<A>,
    turned: &mut Turned<A>,
    first: u32,
    second: u32,
) -> Result<Option<Vec<u32, A>>, AllocError> {
    closure.clear(scene.steps);
    closure.keeps_order = false;
    let (one, other) = (scene.part(first), scene.part(second));
    closure.ask_before(scene.steps, other)?;
    let mut found = turned.complete(scene.steps, closure, one, other)?;
    if found {
        found = turned.find_order(scene, closure, second)?;
        closure.take_back();
    }
    closure.keeps_order = true;
    if !found {
        return Ok(None);
    }
    let mut order = Vec::new(alloc);
    order.extend_from_slice(turned.order.as_slice())?;
    order.push(first)?;
    order.push(second)?;
    Ok(Some(order))
}
