//! Requests that wait, by their goroutines.
ghost use Rattle.std.specs.{Prelude.{◌≡◌, ◌==◌}, List.find, Option.{option_copied, option_map}};

use crate::{Request, Waiter};

/// What the goroutine asks, where its request is one of these.
pub(crate) fn request_of(waiting: &[Waiter], goroutine: u32) -> Option<&Request>
    ensures { option_copied result ≡ option_map (λ w. w.asked) (find (λ w. w.who == goroutine) waiting.now) }
{
    match waiting.iter().find(|waiter| waiter.who == goroutine) {
        Some(waiter) => Some(&waiter.asked),
        None => None,
    }
}
