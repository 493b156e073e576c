//! Some statuses, and which traces have charts. Each function does nothing, and its contract is the example.
ghost use Rattle.std.specs.Prelude.{◌≡◌, ◌≢◌, true, false};
ghost use Rattle.race_draw.specs.Clean.{has_chart};
ghost use Rattle.race_tool.specs.{declared.input.ReadFault.ReadFault, Outcome.status_of_fault};

/// A reader that fails and an input that doesn't end are told alike, and want of memory otherwise.
pub fn an_endless_input_is_the_devices()
    ensures failed { status_of_fault ReadFault.Failed ≡ 5 }
    ensures endless { status_of_fault ReadFault.Endless ≡ 5 }
    ensures memory { status_of_fault ReadFault.OutOfMemory ≡ 4 }
    ensures apart { status_of_fault ReadFault.Endless ≢ status_of_fault ReadFault.OutOfMemory }
{}

/// A clean trace of one to sixty events has a chart.
pub fn sixty_events_have_a_chart()
    ensures none { has_chart 0 ≡ false }
    ensures one { has_chart 1 ≡ true }
    ensures sixty { has_chart 60 ≡ true }
    ensures more { has_chart 61 ≡ false }
{}
