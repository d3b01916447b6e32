// Races of an access with earlier ones of its cell.
ghost use Rattle.std.specs.Prelude.{◌≡◌, ℕ, ◌+◌, ◌*◌, ◌<◌, ◌≤◌, All, length};
ghost use Rattle.view_parts.specs.Families.{race_family};
ghost use Rattle.view_parts.specs.Touched.{entries_at};
ghost use Rattle.view_parts.specs.Looks.{AllMade, AllFew};
ghost use Rattle.view_parts.specs.Racing.{IsFirstUnknown};

use crate::cell::CellViews;
use crate::families::racing_family;
use crate::look_ups::first_unknown;
use clocks::Clock;
use mem_axioms::Event;
use mu_base::Steps;
use std::sync::ledger::Ledger;

/// The first access of another thread that may race with the event and that the clock does not know, by the number under
/// which indexes have it.
pub fn first_racing<L: Ledger>(
    kept: &CellViews,
    threads: &[u32],
    event: &Event,
    clock: &Clock,
    steps: &mut Steps<L>,
) -> Option<u32>
    requires few { All (λ t. t < 64) threads.now }
    requires made { AllMade threads.now kept.now }
    ensures found { IsFirstUnknown (entries_at kept.now.accesses (race_family event.now)) clock.now event.now.thread result }
    ensures cost { (d : ℕ) → AllFew d kept.now → steps.new ≤ steps.old + length threads.now * (d + 1) }
{
    let family = racing_family(event);
    first_unknown(
        &kept.accesses.of(family),
        threads,
        event.thread as usize,
        clock,
        steps,
    )
}
