// What is known of the event that comes next, where it breaks an axiom.
ghost use Rattle.std.specs.Prelude.{◌≡◌, ◌↔◌, ℕ, ◌<◌, ◌≤◌, true, length, slice_index};
ghost use Rattle.mem_axioms.specs.Form.{fits_form_alone};
ghost use Rattle.mem_axioms.specs.declared.types.Event.{Event};
ghost use Rattle.clock_laws.specs.Clocks.{views, knew};
ghost use Rattle.clocks.specs.Tables.{table_at};
ghost use Rattle.verdicts.specs.Laws.{IsFaultless};
ghost use Rattle.verdicts.specs.Searches.{Extends};
ghost use Rattle.log_judge.specs.Kept.{AreFirsts, IsLastFence};

use crate::log_views::LogViews;
use clocks::Clock;
use mem_axioms::event_facts::{fence, order_in, seq_cst, seq_cst_fence};
use mem_axioms::{Event, Log};
use verdicts::{Knows, passes_over};

/// What is known of the event that comes next.
#[derive(Drop)]
pub struct Ahead<'a> {
    past: &'a LogViews,
    event: Event,
    // What happens before it.
    clock: Clock,
    // For each thread one more than the number of its first access that the event passes over, or 0.
    firsts: Clock,
    // The last SEQ_CST fence that happens before it.
    last: Option<u32>,
    ghost faultless: { IsFaultless past.now.rule past.now.tape.events },
    ghost fits: { fits_form_alone past.now.tape.events event ≡ true },
    ghost knows: { (u : ℕ) → slice_index clock u ≡ knew (views past.now.rule past.now.tape.events) event u },
    ghost firsts_are: { AreFirsts firsts past.now.tape.events event },
    ghost last_is: { IsLastFence last past.now.tape.events clock },
}

/// The last SEQ_CST fence that a clock knows.
fn last_fence(past: &LogViews, whole: &Log, clock: &Clock) -> Option<u32>
    requires { Extends whole.now past.now.tape.events }
    ensures { IsLastFence result past.now.tape.events clock.now }
{
    let mut last = None;
    for i in 0..past.next {
        let earlier = whole.event(i);
        if seq_cst_fence(earlier) && i < clock.of(earlier.thread as usize) {
            last = Some(i);
        }
    }
    last
}

/// The first access by each thread that the event passes over.
fn first_passed(past: &LogViews, whole: &Log, event: &Event) -> Clock
    requires { Extends whole.now past.now.tape.events }
    ensures { AreFirsts result past.now.tape.events event.now }
{
    let mut firsts = Clock::new();
    for i in 0..past.next {
        let earlier = whole.event(i);
        let thread = earlier.thread as usize;
        if passes_over(event, earlier) && firsts.of(thread) == 0 {
            firsts.set(thread, i);
        }
    }
    firsts
}

/// Whether some thread has a first access, which stands below a limit and is known.
fn knows_some(firsts: &Clock, limit: u32, clock: &Clock) -> bool
    ensures { (result ≡ true) ↔ ((u : ℕ) × (u < 64) × (0 < slice_index firsts.now u) × (slice_index firsts.now u ≤ limit) × (slice_index firsts.now u ≤ slice_index clock.now u)) }
{
    for thread in 0..64 {
        let first = firsts.of(thread);
        if 0 < first && first <= limit && first <= clock.of(thread) {
            return true;
        }
    }
    false
}

/// What is known of the event that comes next, by the whole log.
pub fn look_ahead<'a>(past: &'a LogViews, whole: &Log, event: &Event) -> Ahead<'a>
    requires part { Extends whole.now past.now.tape.events }
    requires faultless { IsFaultless past.now.rule past.now.tape.events }
    requires fits { fits_form_alone past.now.tape.events event.now ≡ true }
    ensures past { result.past.now ≡ past.now }
    ensures event { result.event ≡ event.now }
{
    let clock = past.knew(event);
    Ahead {
        past,
        event: *event,
        clock,
        firsts: first_passed(past, whole, event),
        last: last_fence(past, whole, &clock),
    }
}

impl<'a> Ahead<'a> {
    // Whether the SEQ_CST fence with that number knows an access before it that the event passes over.
    fn is_known_at(&self, number: u32) -> bool
        ensures { (result ≡ true) ↔ ((u : ℕ) × (u < 64) × (0 < slice_index self.now.firsts u) × (slice_index self.now.firsts u ≤ number) × (slice_index self.now.firsts u ≤ table_at self.now.past.now.fences number u)) }
    {
        match self.past.fences.of(number) {
            Some(clock) => knows_some(&self.firsts, number, &clock),
            None => false,
        }
    }
}

impl<'a> Knows for Ahead<'a> {
    ghost log = { λ ahead. ahead.past.now.tape.events };

    ghost rule = { λ ahead. ahead.past.now.rule };

    ghost event = { λ ahead. ahead.event };

    fn knows(&self, number: u32, earlier: &Event) -> bool {
        number < self.clock.of(earlier.thread as usize)
    }

    fn has_passed(&self, number: u32, earlier: &Event) -> bool {
        passes_over(&self.event, earlier) || (fence(earlier) && self.is_known_at(number))
    }

    fn has_from(&self, number: u32) -> bool {
        if seq_cst(order_in(&self.event)) {
            return true;
        }
        match self.last {
            Some(last) => number <= last,
            None => false,
        }
    }
}
