// The judge.
ghost use Rattle.std.specs.Prelude.{◌≡◌, ℕ, ◌+◌, ◌<◌, [], ◌∷◌, true, false, List, length, Some, None, IfOk, IfSome, IfNone};
ghost use Rattle.mem_axioms.specs.Events.{position_of};
ghost use Rattle.mem_axioms.specs.Logs.{event_at, past_of, least_event};
ghost use Rattle.mem_axioms.specs.Form.{fits_form_alone};
ghost use Rattle.verdicts.specs.Verdicts.{verdict, next_verdict, breaks_coherence, least_pair};
ghost use Rattle.verdicts.specs.Laws.{IsFaultless};
ghost use Rattle.verdicts.specs.declared.types.Verdict.TheVariants.{Yes};
ghost use Rattle.verdicts.specs.Searches.{reads_below, IsNo, Extends};
ghost use Rattle.mem_axioms.specs.Threads.{HaveFewThreads};

use crate::past::Past;
use crate::types::Verdict;
use mem_axioms::{Event, Log};
use std::alloc::AllocError;

// The verdict where something is wrong with the event that comes next, which has the number `n`; else None.
fn failing<P: Past>(past: &P, log: &Log, event: &Event, n: u32) -> Option<Verdict>
    requires faultless { IsFaultless (P.rule past.now) (P.log past.now) }
    requires part { Extends log.now (P.log past.now) }
    requires number { n ≡ length (P.log past.now) }
    ensures some { IfSome result (λ v. (next_verdict (P.rule past.now) (P.log past.now) event.now ≡ v) × IsNo v) }
    ensures none { IfNone result (next_verdict (P.rule past.now) (P.log past.now) event.now ≡ Yes (n + 1)) }
{
    if !past.fits(event) {
        return Some(Verdict::Form { event: n });
    }
    if past.is_below(event) {
        return Some(named(past, log, event, n));
    }
    match past.race(event) {
        Some(earlier) => Some(Verdict::Race { earlier, event: n }),
        None => None,
    }
}

// The axiom that a read below its floor breaks, with the events that the verdict names.
fn named<P: Past>(past: &P, log: &Log, event: &Event, n: u32) -> Verdict
    requires faultless { IsFaultless (P.rule past.now) (P.log past.now) }
    requires part { Extends log.now (P.log past.now) }
    requires number { n ≡ length (P.log past.now) }
    requires fits { fits_form_alone (P.log past.now) event.now ≡ true }
    requires below { reads_below (P.rule past.now) (P.log past.now) event.now ≡ true }
    ensures is { next_verdict (P.rule past.now) (P.log past.now) event.now ≡ result }
    ensures no { IsNo result }
{
    if let Some(earlier) = past.older(log, event) {
        return Verdict::Axiom1 { earlier, event: n };
    }
    match past.pair(log, event) {
        Some(pair) => Verdict::Axiom3 {
            a: pair.a,
            b: pair.b,
        },
        None => unreachable!(),
    }
}

/// The verdict on a log. Nothing is known of it before. An error comes only where `add` has no memory.
pub fn judge<P: Past>(past: &mut P, log: &Log) -> Result<Verdict, AllocError>
    requires nothing { P.log past.old ≡ [] }
    requires few { HaveFewThreads log.now }
    requires count { length log.now < 4294967295 }
    ensures { IfOk result (λ v. v ≡ verdict (P.rule past.old) log.now) }
{
    for n in 0..log.len() {
        let event = log.event(n);
        if let Some(verdict) = failing(past, log, event, n) {
            return Ok(verdict);
        }
        past.add(*event)?;
    }
    Ok(Verdict::Yes { events: log.len() })
}
