// For each event of a log, which earlier ones happen before it.
ghost use Rattle.std.specs.Prelude.{◌≡◌, ℕ, ◌<◌, ◌≤◌, ◌&&◌, ◌||◌, ◌==◌, true, false, Bool, ◌∷◌, length, replicate, slice_set, slice_index_or, reverse, OnOk, IfOk};
ghost use Rattle.mem_axioms.specs.Flags.{flag, AreRowsOf};
ghost use Rattle.mem_axioms.specs.HappensBefore.{precedes, happens_before};

use crate::synchronizing::precedes_next;
use crate::types::{Event, Numbered, Rule};
use std::alloc::{AllocError, Global};
use std::marker::Model;

/// Flags by the numbers of events: those that happen before one event.
#[derive(Drop)]
pub struct Row {
    flags: Vec<bool>,
}

impl Model for Row {
    ghost use Rattle.std.specs.Prelude.{Bool, List};

    ghost Value = { List Bool };

    ghost view = { λ a. a.flags.items };
}

impl Row {
    /// A row of that many flags, which are false.
    pub fn blank(alloc: Global, len: usize) -> Result<Row, AllocError>
        ensures { IfOk result (λ row. row ≡ replicate len false) }
    {
        Ok(Row {
            flags: vec![in alloc; false; len]?,
        })
    }

    /// The flag of a number; false where the row has none.
    pub fn holds(&self, i: usize) -> bool
        ensures { result ≡ flag self.now i }
    {
        i < self.flags.len() && self.flags[i]
    }

    /// Sets the flag of a number.
    pub fn mark(&mut self, i: usize)
        requires { i < length self.old }
        ensures { self.new ≡ slice_set self.old i true }
    {
        self.flags[i] = true;
    }

    /// Sets each flag that the other row has set, as far as this row goes.
    pub fn join(&mut self, other: &Row)
        ensures size { length self.new ≡ length self.old }
        ensures flags { (i : ℕ) → i < length self.old → flag self.new i ≡ (flag self.old i || flag other.now i) }
    {
        join_flags(&mut self.flags, other);
    }
}

/// The same of the flags.
fn join_flags(flags: &mut [bool], other: &Row)
    ensures { (i : ℕ) → i < length flags.old → flag flags.new i ≡ (flag flags.old i || flag other.now i) }
{
    for i in 0..flags.len() {
        if other.holds(i) {
            flags[i] = true;
        }
    }
}

/// Adds event `by`, and what happens before it, to a row, where it precedes `next`.
fn add_flags(rule: Rule, events: &[Event], rows: &[Row], by: Numbered, next: &Event, row: &mut Row)
    requires rows { AreRowsOf rule (reverse events.now) rows.now }
    requires number { by.number < length events.now }
    requires size { length events.now ≤ length row.old }
    ensures size { length row.new ≡ length row.old }
    ensures flags { (i : ℕ) → flag row.new i ≡ ((precedes rule (reverse events.now) by.entry.number by.entry.event.now next.now && ((by.entry.number == i) || happens_before rule (reverse events.now) i by.entry.number)) || flag row.old i) }
{
    if precedes_next(rule, events, by, next) {
        row.mark(by.number);
        row.join(&rows[by.number]);
    }
}

/// Sets the flags of the events that happen before `next`, in a row of flags that are false.
pub fn fill_row(rule: Rule, events: &[Event], rows: &[Row], next: &Event, row: &mut Row)
    requires rows { AreRowsOf rule (reverse events.now) rows.now }
    requires blank { (i : ℕ) → flag row.old i ≡ false }
    requires size { length events.now ≤ length row.old }
    ensures { (i : ℕ) → flag row.new i ≡ happens_before rule (next.now ∷ reverse events.now) i (length events.now) }
{
    for k in 0..events.len() {
        let by = Numbered {
            number: k,
            event: &events[k],
        };
        add_flags(rule, events, rows, by, next, row);
    }
}

/// Whether `by` precedes `next`, and event `i` is `by` or happens before it.
fn leads_to_next(
    rule: Rule,
    events: &[Event],
    rows: &[Row],
    by: Numbered,
    next: &Event,
    i: usize,
) -> bool
    requires rows { AreRowsOf rule (reverse events.now) rows.now }
    requires number { by.number < length events.now }
    ensures { result ≡ (precedes rule (reverse events.now) by.entry.number by.entry.event.now next.now && ((by.entry.number == i) || happens_before rule (reverse events.now) i by.entry.number)) }
{
    (by.number == i || rows[by.number].holds(i)) && precedes_next(rule, events, by, next)
}

/// Whether event `i` happens before `next`.
pub fn happens_before_next(
    rule: Rule,
    events: &[Event],
    rows: &[Row],
    next: &Event,
    i: usize,
) -> bool
    requires { AreRowsOf rule (reverse events.now) rows.now }
    ensures { result ≡ happens_before rule (next.now ∷ reverse events.now) i (length events.now) }
{
    for k in (0..events.len()).rev() {
        let by = Numbered {
            number: k,
            event: &events[k],
        };
        if leads_to_next(rule, events, rows, by, next, i) {
            return true;
        }
    }
    false
}
