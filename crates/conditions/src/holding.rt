// What a condition says of an outcome.
ghost use Rattle.std.specs.Prelude.{◌≡◌, slice_get};
ghost use Rattle.std.specs.List.{list_all, list_any};
ghost use Rattle.conditions.specs.Meaning.{same_value, shows, returned_is, holds, satisfies};

use crate::tree::{Atom, Condition, Ending, Value};
use text_forms::Listing;

/// What a thread returned.
#[derive(Drop)]
pub struct Returned {
    /// The number of the thread
    pub thread: u32,
    /// The values in their order
    pub values: Listing<Value>,
}

/// What is seen of a run. Of a run that was cut short only the ending is seen: both lists are empty.
#[derive(Drop)]
pub struct Outcome {
    /// The threads that returned, with what they returned; those that exited are not among them
    pub returned: Listing<Returned>,
    /// What the globals of one cell hold at the end, by their numbers
    pub finals: Listing<Value>,
    /// How it ends
    pub ending: Ending,
}

fn same_value(one: Value, other: Value) -> bool
    ensures { result ≡ same_value one other }
{
    match (one, other) {
        (Value::Number(one), Value::Number(other)) => one == other,
        (Value::Null, Value::Null) => true,
        _ => false,
    }
}

// Whether there is a value, and it is this.
fn shows(value: Value, shown: Option<Value>) -> bool
    ensures { result ≡ shows value shown }
{
    match shown {
        Some(shown) => same_value(value, shown),
        None => false,
    }
}

fn returned_is(thread: u32, number: u32, value: Value, returned: &Returned) -> bool
    ensures { result ≡ returned_is thread number value returned.now }
{
    returned.thread == thread
        && shows(
            value,
            returned.values.as_slice().get(number as usize).copied(),
        )
}

// Whether a thread returned this.
fn any_returned(returned: &[Returned], thread: u32, number: u32, value: Value) -> bool
    ensures { result ≡ list_any (returned_is thread number value) returned.now }
{
    returned
        .iter()
        .any(|one| returned_is(thread, number, value, one))
}

// Whether a global holds this.
fn is_final(finals: &[Value], global: u32, value: Value) -> bool
    ensures { result ≡ shows value (slice_get finals.now global) }
{
    shows(value, finals.get(global as usize).copied())
}

fn holds(outcome: &Outcome, atom: &Atom) -> bool
    ensures { result ≡ holds outcome.now atom.now }
{
    match atom {
        Atom::Returned {
            thread,
            number,
            value,
        } => any_returned(outcome.returned.as_slice(), *thread, *number, *value),
        Atom::Final { global, value } => is_final(outcome.finals.as_slice(), *global, *value),
        Atom::Ends(ending) => *ending == outcome.ending,
    }
}

// Whether each of these holds.
fn holds_all(outcome: &Outcome, list: &[Atom]) -> bool
    ensures { result ≡ list_all (holds outcome.now) list.now }
{
    list.iter().all(|atom| holds(outcome, atom))
}

/// Whether one of the condition's lists holds in the outcome. A list without members holds in each.
pub fn satisfies(condition: &Condition, outcome: &Outcome) -> bool
    ensures { result ≡ satisfies condition.now.lists outcome.now }
{
    condition
        .lists
        .as_slice()
        .iter()
        .any(|list| holds_all(outcome, list.as_slice()))
}
