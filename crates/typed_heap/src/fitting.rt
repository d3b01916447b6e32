// Which types are found among the leaves of an object.
ghost use Rattle.std.specs.Prelude.{◌≡◌, ◌-◌, ◌<◌, ◌≤◌, length, IsTrue};
ghost use Rattle.type_definitions.specs.Same.{IsGraph};
ghost use Rattle.check_tables.specs.TypeTests.{repeated_of};
ghost use Rattle.typed_heap.specs.Fits.{begins, are_runs, fits};
ghost use Rattle.typed_heap.specs.Repeating.{Repeats, Enough};
ghost use Rattle.typed_heap.specs.Offsets.{leaves_fit};

use crate::objects::Rhythm;
use mu_types::{Classes, TypeDef};

/// Whether a type is found at a place of these leaves, or the place is their end.
pub(crate) fn fits_at(classes: &Classes, t: u32, leaves: &[u32], rhythm: Rhythm, at: u32) -> bool
    requires graph { IsGraph classes.now.definitions }
    requires t { t < length classes.now.definitions }
    requires repeats { Repeats rhythm.fixed rhythm.run leaves.now }
    ensures { result ≡ leaves_fit classes.now.definitions t leaves.now at }
{
    let at = at as usize;
    at == leaves.len() || at < leaves.len() && fits(classes, t, &leaves[at..], later(rhythm, at))
}

/// Whether leaves begin with those of a type; of a hybrid, whether all others are whole runs of its element's.
///
/// It takes time for the type's leaves. For a hybrid it takes more for as many leaves as the object's own type has, fixed ones and one
/// run, but never for all runs of the object.
pub(crate) fn fits(classes: &Classes, t: u32, found: &[u32], rhythm: Rhythm) -> bool
    requires graph { IsGraph classes.now.definitions }
    requires t { t < length classes.now.definitions }
    requires repeats { Repeats rhythm.fixed rhythm.run found.now }
    ensures { result ≡ fits classes.now.definitions t found.now }
{
    let wanted = classes.leaves(t);
    if !begins(wanted, found) {
        return false;
    }
    match classes.definition(t) {
        TypeDef::Hybrid { element, .. } => are_runs(
            classes.leaves(*element),
            &found[wanted.len()..],
            later(rhythm, wanted.len()),
        ),
        _ => true,
    }
}

/// How leaves repeat that begin so many leaves later.
fn later(rhythm: Rhythm, n: usize) -> Rhythm
    ensures fixed { result.fixed ≡ rhythm.fixed - n }
    ensures run { result.run ≡ rhythm.run }
{
    Rhythm {
        fixed: rhythm.fixed.saturating_sub(n),
        run: rhythm.run,
    }
}

#[tactic(auto, using(crate::specs::Lemmas::Runs::begins_is))]
fn begins(wanted: &[u32], found: &[u32]) -> bool
    ensures begins { result ≡ begins wanted.now found.now }
    ensures few { IsTrue result → length wanted.now ≤ length found.now }
{
    found.starts_with(wanted)
}

/// Whether leaves are whole runs of others: they begin with those, and each leaf behind is the one that stands a run before it. As leaves
/// repeat, the first of them tell all: those that do not repeat, one run of theirs, and, where it is no whole runs of the others, one of
/// the others.
fn are_runs(run: &[u32], found: &[u32], rhythm: Rhythm) -> bool
    requires { Repeats rhythm.fixed rhythm.run found.now }
    ensures { result ≡ are_runs run.now found.now }
{
    if run.is_empty() {
        return found.is_empty();
    }
    if found.len() % run.len() != 0 {
        return false;
    }
    if found.is_empty() {
        return true;
    }
    if !begins(run, found) {
        return false;
    }
    let telling = telling(run, found, rhythm);
    &found[run.len()..telling] == &found[..telling - run.len()]
}

/// How many of the first leaves tell whether all are whole runs of others.
fn telling(run: &[u32], found: &[u32], rhythm: Rhythm) -> usize
    requires repeats { Repeats rhythm.fixed rhythm.run found.now }
    requires some { 0 < length run.now }
    requires long { length run.now ≤ length found.now }
    ensures long { length run.now ≤ result }
    ensures few { result ≤ length found.now }
    ensures enough { Enough found.now (length run.now) rhythm.fixed rhythm.run result }
{
    let own = rhythm.fixed.saturating_add(rhythm.run).min(found.len());
    if rhythm.run % run.len() == 0 {
        own
    } else {
        own.saturating_add(run.len()).min(found.len())
    }
}
