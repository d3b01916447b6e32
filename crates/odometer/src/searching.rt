// The search makes runs, one after the other, until there is no further one, or so many were made.
ghost use Rattle.std.specs.Prelude.{◌≡◌, ◌&&◌, ◌<◌, ◌≤◌, ◌^◌, ℕ, List, Option, All, true, false, Some, None, length, IfOk, OnOk, IsSomeAnd, is_some};
ghost use Rattle.odometer.specs.Trees.{Tree, leaf, AllLeaves};
ghost use Rattle.odometer.specs.Odometer.{path, digits, nth, all_say, is_searched, IsPick};
ghost use Rattle.odometer.specs.Found.{Shown, AreNumbers, IsAmongFound, HasRuns, Keeps, RanOn};

use crate::picks::{Pick, advance};
use std::alloc::{AllocError, Global};
use std::collections::BTreeMap;

/// Something that runs by picks. Runs with the same picks have the same result.
pub trait Play {
    /// The results of its runs: a tree of picks, with a text at each leaf, or None at a leaf where the run was cut off without a result.
    ghost tree: { Self → Tree (Option (List ℕ)) };

    /// The text that the run by a schedule has for its result, if it has one.
    ghost shows: { Self → List ℕ → Option (List ℕ) };

    /// What has to hold of it before each run. It holds again after the run.
    ghost ready: { Self → Type 0 };

    /// Runs it by these numbers; after the last number each pick is 0. Then `made` is the list of its picks, `text` its result, and `schedule`
    /// a schedule whose run has this result. The answer is false exactly where the run has no result; then `text` and `schedule` mean
    /// nothing. It is refused only when out of memory; then the lists mean nothing.
    fn play(
        &mut self,
        numbers: &[u32],
        made: &mut Vec<Pick>,
        text: &mut Vec<u8>,
        schedule: &mut Vec<u32>,
    ) -> Result<bool, AllocError>
        requires { ready self.old }
        ensures ready { ready self.new }
        ensures same { tree self.new ≡ tree self.old }
        ensures same_shows { shows self.new ≡ shows self.old }
        ensures path { OnOk result (made.new.items ≡ path (tree self.old) numbers.now) }
        ensures text { IfOk result (λ says. says ≡ true → leaf (tree self.old) numbers.now ≡ Some text.new.items) }
        ensures silent { IfOk result (λ says. says ≡ false → leaf (tree self.old) numbers.now ≡ None) }
        ensures shown { IfOk result (λ says. says ≡ true → shows self.old schedule.new.items ≡ Some text.new.items) };
}

/// Something that is shown how far a search has come. Nothing of a search depends on it.
pub trait Watch {
    /// So many runs were made, and so many different texts were found. It is called after each run.
    fn ran(&mut self, runs: u32, found: usize);

    /// The search has made its last run. It is not called where the search is refused.
    fn over(&mut self);
}

/// What a search found. Where no run is left and each had a result, no schedule has any other text for its result.
#[derive(Drop)]
pub struct Searched {
    /// Each text that was found, with a schedule whose run has it for its result, in the order of the texts' bytes.
    pub found: BTreeMap<Vec<u8>, Vec<u32>>,
    /// Whether there is a further run after those that were made.
    pub left: bool,
    /// Whether each run that was made had a result.
    pub says: bool,
}

// Writes the number of each pick, in place of what the list held.
fn write_numbers(path: &[Pick], numbers: &mut Vec<u32>) -> Result<(), AllocError>
    ensures { OnOk result (numbers.new.items ≡ digits path.now) }
{
    numbers.clear();
    for pick in path {
        numbers.push(pick.picked)?;
    }
    Ok(())
}

// Keeps the text with the schedule, unless the text was found before.
#[tactic(auto, using(crate::proofs::FoundLaws::keeps_old))]
fn keep(
    alloc: Global,
    found: &mut BTreeMap<Vec<u8>, Vec<u32>>,
    text: &[u8],
    numbers: &[u32],
) -> Result<(), AllocError>
    ensures { OnOk result (Keeps found.old found.new text.now numbers.now) }
{
    if !found.contains_key(text) {
        let key = text.to_vec(alloc)?;
        let value = numbers.to_vec(alloc)?;
        found.insert(key, value)?;
    }
    Ok(())
}

// The numbers of a slice fit their type.
fn numbers_fit(numbers: &[u32])
    ensures { All (λ n. n < 2 ^ 32) numbers.now }
{}

// Whether both are so.
fn both(first: bool, second: bool) -> bool
    ensures { result ≡ (first && second) }
{
    first && second
}

// Makes one run by these numbers, and keeps its result. The answer is whether it had one.
#[tactic(auto, using(crate::proofs::FoundLaws::run_kept, crate::proofs::FoundLaws::run_silent, crate::proofs::FoundLaws::run_picks))]
fn run_by<P: Play>(
    alloc: Global,
    play: &mut P,
    numbers: &[u32],
    made: &mut Vec<Pick>,
    text: &mut Vec<u8>,
    schedule: &mut Vec<u32>,
    found: &mut BTreeMap<Vec<u8>, Vec<u32>>,
) -> Result<bool, AllocError>
    requires { P.ready play.old }
    ensures ready { P.ready play.new }
    ensures same { P.tree play.new ≡ P.tree play.old }
    ensures same_shows { P.shows play.new ≡ P.shows play.old }
    ensures path { OnOk result (made.new.items ≡ path (P.tree play.old) numbers.now) }
    ensures found { OnOk result (RanOn (P.tree play.old) (P.shows play.old) found.old found.new numbers.now) }
    ensures says { IfOk result (λ says. says ≡ is_some (leaf (P.tree play.old) numbers.now)) }
    ensures picks { OnOk result (All IsPick made.new.items) }
{
    let says = play.play(numbers, made, text, schedule)?;
    if !says {
        return Ok(false);
    }
    keep(alloc, found, text, schedule)?;
    numbers_fit(schedule);
    Ok(true)
}

/// Makes the first `runs` runs of `play`, or all where there are fewer. Each text that is found is the result of the run by its schedule,
/// and the result of each run that was made is found. Where no run is left, and each that was made had a result, no schedule leads to any
/// other text. It is refused only when out of memory; then nothing is found. The memory that it takes grows with the texts and with the
/// picks of one run, and not with the number of runs. After each run `watch` is shown how many runs were made, and how many texts found.
pub fn search_all<P: Play, W: Watch>(
    alloc: Global,
    play: &mut P,
    runs: u32,
    watch: &mut W,
) -> Result<Searched, AllocError>
    requires { P.ready play.old }
    ensures shown { IfOk result (λ s. Shown (P.shows play.old) s.found) }
    ensures numbers { IfOk result (λ s. AreNumbers s.found) }
    ensures found { IfOk result (λ s. HasRuns s.found (P.tree play.old) runs) }
    ensures left { IfOk result (λ s. s.left ≡ is_some (nth (P.tree play.old) runs)) }
    ensures says { IfOk result (λ s. s.says ≡ all_say (P.tree play.old) runs) }
    ensures whole { IfOk result (λ s. is_searched (P.tree play.old) runs ≡ true → AllLeaves (IsAmongFound s.found) (P.tree play.old)) }
{
    let mut found = BTreeMap::new(alloc);
    let mut made = Vec::new(alloc);
    let mut numbers = Vec::new(alloc);
    let mut text = Vec::new(alloc);
    let mut schedule = Vec::new(alloc);
    let mut whole = true;
    for run in 0..runs {
        let says = run_by(
            alloc,
            play,
            &numbers,
            &mut made,
            &mut text,
            &mut schedule,
            &mut found,
        )?;
        watch.ran(run + 1, found.len());
        whole = both(whole, says);
        if !advance(&mut made) {
            watch.over();
            return Ok(Searched {
                found,
                left: false,
                says: whole,
            });
        }
        write_numbers(&made, &mut numbers)?;
    }
    watch.over();
    Ok(Searched {
        found,
        left: true,
        says: whole,
    })
}
