// The picks of a run, noted as they are made by the numbers of a schedule.
ghost use Rattle.std.specs.Prelude.{◌≡◌, ◌≤◌, ◌++◌, [], OnErr, OnOk, drop, length};
ghost use Rattle.odometer.specs.Trees.{pick};
ghost use Rattle.odometer.specs.GrownLaws.{picks_one};

use crate::picks::Pick;
use std::alloc::AllocError;

// The next pick, among at least two options: the number that follows those of the picks that were made, by the rest of its division by the
// number of options.
fn next_pick(made: &[Pick], numbers: &[u32], options: u32) -> Pick
    requires { 2 ≤ options }
    ensures picked { result.picked ≡ (pick options (drop (length made.now) numbers.now)).0 }
    ensures options { result.options ≡ options }
{
    let picked = match numbers.get(made.len()) {
        Some(number) => *number % options,
        None => 0,
    };
    Pick { picked, options }
}

/// Adds the next pick among so many options to the list of picks that were made. Where there are fewer than two options there is no pick, and
/// the list stays. The pick is that of the next number of the schedule; after the last number it is 0. It is refused only when out of
/// memory; then the list is as it was.
#[tactic(auto, using(crate::proofs::NoteLaws::noting))]
pub fn note(made: &mut Vec<Pick>, numbers: &[u32], options: u32) -> Result<(), AllocError>
    ensures made { OnOk result (made.new.items ≡ made.old.items ++ picks_one options (pick options (drop (length made.old.items) numbers.now)).0 []) }
    ensures left { OnOk result (drop (length made.new.items) numbers.now ≡ (pick options (drop (length made.old.items) numbers.now)).1) }
    ensures same { OnErr result (made.new.items ≡ made.old.items) }
{
    if options < 2 {
        return Ok(());
    }
    let pick = next_pick(made, numbers, options);
    made.push(pick)?;
    Ok(())
}
