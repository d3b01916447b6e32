// A run, step by step. Local steps come first.
ghost use Rattle.std.specs.Prelude.{◌≡◌, ◌≢◌, ◌≤◌, ◌++◌, ◌∷◌, [], Some, None, IfOk, IfSome, IfNone, OnOk, flat_map, drop, length, false};
ghost use Rattle.mu_model.specs.Outcomes.{Stuck};
ghost use Rattle.mu_model.specs.Programs.{named};
ghost use Rattle.mu_step.specs.LeastLocal.{IsLeastAt};
ghost use Rattle.odometer.specs.Odometer.{path, digits};
ghost use Rattle.odometer.specs.Trees.{rest};
ghost use Rattle.odometer.specs.GrownLaws.{picks_one};
ghost use Rattle.search_laws.specs.Moved.{with_picks, step_tree};
ghost use Rattle.run_search.specs.StepPaths.{step_threads};
ghost use Rattle.run_search.specs.Playing.{answered_step, WentOn, CameToEnd};
ghost use Rattle.run_search.specs.Steps.{AllHaveRules, AllEnd, WentAt, StepsOn, StepEnds, GoesFurther, GoesToEnd, MakesPicks, LeadsTo, RunsTo};

use crate::zeros::drop_zeros;
use checked_code::Checked;
use client_script::RunClient;
use local_laws::local_runs_go_on;
use mem_axioms::Memory;
use mu_base::Ids;
use mu_model::{Ending, Lines, StepEnd};
use mu_step::Machine;
use mu_threads::Schedule;
use odometer::{Pick, note};
use search_laws::picks_are_only_picked_from;
use std::alloc::{AllocError, Global};

// How many threads the next step has to pick from. No pick is made where no step may be made any more.
fn threads<M: Memory + Drop>(machine: &Machine<M, RunClient>) -> u32
    ensures { result ≡ step_threads machine.now.configuration }
{
    if machine.is_spent() {
        1
    } else {
        machine.runnable()
    }
}

// Notes the picks of the next step.
fn note_step<M: Memory + Drop>(
    code: &Checked,
    machine: &mut Machine<M, RunClient>,
    numbers: &[u32],
    made: &mut Vec<Pick>,
) -> Result<(), AllocError>
    requires same { machine.old.bundle ≡ code.now }
    requires there { answered_step (named code.now) machine.old.configuration ≢ Stuck }
    requires left { drop (length made.old.items) numbers.now ≡ machine.old.configuration.picks }
    ensures same { machine.new ≡ machine.old }
    ensures picks { OnOk result (made.new.items ≡ made.old.items ++ path (step_tree (named code.now) machine.old.configuration) machine.old.configuration.picks) }
    ensures left { OnOk result (drop (length made.new.items) numbers.now ≡ rest (step_tree (named code.now) machine.old.configuration) machine.old.configuration.picks) }
{
    let many = threads(machine);
    let options = machine.options()?;
    note(made, numbers, many)?;
    note(made, numbers, options)
}

// Keeps the lines of a step, where there are some.
#[tactic(auto, using(crate::specs::Playing::keeping))]
fn keep(kept: &mut Vec<Lines>, lines: Lines) -> Result<(), AllocError>
    ensures { OnOk result (flat_map (λ ls. ls) kept.new.items ≡ flat_map (λ ls. ls) kept.old.items ++ lines) }
{
    if lines.len() == 0 {
        return Ok(());
    }
    kept.push(lines)?;
    Ok(())
}

// Makes the next step, of any kind, keeps its lines, and answers with the ending where it gives one.
#[tactic(auto, using(crate::specs::Playing::stepping))]
fn any_step<M: Memory + Drop>(
    code: &Checked,
    machine: &mut Machine<M, RunClient>,
    kept: &mut Vec<Lines>,
) -> Result<Option<Ending>, AllocError>
    requires same { machine.old.bundle ≡ code.now }
    requires fresh { machine.old.ended ≡ false }
    requires there { answered_step (named code.now) machine.old.configuration ≢ Stuck }
    ensures same { machine.new.bundle ≡ code.now }
    ensures fresh { IfOk result (λ ending. IfNone ending (machine.new.ended ≡ false)) }
    ensures went { IfOk result (λ ending. IfNone ending (WentOn (named code.now) machine.old.configuration machine.new.configuration (flat_map (λ ls. ls) kept.old.items) (flat_map (λ ls. ls) kept.new.items))) }
    ensures ended { IfOk result (λ ending. IfSome ending (CameToEnd (named code.now) machine.old.configuration (flat_map (λ ls. ls) kept.old.items) (flat_map (λ ls. ls) kept.new.items))) }
{
    match machine.step() {
        Ok(StepEnd::Went(lines)) => {
            keep(kept, lines)?;
            Ok(None)
        }
        Ok(StepEnd::Ended(lines, ending)) => {
            keep(kept, lines)?;
            Ok(Some(ending))
        }
        Err(refused) => Err(refused),
    }
}

// The same. Most steps are frequent ones, which have no lines.
#[tactic(auto, using(crate::specs::Playing::went_at_once))]
fn step<M: Memory + Drop>(
    code: &Checked,
    machine: &mut Machine<M, RunClient>,
    kept: &mut Vec<Lines>,
) -> Result<Option<Ending>, AllocError>
    requires same { machine.old.bundle ≡ code.now }
    requires fresh { machine.old.ended ≡ false }
    requires there { answered_step (named code.now) machine.old.configuration ≢ Stuck }
    ensures same { machine.new.bundle ≡ code.now }
    ensures fresh { IfOk result (λ ending. IfNone ending (machine.new.ended ≡ false)) }
    ensures went { IfOk result (λ ending. IfNone ending (WentOn (named code.now) machine.old.configuration machine.new.configuration (flat_map (λ ls. ls) kept.old.items) (flat_map (λ ls. ls) kept.new.items))) }
    ensures ended { IfOk result (λ ending. IfSome ending (CameToEnd (named code.now) machine.old.configuration (flat_map (λ ls. ls) kept.old.items) (flat_map (λ ls. ls) kept.new.items))) }
{
    if machine.advance() {
        return Ok(None);
    }
    any_step(code, machine, kept)
}

// A schedule of one number.
fn one_number(alloc: Global, number: u32) -> Result<Schedule, AllocError>
    ensures { IfOk result (λ picks. picks ≡ number ∷ []) }
{
    let mut list = Vec::new(alloc);
    list.push(number)?;
    Ok(Schedule::from_numbers(Ids::from_vec(list)))
}

// How many picks these are.
fn how_many(picks: &[Pick]) -> usize
    ensures { result ≡ length picks.now }
{
    picks.len()
}

// Writes the numbers of these picks behind the schedule.
fn push_all(picks: &[Pick], schedule: &mut Vec<u32>) -> Result<(), AllocError>
    ensures { OnOk result (schedule.new.items ≡ schedule.old.items ++ digits picks.now) }
{
    for pick in picks {
        schedule.push(pick.picked)?;
    }
    Ok(())
}

// Writes the numbers of the picks from a place on behind the schedule.
fn push_numbers(picks: &[Pick], from: usize, schedule: &mut Vec<u32>) -> Result<(), AllocError>
    requires { from ≤ length picks.now }
    ensures { OnOk result (schedule.new.items ≡ schedule.old.items ++ digits (drop from picks.now)) }
{
    push_all(&picks[from..], schedule)
}

// Writes the number of a pick among so many options, where there are two at least.
fn push_pick(picked: u32, options: u32, schedule: &mut Vec<u32>) -> Result<(), AllocError>
    ensures { OnOk result (schedule.new.items ≡ schedule.old.items ++ digits (picks_one options picked [])) }
{
    if options < 2 {
        return Ok(());
    }
    schedule.push(picked)?;
    Ok(())
}

// Makes the step of the thread at this place among the runnable ones. The numbers that are left stay as they are.
fn step_at<M: Memory + Drop>(
    alloc: Global,
    code: &Checked,
    machine: &mut Machine<M, RunClient>,
    place: u32,
    kept: &mut Vec<Lines>,
) -> Result<Option<Ending>, AllocError>
    requires same { machine.old.bundle ≡ code.now }
    requires fresh { machine.old.ended ≡ false }
    requires rules { AllHaveRules (named code.now) machine.old.configuration }
    ensures same { machine.new.bundle ≡ code.now }
    ensures fresh { IfOk result (λ ending. IfNone ending (machine.new.ended ≡ false)) }
    ensures went { IfOk result (λ ending. IfNone ending (WentAt (named code.now) machine.old.configuration machine.new.configuration (place ∷ []) (flat_map (λ ls. ls) kept.old.items) (flat_map (λ ls. ls) kept.new.items))) }
    ensures ended { IfOk result (λ ending. IfSome ending (CameToEnd (named code.now) (with_picks (place ∷ []) machine.old.configuration) (flat_map (λ ls. ls) kept.old.items) (flat_map (λ ls. ls) kept.new.items))) }
{
    let picks = one_number(alloc, place)?;
    let left = machine.set_picks(picks);
    let ending = step(code, machine, kept)?;
    machine.set_picks(left);
    Ok(ending)
}

// Makes the local step of the thread at this place. It makes no pick of the search; the schedule gets the thread's place.
fn first_step<M: Memory + Drop>(
    alloc: Global,
    code: &Checked,
    machine: &mut Machine<M, RunClient>,
    place: u32,
    kept: &mut Vec<Lines>,
    schedule: &mut Vec<u32>,
) -> Result<(), AllocError>
    requires same { machine.old.bundle ≡ code.now }
    requires fresh { machine.old.ended ≡ false }
    requires rules { AllHaveRules (named code.now) machine.old.configuration }
    requires least { IsLeastAt (named code.now) machine.old.configuration (Some place) }
    ensures same { machine.new.bundle ≡ code.now }
    ensures fresh { OnOk result (machine.new.ended ≡ false) }
    ensures left { OnOk result (machine.new.configuration.picks ≡ machine.old.configuration.picks) }
    ensures went { OnOk result (StepsOn (named code.now) machine.old.configuration machine.new.configuration [] (flat_map (λ ls. ls) kept.old.items) (flat_map (λ ls. ls) kept.new.items) schedule.old.items schedule.new.items) }
{
    local_runs_go_on();
    push_pick(place, machine.runnable(), schedule)?;
    match step_at(alloc, code, machine, place, kept) {
        Ok(None) => Ok(()),
        Ok(Some(_ending)) => unreachable!(),
        Err(refused) => Err(refused),
    }
}

// Makes the next step where no thread's is local, by the numbers that are left. Its picks are noted, and the schedule gets their numbers.
fn other_step<M: Memory + Drop>(
    code: &Checked,
    machine: &mut Machine<M, RunClient>,
    numbers: &[u32],
    made: &mut Vec<Pick>,
    kept: &mut Vec<Lines>,
    schedule: &mut Vec<u32>,
) -> Result<Option<Ending>, AllocError>
    requires same { machine.old.bundle ≡ code.now }
    requires fresh { machine.old.ended ≡ false }
    requires there { answered_step (named code.now) machine.old.configuration ≢ Stuck }
    requires none { IsLeastAt (named code.now) machine.old.configuration None }
    requires left { drop (length made.old.items) numbers.now ≡ machine.old.configuration.picks }
    ensures same { machine.new.bundle ≡ code.now }
    ensures fresh { IfOk result (λ ending. IfNone ending (machine.new.ended ≡ false)) }
    ensures picks { OnOk result (made.new.items ≡ made.old.items ++ path (step_tree (named code.now) machine.old.configuration) machine.old.configuration.picks) }
    ensures left { IfOk result (λ ending. IfNone ending (drop (length made.new.items) numbers.now ≡ machine.new.configuration.picks)) }
    ensures went { IfOk result (λ ending. IfNone ending (StepsOn (named code.now) machine.old.configuration machine.new.configuration (path (step_tree (named code.now) machine.old.configuration) machine.old.configuration.picks) (flat_map (λ ls. ls) kept.old.items) (flat_map (λ ls. ls) kept.new.items) schedule.old.items schedule.new.items)) }
    ensures ended { IfOk result (λ ending. IfSome ending (StepEnds (named code.now) machine.old.configuration (path (step_tree (named code.now) machine.old.configuration) machine.old.configuration.picks) (flat_map (λ ls. ls) kept.old.items) (flat_map (λ ls. ls) kept.new.items) schedule.old.items schedule.new.items)) }
{
    local_runs_go_on();
    let before = how_many(made);
    note_step(code, machine, numbers, made)?;
    push_numbers(made, before, schedule)?;
    step(code, machine, kept)
}

// Makes the next step of the run: the least thread's whose step is local, or, where there is none, the one that the numbers pick.
fn next_step<M: Memory + Drop>(
    alloc: Global,
    code: &Checked,
    machine: &mut Machine<M, RunClient>,
    numbers: &[u32],
    made: &mut Vec<Pick>,
    kept: &mut Vec<Lines>,
    schedule: &mut Vec<u32>,
) -> Result<Option<Ending>, AllocError>
    requires same { machine.old.bundle ≡ code.now }
    requires fresh { machine.old.ended ≡ false }
    requires rules { AllHaveRules (named code.now) machine.old.configuration }
    requires left { drop (length made.old.items) numbers.now ≡ machine.old.configuration.picks }
    ensures same { machine.new.bundle ≡ code.now }
    ensures fresh { IfOk result (λ ending. IfNone ending (machine.new.ended ≡ false)) }
    ensures left { IfOk result (λ ending. IfNone ending (drop (length made.new.items) numbers.now ≡ machine.new.configuration.picks)) }
    ensures went { IfOk result (λ ending. IfNone ending (GoesFurther (named code.now) machine.old.configuration machine.new.configuration made.old.items made.new.items (flat_map (λ ls. ls) kept.old.items) (flat_map (λ ls. ls) kept.new.items) schedule.old.items schedule.new.items)) }
    ensures ended { IfOk result (λ ending. IfSome ending (GoesToEnd (named code.now) machine.old.configuration made.old.items made.new.items (flat_map (λ ls. ls) kept.old.items) (flat_map (λ ls. ls) kept.new.items) schedule.old.items schedule.new.items)) }
{
    match machine.least_local()? {
        Some(place) => {
            first_step(alloc, code, machine, place, kept, schedule)?;
            Ok(None)
        }
        None => other_step(code, machine, numbers, made, kept, schedule),
    }
}

/// Makes the steps of a run in which local steps come first, up to its ending, which comes within so many. It notes each pick of the
/// search, keeps the lines, and writes the schedule of the run.
pub fn play<M: Memory + Drop>(
    alloc: Global,
    code: &Checked,
    machine: &mut Machine<M, RunClient>,
    steps: u64,
    numbers: &[u32],
    made: &mut Vec<Pick>,
    kept: &mut Vec<Lines>,
    schedule: &mut Vec<u32>,
) -> Result<Ending, AllocError>
    requires same { machine.old.bundle ≡ code.now }
    requires fresh { machine.old.ended ≡ false }
    requires ends { AllEnd (named code.now) steps machine.old.configuration }
    requires picks { machine.old.configuration.picks ≡ numbers.now }
    requires made { made.old.items ≡ [] }
    requires kept { flat_map (λ ls. ls) kept.old.items ≡ [] }
    requires schedule { schedule.old.items ≡ [] }
    ensures path { OnOk result (MakesPicks (named code.now) steps machine.old.configuration numbers.now made.new.items) }
    ensures leaf { IfOk result (λ ending. LeadsTo (named code.now) steps machine.old.configuration numbers.now (flat_map (λ ls. ls) kept.new.items) ending) }
    ensures run { IfOk result (λ ending. RunsTo (named code.now) steps machine.old.configuration schedule.new.items (flat_map (λ ls. ls) kept.new.items) ending) }
{
    let mut left = steps;
    'steps: while left > 0 {
        left -= 1;
        match next_step(alloc, code, machine, numbers, made, kept, schedule) {
            Ok(None) => {}
            Ok(Some(ending)) => return Ok(ending),
            Err(refused) => return Err(refused),
        }
    }
    unreachable!()
}

/// The same of a machine that is given, which is dropped then. Zeros at the end of the schedule may be left out, since a spent one picks 0.
pub fn play_whole<M: Memory + Drop>(
    alloc: Global,
    code: &Checked,
    machine: Machine<M, RunClient>,
    steps: u64,
    numbers: &[u32],
    made: &mut Vec<Pick>,
    kept: &mut Vec<Lines>,
    schedule: &mut Vec<u32>,
) -> Result<Ending, AllocError>
    requires same { machine.bundle ≡ code.now }
    requires fresh { machine.ended ≡ false }
    requires ends { AllEnd (named code.now) steps machine.configuration }
    requires picks { machine.configuration.picks ≡ numbers.now }
    requires made { made.old.items ≡ [] }
    requires kept { flat_map (λ ls. ls) kept.old.items ≡ [] }
    requires schedule { schedule.old.items ≡ [] }
    ensures path { OnOk result (MakesPicks (named code.now) steps machine.entry.configuration numbers.now made.new.items) }
    ensures leaf { IfOk result (λ ending. LeadsTo (named code.now) steps machine.entry.configuration numbers.now (flat_map (λ ls. ls) kept.new.items) ending) }
    ensures run { IfOk result (λ ending. RunsTo (named code.now) steps machine.entry.configuration schedule.new.items (flat_map (λ ls. ls) kept.new.items) ending) }
{
    picks_are_only_picked_from();
    let mut machine = machine;
    let ending = play(
        alloc,
        code,
        &mut machine,
        steps,
        numbers,
        made,
        kept,
        schedule,
    )?;
    drop_zeros(schedule);
    Ok(ending)
}
