// Accesses in the words of memory, and events that a memory gets.
ghost use Rattle.std.specs.Prelude.{◌≡◌, suc, ◌+◌, ◌-◌, ◌<◌, [], ◌∷◌, ◌++◌, IsSome, IsNone, Some, None, MatchOption, IfOk, OnOk, OnErr, length, slice_get, drop, true, false};
ghost use Rattle.mem_axioms.specs.declared.types.Mode.TheVariants.{Read};
ghost use Rattle.mem_axioms.specs.declared.types.Kind.TheVariants as kinds;
ghost use Rattle.mem_axioms.specs.Objects.{HasCell, initial_of};
ghost use Rattle.mem_axioms.specs.Choices.{choices};
ghost use Rattle.mem_axioms.specs.Races.{race};
ghost use Rattle.mem_axioms.specs.EventFits.{EventFits, is_thread};
ghost use Rattle.mem_axioms.specs.Rooms.{HasRoom, one_less};
ghost use Rattle.mem_axioms.specs.Lemmas.Kept.{is_any_access};
ghost use Rattle.mu_model.specs.declared.lines.Line.TheVariants as written;
ghost use Rattle.mu_model.specs.Accesses.{wanted, updated, kind_of, access_results};
ghost use Rattle.mu_threads.specs.Picks.{pick};
ghost use Rattle.frames.specs.Chains.{stands};
ghost use Rattle.step_forms.specs.Asked.{access_of};

use frames::Frames;
use mem_axioms::{Chosen, Event, Kind, Memory, Mode, Race, Wanted};
use mu_base::{Order, Steps, UpdateOp};
use mu_model::{Line, Lines};
use mu_threads::Schedule;
use mu_values::{CellId, Scalar, Slots};
use std::alloc::{AllocError, Global};
use std::sync::ledger::{Blank, Ledger};
use step_forms::Access;

/// An access in the words of memory.
pub fn wanted(access: Access) -> Wanted
    ensures { result ≡ wanted (access_of access) }
{
    match access {
        Access::Loads { order } => Wanted::Load { order },
        Access::Stores { .. } | Access::Updates { .. } => Wanted::Swap,
        Access::Compares {
            weak,
            success,
            failure,
            expected,
            ..
        } => Wanted::Compare {
            success,
            failure,
            expected,
            weak,
        },
    }
}

/// What an update makes of the scalar that it reads.
#[tactic(auto, using(crate::specs::AccessLaws::update_there))]
fn updated(op: UpdateOp, old: Scalar, operand: Scalar) -> Scalar
    requires { IsSome (updated op old operand) }
    ensures { updated op old operand ≡ Some result }
{
    match (op, old, operand) {
        (UpdateOp::Xchg, _, _) => operand,
        (_, Scalar::Int { width, bits }, Scalar::Int { bits: by, .. }) => Scalar::Int {
            width,
            bits: mu_values::updated(op, width, bits, by),
        },
        _ => unreachable!(),
    }
}

/// A read of the scalar that was chosen.
pub fn read(cell: CellId, order: Order, chosen: Chosen) -> Kind
    ensures { result ≡ kinds.Access Read cell order chosen.position chosen.value }
{
    Kind::Access {
        mode: Mode::Read,
        cell,
        order,
        position: chosen.position,
        value: chosen.value,
    }
}

/// A write or update, which makes the position after the chosen one.
fn make(mode: Mode, cell: CellId, order: Order, chosen: Chosen, value: Scalar) -> Kind
    requires { chosen.position < 4294967295 }
    ensures { result ≡ kinds.Access mode cell order (suc chosen.position) value }
{
    Kind::Access {
        mode,
        cell,
        order,
        position: chosen.position + 1,
        value,
    }
}

/// What is logged of an access of a cell by the option that was chosen.
pub fn kind_of(access: Access, cell: CellId, chosen: Chosen) -> Kind
    requires next { chosen.position < 4294967295 }
    requires there { IsSome (kind_of (access_of access) cell chosen) }
    ensures { kind_of (access_of access) cell chosen ≡ Some result }
{
    match access {
        Access::Loads { order } => read(cell, order, chosen),
        Access::Stores { order, scalar } => make(Mode::Write, cell, order, chosen, scalar),
        Access::Compares {
            success,
            failure,
            desired,
            ..
        } => {
            if chosen.success {
                make(Mode::Update, cell, success, chosen, desired)
            } else {
                read(cell, failure, chosen)
            }
        }
        Access::Updates { order, op, operand } => {
            let made = updated(op, chosen.value, operand);
            make(Mode::Update, cell, order, chosen, made)
        }
    }
}

/// What an access gives by the option that was chosen, in place of what the list held. It is refused only when out of memory; then values
/// may be missing.
pub fn write_results(access: Access, chosen: Chosen, values: &mut Slots) -> Result<(), AllocError>
    ensures { OnOk result (values.new.values ≡ access_results (access_of access) chosen) }
{
    values.clear();
    match access {
        Access::Stores { .. } => Ok(()),
        Access::Loads { .. } | Access::Updates { .. } => values.push_scalar(chosen.value),
        Access::Compares { .. } => {
            values.push_scalar(chosen.value)?;
            values.push_scalar(Scalar::Int {
                width: 1,
                bits: if chosen.success { 1 } else { 0 },
            })
        }
    }
}

/// The line of an event with that number. It is refused only when out of memory; then there are no lines.
pub fn line_of(alloc: Global, number: u32, event: Event) -> Result<Lines, AllocError>
    ensures { IfOk result (λ lines. lines ≡ written.Event number event ∷ []) }
{
    let mut lines = Lines::new(alloc);
    lines.push(Line::Event { number, event })?;
    Ok(lines)
}

/// What is asked of a memory: what a thread wants of a cell.
#[derive(Clone, Copy, Debug, PartialEq, Eq)]
pub struct Asked {
    pub thread: u32,
    pub cell: CellId,
    pub wanted: Wanted,
}

/// How many options there are for what is asked, and the one that is picked.
pub fn option_picked<M: Memory, L: Ledger>(
    memory: &M,
    asked: Asked,
    picks: &Schedule,
    skip: u32,
    blank: Blank,
) -> (u32, Chosen)
    requires name { blank.name ≡ L.name }
    requires parts { blank.parts ≡ L.parts }
    requires one { L.parts ≡ 1 }
    requires thread { is_thread (M.log memory.now) asked.thread ≡ true }
    requires cell { HasCell (M.objects memory.now) asked.cell }
    requires events { length (M.log memory.now) + 1 < 4294967295 }
    ensures count { result.0 ≡ length (choices (M.rule memory.now) (initial_of (M.objects memory.now)) (M.log memory.now) asked.thread asked.cell asked.wanted) }
    ensures some { 0 < result.0 }
    ensures option { slice_get (choices (M.rule memory.now) (initial_of (M.objects memory.now)) (M.log memory.now) asked.thread asked.cell asked.wanted) (pick result.0 (drop skip picks.now)).0 ≡ Some result.1 }
{
    let mut counter = Steps::<L>::new(blank);
    let options = memory.options(asked.thread, asked.cell, &asked.wanted, &mut counter);
    let picked = picks.look(skip, options);
    let chosen = memory.choose(
        asked.thread,
        asked.cell,
        &asked.wanted,
        picked,
        &mut counter,
    );
    (options, chosen)
}

/// A memory gets an event; where it races, that is the answer, and the memory is as before.
pub fn commit<M: Memory, L: Ledger>(memory: &mut M, event: Event, blank: Blank) -> Option<Race>
    requires name { blank.name ≡ L.name }
    requires parts { blank.parts ≡ L.parts }
    requires one { L.parts ≡ 1 }
    requires fits { EventFits (M.rule memory.old) (M.objects memory.old) (M.log memory.old) event }
    requires room { HasRoom (M.room memory.old) event }
    requires count { length (M.log memory.old) + 1 < 4294967295 }
    ensures race { MatchOption result (race (M.rule memory.old) (M.log memory.old) event ≡ None) (λ found. race (M.rule memory.old) (M.log memory.old) event ≡ Some found.earlier) }
    ensures added { IsNone result → M.log memory.new ≡ event ∷ M.log memory.old }
    ensures raced { IsSome result → M.log memory.new ≡ M.log memory.old }
    ensures left { IsNone result → M.room memory.new ≡ one_less (M.room memory.old) }
    ensures same_objects { M.objects memory.new ≡ M.objects memory.old }
    ensures same_rule { M.rule memory.new ≡ M.rule memory.old }
{
    let mut counter = Steps::<L>::new(blank);
    memory.commit(event, &mut counter)
}

/// A memory gets an event that is no access, and so races with none.
#[tactic(auto, using(crate::specs::AccessLaws::others_alone))]
pub fn commit_other<M: Memory, L: Ledger>(memory: &mut M, event: Event, blank: Blank)
    requires name { blank.name ≡ L.name }
    requires parts { blank.parts ≡ L.parts }
    requires one { L.parts ≡ 1 }
    requires other { is_any_access event ≡ false }
    requires fits { EventFits (M.rule memory.old) (M.objects memory.old) (M.log memory.old) event }
    requires room { 0 < (M.room memory.old).events }
    requires count { length (M.log memory.old) + 1 < 4294967295 }
    ensures added { M.log memory.new ≡ event ∷ M.log memory.old }
    ensures left { (M.room memory.new).events ≡ (M.room memory.old).events - 1 }
    ensures same_objects { M.objects memory.new ≡ M.objects memory.old }
    ensures same_rule { M.rule memory.new ≡ M.rule memory.old }
{
    match commit::<M, L>(memory, event, blank) {
        None => {}
        Some(_race) => unreachable!(),
    }
}

/// A memory gets an event, and the top frame goes on at a place of its block with these results behind its own variables. Where the
/// event races, that is the answer. Then, and where no memory is found, all is as before.
pub fn commit_next<M: Memory, L: Ledger>(
    memory: &mut M,
    frames: &mut Frames,
    event: Event,
    at: u32,
    results: &Slots,
    blank: Blank,
) -> Result<Option<Race>, AllocError>
    requires name { blank.name ≡ L.name }
    requires parts { blank.parts ≡ L.parts }
    requires one { L.parts ≡ 1 }
    requires fits { EventFits (M.rule memory.old) (M.objects memory.old) (M.log memory.old) event }
    requires room { HasRoom (M.room memory.old) event }
    requires count { length (M.log memory.old) + 1 < 4294967295 }
    ensures race { IfOk result (λ found. MatchOption found (race (M.rule memory.old) (M.log memory.old) event ≡ None) (λ found. race (M.rule memory.old) (M.log memory.old) event ≡ Some found.earlier)) }
    ensures added { IfOk result (λ found. IsNone found → M.log memory.new ≡ event ∷ M.log memory.old) }
    ensures raced { IfOk result (λ found. IsSome found → M.log memory.new ≡ M.log memory.old) }
    ensures goes { IfOk result (λ found. IsNone found → frames.new ≡ record frames.old { top = stands frames.old.top frames.old.top.block at (frames.old.top.vars ++ results.now.values) }) }
    ensures stays { IfOk result (λ found. IsSome found → frames.new ≡ frames.old) }
    ensures err_frames { OnErr result (frames.new ≡ frames.old) }
    ensures err { OnErr result (M.log memory.new ≡ M.log memory.old) }
    ensures same_objects { M.objects memory.new ≡ M.objects memory.old }
    ensures same_rule { M.rule memory.new ≡ M.rule memory.old }
{
    let frame = frames.top_mut();
    frame.slots.reserve_for(results)?;
    let found = commit::<M, L>(memory, event, blank);
    if found.is_none() {
        frame.stand_behind(at, results);
    }
    Ok(found)
}

/// The picks that were looked at are taken, and then one among so many options.
pub fn take_picks(picks: &mut Schedule, skip: &mut u32, options: u32)
    requires { 0 < options }
    ensures picks { picks.new ≡ (pick options (drop skip.old picks.old)).1 }
    ensures skip { skip.new ≡ 0 }
{
    picks.skip(*skip);
    picks.pick(options);
    *skip = 0;
}
