// The text of a run's outcome.
ghost use Rattle.std.specs.Prelude.{◌≡◌, ◌<◌, ◌++◌, ◌∷◌, [], Some, None, IfOk, OnOk, flat_map, length, slice_index_or, ℕ, true, false, if◌then◌else◌, codes};
ghost use Rattle.mu_model.specs.declared.lines.Line.TheVariants as lines;
ghost use Rattle.run_texts.specs.EventTexts.{scalar_text};
ghost use Rattle.run_texts.specs.Texts.{note_text};
ghost use Rattle.seen_runs.specs.Seen.{end_of, line_after, last_after};
ghost use Rattle.seen_runs.specs.declared.globals.Final.{Final};
ghost use Rattle.seen_runs.specs.Finals.{line_end, end_lines, final_line, over_text, cut_text, seen_by};
ghost use Rattle.seen_runs.specs.Writes.{AreLast};

use crate::globals::Final;
use crate::writes::last_writes;
use checked_code::Checked;
use mem_axioms::{Kind, Mode};
use mu_model::{Ending, Line, Lines, Note};
use mu_values::{CellId, Scalar};
use run_print::{ending_text, ending_words, record_text, spaced_kind, spaced_scalar};
use std::alloc::AllocError;

// The most threads of a run.
const MOST_THREADS: u32 = 64;

// Whether this is the record of this thread's end.
fn is_end(note: &Note, thread: u32) -> bool
    ensures { end_of thread (lines.Note note.now) ≡ (if result then note.now ∷ [] else []) }
{
    match note {
        Note::Returned { thread: own, .. } => *own == thread,
        Note::Exited { thread: own } => *own == thread,
        _ => false,
    }
}

// Appends the text of the line, where it is the record of this thread's end.
fn end_line(code: &Checked, thread: u32, line: &Line, out: &mut Vec<u8>) -> Result<(), AllocError>
    ensures { OnOk result (out.new.items ≡ out.old.items ++ line_end code.now thread line.now) }
{
    match line {
        Line::Event { .. } => Ok(()),
        Line::Note(note) => if is_end(note, thread) {
            record_text(code, note, out)?;
            out.extend_from_slice(b"\n")
        } else {
            Ok(())
        },
    }
}

// Appends the record of this thread's end, where it is among the lines of a step.
fn step_end(
    code: &Checked,
    thread: u32,
    lines: &[Line],
    out: &mut Vec<u8>,
) -> Result<(), AllocError>
    ensures { OnOk result (out.new.items ≡ out.old.items ++ flat_map (line_end code.now thread) lines.now) }
{
    for line in lines {
        end_line(code, thread, line, out)?;
    }
    Ok(())
}

// Appends the record of this thread's end, where it is among the lines of these steps.
fn thread_end(
    code: &Checked,
    thread: u32,
    steps: &[Lines],
    out: &mut Vec<u8>,
) -> Result<(), AllocError>
    ensures { OnOk result (out.new.items ≡ out.old.items ++ flat_map (flat_map (line_end code.now thread)) steps.now) }
{
    for lines in steps {
        step_end(code, thread, lines.as_slice(), out)?;
    }
    Ok(())
}

// Appends the records of the ends of all threads, by rising number of the thread.
fn all_ends(code: &Checked, steps: &[Lines], out: &mut Vec<u8>) -> Result<(), AllocError>
    ensures { OnOk result (out.new.items ≡ out.old.items ++ end_lines code.now (flat_map (λ ls. ls) steps.now)) }
{
    for thread in 0..MOST_THREADS {
        thread_end(code, thread, steps, out)?;
    }
    Ok(())
}

// What a cell holds after a line, when it held that scalar before.
fn written(cell: CellId, before: Scalar, line: &Line) -> Scalar
    ensures { result ≡ line_after cell before line.now }
{
    match line {
        Line::Note(_) => before,
        Line::Event { event, .. } => match event.kind {
            Kind::Access {
                mode: Mode::Write | Mode::Update,
                cell: at,
                value,
                ..
            } => if at.object == cell.object && at.at == cell.at {
                value
            } else {
                before
            },
            _ => before,
        },
    }
}

// What a cell holds after the lines of a step.
fn after_step(cell: CellId, before: Scalar, lines: &[Line]) -> Scalar
    ensures { result ≡ last_after cell before lines.now }
{
    let mut now = before;
    for line in lines {
        now = written(cell, now, line);
    }
    now
}

// What a cell holds after these steps.
#[tactic(auto, using(crate::proofs::Ends::after_both))]
fn after_steps(cell: CellId, before: Scalar, steps: &[Lines]) -> Scalar
    ensures { result ≡ last_after cell before (flat_map (λ ls. ls) steps.now) }
{
    let mut now = before;
    for lines in steps {
        now = after_step(cell, now, lines.as_slice());
    }
    now
}

// What the cell of a global holds after these steps, from the last scalars that they write to the first cells of objects. A global of one
// cell has the first of its object; for another cell the lines are gone over.
fn last_of(global: &Final, written: &[Option<Scalar>], steps: &[Lines]) -> Scalar
    requires { AreLast written.now (flat_map (λ ls. ls) steps.now) }
    ensures { result ≡ last_after global.now.cell global.now.before (flat_map (λ ls. ls) steps.now) }
{
    let object = global.cell.object as usize;
    if global.cell.at != 0 || object >= written.len() {
        return after_steps(global.cell, global.before, steps);
    }
    match written[object] {
        Some(value) => value,
        None => global.before,
    }
}

// Appends what a global holds after these steps.
fn final_line(
    code: &Checked,
    steps: &[Lines],
    written: &[Option<Scalar>],
    global: &Final,
    out: &mut Vec<u8>,
) -> Result<(), AllocError>
    requires { AreLast written.now (flat_map (λ ls. ls) steps.now) }
    ensures { OnOk result (out.new.items ≡ out.old.items ++ final_line code.now (flat_map (λ ls. ls) steps.now) global.now) }
{
    let now = last_of(global, written, steps);
    out.extend_from_slice(b"final ")?;
    out.extend_from_slice(global.name.as_slice())?;
    spaced_scalar(code, &now, out)?;
    out.extend_from_slice(b"\n")
}

// A number above those of these globals' objects.
fn objects_of(finals: &[Final]) -> usize
    ensures { (k : ℕ) (d : Final) → k < length finals.now → (slice_index_or finals.now k d).cell.object < result }
{
    let mut objects = 0;
    for global in finals {
        objects = objects.max(global.cell.object as usize + 1);
    }
    objects
}

// Appends what the globals hold after these steps, whose lines are gone over once.
fn final_lines(
    code: &Checked,
    steps: &[Lines],
    finals: &[Final],
    out: &mut Vec<u8>,
) -> Result<(), AllocError>
    ensures { OnOk result (out.new.items ≡ out.old.items ++ flat_map (final_line code.now (flat_map (λ ls. ls) steps.now)) finals.now) }
{
    let alloc = *out.allocator();
    let kept = last_writes(alloc, objects_of(finals), steps)?;
    let written = kept.as_slice();
    for global in finals {
        final_line(code, steps, written, global, out)?;
    }
    Ok(())
}

// The outcome of a run at whose end no thread can go on.
fn over(
    code: &Checked,
    finals: &[Final],
    steps: &[Lines],
    ending: &Ending,
    out: &mut Vec<u8>,
) -> Result<(), AllocError>
    ensures { OnOk result (out.new.items ≡ over_text code.now finals.now (flat_map (λ ls. ls) steps.now) ending.now) }
{
    out.clear();
    all_ends(code, steps, out)?;
    final_lines(code, steps, finals, out)?;
    ending_text(code, ending, out)
}

// The outcome of a run that is cut short: its ending, and of a race the event that races.
fn undefined(code: &Checked, ending: &Ending, out: &mut Vec<u8>) -> Result<(), AllocError>
    ensures { OnOk result (out.new.items ≡ cut_text code.now ending.now) }
{
    out.clear();
    match ending {
        Ending::Undefined {
            case,
            thread,
            block,
            at,
            race: Some(raced),
        } => {
            let plain = Ending::Undefined {
                case: *case,
                thread: *thread,
                block: *block,
                at: *at,
                race: None,
            };
            ending_words(code, &plain, out)?;
            spaced_kind(code, &raced.event.kind, out)?;
            out.extend_from_slice(b"\n")
        }
        _ => ending_text(code, ending, out),
    }
}

/// Writes the outcome of a run with the lines of these steps and this ending, in place of what `out` held. Where no thread can go on, that is
/// the record of each thread's end, what each of the globals in `finals` holds then, and the ending. Else it is the ending alone; of a
/// race it shows the event that races, but not the number of the earlier event. The answer is false exactly where the run came to its
/// budget: such a run has no outcome, and the text means nothing. It is refused only when out of memory; then the text may be incomplete.
pub fn seen_text(
    code: &Checked,
    finals: &[Final],
    steps: &[Lines],
    ending: &Ending,
    out: &mut Vec<u8>,
) -> Result<bool, AllocError>
    ensures seen { IfOk result (λ says. says ≡ true → seen_by code.now finals.now (flat_map (λ ls. ls) steps.now) ending.now ≡ Some out.new.items) }
    ensures budget { IfOk result (λ says. says ≡ false → seen_by code.now finals.now (flat_map (λ ls. ls) steps.now) ending.now ≡ None) }
{
    match ending {
        Ending::Budget { .. } => Ok(false),
        Ending::Done | Ending::AllWaiting { .. } => {
            over(code, finals, steps, ending, out)?;
            Ok(true)
        }
        _ => {
            undefined(code, ending, out)?;
            Ok(true)
        }
    }
}
