// The last scalars that the lines of a run write to the first cells of objects.
ghost use Rattle.std.specs.Prelude.{◌≡◌, ◌<◌, ℕ, ◌∷◌, [], IfOk, MatchOption, flat_map, length, if◌then◌else◌};
ghost use Rattle.mu_values.specs.declared.scalars.Scalar.{Scalar};
ghost use Rattle.mu_values.specs.declared.cells.CellId.{CellId};
ghost use Rattle.mu_values.specs.SameCell.{same_cell};
ghost use Rattle.seen_runs.specs.Seen.{line_after};
ghost use Rattle.seen_runs.specs.Writes.{Keeps, AreLast};

use mem_axioms::{Kind, Mode};
use mu_model::{Line, Lines};
use mu_values::{CellId, Scalar};
use std::alloc::{AllocError, Global};

// A scalar that was written to a cell.
#[derive(Clone, Copy)]
struct Write {
    cell: CellId,
    value: Scalar,
}

// What a line writes, if it is a write or an update.
fn write_of(line: &Line) -> Option<Write>
    ensures { MatchOption result ((cell : CellId) (before : Scalar) → line_after cell before line.now ≡ before) (λ write. (cell : CellId) (before : Scalar) → line_after cell before line.now ≡ (if same_cell write.cell cell then write.value else before)) }
{
    match line {
        Line::Note(_) => None,
        Line::Event { event, .. } => match event.kind {
            Kind::Access {
                mode: Mode::Write | Mode::Update,
                cell,
                value,
                ..
            } => Some(Write { cell, value }),
            _ => None,
        },
    }
}

// Keeps what a line writes to the first cell of an object, if this is one of the objects.
fn keep_line(written: &mut Vec<Option<Scalar>>, line: &Line)
    ensures { Keeps written.old.items written.new.items (line.now ∷ []) }
{
    let Some(write) = write_of(line) else {
        return;
    };
    let object = write.cell.object as usize;
    if write.cell.at != 0 || object >= written.len() {
        return;
    }
    written[object] = Some(write.value);
}

// The same of the lines of a step.
fn keep_step(written: &mut Vec<Option<Scalar>>, lines: &[Line])
    ensures { Keeps written.old.items written.new.items lines.now }
{
    for line in lines {
        keep_line(written, line);
    }
}

/// The last scalar that these steps write to the first cell of each of so many objects, if they write one there. Each line is looked at
/// once.
pub(crate) fn last_writes(
    alloc: Global,
    objects: usize,
    steps: &[Lines],
) -> Result<Vec<Option<Scalar>>, AllocError>
    ensures size { IfOk result (λ written. length written.items ≡ objects) }
    ensures last { IfOk result (λ written. AreLast written.items (flat_map (λ ls. ls) steps.now)) }
{
    let mut written = vec![in alloc; None; objects]?;
    for lines in steps {
        keep_step(&mut written, lines.as_slice());
    }
    Ok(written)
}
