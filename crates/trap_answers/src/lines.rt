//! The lines of a trap.
ghost use Rattle.std.specs.Prelude.{◌≡◌, ◌++◌, ◌∷◌, map, IfOk};
ghost use Rattle.mu_model.specs.declared.lines.Line.TheVariants as written;

use client_hooks::Notes;
use mem_axioms::Event;
use mu_model::{Line, Lines, Note};
use std::alloc::{AllocError, Global};

/// The lines of a trap: the event that the stack is left, which has that number, the record of the trap, and what an answer records.
/// They are refused only when out of memory.
pub fn trap_lines(
    alloc: Global,
    number: u32,
    leave: Event,
    trap: Note,
    notes: Notes,
) -> Result<Lines, AllocError>
    ensures { IfOk result (λ lines. lines ≡ written.Event number leave ∷ written.Note trap ∷ map written.Note notes) }
{
    let mut lines = Lines::new(alloc);
    lines.push(Line::Event {
        number,
        event: leave,
    })?;
    lines.push(Line::Note(trap))?;
    for note in notes.into_vec() {
        lines.push(Line::Note(note))?;
    }
    Ok(lines)
}
