// What a return hands on, and the line of a record.
ghost use Rattle.std.specs.Prelude.{◌≡◌, [], ◌∷◌, IfOk};
ghost use Rattle.mu_model.specs.declared.lines.Line.TheVariants as noted;

use mu_base::Types;
use mu_model::{Line, Lines, Note};
use mu_values::{Passed, Slots};
use std::alloc::{AllocError, Global};
use std::mem;
use step_forms::Room;

/// The values in the room with their classes, which are moved out of it: both lists of the room are empty then. The error comes exactly
/// where the room has not as many classes as values; then the room is as it was. It takes no memory.
pub fn taken(alloc: Global, room: &mut Room) -> Result<Passed, AllocError>
    ensures { IfOk result (λ values. values ≡ record { types = room.old.types.members; values = room.old.values.values }) }
{
    if room.types.len() != room.values.len() {
        return Err(AllocError);
    }
    let types = mem::replace(&mut room.types, Types::new(alloc));
    let values = mem::replace(&mut room.values, Slots::new(alloc));
    Ok(Passed::new(types, values))
}

/// The one line of a record. It is refused only when out of memory.
pub fn line(alloc: Global, note: Note) -> Result<Lines, AllocError>
    ensures { IfOk result (λ lines. lines ≡ noted.Note note ∷ []) }
{
    let mut lines = Lines::new(alloc);
    lines.push(Line::Note(note))?;
    Ok(lines)
}
