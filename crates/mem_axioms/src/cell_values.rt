// The positions of a cell, and their values.
ghost use Rattle.std.specs.Prelude.{◌≡◌, ◌<◌, ◌≤◌, reverse, length};
ghost use Rattle.mem_axioms.specs.Logs.{newest};
ghost use Rattle.mem_axioms.specs.Form.{value_at};
ghost use Rattle.mem_axioms.specs.Objects.{initial_of, HasCell};
ghost use Rattle.mem_axioms.specs.Scalars.{scalars_of};

use crate::event_facts::{is_same_cell, modifies_cell};
use crate::types::{Event, Kind, Mode};
use mu_values::{CellId, Scalar, Value};

/// The newest position of the cell.
pub fn newest_position(events: &[Event], cell: CellId) -> u32
    requires { length events.now < 4294967295 }
    ensures newest { result ≡ newest (reverse events.now) cell }
    ensures at_most { result ≤ length events.now }
{
    let mut count = 0;
    for event in events {
        if modifies_cell(event, cell) {
            count += 1;
        }
    }
    count
}

/// The initial scalar of the cell.
fn initial_scalar(objects: &[Value], cell: CellId) -> Scalar
    requires { HasCell (scalars_of objects.now) cell }
    ensures { result ≡ initial_of (scalars_of objects.now) cell }
{
    objects[cell.object as usize].at(cell.at as usize)
}

/// The value at the position of the cell.
pub fn value_at_position(objects: &[Value], events: &[Event], cell: CellId, position: u32) -> Scalar
    requires { HasCell (scalars_of objects.now) cell }
    ensures { result ≡ value_at (initial_of (scalars_of objects.now)) (reverse events.now) cell position }
{
    for i in (0..events.len()).rev() {
        if let Kind::Access {
            mode,
            cell: of,
            position: made,
            value,
            ..
        } = events[i].kind
        {
            if !matches!(mode, Mode::Read) && is_same_cell(of, cell) && made == position {
                return value;
            }
        }
    }
    initial_scalar(objects, cell)
}
