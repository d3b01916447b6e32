// Threads, stacks, objects and cells.
ghost use Rattle.std.specs.Prelude.{◌≡◌, ◌<◌, IfOk};
ghost use Rattle.log_lines.specs.Fields.{thread, stack, object, cell, cell_in, cell_of, parts};

use crate::numbers::{NUMBERS, THREADS, number};
use crate::parts::first_part;
use log_lines::LogKind;
use mu_values::CellId;

/// `tN`.
pub fn thread(field: &[u8]) -> Result<u32, LogKind>
    ensures thread { result ≡ thread field.now }
    ensures few { IfOk result (λ n. n < 64) }
{
    match field {
        [b't', digits @ ..] => number(THREADS, digits),
        _ => Err(LogKind::Unexpected),
    }
}

/// `sN`.
pub fn stack(field: &[u8]) -> Result<u32, LogKind>
    ensures { result ≡ stack field.now }
{
    match field {
        [b's', digits @ ..] => number(NUMBERS, digits),
        _ => Err(LogKind::Unexpected),
    }
}

/// `#o`.
pub fn object(field: &[u8]) -> Result<u32, LogKind>
    ensures { result ≡ object field.now }
{
    match field {
        [b'#', digits @ ..] => number(NUMBERS, digits),
        _ => Err(LogKind::Unexpected),
    }
}

/// `#o+k`.
pub fn cell(field: &[u8]) -> Result<CellId, LogKind>
    ensures { result ≡ cell field.now }
{
    match field {
        [b'#', numbers @ ..] => cell_in(numbers),
        _ => Err(LogKind::Unexpected),
    }
}

// `o+k`.
fn cell_in(numbers: &[u8]) -> Result<CellId, LogKind>
    ensures { result ≡ cell_in (parts 43 numbers.now) }
{
    let object = first_part(numbers, b'+');
    let Some(rest) = object.rest else {
        return Err(LogKind::Unexpected);
    };
    let at = first_part(rest, b'+');
    if at.rest.is_some() {
        return Err(LogKind::Unexpected);
    }
    cell_of(number(NUMBERS, object.part), number(NUMBERS, at.part))
}

fn cell_of(object: Result<u32, LogKind>, at: Result<u32, LogKind>) -> Result<CellId, LogKind>
    ensures { result ≡ cell_of object at }
{
    match (object, at) {
        (Ok(object), Ok(at)) => Ok(CellId { object, at }),
        (Err(LogKind::Unexpected), _) | (_, Err(LogKind::Unexpected)) => Err(LogKind::Unexpected),
        _ => Err(LogKind::BadNumber),
    }
}
