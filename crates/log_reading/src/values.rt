// Values of cells.
ghost use Rattle.std.specs.Prelude.{◌≡◌, codes, bytes_eq, if◌then◌else◌, Ok, Err, IfOk};
ghost use Rattle.log_lines.specs.Fields.{mapped, or_else, number, value_limit, object, cell, stack, thread};
ghost use Rattle.log_lines.specs.Values.{value};
ghost use Rattle.log_lines.specs.declared.types.LogKind.TheVariants.{Unexpected};
ghost use Rattle.mu_values.specs.declared.scalars.Scalar.TheVariants as scalars;
ghost use Rattle.log_reading.specs.Inner.{other_value, IsValue};

use crate::names::{Names, is_name};
use crate::numbers::numeral;
use crate::references::{cell, object, stack, thread};
use log_lines::LogKind;
use mu_values::Scalar;
use std::alloc::AllocError;

fn number_value(field: &[u8]) -> Result<Scalar, LogKind>
    ensures { result ≡ mapped (scalars.Int 128) (number value_limit field.now) }
{
    let bits = numeral(field)?;
    Ok(Scalar::Int { width: 128, bits })
}

fn null_value(field: &[u8]) -> Result<Scalar, LogKind>
    ensures { result ≡ (if bytes_eq (codes "NULL") field.now then Ok scalars.Null else Err Unexpected) }
{
    if b"NULL".as_slice() == field {
        Ok(Scalar::Null)
    } else {
        Err(LogKind::Unexpected)
    }
}

fn object_value(field: &[u8]) -> Result<Scalar, LogKind>
    ensures { result ≡ mapped scalars.Object (object field.now) }
{
    let object = object(field)?;
    Ok(Scalar::Object(object))
}

fn place_value(field: &[u8]) -> Result<Scalar, LogKind>
    ensures { result ≡ mapped (λ c. scalars.Place c.object c.at) (cell field.now) }
{
    let cell = cell(field)?;
    Ok(Scalar::Place {
        object: cell.object,
        at: cell.at,
    })
}

fn stack_value(field: &[u8]) -> Result<Scalar, LogKind>
    ensures { result ≡ mapped scalars.Stack (stack field.now) }
{
    let stack = stack(field)?;
    Ok(Scalar::Stack(stack))
}

fn thread_value(field: &[u8]) -> Result<Scalar, LogKind>
    ensures { result ≡ mapped scalars.Thread (thread field.now) }
{
    let thread = thread(field)?;
    Ok(Scalar::Thread(thread))
}

// The first, or where it has not the form of a field, the other.
fn or_else(
    first: Result<Scalar, LogKind>,
    other: Result<Scalar, LogKind>,
) -> Result<Scalar, LogKind>
    ensures { result ≡ or_else first other }
{
    match first {
        Ok(value) => Ok(value),
        Err(LogKind::Unexpected) => other,
        Err(kind) => Err(kind),
    }
}

// A value that is no function. A field of another form is known by its first byte.
fn other_value(field: &[u8]) -> Result<Scalar, LogKind>
    ensures { result ≡ other_value field.now }
{
    let run = or_else(stack_value(field), thread_value(field));
    let reference = or_else(object_value(field), or_else(place_value(field), run));
    or_else(number_value(field), or_else(null_value(field), reference))
}

/// The value that a field means, or what is wrong with the field. A name that is new is kept. It fails only where memory runs out, or
/// where 2^32 names were used.
pub fn value(names: &mut Names, field: &[u8]) -> Result<Result<Scalar, LogKind>, AllocError>
    ensures { IfOk result (IsValue names.new (value names.old field.now)) }
{
    if is_name(field) {
        let number = names.number(field)?;
        return Ok(Ok(Scalar::Func(number)));
    }
    Ok(other_value(field))
}
