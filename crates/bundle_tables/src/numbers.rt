// What global names are the numbers of.
ghost use Rattle.std.specs.Prelude.{◌≡◌, ◌+◌, ◌<◌, IfOk};
ghost use Rattle.name_scopes.specs.Names.{found};
ghost use Rattle.check_tables.specs.Lookups.{written_number, signature_number, or_zero};
ghost use Rattle.checked_code.specs.Graph.{type_id, signature_id};
ghost use Rattle.checked_code.specs.Rules.{constant_number, constant_id};

use bundle_names::{Globals, Sort};
use ir_lex::Name;
use std::alloc::AllocError;

/// The number of the type with this name.
pub fn written_number(globals: &Globals, name: &Name) -> Option<u32>
    ensures { result ≡ written_number (found globals.now.names name.now.text) }
{
    match globals.names.find(name.text.as_slice()) {
        Some(Sort::Written(n)) => Some(*n),
        _ => None,
    }
}

/// The number of the signature with this name, counted from the first signature.
pub fn signature_number(globals: &Globals, name: &Name) -> Option<u32>
    ensures { result ≡ signature_number (found globals.now.names name.now.text) }
{
    match globals.names.find(name.text.as_slice()) {
        Some(Sort::Signature(n)) => Some(*n),
        _ => None,
    }
}

fn constant_number(globals: &Globals, name: &Name) -> Option<u32>
    ensures { result ≡ constant_number (found globals.now.names name.now.text) }
{
    match globals.names.find(name.text.as_slice()) {
        Some(Sort::Constant(n)) => Some(*n),
        _ => None,
    }
}

/// The number, and 0 where there is none.
pub fn or_zero(number: Option<u32>) -> u32
    ensures { result ≡ or_zero number }
{
    match number {
        Some(n) => n,
        None => 0,
    }
}

/// The id of the type with this name. Where nothing has it, which the names of a bundle rule out, the answer is out of memory.
pub fn type_id(globals: &Globals, name: &Name) -> Result<u32, AllocError>
    ensures same { IfOk result (λ id. id ≡ type_id globals.now name.now) }
    ensures below { IfOk result (λ id. id < globals.now.counts.written) }
{
    match written_number(globals, name) {
        Some(id) if id < globals.counts.written => Ok(id),
        _ => Err(AllocError),
    }
}

/// The id of the signature with this name: signatures stand behind all types. Where nothing has the name, which the names of a
/// bundle rule out, and past 2^32 - 1 the answer is out of memory.
pub fn signature_id(globals: &Globals, name: &Name) -> Result<u32, AllocError>
    ensures same { IfOk result (λ id. id ≡ signature_id globals.now name.now) }
    ensures below { IfOk result (λ id. id < globals.now.counts.written + globals.now.counts.signatures) }
{
    match signature_number(globals, name) {
        Some(number) if number < globals.counts.signatures => {
            globals.counts.written.checked_add(number).ok_or(AllocError)
        }
        _ => Err(AllocError),
    }
}

/// The number of the constant with this name. Where nothing has it, which the names of a bundle rule out, the answer is out of memory.
pub fn constant_id(globals: &Globals, name: &Name) -> Result<u32, AllocError>
    ensures same { IfOk result (λ id. id ≡ constant_id globals.now name.now) }
    ensures below { IfOk result (λ id. id < globals.now.counts.constants) }
{
    match constant_number(globals, name) {
        Some(id) if id < globals.counts.constants => Ok(id),
        _ => Err(AllocError),
    }
}
