// Names in brackets, operands and the lists that instructions and items are made of.
ghost use Rattle.std.specs.Prelude.{◌≡◌, ◌++◌, OnOk};
ghost use Rattle.std.specs.List.{flat_map};
ghost use Rattle.ir_print.specs.Words.{text, spaced, global_words, listed, optional_words};
ghost use Rattle.ir_print.specs.Lists.{bracketed_words, bracketed_pair_words, bracketed_field_words, global_list_words, local_list_words, type_list_words, value_words, values_words, dest_words, exc_words, keep_words, exc_keep_words, new_stack_clause_words};

use crate::spellings::spelling;
use crate::words::{name, number, put};
use ir_lex::{Name, Numeral};
use ir_tree::{Arguments, Destination, ExceptionClause, NewStackClause, Operand};
use std::alloc::AllocError;
use text_forms::{Listing, Symbol};

#[tactic(auto, unfolding(crate::specs::Lists::bracketed_words))]
pub fn bracketed(out: &mut Vec<u8>, space: &[u8], inner: &Name) -> Result<(), AllocError>
    ensures { OnOk result (out.new.items ≡ out.old.items ++ text (bracketed_words space.now inner.now)) }
{
    put(out, space, b"<")?;
    name(out, b"", inner)?;
    out.push(b'>')?;
    Ok(())
}

#[tactic(auto, unfolding(crate::specs::Lists::bracketed_pair_words))]
pub fn bracketed_pair(
    out: &mut Vec<u8>,
    space: &[u8],
    first: &Name,
    second: &Name,
) -> Result<(), AllocError>
    ensures { OnOk result (out.new.items ≡ out.old.items ++ text (bracketed_pair_words space.now first.now second.now)) }
{
    put(out, space, b"<")?;
    name(out, b"", first)?;
    name(out, b" ", second)?;
    out.push(b'>')?;
    Ok(())
}

#[tactic(auto, unfolding(crate::specs::Lists::bracketed_field_words))]
pub fn bracketed_field(
    out: &mut Vec<u8>,
    space: &[u8],
    of_type: &Name,
    field: &Numeral,
) -> Result<(), AllocError>
    ensures { OnOk result (out.new.items ≡ out.old.items ++ text (bracketed_field_words space.now of_type.now field.now)) }
{
    put(out, space, b"<")?;
    name(out, b"", of_type)?;
    number(out, b" ", field)?;
    out.push(b'>')?;
    Ok(())
}

// Names, each behind a space.
fn each_name(out: &mut Vec<u8>, names: &[Name]) -> Result<(), AllocError>
    ensures { OnOk result (out.new.items ≡ out.old.items ++ flat_map (λ x. text (global_words spaced x)) names.now) }
{
    for one in names {
        name(out, b" ", one)?;
    }
    Ok(())
}

pub fn more_names(out: &mut Vec<u8>, names: &[Name]) -> Result<(), AllocError>
    ensures { OnOk result (out.new.items ≡ out.old.items ++ text (flat_map (global_words spaced) names.now)) }
{
    each_name(out, names)?;
    Ok(())
}

// The names of a list behind its bracket.
#[tactic(auto, using(crate::specs::Lemmas::Texts::text_append), unfolding(crate::specs::Words::listed))]
pub fn names(out: &mut Vec<u8>, names: &[Name]) -> Result<(), AllocError>
    ensures { OnOk result (out.new.items ≡ out.old.items ++ text (listed global_words names.now)) }
{
    match names {
        [] => {}
        [first, rest @ ..] => {
            name(out, b"", first)?;
            more_names(out, rest)?;
        }
    }
    Ok(())
}

#[tactic(auto, using(crate::specs::Lemmas::Texts::text_append), unfolding(crate::specs::Lists::global_list_words))]
pub fn global_list(out: &mut Vec<u8>, space: &[u8], list: &Listing<Name>) -> Result<(), AllocError>
    ensures { OnOk result (out.new.items ≡ out.old.items ++ text (global_list_words space.now list.now)) }
{
    put(out, space, b"(")?;
    names(out, list.as_slice())?;
    out.push(b')')?;
    Ok(())
}

// The text of names does not tell what names they are.
pub fn local_list(out: &mut Vec<u8>, space: &[u8], list: &Listing<Name>) -> Result<(), AllocError>
    ensures { OnOk result (out.new.items ≡ out.old.items ++ text (local_list_words space.now list.now)) }
{
    global_list(out, space, list)?;
    Ok(())
}

#[tactic(auto, using(crate::specs::Lemmas::Texts::text_append), unfolding(crate::specs::Lists::type_list_words))]
pub fn type_list(out: &mut Vec<u8>, space: &[u8], list: &Listing<Name>) -> Result<(), AllocError>
    ensures { OnOk result (out.new.items ≡ out.old.items ++ text (type_list_words space.now list.now)) }
{
    put(out, space, b"<")?;
    names(out, list.as_slice())?;
    out.push(b'>')?;
    Ok(())
}

#[tactic(auto, unfolding(crate::specs::Lists::value_words))]
pub fn value(out: &mut Vec<u8>, space: &[u8], operand: &Operand) -> Result<(), AllocError>
    ensures { OnOk result (out.new.items ≡ out.old.items ++ text (value_words space.now operand.now)) }
{
    match operand {
        Operand::Local(inner) => name(out, space, inner)?,
        Operand::Global(inner) => name(out, space, inner)?,
    }
    Ok(())
}

// Operands, each behind a space.
fn each_operand(out: &mut Vec<u8>, operands: &[Operand]) -> Result<(), AllocError>
    ensures { OnOk result (out.new.items ≡ out.old.items ++ flat_map (λ x. text (value_words spaced x)) operands.now) }
{
    for one in operands {
        value(out, b" ", one)?;
    }
    Ok(())
}

fn more_operands(out: &mut Vec<u8>, operands: &[Operand]) -> Result<(), AllocError>
    ensures { OnOk result (out.new.items ≡ out.old.items ++ text (flat_map (value_words spaced) operands.now)) }
{
    each_operand(out, operands)?;
    Ok(())
}

#[tactic(auto, using(crate::specs::Lemmas::Texts::text_append), unfolding(crate::specs::Words::listed))]
fn operands(out: &mut Vec<u8>, operands: &[Operand]) -> Result<(), AllocError>
    ensures { OnOk result (out.new.items ≡ out.old.items ++ text (listed value_words operands.now)) }
{
    match operands {
        [] => {}
        [first, rest @ ..] => {
            value(out, b"", first)?;
            more_operands(out, rest)?;
        }
    }
    Ok(())
}

#[tactic(auto, using(crate::specs::Lemmas::Texts::text_append), unfolding(crate::specs::Lists::values_words))]
pub fn values(out: &mut Vec<u8>, space: &[u8], arguments: &Arguments) -> Result<(), AllocError>
    ensures { OnOk result (out.new.items ≡ out.old.items ++ text (values_words space.now arguments.now)) }
{
    put(out, space, b"(")?;
    operands(out, arguments.values.as_slice())?;
    out.push(b')')?;
    Ok(())
}

#[tactic(auto, unfolding(crate::specs::Lists::dest_words))]
pub fn dest(out: &mut Vec<u8>, space: &[u8], to: &Destination) -> Result<(), AllocError>
    ensures { OnOk result (out.new.items ≡ out.old.items ++ text (dest_words space.now to.now)) }
{
    name(out, space, &to.block)?;
    values(out, b"", &to.arguments)?;
    Ok(())
}

#[tactic(auto, using(crate::specs::Lemmas::Texts::text_append), unfolding(crate::specs::Lists::exc_words))]
fn exc(out: &mut Vec<u8>, space: &[u8], clause: &ExceptionClause) -> Result<(), AllocError>
    ensures { OnOk result (out.new.items ≡ out.old.items ++ text (exc_words space.now clause.now)) }
{
    put(out, space, spelling(Symbol::Exc))?;
    out.push(b'(')?;
    dest(out, b"", &clause.normal)?;
    dest(out, b" ", &clause.exceptional)?;
    out.push(b')')?;
    Ok(())
}

pub fn optional_exc(out: &mut Vec<u8>, clause: &Option<ExceptionClause>) -> Result<(), AllocError>
    ensures { OnOk result (out.new.items ≡ out.old.items ++ text (optional_words exc_words clause.now)) }
{
    match clause {
        Some(clause) => exc(out, b" ", clause)?,
        None => {}
    }
    Ok(())
}

#[tactic(auto, unfolding(crate::specs::Lists::keep_words))]
fn keep(out: &mut Vec<u8>, space: &[u8], names: &Listing<Name>) -> Result<(), AllocError>
    ensures { OnOk result (out.new.items ≡ out.old.items ++ text (keep_words space.now names.now)) }
{
    put(out, space, spelling(Symbol::Keepalive))?;
    local_list(out, b"", names)?;
    Ok(())
}

pub fn optional_keep(out: &mut Vec<u8>, names: &Option<Listing<Name>>) -> Result<(), AllocError>
    ensures { OnOk result (out.new.items ≡ out.old.items ++ text (optional_words keep_words names.now)) }
{
    match names {
        Some(names) => keep(out, b" ", names)?,
        None => {}
    }
    Ok(())
}

#[tactic(auto, using(crate::specs::Lemmas::Texts::text_append), unfolding(crate::specs::Lists::exc_keep_words))]
pub fn exc_and_keep(
    out: &mut Vec<u8>,
    exception: &Option<ExceptionClause>,
    keepalive: &Option<Listing<Name>>,
) -> Result<(), AllocError>
    ensures { OnOk result (out.new.items ≡ out.old.items ++ text (exc_keep_words exception.now keepalive.now)) }
{
    optional_exc(out, exception)?;
    optional_keep(out, keepalive)?;
    Ok(())
}

#[tactic(auto, using(crate::specs::Lemmas::Texts::text_append), unfolding(crate::specs::Lists::new_stack_clause_words))]
pub fn new_stack_clause(
    out: &mut Vec<u8>,
    space: &[u8],
    clause: &NewStackClause,
) -> Result<(), AllocError>
    ensures { OnOk result (out.new.items ≡ out.old.items ++ text (new_stack_clause_words space.now clause.now)) }
{
    match clause {
        NewStackClause::PassValues {
            types,
            values: arguments,
        } => {
            put(out, space, spelling(Symbol::PassValues))?;
            type_list(out, b"", types)?;
            values(out, b" ", arguments)?;
        }
        NewStackClause::ThrowExc { exception } => {
            put(out, space, spelling(Symbol::ThrowExc))?;
            value(out, b" ", exception)?;
        }
    }
    Ok(())
}
