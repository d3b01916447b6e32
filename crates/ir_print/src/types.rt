// Types and constants.
ghost use Rattle.std.specs.Prelude.{◌≡◌, ◌++◌, OnOk, [], ◌∷◌};
ghost use Rattle.ir_print.specs.Words.{text, global_words, listed};
ghost use Rattle.ir_print.specs.Types.{gap_before_element, type_form_words, literal_words};

use crate::lists::{bracketed, more_names, names, type_list};
use crate::spellings::spelling;
use crate::words::{name, number, put};
use ir_lex::Name;
use ir_tree::{Literal, TypeForm};
use std::alloc::AllocError;
use text_forms::Symbol;

// What stands before a hybrid's element: a space, where a fixed field does too.
fn gap(fixed: &[Name]) -> &'static [u8]
    ensures { result.now ≡ gap_before_element fixed.now }
{
    match fixed {
        [] => b"",
        [_, ..] => b" ",
    }
}

// The fixed fields of a hybrid, and its element.
fn fields(out: &mut Vec<u8>, fixed: &[Name], element: &Name) -> Result<(), AllocError>
    ensures { OnOk result (out.new.items ≡ out.old.items ++ text (listed global_words (fixed.now ++ element.now ∷ []))) }
{
    let space = gap(fixed);
    names(out, fixed)?;
    name(out, space, element)?;
    Ok(())
}

#[tactic(auto, using(crate::specs::Lemmas::Texts::text_append), unfolding(crate::specs::Types::type_form_words, crate::specs::Lists::type_list_words))]
pub fn type_form(out: &mut Vec<u8>, space: &[u8], form: &TypeForm) -> Result<(), AllocError>
    ensures { OnOk result (out.new.items ≡ out.old.items ++ text (type_form_words space.now form.now)) }
{
    match form {
        TypeForm::Int { width } => {
            put(out, space, spelling(Symbol::Int))?;
            out.push(b'<')?;
            number(out, b"", width)?;
            out.push(b'>')?;
        }
        TypeForm::Struct { fields: listed } => {
            put(out, space, spelling(Symbol::Struct))?;
            type_list(out, b"", listed)?;
        }
        TypeForm::Array { element, length } => {
            put(out, space, spelling(Symbol::Array))?;
            out.push(b'<')?;
            name(out, b"", element)?;
            number(out, b" ", length)?;
            out.push(b'>')?;
        }
        TypeForm::Hybrid { fixed, element } => {
            put(out, space, spelling(Symbol::Hybrid))?;
            out.push(b'<')?;
            fields(out, fixed.as_slice(), element)?;
            out.push(b'>')?;
        }
        TypeForm::Void => put(out, space, spelling(Symbol::Void))?,
        TypeForm::Ref { of_type } => {
            put(out, space, spelling(Symbol::Ref))?;
            bracketed(out, b"", of_type)?;
        }
        TypeForm::Iref { of_type } => {
            put(out, space, spelling(Symbol::Iref))?;
            bracketed(out, b"", of_type)?;
        }
        TypeForm::Funcref { signature } => {
            put(out, space, spelling(Symbol::Funcref))?;
            bracketed(out, b"", signature)?;
        }
        TypeForm::Stackref => put(out, space, spelling(Symbol::Stackref))?,
        TypeForm::Threadref => put(out, space, spelling(Symbol::Threadref))?,
    }
    Ok(())
}

#[tactic(auto, using(crate::specs::Lemmas::Texts::text_append), unfolding(crate::specs::Types::literal_words))]
pub fn literal(out: &mut Vec<u8>, space: &[u8], literal: &Literal) -> Result<(), AllocError>
    ensures { OnOk result (out.new.items ≡ out.old.items ++ text (literal_words space.now literal.now)) }
{
    match literal {
        Literal::Number(inner) => number(out, space, inner)?,
        Literal::Null { place: _ } => put(out, space, spelling(Symbol::Null))?,
        Literal::Members {
            place: _,
            constants,
        } => {
            put(out, space, b"{")?;
            more_names(out, constants.as_slice())?;
            out.extend_from_slice(b" }")?;
        }
    }
    Ok(())
}
