//! Types and constants.
ghost use Rattle.std.specs.Prelude.{◌≡◌, ◌<◌, length, IfOk};
ghost use Rattle.text_forms.specs.Reading.{read};
ghost use Rattle.text_forms.specs.Answers.{Gives};
ghost use Rattle.ir_tree.specs.Types.{int_type, struct_type, array_type, hybrid_type, type_form, literal};
ghost use Rattle.ir_text.specs.NameLists.{fields, hybrid_of};

use crate::lists::{GLOBALS, at_least_one, bracketed, global, names_to};
use ir_lex::{Cursor, Name};
use ir_tree::{Literal, TypeForm};
use std::alloc::Global;
use text_forms::{Listing, ReadError, Symbol};

/// The words of types that the profile leaves out.
const LEFT_OUT_TYPES: [Symbol; 9] = [
    Symbol::Float,
    Symbol::Double,
    Symbol::Vector,
    Symbol::Weakref,
    Symbol::Uptr,
    Symbol::Ufuncptr,
    Symbol::Tagref64,
    Symbol::Framecursorref,
    Symbol::Irbuilderref,
];

/// `int < N >`
#[tactic(auto, unfolding(ir_tree::specs::Types::int_type))]
fn int_type(cursor: &mut Cursor) -> Result<TypeForm, ReadError>
    ensures { Gives result cursor.new (read int_type cursor.old) }
{
    cursor.mark(Symbol::Int)?;
    cursor.mark(Symbol::Less)?;
    let width = cursor.numeral()?;
    cursor.mark(Symbol::Greater)?;
    Ok(TypeForm::Int { width })
}

/// `< G G* >`
#[tactic(auto, unfolding(ir_tree::specs::Types::some_types, ir_tree::specs::Lists::global))]
fn fields(cursor: &mut Cursor, alloc: Global) -> Result<Listing<Name>, ReadError>
    ensures read { Gives result cursor.new (read fields cursor.old) }
    ensures some { IfOk result (λ names. 0 < length names) }
{
    cursor.mark(Symbol::Less)?;
    at_least_one(cursor, alloc, &GLOBALS, Symbol::Greater)
}

/// `struct < G G* >`
#[tactic(auto, unfolding(ir_tree::specs::Types::struct_type))]
fn struct_type(cursor: &mut Cursor, alloc: Global) -> Result<TypeForm, ReadError>
    ensures { Gives result cursor.new (read struct_type cursor.old) }
{
    cursor.mark(Symbol::Struct)?;
    let fields = fields(cursor, alloc)?;
    Ok(TypeForm::Struct { fields })
}

/// `array < G N >`
#[tactic(auto, unfolding(ir_tree::specs::Types::array_type))]
fn array_type(cursor: &mut Cursor, alloc: Global) -> Result<TypeForm, ReadError>
    ensures { Gives result cursor.new (read array_type cursor.old) }
{
    cursor.mark(Symbol::Array)?;
    cursor.mark(Symbol::Less)?;
    let element = global(cursor, alloc)?;
    let length = cursor.numeral()?;
    cursor.mark(Symbol::Greater)?;
    Ok(TypeForm::Array { element, length })
}

/// The last name is the element, and those before are the fixed fields.
fn hybrid_of(names: Listing<Name>) -> TypeForm
    requires { 0 < length names }
    ensures { result ≡ hybrid_of names }
{
    let mut fixed = names;
    match fixed.pop() {
        Some(element) => TypeForm::Hybrid { fixed, element },
        None => unreachable!(),
    }
}

/// `hybrid < G* G >`
#[tactic(auto, unfolding(ir_tree::specs::Types::hybrid_type))]
fn hybrid_type(cursor: &mut Cursor, alloc: Global) -> Result<TypeForm, ReadError>
    ensures { Gives result cursor.new (read hybrid_type cursor.old) }
{
    cursor.mark(Symbol::Hybrid)?;
    let names = fields(cursor, alloc)?;
    Ok(hybrid_of(names))
}

/// Any of them
#[tactic(auto, unfolding(ir_tree::specs::Types::type_form))]
pub fn type_form(cursor: &mut Cursor, alloc: Global) -> Result<TypeForm, ReadError>
    ensures { Gives result cursor.new (read type_form cursor.old) }
{
    match cursor.symbol() {
        Symbol::Int => int_type(cursor),
        Symbol::Struct => struct_type(cursor, alloc),
        Symbol::Array => array_type(cursor, alloc),
        Symbol::Hybrid => hybrid_type(cursor, alloc),
        Symbol::Void => {
            cursor.mark(Symbol::Void)?;
            Ok(TypeForm::Void)
        }
        Symbol::Ref => {
            cursor.mark(Symbol::Ref)?;
            let of_type = bracketed(cursor, alloc)?;
            Ok(TypeForm::Ref { of_type })
        }
        Symbol::Iref => {
            cursor.mark(Symbol::Iref)?;
            let of_type = bracketed(cursor, alloc)?;
            Ok(TypeForm::Iref { of_type })
        }
        Symbol::Funcref => {
            cursor.mark(Symbol::Funcref)?;
            let signature = bracketed(cursor, alloc)?;
            Ok(TypeForm::Funcref { signature })
        }
        Symbol::Stackref => {
            cursor.mark(Symbol::Stackref)?;
            Ok(TypeForm::Stackref)
        }
        Symbol::Threadref => {
            cursor.mark(Symbol::Threadref)?;
            Ok(TypeForm::Threadref)
        }
        _ => Err(ReadError::Fault(cursor.refusal(&LEFT_OUT_TYPES))),
    }
}

/// `N | NULL | { G* }`
#[tactic(auto, unfolding(ir_tree::specs::Types::literal, ir_tree::specs::Lists::global))]
pub fn literal(cursor: &mut Cursor, alloc: Global) -> Result<Literal, ReadError>
    ensures { Gives result cursor.new (read literal cursor.old) }
{
    if cursor.at(Symbol::Number) {
        return Ok(Literal::Number(cursor.numeral()?));
    }
    if cursor.at(Symbol::Null) {
        let place = cursor.mark(Symbol::Null)?;
        return Ok(Literal::Null { place });
    }
    let place = cursor.mark(Symbol::BraceOpen)?;
    let constants = names_to(cursor, alloc, &GLOBALS, Symbol::BraceClose)?;
    Ok(Literal::Members { place, constants })
}
