// Instructions that make objects, and those that find places in them.
ghost use Rattle.std.specs.Prelude.{◌≡◌, None};
ghost use Rattle.demands.specs.Demands.{Judges};
ghost use Rattle.ir_tree.specs.declared.allocating.Allocation.TheVariants as allocations;
ghost use Rattle.ir_tree.specs.declared.addressing.Addressing.TheVariants as addressings;
ghost use Rattle.check_tables.specs.Types.{iref_in};
ghost use Rattle.check_tables.specs.Lookups.{noted_class, or_zero};
ghost use Rattle.checked_code.specs.Operands.{type_demand, source_of};
ghost use Rattle.code_check.specs.Gifts.{listed};
ghost use Rattle.checked_code.specs.Objects.{allocation_demands, allocation_gives, allocation_code, place_of_type, object_of_type, addressing_demands, addressing_gives, addressing_code, fixed_field_named};

use crate::gifts::{Gift, or_zero};
use crate::operands::{of_type, operand, type_demand, type_of_index};
use check_tables::{CheckFault, CheckKind, Tables, fault_at};
use checked_code::{AddressingForm, AllocationForm, Locals, Source};
use ir_lex::{Name, Numeral};
use ir_tree::{Addressing, Allocation, Operand};

/// A type that passes a test.
pub fn tested_type(tables: &Tables, name: &Name, met: bool) -> Result<u32, CheckFault>
    ensures { Judges (type_demand name.now met) (noted_class tables.now name.now) result }
{
    type_demand(name, met)?;
    Ok(tables.noted_class(name))
}

// ---- making

/// `NEWHYBRID`, whatever stands behind it.
fn newhybrid(
    tables: &Tables,
    locals: &Locals,
    hybrid: &Name,
    length_type: &Name,
    length: &Operand,
) -> Result<AllocationForm, CheckFault>
    ensures { Judges (allocation_demands tables.now locals.now (allocations.Newhybrid hybrid.now length_type.now length.now None)) (allocation_code tables.now locals.now (allocations.Newhybrid hybrid.now length_type.now length.now None)) result }
{
    let class = tested_type(tables, hybrid, tables.is_hybrid(hybrid))?;
    let length_class = type_of_index(tables, length_type)?;
    let length = of_type(tables, locals, length, length_type)?;
    Ok(AllocationForm::Newhybrid {
        class,
        length_class,
        length,
    })
}

/// An instruction that makes an object.
pub fn allocation(
    tables: &Tables,
    locals: &Locals,
    allocation: &Allocation,
) -> Result<AllocationForm, CheckFault>
    ensures { Judges (allocation_demands tables.now locals.now allocation.now) (allocation_code tables.now locals.now allocation.now) result }
{
    match allocation {
        Allocation::New { of_type, .. } => Ok(AllocationForm::New {
            class: tested_type(tables, of_type, tables.is_no_hybrid(of_type))?,
        }),
        Allocation::Newhybrid {
            of_type,
            length_type,
            length,
            ..
        } => newhybrid(tables, locals, of_type, length_type, length),
        Allocation::Alloca { of_type, .. } => Ok(AllocationForm::Alloca {
            class: tested_type(tables, of_type, tables.is_no_hybrid(of_type))?,
        }),
    }
}

/// What an instruction gives that makes an object.
pub fn allocation_gift<'a>(tables: &'a Tables, allocation: &Allocation) -> Gift<'a>
    ensures { listed tables.now result ≡ allocation_gives tables.now allocation.now }
{
    match allocation {
        Allocation::New { of_type, .. } | Allocation::Newhybrid { of_type, .. } => {
            Gift::One(or_zero(tables.ref_named(of_type)))
        }
        Allocation::Alloca { of_type, .. } => Gift::One(or_zero(tables.iref_named(of_type))),
    }
}

// ---- finding

/// A reference to a place of the type with this name.
pub fn place_of_type(
    tables: &Tables,
    locals: &Locals,
    given: &Operand,
    name: &Name,
) -> Result<Source, CheckFault>
    ensures { Judges (place_of_type tables.now locals.now given.now name.now) (source_of tables.now locals.now given.now) result }
{
    let wanted = tables.iref_named(name);
    operand(tables, locals, CheckKind::OperandType, given, wanted)
}

/// A reference to an object of the type with this name.
fn object_of_type(
    tables: &Tables,
    locals: &Locals,
    given: &Operand,
    name: &Name,
) -> Result<Source, CheckFault>
    ensures { Judges (object_of_type tables.now locals.now given.now name.now) (source_of tables.now locals.now given.now) result }
{
    let wanted = tables.ref_named(name);
    operand(tables, locals, CheckKind::OperandType, given, wanted)
}

/// `GETIREF`
fn getiref(
    tables: &Tables,
    locals: &Locals,
    name: &Name,
    reference: &Operand,
) -> Result<AddressingForm, CheckFault>
    ensures { Judges (addressing_demands tables.now locals.now (addressings.Getiref name.now reference.now)) (addressing_code tables.now locals.now (addressings.Getiref name.now reference.now)) result }
{
    Ok(AddressingForm::Getiref {
        class: tables.noted_class(name),
        reference: object_of_type(tables, locals, reference, name)?,
    })
}

/// `GETFIELDIREF`
fn getfieldiref(
    tables: &Tables,
    locals: &Locals,
    name: &Name,
    field: Numeral,
    location: &Operand,
) -> Result<AddressingForm, CheckFault>
    ensures { Judges (addressing_demands tables.now locals.now (addressings.Getfieldiref name.now field location.now)) (addressing_code tables.now locals.now (addressings.Getfieldiref name.now field location.now)) result }
{
    let class = tested_type(tables, name, tables.has_fields(name))?;
    let Some(found) = tables.fixed_field(name, field.number) else {
        return Err(fault_at(CheckKind::BadIndex, field.place));
    };
    let location = place_of_type(tables, locals, location, name)?;
    Ok(AddressingForm::Getfieldiref {
        class,
        field: found.number,
        location,
    })
}

/// `GETELEMIREF`
fn getelemiref(
    tables: &Tables,
    locals: &Locals,
    name: &Name,
    index_type: &Name,
    location: &Operand,
    index: &Operand,
) -> Result<AddressingForm, CheckFault>
    ensures { Judges (addressing_demands tables.now locals.now (addressings.Getelemiref name.now index_type.now location.now index.now)) (addressing_code tables.now locals.now (addressings.Getelemiref name.now index_type.now location.now index.now)) result }
{
    let class = tested_type(tables, name, tables.element(name).is_some())?;
    let index_class = type_of_index(tables, index_type)?;
    let location = place_of_type(tables, locals, location, name)?;
    let index = of_type(tables, locals, index, index_type)?;
    Ok(AddressingForm::Getelemiref {
        class,
        index_class,
        location,
        index,
    })
}

/// `SHIFTIREF`
fn shiftiref(
    tables: &Tables,
    locals: &Locals,
    name: &Name,
    offset_type: &Name,
    location: &Operand,
    offset: &Operand,
) -> Result<AddressingForm, CheckFault>
    ensures { Judges (addressing_demands tables.now locals.now (addressings.Shiftiref name.now offset_type.now location.now offset.now)) (addressing_code tables.now locals.now (addressings.Shiftiref name.now offset_type.now location.now offset.now)) result }
{
    let class = tested_type(tables, name, tables.is_sized(name))?;
    let offset_class = type_of_index(tables, offset_type)?;
    let location = place_of_type(tables, locals, location, name)?;
    let offset = of_type(tables, locals, offset, offset_type)?;
    Ok(AddressingForm::Shiftiref {
        class,
        offset_class,
        location,
        offset,
    })
}

/// `GETVARPARTIREF`
fn getvarpartiref(
    tables: &Tables,
    locals: &Locals,
    hybrid: &Name,
    location: &Operand,
) -> Result<AddressingForm, CheckFault>
    ensures { Judges (addressing_demands tables.now locals.now (addressings.Getvarpartiref hybrid.now location.now)) (addressing_code tables.now locals.now (addressings.Getvarpartiref hybrid.now location.now)) result }
{
    let class = tested_type(tables, hybrid, tables.is_hybrid(hybrid))?;
    let location = place_of_type(tables, locals, location, hybrid)?;
    Ok(AddressingForm::Getvarpartiref { class, location })
}

/// An instruction that finds a place in an object.
pub fn addressing(
    tables: &Tables,
    locals: &Locals,
    addressing: &Addressing,
) -> Result<AddressingForm, CheckFault>
    ensures { Judges (addressing_demands tables.now locals.now addressing.now) (addressing_code tables.now locals.now addressing.now) result }
{
    match addressing {
        Addressing::Getiref { of_type, reference } => getiref(tables, locals, of_type, reference),
        Addressing::Getfieldiref {
            of_type,
            field,
            location,
        } => getfieldiref(tables, locals, of_type, *field, location),
        Addressing::Getelemiref {
            of_type,
            index_type,
            location,
            index,
        } => getelemiref(tables, locals, of_type, index_type, location, index),
        Addressing::Shiftiref {
            of_type,
            offset_type,
            location,
            offset,
        } => shiftiref(tables, locals, of_type, offset_type, location, offset),
        Addressing::Getvarpartiref { of_type, location } => {
            getvarpartiref(tables, locals, of_type, location)
        }
    }
}

/// The class of the references to places of a type, where there is one, and 0 where there is none.
fn noted_iref(tables: &Tables, of_type: Option<u32>) -> u32
    ensures { result ≡ or_zero (iref_in tables.now.types of_type) }
{
    match of_type {
        Some(of_type) => or_zero(tables.types.iref_to(of_type)),
        None => 0,
    }
}

/// The type of a field of the struct, or of a fixed field of the hybrid, that a name stands for.
fn type_of_fixed_field(tables: &Tables, name: &Name, field: Numeral) -> Option<u32>
    ensures { result ≡ fixed_field_named tables.now name.now field }
{
    match tables.fixed_field(name, field.number) {
        Some(field) => Some(field.of_type),
        None => None,
    }
}

/// What an instruction gives that finds a place in an object.
pub fn addressing_gift<'a>(tables: &'a Tables, addressing: &Addressing) -> Gift<'a>
    ensures { listed tables.now result ≡ addressing_gives tables.now addressing.now }
{
    match addressing {
        Addressing::Getiref { of_type, .. } | Addressing::Shiftiref { of_type, .. } => {
            Gift::One(or_zero(tables.iref_named(of_type)))
        }
        Addressing::Getfieldiref { of_type, field, .. } => {
            let found = type_of_fixed_field(tables, of_type, *field);
            Gift::One(noted_iref(tables, found))
        }
        Addressing::Getelemiref { of_type, .. } => {
            Gift::One(noted_iref(tables, tables.element(of_type)))
        }
        Addressing::Getvarpartiref { of_type, .. } => {
            Gift::One(noted_iref(tables, tables.repeated(of_type)))
        }
    }
}
