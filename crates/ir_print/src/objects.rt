// Instructions that make objects and find places in them.
ghost use Rattle.std.specs.Prelude.{◌≡◌, ◌++◌, OnOk};
ghost use Rattle.ir_print.specs.Words.{text};
ghost use Rattle.ir_print.specs.Objects.{allocation_words, addressing_words};

use crate::lists::{bracketed, bracketed_field, bracketed_pair, optional_exc, value};
use crate::spellings::spelling;
use crate::words::put;
use ir_tree::{Addressing, Allocation};
use std::alloc::AllocError;
use text_forms::Symbol;

#[tactic(auto, using(crate::specs::Lemmas::Texts::text_append), unfolding(crate::specs::Objects::allocation_words))]
pub fn allocation(
    out: &mut Vec<u8>,
    space: &[u8],
    allocation: &Allocation,
) -> Result<(), AllocError>
    ensures { OnOk result (out.new.items ≡ out.old.items ++ text (allocation_words space.now allocation.now)) }
{
    match allocation {
        Allocation::New { of_type, exception } => {
            put(out, space, spelling(Symbol::New))?;
            bracketed(out, b" ", of_type)?;
            optional_exc(out, exception)?;
        }
        Allocation::Newhybrid {
            of_type,
            length_type,
            length,
            exception,
        } => {
            put(out, space, spelling(Symbol::Newhybrid))?;
            bracketed_pair(out, b" ", of_type, length_type)?;
            value(out, b" ", length)?;
            optional_exc(out, exception)?;
        }
        Allocation::Alloca { of_type, exception } => {
            put(out, space, spelling(Symbol::Alloca))?;
            bracketed(out, b" ", of_type)?;
            optional_exc(out, exception)?;
        }
    }
    Ok(())
}

#[tactic(auto, using(crate::specs::Lemmas::Texts::text_append), unfolding(crate::specs::Objects::addressing_words))]
pub fn addressing(
    out: &mut Vec<u8>,
    space: &[u8],
    addressing: &Addressing,
) -> Result<(), AllocError>
    ensures { OnOk result (out.new.items ≡ out.old.items ++ text (addressing_words space.now addressing.now)) }
{
    match addressing {
        Addressing::Getiref { of_type, reference } => {
            put(out, space, spelling(Symbol::Getiref))?;
            bracketed(out, b" ", of_type)?;
            value(out, b" ", reference)?;
        }
        Addressing::Getfieldiref {
            of_type,
            field,
            location,
        } => {
            put(out, space, spelling(Symbol::Getfieldiref))?;
            bracketed_field(out, b" ", of_type, field)?;
            value(out, b" ", location)?;
        }
        Addressing::Getelemiref {
            of_type,
            index_type,
            location,
            index,
        } => {
            put(out, space, spelling(Symbol::Getelemiref))?;
            bracketed_pair(out, b" ", of_type, index_type)?;
            value(out, b" ", location)?;
            value(out, b" ", index)?;
        }
        Addressing::Shiftiref {
            of_type,
            offset_type,
            location,
            offset,
        } => {
            put(out, space, spelling(Symbol::Shiftiref))?;
            bracketed_pair(out, b" ", of_type, offset_type)?;
            value(out, b" ", location)?;
            value(out, b" ", offset)?;
        }
        Addressing::Getvarpartiref { of_type, location } => {
            put(out, space, spelling(Symbol::Getvarpartiref))?;
            bracketed(out, b" ", of_type)?;
            value(out, b" ", location)?;
        }
    }
    Ok(())
}
