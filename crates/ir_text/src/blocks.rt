//! What blocks begin with.
ghost use Rattle.std.specs.Prelude.{[], ◌∷◌};
ghost use Rattle.text_forms.specs.declared.symbol.Symbol.TheVariants as symbols;
ghost use Rattle.text_forms.specs.Forms.{nothing, on, up_to};
ghost use Rattle.text_forms.specs.Reading.{read};
ghost use Rattle.text_forms.specs.Answers.{Gives};
ghost use Rattle.ir_tree.specs.Lists.{optional};
ghost use Rattle.ir_tree.specs.Blocks.{pair, params, handler, head_rest, head};

use crate::lists::{LIST_LIMIT, bracketed, local, too_many};
use ir_lex::{Cursor, Name};
use ir_tree::{BlockHead, Parameter};
use std::alloc::Global;
use text_forms::{Listing, ReadError, Symbol, passes_limit};

/// `< G > L`
#[tactic(auto, unfolding(ir_tree::specs::Blocks::pair))]
fn pair(cursor: &mut Cursor, alloc: Global) -> Result<Parameter, ReadError>
    ensures { Gives result cursor.new (read pair cursor.old) }
{
    let of_type = bracketed(cursor, alloc)?;
    let name = local(cursor, alloc)?;
    Ok(Parameter { of_type, name })
}

/// The parameters up to `)`
#[tactic(auto, using(ir_lex::specs::Lemmas::Cursors::one_goes_on))]
fn pairs(cursor: &mut Cursor, alloc: Global) -> Result<Listing<Parameter>, ReadError>
    ensures { Gives result cursor.new (read (up_to 256 (symbols.Close ∷ []) pair) cursor.old) }
{
    let mut pairs = Listing::new(alloc);
    'each: while !cursor.at(Symbol::Close) {
        if passes_limit(pairs.len(), LIST_LIMIT, cursor.at_any(&[Symbol::Less])) {
            return Err(ReadError::Fault(too_many(cursor)));
        }
        pairs.push(pair(cursor, alloc)?)?;
    }
    cursor.bump();
    Ok(pairs)
}

/// `( pair* )`
#[tactic(auto, unfolding(ir_tree::specs::Blocks::params))]
fn params(cursor: &mut Cursor, alloc: Global) -> Result<Listing<Parameter>, ReadError>
    ensures { Gives result cursor.new (read params cursor.old) }
{
    cursor.mark(Symbol::Open)?;
    let pairs = pairs(cursor, alloc)?;
    Ok(pairs)
}

/// `params?`
fn optional_params(cursor: &mut Cursor, alloc: Global) -> Result<Listing<Parameter>, ReadError>
    ensures { Gives result cursor.new (read (on (symbols.Open ∷ []) params (nothing [])) cursor.old) }
{
    if cursor.at(Symbol::Open) {
        params(cursor, alloc)
    } else {
        Ok(Listing::new(alloc))
    }
}

/// `[ L ]`
#[tactic(auto, unfolding(ir_tree::specs::Blocks::handler))]
fn handler(cursor: &mut Cursor, alloc: Global) -> Result<Name, ReadError>
    ensures { Gives result cursor.new (read handler cursor.old) }
{
    cursor.mark(Symbol::SquareOpen)?;
    let name = local(cursor, alloc)?;
    cursor.mark(Symbol::SquareClose)?;
    Ok(name)
}

/// `handler?`
fn optional_handler(cursor: &mut Cursor, alloc: Global) -> Result<Option<Name>, ReadError>
    ensures { Gives result cursor.new (read (optional symbols.SquareOpen handler) cursor.old) }
{
    if cursor.at(Symbol::SquareOpen) {
        Ok(Some(handler(cursor, alloc)?))
    } else {
        Ok(None)
    }
}

/// `params? handler? :`
#[tactic(auto, unfolding(ir_tree::specs::Blocks::head_rest))]
pub fn head_rest(
    cursor: &mut Cursor,
    alloc: Global,
) -> Result<(Listing<Parameter>, Option<Name>), ReadError>
    ensures { Gives result cursor.new (read head_rest cursor.old) }
{
    let parameters = optional_params(cursor, alloc)?;
    let handler = optional_handler(cursor, alloc)?;
    cursor.mark(Symbol::Colon)?;
    Ok((parameters, handler))
}

/// `L params? handler? :`
#[tactic(auto, unfolding(ir_tree::specs::Blocks::head))]
pub fn head(cursor: &mut Cursor, alloc: Global) -> Result<BlockHead, ReadError>
    ensures { Gives result cursor.new (read head cursor.old) }
{
    let name = local(cursor, alloc)?;
    let (parameters, handler) = head_rest(cursor, alloc)?;
    Ok(BlockHead {
        name,
        parameters,
        handler,
    })
}
