//! The lines of a function's body: instructions, heads of blocks, and `( )` behind a common instruction.
ghost use Rattle.std.specs.Prelude.{◌≡◌, ◌&&◌, true, [], ◌∷◌};
ghost use Rattle.text_forms.specs.declared.symbol.Symbol.TheVariants as symbols;
ghost use Rattle.text_forms.specs.Tokens.{first, too_many_at};
ghost use Rattle.text_forms.specs.Forms.{both, within};
ghost use Rattle.text_forms.specs.Reading.{read, read_from};
ghost use Rattle.text_forms.specs.Answers.{Gives, kept};
ghost use Rattle.ir_tree.specs.declared.code.Line.TheVariants as body_lines;
ghost use Rattle.ir_tree.specs.Instructions.{labelled, with_results};
ghost use Rattle.ir_tree.specs.Blocks.{head_rest, head_of};
ghost use Rattle.ir_tree.specs.Blocks.{result as behind_results};
ghost use Rattle.ir_text.specs.NameLists.{at_least_one};
ghost use Rattle.ir_tree.specs.Bodies.{named, results, more_results, opened, line};

use crate::blocks::head_rest;
use crate::instructions::labelled;
use crate::kinds::begins_instruction;
use crate::lists::{alone, at_least_one, local, names_to, too_many};
use ir_lex::{Cursor, Name};
use ir_tree::{BlockHead, Inst, Line, Parameter};
use std::alloc::Global;
use text_forms::{Fault, FaultKind, Listing, ReadError, Symbol};

/// The symbols that may stand behind the name of a block.
const HEAD_SYMBOLS: [Symbol; 3] = [Symbol::Open, Symbol::SquareOpen, Symbol::Colon];

/// Whether an instruction or a block begins where no more may stand.
fn is_barred(full: bool, begins: bool) -> bool
    ensures { result ≡ (full && begins) }
{
    full && begins
}

/// An instruction or a block that begins at this place passes its limit.
fn too_many_at(place: usize) -> Fault
    ensures { result ≡ too_many_at place }
{
    Fault {
        kind: FaultKind::TooMany,
        place,
    }
}

/// The same instruction with results, which begin at this place.
fn with_results(place: usize, results: Listing<Name>, inst: Inst) -> Inst
    ensures { result ≡ with_results place results inst }
{
    Inst {
        place,
        results,
        label: inst.label,
        op: inst.op,
    }
}

/// `= label? op`
#[tactic(auto, unfolding(ir_tree::specs::Blocks::result))]
fn result(cursor: &mut Cursor, alloc: Global) -> Result<Inst, ReadError>
    ensures { Gives result cursor.new (read behind_results cursor.old) }
{
    cursor.mark(Symbol::Equals)?;
    let inst = labelled(cursor, alloc)?;
    Ok(inst)
}

/// `( L* ) = label? op`
#[tactic(auto, unfolding(ir_tree::specs::Bodies::results, ir_tree::specs::Lists::local))]
fn results(cursor: &mut Cursor, alloc: Global) -> Result<Line, ReadError>
    ensures { Gives result cursor.new (read results cursor.old) }
{
    let place = cursor.mark(Symbol::Open)?;
    let names = names_to(cursor, alloc, &[Symbol::Local], Symbol::Close)?;
    let inst = result(cursor, alloc)?;
    Ok(Line::Inst(with_results(place, names, inst)))
}

/// `L L* ) = label? op`
fn more_results(cursor: &mut Cursor, alloc: Global) -> Result<(Listing<Name>, Inst), ReadError>
    ensures { Gives result cursor.new (read (both (at_least_one (symbols.Local ∷ []) symbols.Close) behind_results) cursor.old) }
{
    let names = at_least_one(cursor, alloc, &[Symbol::Local], Symbol::Close)?;
    let inst = result(cursor, alloc)?;
    Ok((names, inst))
}

// ---- the same where the block may have all its instructions, or the function all its blocks. What begins a further one begins
// at `start`, which may be a token or two before

fn labelled_within(cursor: &mut Cursor, alloc: Global, full: bool) -> Result<Inst, ReadError>
    ensures { Gives result cursor.new (read_from (within labelled full) (first cursor.old).place cursor.old) }
{
    if is_barred(full, begins_instruction(cursor.symbol())) {
        return Err(ReadError::Fault(too_many(cursor)));
    }
    labelled(cursor, alloc)
}

fn results_within(cursor: &mut Cursor, alloc: Global, full: bool) -> Result<Line, ReadError>
    ensures { Gives result cursor.new (read_from (within results full) (first cursor.old).place cursor.old) }
{
    if is_barred(full, cursor.at(Symbol::Open)) {
        return Err(ReadError::Fault(too_many(cursor)));
    }
    results(cursor, alloc)
}

fn result_within(
    cursor: &mut Cursor,
    alloc: Global,
    full: bool,
    start: usize,
) -> Result<Inst, ReadError>
    ensures { Gives result cursor.new (read_from (within behind_results full) start cursor.old) }
{
    if is_barred(full, cursor.at(Symbol::Equals)) {
        return Err(ReadError::Fault(too_many_at(start)));
    }
    result(cursor, alloc)
}

fn more_results_within(
    cursor: &mut Cursor,
    alloc: Global,
    full: bool,
    start: usize,
) -> Result<(Listing<Name>, Inst), ReadError>
    ensures { Gives result cursor.new (read_from (within more_results full) start cursor.old) }
{
    if is_barred(full, cursor.at(Symbol::Local)) {
        return Err(ReadError::Fault(too_many_at(start)));
    }
    more_results(cursor, alloc)
}

fn head_rest_within(
    cursor: &mut Cursor,
    alloc: Global,
    crowded: bool,
    start: usize,
) -> Result<(Listing<Parameter>, Option<Name>), ReadError>
    ensures { Gives result cursor.new (read_from (within head_rest crowded) start cursor.old) }
{
    if is_barred(crowded, cursor.at_any(&HEAD_SYMBOLS)) {
        return Err(ReadError::Fault(too_many_at(start)));
    }
    head_rest(cursor, alloc)
}

// ---- lines

/// `= label? op` behind the name of its result, which begins at `start`.
fn named_inst(
    cursor: &mut Cursor,
    alloc: Global,
    full: bool,
    start: usize,
    name: Name,
) -> Result<Inst, ReadError>
    ensures { Gives result cursor.new (kept (λ i. with_results name.place (name ∷ []) i) (read_from (within behind_results full) start cursor.old)) }
{
    let place = name.place;
    let results = alone(alloc, name)?;
    let inst = result_within(cursor, alloc, full, start)?;
    Ok(with_results(place, results, inst))
}

/// `params? handler? :` behind the name of a block, which begins at `start`.
fn named_head(
    cursor: &mut Cursor,
    alloc: Global,
    crowded: bool,
    start: usize,
    name: Name,
) -> Result<BlockHead, ReadError>
    ensures { Gives result cursor.new (kept (λ h. head_of name h) (read_from (within head_rest crowded) start cursor.old)) }
{
    let (parameters, handler) = head_rest_within(cursor, alloc, crowded, start)?;
    Ok(BlockHead {
        name,
        parameters,
        handler,
    })
}

/// A line that begins with a local name: an instruction where `=` follows, else a block's head.
#[tactic(auto, unfolding(ir_tree::specs::Lists::local, ir_lex::specs::TokenForms::name))]
fn named(cursor: &mut Cursor, alloc: Global, full: bool, crowded: bool) -> Result<Line, ReadError>
    ensures { Gives result cursor.new (read_from (named full crowded) (first cursor.old).place cursor.old) }
{
    let start = cursor.place();
    let name = local(cursor, alloc)?;
    if cursor.at(Symbol::Equals) {
        let inst = named_inst(cursor, alloc, full, start, name)?;
        Ok(Line::Inst(inst))
    } else {
        let head = named_head(cursor, alloc, crowded, start, name)?;
        Ok(Line::Head(head))
    }
}

/// The names behind `(`, of which there is at least one, and an instruction, as a line that begins at `start`.
fn opened_results(
    cursor: &mut Cursor,
    alloc: Global,
    full: bool,
    start: usize,
    place: usize,
) -> Result<Line, ReadError>
    ensures { Gives result cursor.new (kept (λ x. body_lines.Inst (with_results place x.0 x.1)) (read_from (within more_results full) start cursor.old)) }
{
    let (results, inst) = more_results_within(cursor, alloc, full, start)?;
    Ok(Line::Inst(with_results(place, results, inst)))
}

/// A line that begins with `(` behind a common instruction whose list of values may be left out.
#[tactic(auto, unfolding(ir_lex::specs::TokenForms::mark))]
fn opened_behind(cursor: &mut Cursor, alloc: Global, full: bool) -> Result<Line, ReadError>
    ensures { Gives result cursor.new (read_from (opened full true) (first cursor.old).place cursor.old) }
{
    let start = cursor.place();
    let place = cursor.mark(Symbol::Open)?;
    if !cursor.at(Symbol::Close) {
        return opened_results(cursor, alloc, full, start, place);
    }
    cursor.mark(Symbol::Close)?;
    if !cursor.at(Symbol::Equals) {
        return Ok(Line::EmptyList);
    }
    let inst = result_within(cursor, alloc, full, start)?;
    Ok(Line::Inst(with_results(place, Listing::new(alloc), inst)))
}

/// A line that begins with `(`.
fn opened(
    cursor: &mut Cursor,
    alloc: Global,
    full: bool,
    open_list: bool,
) -> Result<Line, ReadError>
    ensures { Gives result cursor.new (read_from (opened full open_list) (first cursor.old).place cursor.old) }
{
    if open_list {
        opened_behind(cursor, alloc, full)
    } else {
        results_within(cursor, alloc, full)
    }
}

/// Any line: `full` where the block has all its instructions, `crowded` where the function has all its blocks, `open_list`
/// where `( )` may still belong to the last instruction.
pub fn line(
    cursor: &mut Cursor,
    alloc: Global,
    full: bool,
    crowded: bool,
    open_list: bool,
) -> Result<Line, ReadError>
    ensures { Gives result cursor.new (read_from (line (full, crowded, open_list)) (first cursor.old).place cursor.old) }
{
    if cursor.at(Symbol::Local) {
        return named(cursor, alloc, full, crowded);
    }
    if cursor.at(Symbol::Open) {
        return opened(cursor, alloc, full, open_list);
    }
    let inst = labelled_within(cursor, alloc, full)?;
    Ok(Line::Inst(inst))
}
