//! Sources, with the lists among them. All pieces of a source are put behind one another in one list, however deep its braces are, so
//! that each is moved once.
ghost use Rattle.std.specs.Prelude.{◌≡◌, OnOk};
ghost use Rattle.text_forms.specs.Reading.{read};
ghost use Rattle.text_forms.specs.Answers.{Gives, kept, with_front};
ghost use Rattle.hail_load.specs.Sources.{alone, index, plain, element, list, source};
ghost use Rattle.hail_load.specs.MembersSoFar.{index_alone, put, no_members, followed};

use crate::source_pieces::{Pieces, is_open, source_count};
use crate::tokens;
use crate::tree::Piece;
use ir_lex::Cursor;
use std::alloc::{AllocError, Global};
use text_forms::{ReadError, Symbol};

/// What is read of a list: how many of its elements are sources, and whether an index may come next.
#[derive(Clone, Copy, Debug, PartialEq, Eq)]
struct Members {
    length: usize,
    leads: bool,
}

impl Members {
    fn new() -> Members
        ensures { result ≡ no_members }
    {
        Members {
            length: 0,
            leads: false,
        }
    }

    /// Counts an element, which has these pieces.
    fn add(&mut self, element: &[Piece]) -> Result<(), AllocError>
        ensures { OnOk result (self.new ≡ followed self.old element.now) }
    {
        self.length = self
            .length
            .checked_add(source_count(element))
            .ok_or(AllocError)?;
        self.leads = is_open(element);
        Ok(())
    }
}

/// Puts a source that is no list behind other pieces.
fn put_plain(cursor: &mut Cursor, alloc: Global, out: &mut Pieces) -> Result<(), ReadError>
    ensures { Gives (put result out.new) cursor.new (with_front out.old (kept alone (read plain cursor.old))) }
{
    let piece = tokens::plain(cursor, alloc)?;
    out.push(piece)?;
    Ok(())
}

/// Puts an index behind other pieces.
fn put_index(cursor: &mut Cursor, out: &mut Pieces) -> Result<(), ReadError>
    ensures { Gives (put result out.new) cursor.new (with_front out.old (kept index_alone (read index cursor.old))) }
{
    let index = tokens::index(cursor)?;
    out.push(Piece::Index(index))?;
    Ok(())
}

/// Puts a source with at most so many braces in one another behind other pieces.
#[cycle(put_source)]
fn put_source(
    cursor: &mut Cursor,
    alloc: Global,
    depth: usize,
    out: &mut Pieces,
) -> Result<(), ReadError>
    ensures { Gives (put result out.new) cursor.new (with_front out.old (read (source depth) cursor.old)) }
{
    if depth > 0 && cursor.at(Symbol::BraceOpen) {
        put_list(cursor, alloc, depth - 1, out)
    } else {
        put_plain(cursor, alloc, out)
    }
}

/// Puts an element of a list behind other pieces: a source, or where one may come an index.
#[cycle(put_source)]
fn put_element(
    cursor: &mut Cursor,
    alloc: Global,
    depth: usize,
    leads: bool,
    out: &mut Pieces,
) -> Result<(), ReadError>
    ensures { Gives (put result out.new) cursor.new (with_front out.old (read (element (source depth) leads) cursor.old)) }
{
    if leads && cursor.at(Symbol::SquareOpen) {
        put_index(cursor, out)
    } else {
        put_source(cursor, alloc, depth, out)
    }
}

/// Puts `{ source* }` behind other pieces. Its own piece is put first, and told at the end how many sources the list has.
#[cycle(put_source)]
fn put_list(
    cursor: &mut Cursor,
    alloc: Global,
    depth: usize,
    out: &mut Pieces,
) -> Result<(), ReadError>
    ensures { Gives (put result out.new) cursor.new (with_front out.old (read (list (source depth)) cursor.old)) }
{
    let place = cursor.mark(Symbol::BraceOpen)?;
    let head = out.len();
    out.push(Piece::List { place, length: 0 })?;
    let mut members = Members::new();
    'each: while !cursor.at(Symbol::BraceClose) {
        let from = out.len();
        put_element(cursor, alloc, depth, members.leads, out)?;
        members.add(out.from(from))?;
    }
    cursor.bump();
    out.set(
        head,
        Piece::List {
            place,
            length: members.length,
        },
    );
    Ok(())
}

/// A source with at most so many braces in one another. It takes time for its tokens, however deep they are.
#[tactic(auto, using(crate::proofs::MemberLoops::none_before, crate::proofs::MemberLoops::fault_from))]
pub fn source(cursor: &mut Cursor, alloc: Global, depth: usize) -> Result<Pieces, ReadError>
    ensures { Gives result cursor.new (read (source depth) cursor.old) }
{
    let mut pieces = Pieces::new(alloc);
    put_source(cursor, alloc, depth, &mut pieces)?;
    Ok(pieces)
}
