// The pieces of sources.
ghost use Rattle.std.specs.Prelude.{◌≡◌, ◌<◌, ◌≤◌, [], ◌∷◌, ◌++◌, length, drop, slice_set, OnOk, OnErr};
ghost use Rattle.hail_load.specs.Sources.{is_open, source_count};

use crate::tree::Piece;
use std::alloc::{AllocError, Global};
use std::marker::Model;

/// Pieces in the order of the text. Contracts see the list of them.
#[derive(Drop)]
pub struct Pieces {
    pieces: Vec<Piece>,
}

impl Model for Pieces {
    ghost use Rattle.std.specs.Prelude.{List};
    ghost use Rattle.hail_load.specs.declared.tree.Piece.{Piece};

    ghost Value = { List Piece };

    ghost view = { λ p. p.pieces.items };
}

/// Whether an index may come next: only after a reference or after another index.
pub(crate) fn is_open(pieces: &[Piece]) -> bool
    ensures { result ≡ is_open pieces.now }
{
    matches!(pieces, [Piece::Reference { .. } | Piece::Index(_)])
}

/// How many sources the pieces of one element are: none where they are an index.
pub(crate) fn source_count(element: &[Piece]) -> usize
    ensures { result ≡ source_count (element.now ∷ []) }
{
    match element {
        [Piece::Index(_)] => 0,
        _ => 1,
    }
}

impl Pieces {
    /// No pieces. It takes no memory yet.
    pub fn new(alloc: Global) -> Pieces
        ensures { result ≡ [] }
    {
        Pieces {
            pieces: Vec::new(alloc),
        }
    }

    /// How many pieces there are.
    pub fn len(&self) -> usize
        ensures { result ≡ length self.now }
    {
        self.pieces.len()
    }

    /// Adds a piece at the end. When out of memory, the pieces are as before.
    pub fn push(&mut self, piece: Piece) -> Result<(), AllocError>
        ensures ok { OnOk result (self.new ≡ self.old ++ piece ∷ []) }
        ensures same { OnErr result (self.new ≡ self.old) }
    {
        self.pieces.push(piece)?;
        Ok(())
    }

    /// Puts a piece in the place of one that is there.
    pub(crate) fn set(&mut self, n: usize, piece: Piece)
        requires { n < length self.old }
        ensures { self.new ≡ slice_set self.old n piece }
    {
        self.pieces[n] = piece;
    }

    /// The pieces in a row.
    pub fn as_slice(&self) -> &[Piece]
        ensures { result.now ≡ self.now }
    {
        self.pieces.as_slice()
    }

    /// The pieces from one on, in a row.
    pub(crate) fn from(&self, n: usize) -> &[Piece]
        requires { n ≤ length self.now }
        ensures { result.now ≡ drop n self.now }
    {
        &self.pieces[n..]
    }

    /// Whether an index may come next: only after a reference or after another index.
    pub fn is_open(&self) -> bool
        ensures { result ≡ is_open self.now }
    {
        is_open(self.as_slice())
    }
}
