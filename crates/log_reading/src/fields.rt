// The fields of a line, in order.
ghost use Rattle.std.specs.Prelude.{◌≡◌, ◌<◌, ◌≤◌, ◌-◌, [], ◌∷◌, length, MatchResult, IfOk};
ghost use Rattle.demands.specs.declared.fault.Fault.TheVariants.{At};
ghost use Rattle.log_lines.specs.Fields.{parts, number, number_limit, exactly, thread, stack, cell};
ghost use Rattle.log_lines.specs.Words.{look_up, kind_words, order, is_order_of, is_fence_order};
ghost use Rattle.log_lines.specs.Lines.{placed, field, finished};
ghost use Rattle.log_lines.specs.declared.types.LogKind.TheVariants.{Unexpected};
ghost use Rattle.log_reading.specs.Inner.{Reads, at_place};

use crate::numbers::{NUMBERS, exactly, number};
use crate::parts::first_part;
use crate::references::{cell, stack, thread};
use crate::words::{access_order, fence_order, kind_word};
use demands::Fault;
use log_lines::{KindWord, LogKind};
use mem_axioms::Mode;
use mu_base::Order;
use mu_values::CellId;
use std::marker::Model;

/// Why a log is refused: its first fault with its byte offset, or out of memory.
pub type LogFault = Fault<LogKind>;

/// A field and its byte offset.
#[derive(Drop)]
pub struct Field<'a> {
    pub place: usize,
    pub bytes: &'a [u8],
}

impl<'a> Field<'a> {
    /// What the field means, or its fault at its first byte.
    pub fn judged<T>(&self, judged: Result<T, LogKind>) -> Result<T, LogFault>
        ensures { result ≡ at_place self.now.place judged }
    {
        match judged {
            Ok(meaning) => Ok(meaning),
            Err(kind) => Err(Fault::At {
                kind,
                place: self.place,
            }),
        }
    }
}

/// The fields that are left of a line. Each call below reads the next one. Where none is left that is a fault at the line's end.
#[derive(Drop)]
pub struct Fields<'a> {
    // None after the last field.
    rest: Option<&'a [u8]>,
    // The byte offset of the line's end.
    end: usize,
}

impl<'a> Model for Fields<'a> {
    ghost use Rattle.log_reading.specs.Inner.{LineRest, fields_left, IsWithin};

    ghost Value = { LineRest };

    ghost view = { λ f. record { fields = fields_left f.end f.rest; end = f.end } };

    ghost invariant = { λ f. IsWithin f.end f.rest };
}

impl<'a> Fields<'a> {
    /// The fields of a line that ends at that byte offset.
    pub fn new(line: &'a [u8], end: usize) -> Fields<'a>
        requires { length line.now ≤ end }
        ensures { result ≡ record { fields = placed (end - length line.now) (parts 32 line.now); end = end } }
    {
        Fields {
            rest: Some(line),
            end,
        }
    }

    /// The next field.
    pub fn next(&mut self) -> Result<Field<'a>, LogFault>
        ensures end { self.new.end ≡ self.old.end }
        ensures field { MatchResult result (λ f. self.old.fields ≡ (f.place, f.bytes.now) ∷ self.new.fields) (λ e. (self.old.fields ≡ []) × (e ≡ At Unexpected self.old.end)) }
    {
        let Some(rest) = self.rest else {
            return Err(Fault::At {
                kind: LogKind::Unexpected,
                place: self.end,
            });
        };
        let place = self.end - rest.len();
        let first = first_part(rest, b' ');
        self.rest = first.rest;
        Ok(Field {
            place,
            bytes: first.part,
        })
    }

    /// The end of the line. A field that is left is the fault.
    pub fn finish(&self) -> Result<(), LogFault>
        ensures { result ≡ finished tt self.now.fields }
    {
        match self.rest {
            None => Ok(()),
            Some(rest) => Err(Fault::At {
                kind: LogKind::Unexpected,
                place: self.end - rest.len(),
            }),
        }
    }

    /// The number `n`.
    #[tactic(auto, using(crate::proofs::NextFields::read_next, crate::proofs::NextFields::read_none))]
    pub fn exactly(&mut self, n: u32) -> Result<u32, LogFault>
        ensures { Reads (field self.old.end (exactly n)) self.old self.new result }
    {
        let field = self.next()?;
        field.judged(exactly(n, field.bytes))
    }

    /// A number below 2^32.
    #[tactic(auto, using(crate::proofs::NextFields::read_next, crate::proofs::NextFields::read_none))]
    pub fn number(&mut self) -> Result<u32, LogFault>
        ensures { Reads (field self.old.end (number number_limit)) self.old self.new result }
    {
        let field = self.next()?;
        field.judged(number(NUMBERS, field.bytes))
    }

    /// A thread.
    #[tactic(auto, using(crate::proofs::NextFields::read_next, crate::proofs::NextFields::read_none))]
    pub fn thread(&mut self) -> Result<u32, LogFault>
        ensures reads { Reads (field self.old.end thread) self.old self.new result }
        ensures few { IfOk result (λ n. n < 64) }
    {
        let field = self.next()?;
        field.judged(thread(field.bytes))
    }

    /// A stack.
    #[tactic(auto, using(crate::proofs::NextFields::read_next, crate::proofs::NextFields::read_none))]
    pub fn stack(&mut self) -> Result<u32, LogFault>
        ensures { Reads (field self.old.end stack) self.old self.new result }
    {
        let field = self.next()?;
        field.judged(stack(field.bytes))
    }

    /// A cell.
    #[tactic(auto, using(crate::proofs::NextFields::read_next, crate::proofs::NextFields::read_none))]
    pub fn cell(&mut self) -> Result<CellId, LogFault>
        ensures { Reads (field self.old.end cell) self.old self.new result }
    {
        let field = self.next()?;
        field.judged(cell(field.bytes))
    }

    /// The word that says what happened.
    #[tactic(auto, using(crate::proofs::NextFields::read_next, crate::proofs::NextFields::read_none))]
    pub fn kind_word(&mut self) -> Result<KindWord, LogFault>
        ensures { Reads (field self.old.end (look_up kind_words)) self.old self.new result }
    {
        let field = self.next()?;
        field.judged(kind_word(field.bytes))
    }

    /// The order of an access.
    #[tactic(auto, using(crate::proofs::NextFields::read_next, crate::proofs::NextFields::read_none))]
    pub fn access_order(&mut self, mode: Mode) -> Result<Order, LogFault>
        ensures { Reads (field self.old.end (order (is_order_of mode))) self.old self.new result }
    {
        let field = self.next()?;
        field.judged(access_order(mode, field.bytes))
    }

    /// The order of a fence.
    #[tactic(auto, using(crate::proofs::NextFields::read_next, crate::proofs::NextFields::read_none))]
    pub fn fence_order(&mut self) -> Result<Order, LogFault>
        ensures { Reads (field self.old.end (order is_fence_order)) self.old self.new result }
    {
        let field = self.next()?;
        field.judged(fence_order(field.bytes))
    }
}
