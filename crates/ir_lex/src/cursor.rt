// A place in a text, with the token there.
ghost use Rattle.std.specs.Prelude.{◌≡◌, ◌≤◌, ◌<◌, ℕ, List, [], ◌∷◌, length, true, false, Some, OnErr};
ghost use Rattle.std.specs.List.{list_any};
ghost use Rattle.text_forms.specs.Tokens.{Tok, same, at, symbol_ahead, first, rest_of, fault_at, refusal, is_last, goes_on_behind};
ghost use Rattle.ir_lex.specs.Seen.{symbol_of, fault_symbol, mark_symbol};
ghost use Rattle.ir_lex.specs.Texts.{spelling_of};
ghost use Rattle.text_forms.specs.Texts.{none_last};
ghost use Rattle.text_forms.specs.Reading.{read};
ghost use Rattle.text_forms.specs.Answers.{Gives};
ghost use Rattle.ir_lex.specs.TokenForms.{mark, choice, name, numeral};
ghost use Rattle.ir_lex.specs.Scanner.{next_of};
ghost use Rattle.ir_lex.specs.Walk.{held, held_tokens, tokens_from};

use crate::name::{Name, Numeral};
use crate::next::scan;
use crate::numeral::number_or_nought;
use crate::token::{LexKind, Mark, Token, TokenKind};
use crate::words;
use std::alloc::Global;
use std::marker::Model;
use text_forms::{Fault, FaultKind, Listing, ReadError, Symbol};

fn mark_symbol(mark: Mark) -> Symbol
    ensures { result ≡ mark_symbol mark }
{
    match mark {
        Mark::Open => Symbol::Open,
        Mark::Close => Symbol::Close,
        Mark::OpenBrace => Symbol::BraceOpen,
        Mark::CloseBrace => Symbol::BraceClose,
        Mark::Less => Symbol::Less,
        Mark::Greater => Symbol::Greater,
        Mark::OpenBracket => Symbol::SquareOpen,
        Mark::CloseBracket => Symbol::SquareClose,
        Mark::Equals => Symbol::Equals,
        Mark::Colon => Symbol::Colon,
        Mark::Ampersand => Symbol::Ampersand,
        Mark::Arrow => Symbol::Arrow,
    }
}

fn fault_symbol(kind: LexKind) -> Symbol
    ensures { result ≡ fault_symbol kind }
{
    match kind {
        LexKind::BadByte => Symbol::BadByte,
        LexKind::BadName => Symbol::BadName,
        LexKind::NumberTooLarge => Symbol::NumberTooLarge,
        LexKind::TooLong => Symbol::TooLong,
    }
}

fn symbol_of(kind: TokenKind, spelling: &[u8]) -> Symbol
    ensures { result ≡ symbol_of kind spelling.now }
{
    match kind {
        TokenKind::Global => words::global(spelling),
        TokenKind::Local => Symbol::Local,
        TokenKind::Object => Symbol::Object,
        TokenKind::Directive => words::directive(spelling),
        TokenKind::Word => words::word(spelling),
        TokenKind::Number => Symbol::Number,
        TokenKind::Mark(mark) => mark_symbol(mark),
    }
}

/// What a token of a text is to the grammars. It takes no memory.
pub fn symbol(text: &[u8], token: &Token) -> Symbol
    requires in_order { token.now.from ≤ token.now.to }
    requires within { token.now.to ≤ length text.now }
    ensures { result ≡ symbol_of token.now.kind (spelling_of text.now token.now) }
{
    symbol_of(token.kind, &text[token.from..token.to])
}

fn is_among(symbols: &[Symbol], symbol: Symbol) -> bool
    ensures { result ≡ list_any (λ one. same one symbol) symbols.now }
{
    symbols.iter().any(|one| *one == symbol)
}

// A token as a cursor holds it.
#[derive(Clone, Copy)]
struct Held {
    symbol: Symbol,
    from: usize,
    to: usize,
}

// The next token, or what stands in for one at the end and at a fault.
fn held_at(text: &[u8], at: usize) -> Held
    requires { at ≤ length text.now }
    ensures found { result ≡ held text.now (next_of text.now at) }
    ensures in_order { result.from ≤ result.to }
    ensures within { result.to ≤ length text.now }
{
    match scan(text, at) {
        Ok(Some(token)) => Held {
            symbol: symbol(text, &token),
            from: token.from,
            to: token.to,
        },
        Ok(None) => Held {
            symbol: Symbol::End,
            from: text.len(),
            to: text.len(),
        },
        Err(fault) => Held {
            symbol: fault_symbol(fault.kind),
            from: fault.place,
            to: fault.place,
        },
    }
}

/// A place in a text, as the reader of any grammar wants it. Contracts see the tokens from the one at the place on, of which
/// the last is the end of the text or its first lexical fault. No call but `name` takes memory.
#[derive(Drop)]
pub struct Cursor<'a> {
    text: &'a [u8],
    token: Held,
}

impl<'a> Model for Cursor<'a> {
    ghost Value = { List Tok };

    ghost view = { λ c. held_tokens c.text.now c.token.symbol c.token.from c.token.to };

    ghost invariant = { λ c. (c.token.from ≤ c.token.to) × (c.token.to ≤ length c.text.now) };
}

impl<'a> Cursor<'a> {
    /// At the first token of a text.
    pub fn new(text: &'a [u8]) -> Cursor<'a>
        ensures { result ≡ tokens_from text.now 0 }
    {
        Cursor {
            text,
            token: held_at(text, 0),
        }
    }

    /// Another cursor at the same place, to look ahead with.
    pub fn ahead(&self) -> Cursor<'a>
        ensures { result ≡ self.now }
    {
        Cursor {
            text: self.text,
            token: self.token,
        }
    }

    /// What the token here is to the grammars.
    pub fn symbol(&self) -> Symbol
        ensures { symbol_ahead self.now ≡ Some result }
    {
        self.token.symbol
    }

    /// Whether the token here is that one.
    pub fn at(&self, symbol: Symbol) -> bool
        ensures { result ≡ at (symbol ∷ []) self.now }
    {
        symbol == self.token.symbol
    }

    /// Whether the token here is one of these.
    pub fn at_any(&self, symbols: &[Symbol]) -> bool
        ensures { result ≡ at symbols.now self.now }
    {
        is_among(symbols, self.token.symbol)
    }

    /// The offset of the first byte of the token here.
    pub fn place(&self) -> usize
        ensures { result ≡ (first self.now).place }
    {
        self.token.from
    }

    /// The bytes of the token here.
    pub fn spelling(&self) -> &[u8]
        ensures { result.now ≡ (first self.now).spelling }
    {
        &self.text[self.token.from..self.token.to]
    }

    /// The fault where nothing goes on with the token here.
    pub fn fault(&self) -> Fault
        ensures { result ≡ fault_at self.now }
    {
        Fault {
            kind: self.token.symbol.fault_kind(),
            place: self.token.from,
        }
    }

    /// The fault where only these words, which are left out, go on.
    pub fn refusal(&self, left_out: &[Symbol]) -> Fault
        ensures { result ≡ refusal left_out.now self.now }
    {
        if self.at_any(left_out) {
            Fault {
                kind: FaultKind::NotInProfile,
                place: self.token.from,
            }
        } else {
            self.fault()
        }
    }

    /// Goes to the next token.
    pub fn bump(&mut self)
        requires { goes_on_behind self.old ≡ true }
        ensures { self.new ≡ rest_of self.old }
    {
        self.token = held_at(self.text, self.token.to);
    }
}

// ---- forms of one token. Each takes the token where it is one that the form has, and else answers its fault and stays.

impl<'a> Cursor<'a> {
    /// Takes a mark, a word or a directive, and gives its place.
    #[tactic(auto, using(crate::specs::Lemmas::Cursors::one_goes_on), unfolding(crate::specs::TokenForms::mark))]
    pub fn mark(&mut self, symbol: Symbol) -> Result<usize, ReadError>
        requires { is_last symbol ≡ false }
        ensures read { Gives result self.new (read (mark symbol) self.old) }
        ensures stays { OnErr result (self.new ≡ self.old) }
    {
        if !self.at(symbol) {
            return Err(ReadError::Fault(self.fault()));
        }
        let place = self.place();
        self.bump();
        Ok(place)
    }

    /// Takes one of several words, and gives which.
    #[tactic(auto, using(crate::specs::Lemmas::Cursors::among_goes_on), unfolding(crate::specs::TokenForms::choice))]
    pub fn choice(&mut self, symbols: &[Symbol]) -> Result<Symbol, ReadError>
        requires { none_last symbols.now ≡ true }
        ensures read { Gives result self.new (read (choice symbols.now) self.old) }
        ensures stays { OnErr result (self.new ≡ self.old) }
    {
        if !self.at_any(symbols) {
            return Err(ReadError::Fault(self.fault()));
        }
        let symbol = self.symbol();
        self.bump();
        Ok(symbol)
    }

    /// Takes a name of one of these kinds. Out of memory is a refusal too.
    #[tactic(auto, using(crate::specs::Lemmas::Cursors::among_goes_on), unfolding(crate::specs::TokenForms::name))]
    pub fn name(&mut self, alloc: Global, symbols: &[Symbol]) -> Result<Name, ReadError>
        requires { none_last symbols.now ≡ true }
        ensures read { Gives result self.new (read (name symbols.now) self.old) }
        ensures stays { OnErr result (self.new ≡ self.old) }
    {
        if !self.at_any(symbols) {
            return Err(ReadError::Fault(self.fault()));
        }
        let place = self.place();
        let text = Listing::from_slice(alloc, self.spelling())?;
        self.bump();
        Ok(Name { place, text })
    }

    /// Takes a number.
    #[tactic(auto, unfolding(crate::specs::TokenForms::numeral))]
    pub fn numeral(&mut self) -> Result<Numeral, ReadError>
        ensures read { Gives result self.new (read numeral self.old) }
        ensures stays { OnErr result (self.new ≡ self.old) }
    {
        if !self.at(Symbol::Number) {
            return Err(ReadError::Fault(self.fault()));
        }
        let place = self.place();
        let number = number_or_nought(self.spelling());
        self.bump();
        Ok(Numeral { place, number })
    }
}
