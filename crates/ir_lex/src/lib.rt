//! The tokens of a text.
#![tactic(auto)]

mod cursor;
mod gap;
mod lexeme;
mod name;
mod next;
mod numeral;
mod theorems;
mod token;
mod words;

pub use cursor::{Cursor, symbol};
pub use name::{Name, Numeral};
pub use next::{next_token, number};
pub use theorems::{
    each_word_is_found, numbers_are_meant, pieces_read_back, seen_examples, spaced_stand_apart,
    spellings_read_back, texts_end, tokens_are_one_list, tokens_are_seen, worked_examples,
};
pub use token::{LexFault, LexKind, Mark, Number, Token, TokenKind};
