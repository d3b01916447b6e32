//! The script that fills a heap before a run: its text, and what its commands make.
#![tactic(auto)]

mod commands;
mod fault;
mod fills;
mod fitting;
mod gathered;
mod indexes;
mod judgement;
mod laws;
mod loading;
mod names;
mod parts;
mod pending;
mod reading;
mod source_pieces;
mod sources;
mod targets;
mod tokens;
mod tree;

pub use fault::{HailFault, HailKind, LoadFault, LoadKind};
pub use laws::{hail_is_grammar, refers_where_it_fits, script_fault_is_first, script_is_derived};
pub use loading::load_hail;
pub use parts::{Made, Part, Spot};
pub use reading::read_hail;
pub use source_pieces::Pieces;
pub use tree::{Command, Hail, Index, Line, Piece, Root, Target};
