// A bundle as it is written.
use crate::code::Block;
use crate::definitions::{Const, Funcdecl, Funcsig, GlobalCell, Typedef};
use ir_lex::Name;
use text_forms::Listing;

/// `.funcdef name VERSION version < signature > { blocks }`, with at least one block
#[derive(Drop)]
pub struct Funcdef {
    pub place: usize,
    pub name: Name,
    pub version: Name,
    pub signature: Name,
    pub blocks: Listing<Block>,
}

/// What stands at the outermost level of a bundle. Its place is that of its directive.
#[derive(Drop)]
pub enum Item {
    Typedef(Typedef),
    Funcsig(Funcsig),
    Const(Const),
    GlobalCell(GlobalCell),
    Funcdecl(Funcdecl),
    Funcdef(Funcdef),
}

/// The items of a text, in its order.
pub type Bundle = Listing<Item>;
