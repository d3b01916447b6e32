// Instructions and blocks.
use crate::accessing::Access;
use crate::addressing::Addressing;
use crate::allocating::Allocation;
use crate::common::CommonInst;
use crate::computing::Computation;
use crate::flow::ControlFlow;
use crate::switching::StackSwitch;
use crate::trapping::Trapping;
use ir_lex::Name;
use text_forms::Listing;

/// What an instruction does, by its kind.
#[derive(Drop)]
pub enum Op {
    Computation(Computation),
    ControlFlow(ControlFlow),
    Allocation(Allocation),
    Addressing(Addressing),
    Access(Access),
    Trapping(Trapping),
    StackSwitch(StackSwitch),
    Common(CommonInst),
}

/// `( results ) = [ label ] op`. Its place is that of its first token: a result, a bracket or its word.
#[derive(Drop)]
pub struct Inst {
    pub place: usize,
    pub results: Listing<Name>,
    pub label: Option<Name>,
    pub op: Op,
}

/// `< of_type > name`, a parameter of a block
#[derive(Drop)]
pub struct Parameter {
    pub of_type: Name,
    pub name: Name,
}

/// `name ( parameters ) [ handler ] :`
#[derive(Drop)]
pub struct BlockHead {
    pub name: Name,
    pub parameters: Listing<Parameter>,
    pub handler: Option<Name>,
}

/// A head and the instructions behind it
#[derive(Drop)]
pub struct Block {
    pub head: BlockHead,
    pub insts: Listing<Inst>,
}

/// What stands in a function's body, as a reader comes upon it: an instruction, a block's head, or the `( )` that may stand
/// behind a common instruction, which a reader cannot tell from the results of the next instruction before it sees what follows.
#[derive(Drop)]
pub enum Line {
    Inst(Inst),
    Head(BlockHead),
    EmptyList,
}
