// What instructions of all kinds are made of.
use ir_lex::Name;
use text_forms::Listing;

/// What an instruction takes: a variable of the block, or a constant, a global or a function.
#[derive(Drop)]
pub enum Operand {
    Local(Name),
    Global(Name),
}

/// `( values )`. Its place is that of the `(`, and where one value stands alone that of the value.
#[derive(Drop)]
pub struct Arguments {
    pub place: usize,
    pub values: Listing<Operand>,
}

/// `block ( arguments )`: where a block goes on, and what its parameters are then.
#[derive(Drop)]
pub struct Destination {
    pub block: Name,
    pub arguments: Arguments,
}

/// `EXC ( normal exceptional )`: where an instruction goes on that may end its block.
#[derive(Drop)]
pub struct ExceptionClause {
    pub normal: Destination,
    pub exceptional: Destination,
}

/// What a stack is entered with.
#[derive(Drop)]
pub enum NewStackClause {
    /// `PASS_VALUES < types > ( values )`
    PassValues {
        types: Listing<Name>,
        values: Arguments,
    },
    /// `THROW_EXC exception`
    ThrowExc {
        exception: Operand,
    },
}
