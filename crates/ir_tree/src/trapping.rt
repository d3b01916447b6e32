// Instructions that ask the client.
use crate::operands::{Destination, ExceptionClause};
use ir_lex::{Name, Numeral};
use text_forms::Listing;

/// An instruction that asks the client, or that may be made to.
#[derive(Drop)]
pub enum Trapping {
    /// `TRAP < types > exception KEEPALIVE ( keepalive )`
    Trap {
        types: Listing<Name>,
        exception: Option<ExceptionClause>,
        keepalive: Option<Listing<Name>>,
    },
    /// `WATCHPOINT number < types > disabled enabled WPEXC ( exceptional ) KEEPALIVE ( keepalive )`
    Watchpoint {
        number: Numeral,
        types: Listing<Name>,
        disabled: Destination,
        enabled: Destination,
        exceptional: Option<Destination>,
        keepalive: Option<Listing<Name>>,
    },
    /// `WPBRANCH number disabled enabled`
    Wpbranch {
        number: Numeral,
        disabled: Destination,
        enabled: Destination,
    },
}
