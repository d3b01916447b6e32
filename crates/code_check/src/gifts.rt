// What an instruction gives.
ghost use Rattle.std.specs.Prelude.{◌≡◌};
ghost use Rattle.check_tables.specs.Lookups.{or_zero};

use ir_lex::Name;

/// The classes of the results of an instruction, without memory for a list.
#[derive(Clone, Copy, Drop)]
pub enum Gift<'a> {
    Nothing,
    One(u32),
    Two(u32, u32),
    /// These classes.
    Listed(&'a [u32]),
    /// The classes of the types with these names.
    Named(&'a [Name]),
}

/// The class, and 0 where there is none.
pub fn or_zero(class: Option<u32>) -> u32
    ensures { result ≡ or_zero class }
{
    match class {
        Some(class) => class,
        None => 0,
    }
}
