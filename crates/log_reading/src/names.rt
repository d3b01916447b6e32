// The names of functions.
ghost use Rattle.std.specs.Prelude.{◌≡◌, [], true, IfOk, OnOk};
ghost use Rattle.std.specs.List.{list_all};
ghost use Rattle.log_lines.specs.Values.{is_name, is_name_byte, place_among, names_with};

use name_scopes::Scope;
use std::alloc::{AllocError, Global};
use std::marker::Model;

fn is_name_byte(byte: u8) -> bool
    ensures { result ≡ is_name_byte byte }
{
    byte.is_ascii_alphanumeric() || byte == b'_' || byte == b'-' || byte == b'.'
}

fn are_name_bytes(bytes: &[u8]) -> bool
    ensures { result ≡ list_all is_name_byte bytes.now }
{
    bytes.iter().all(|byte| is_name_byte(*byte))
}

/// Whether a field is a name.
pub fn is_name(field: &[u8]) -> bool
    ensures { result ≡ is_name field.now }
{
    match field {
        [b'@', name @ ..] => !name.is_empty() && are_name_bytes(name),
        _ => false,
    }
}

/// The names that were used, each with its number. Contracts see the names in the order of their first use.
#[derive(Drop)]
pub struct Names {
    alloc: Global,
    numbers: Scope<u32>,
}

impl Model for Names {
    ghost use Rattle.std.specs.Prelude.{List};
    ghost use Rattle.log_lines.specs.Fields.{Text};
    ghost use Rattle.log_reading.specs.Inner.{names_of, AreNumbered};

    ghost Value = { List Text };

    ghost view = { λ n. names_of n.numbers };

    ghost invariant = { λ n. AreNumbered 0 n.numbers };
}

impl Names {
    /// No names. It takes no memory yet.
    pub fn new(alloc: Global) -> Names
        ensures { result ≡ [] }
    {
        Names {
            alloc,
            numbers: Scope::new(alloc),
        }
    }

    /// The number of a name: how many other names were used before its first use. A new name is kept. The number of looks at names
    /// grows with the logarithm of how many there are. It fails only where memory runs out, or where 2^32 names were used.
    pub fn number(&mut self, name: &[u8]) -> Result<u32, AllocError>
        requires { is_name name.now ≡ true }
        ensures number { IfOk result (λ n. n ≡ place_among self.old name.now) }
        ensures names { OnOk result (self.new ≡ names_with self.old name.now) }
    {
        if let Some(number) = self.numbers.find(name) {
            return Ok(*number);
        }
        let number = self.numbers.len();
        if number > u32::MAX as usize {
            return Err(AllocError);
        }
        let number = number as u32;
        self.numbers.define(self.alloc, name, number)?;
        Ok(number)
    }
}
