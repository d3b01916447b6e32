// Names with what they stand for.
ghost use Rattle.std.specs.Prelude.{◌≡◌, ℕ, List, [], ◌∷◌, ◌++◌, None, is_some, length, map, nat_eq, not, option_copied, IfOk, OnOk, OnErr};
ghost use Rattle.name_scopes.specs.Names.{found, added};

use std::alloc::{AllocError, Global};
use std::collections::BTreeMap;
use std::marker::Model;

/// Names of one space with what they stand for. Contracts see a list of pairs, in the order of their definitions.
///
/// Names come from files, so their numbers are kept in an order and not by a hash: no choice of names makes a look-up slow.
#[derive(Drop)]
pub struct Scope<T: Drop> {
    // each name and what it stands for, in the order of the definitions
    definitions: Vec<(Vec<u8>, T)>,
    // where in `definitions` each name stands
    numbers: BTreeMap<Vec<u8>, usize>,
}

impl<T: Drop> Model for Scope<T> {
    ghost use Rattle.std.specs.Prelude.{List, ℕ, map};
    ghost use Rattle.name_scopes.specs.Numbered.{IsNumbered};

    ghost Value = { List (List ℕ × T) };

    ghost view = { λ s. map (λ e. (e.0.items, e.1)) s.definitions.items };

    ghost invariant = { λ s. IsNumbered s.numbers (map (λ e. (e.0.items, e.1)) s.definitions.items) };
}

impl<T: Drop> Scope<T> {
    /// No names. It takes no memory yet.
    pub fn new(alloc: Global) -> Scope<T>
        ensures { result ≡ [] }
    {
        Scope {
            definitions: Vec::new(alloc),
            numbers: BTreeMap::new(alloc),
        }
    }

    /// How many names there are.
    pub fn len(&self) -> usize
        ensures { result ≡ length self.now }
    {
        self.definitions.len()
    }

    /// Whether there are no names.
    pub fn is_empty(&self) -> bool
        ensures { result ≡ nat_eq (length self.now) 0 }
    {
        self.len() == 0
    }

    /// What the name stands for. The number of looks at names grows with the logarithm of how many there are.
    pub fn find(&self, name: &[u8]) -> Option<&T>
        ensures { option_copied result ≡ found self.now name.now }
    {
        match self.numbers.get(name) {
            Some(number) => Some(&self.definitions[*number].1),
            None => None,
        }
    }

    fn add(&mut self, alloc: Global, name: &[u8], value: T) -> Result<(), AllocError>
        requires { found self.old name.now ≡ None }
        ensures ok { OnOk result (self.new ≡ self.old ++ (name.now, value) ∷ []) }
        ensures err { OnErr result (self.new ≡ self.old) }
    {
        let spelling = Vec::from_slice(alloc, name)?;
        let key = Vec::from_slice(alloc, name)?;
        self.definitions.reserve(1)?;
        self.numbers.insert(key, self.definitions.len())?;
        match self.definitions.push((spelling, value)) {
            Ok(()) => Ok(()),
            Err(_) => unreachable!(),
        }
    }

    /// Defines the name, unless it is defined already, and answers whether it was new. Where it was not, the value is let go.
    /// Where no memory is found the names are as before. It takes the time of two look-ups.
    pub fn define(&mut self, alloc: Global, name: &[u8], value: T) -> Result<bool, AllocError>
        ensures ok { OnOk result (self.new ≡ added self.old name.now value) }
        ensures fresh { IfOk result (λ fresh. fresh ≡ not (is_some (found self.old name.now))) }
        ensures err { OnErr result (self.new ≡ self.old) }
    {
        if self.find(name).is_some() {
            return Ok(false);
        }
        self.add(alloc, name, value)?;
        Ok(true)
    }
}
