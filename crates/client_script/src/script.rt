//! A script.
ghost use Rattle.std.specs.Prelude.{◌≡◌, drop, length, nat_eq, slice_get, option_map, option_copied};
ghost use Rattle.client_script.specs.Meaning.{entry_meant, entries_meant};

use crate::tree::Entry;
use std::marker::Model;
use text_forms::Listing;

/// The script of a client. Contracts see the entries that it means and that are left.
#[derive(Drop)]
pub struct Script {
    entries: Listing<Entry>,
    // How many are spent.
    spent: usize,
}

impl Model for Script {
    ghost use Rattle.std.specs.Prelude.{◌≤◌, List, drop, length};
    ghost use Rattle.mu_model.specs.Clients.{ScriptEntry};
    ghost use Rattle.client_script.specs.Meaning.{entries_meant};

    ghost Value = { List ScriptEntry };

    ghost view = { λ s. entries_meant (drop s.spent s.entries) };

    ghost invariant = { λ s. s.spent ≤ length s.entries };
}

impl Script {
    /// The entries in their order.
    pub(crate) fn new(entries: Listing<Entry>) -> Script
        ensures { result ≡ entries_meant entries }
    {
        Script { entries, spent: 0 }
    }

    /// How many entries are left.
    pub fn len(&self) -> usize
        ensures { result ≡ length self.now }
    {
        self.entries.len() - self.spent
    }

    /// Whether no entry is left.
    pub fn is_empty(&self) -> bool
        ensures { result ≡ nat_eq (length self.now) 0 }
    {
        self.len() == 0
    }

    /// The first entry that is left.
    pub(crate) fn first(&self) -> Option<&Entry>
        ensures { option_map entry_meant (option_copied result) ≡ slice_get self.now 0 }
    {
        self.entries.as_slice().get(self.spent)
    }

    /// Spends the first entry that is left, if one is.
    pub(crate) fn skip(&mut self)
        ensures { self.new ≡ drop 1 self.old }
    {
        if self.spent < self.entries.len() {
            self.spent += 1;
        }
    }
}
