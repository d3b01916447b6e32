//! Watchpoints that are enabled.
ghost use Rattle.std.specs.Prelude.{◌≡◌, ℕ, [], true, fold, OnOk};
ghost use Rattle.mu_model.specs.Traps.{is_watched, watch};
ghost use Rattle.trap_answers.specs.Watching.{AreKnown};

use client_hooks::{Watch, Watches};
use std::alloc::{AllocError, Global};
use std::collections::BTreeMap;
use std::marker::Model;

/// The watchpoints that are enabled. Contracts see their numbers in rising order, and the numbers that are known: a watchpoint that is
/// known is enabled or disabled without a refusal.
#[derive(Drop)]
pub struct Watched {
    // Of each watchpoint that is known, whether it is enabled.
    flags: BTreeMap<u32, bool>,
}

impl Model for Watched {
    ghost use Rattle.std.specs.Ordering.{nat_cmp};
    ghost use Rattle.std.specs.BTreeMap.{IsOrdered, keys};
    ghost use Rattle.trap_answers.specs.Watching.{Watching, enabled_in};

    ghost Value = { Watching };

    ghost view = { λ w. record { enabled = enabled_in w.flags.entries; known = keys w.flags } };

    ghost invariant = { λ w. IsOrdered nat_cmp w.flags };
}

impl Watched {
    /// None is enabled, and none is known. It takes no memory yet.
    pub fn new(alloc: Global) -> Watched
        ensures { result ≡ record { enabled = []; known = [] } }
    {
        Watched {
            flags: BTreeMap::new(alloc),
        }
    }

    /// Whether a watchpoint is enabled. It takes a logarithm of how many are known.
    #[tactic(auto, using(crate::proofs::Flags::flag_found))]
    pub fn contains(&self, number: u32) -> bool
        ensures { result ≡ is_watched number self.now.enabled }
    {
        match self.flags.get(&number) {
            Some(enabled) => *enabled,
            None => false,
        }
    }

    /// A watchpoint is known from now on. It is refused only when out of memory; those that are enabled, and those that are known, stay.
    #[tactic(auto, using(crate::proofs::Flags::enabled_new))]
    fn know(&mut self, number: u32) -> Result<(), AllocError>
        ensures enabled { self.new.enabled ≡ self.old.enabled }
        ensures known { OnOk result (is_watched number self.new.known ≡ true) }
        ensures more { (n : ℕ) → is_watched n self.old.known ≡ true → is_watched n self.new.known ≡ true }
    {
        if self.flags.contains_key(&number) {
            return Ok(());
        }
        self.flags.insert(number, false)?;
        Ok(())
    }

    /// A watchpoint that is known is enabled from now on, or not.
    #[tactic(auto, using(crate::proofs::Flags::enabled_watch))]
    fn set(&mut self, change: Watch)
        requires { is_watched change.number self.old.known ≡ true }
        ensures enabled { self.new.enabled ≡ watch self.old.enabled (change.number, change.enabled) }
        ensures known { self.new.known ≡ self.old.known }
    {
        match self.flags.insert(change.number, change.enabled) {
            Ok(_) => {}
            Err(_) => unreachable!(),
        }
    }

    /// The watchpoints of these changes are known from now on. It is refused only when out of memory. Those that are enabled stay so in
    /// each case, and no other.
    #[tactic(auto, using(crate::proofs::Changes::known_also))]
    pub fn reserve(&mut self, changes: &Watches) -> Result<(), AllocError>
        ensures enabled { self.new.enabled ≡ self.old.enabled }
        ensures known { OnOk result (AreKnown changes.now self.new.known) }
    {
        for change in changes.as_slice() {
            self.know(change.number)?;
        }
        Ok(())
    }

    /// Makes these changes, one after the other, of watchpoints that are known. It takes no memory, and for each change a logarithm of how
    /// many are known.
    #[tactic(auto, using(crate::proofs::Changes::watch_more, crate::proofs::Changes::known_at))]
    pub fn apply(&mut self, changes: &Watches)
        requires { AreKnown changes.now self.old.known }
        ensures enabled { self.new.enabled ≡ fold watch self.old.enabled changes.now }
        ensures known { self.new.known ≡ self.old.known }
    {
        for change in changes.as_slice() {
            self.set(*change);
        }
    }
}
