//! What an answer records, and which watchpoints it changes.
ghost use Rattle.std.specs.Prelude.{◌≡◌, [], ◌∷◌, ◌++◌, OnOk, OnErr};
ghost use Rattle.mu_model.specs.declared.lines.Note.TheVariants.{Frame, Kept};

use mu_model::{Note, SharedValues};
use std::alloc::{AllocError, Global};
use std::marker::Model;

/// Records, in order, each of where a frame stands or of what it keeps. Contracts see them as records of a run.
#[derive(Drop)]
pub struct Notes {
    notes: Vec<Note>,
}

impl Model for Notes {
    ghost use Rattle.std.specs.Prelude.{List};
    ghost use Rattle.mu_model.specs.declared.lines.Note.{Note};

    ghost Value = { List Note };

    ghost view = { λ n. n.notes.items };
}

impl Notes {
    /// No records. It takes no memory yet.
    pub fn new(alloc: Global) -> Notes
        ensures { result ≡ [] }
    {
        Notes {
            notes: Vec::new(alloc),
        }
    }

    /// Adds a record of where a frame stands, by its number from the top. When out of memory, the records are as
    /// before.
    pub fn add_frame(&mut self, frame: u32, block: u32, at: u32) -> Result<(), AllocError>
        ensures added { OnOk result (self.new ≡ self.old ++ Frame frame block at ∷ []) }
        ensures same { OnErr result (self.new ≡ self.old) }
    {
        self.notes.push(Note::Frame { frame, block, at })?;
        Ok(())
    }

    /// Adds a record of what a frame keeps, by its number from the top. Where more than one record tells of the same frame, they may
    /// share the values (`SharedValues::share`), which are then there once. When out of memory, the records are as before.
    pub fn add_kept(&mut self, frame: u32, values: SharedValues) -> Result<(), AllocError>
        ensures added { OnOk result (self.new ≡ self.old ++ Kept frame values ∷ []) }
        ensures same { OnErr result (self.new ≡ self.old) }
    {
        self.notes.push(Note::Kept { frame, values })?;
        Ok(())
    }

    /// The records.
    pub fn into_vec(self) -> Vec<Note>
        ensures { result.items ≡ self }
    {
        self.notes
    }
}

/// A watchpoint, by number, and whether it is enabled from then on.
#[derive(Clone, Copy, Debug, PartialEq, Eq)]
pub struct Watch {
    pub number: u32,
    pub enabled: bool,
}

/// Changes of watchpoints, in order. Contracts see pairs of a number and whether it is enabled.
#[derive(Drop)]
pub struct Watches {
    watches: Vec<Watch>,
}

impl Model for Watches {
    ghost use Rattle.std.specs.Prelude.{ℕ, Bool, List, map};

    ghost Value = { List (ℕ × Bool) };

    ghost view = { λ w. map (λ x. (x.number, x.enabled)) w.watches.items };
}

impl Watches {
    ghost use Rattle.std.specs.Prelude.{map};

    /// No changes. It takes no memory yet.
    pub fn new(alloc: Global) -> Watches
        ensures { result ≡ [] }
    {
        Watches {
            watches: Vec::new(alloc),
        }
    }

    /// Adds a change after the others. When it is out of memory, they are as before.
    pub fn add(&mut self, watch: Watch) -> Result<(), AllocError>
        ensures added { OnOk result (self.new ≡ self.old ++ (watch.number, watch.enabled) ∷ []) }
        ensures same { OnErr result (self.new ≡ self.old) }
    {
        self.watches.push(watch)?;
        Ok(())
    }

    /// The changes.
    pub fn as_slice(&self) -> &[Watch]
        ensures { map (λ w. (w.number, w.enabled)) result.now ≡ self.now }
    {
        self.watches.as_slice()
    }
}
