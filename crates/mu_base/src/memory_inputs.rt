// Files in memory.
ghost use Rattle.std.specs.Prelude.{◌≡◌, ◌≢◌, ◌⊎◌, ◌↔◌, ◌+◌, ◌-◌, ◌^◌, ◌≤◌, ◌<◌, ℕ, [], Some, None, Err, min, option_map, slice_index, replicate, length, is_some, IsTrue, OnOk, IsErrOf, ◌&&◌};
ghost use Rattle.mu_base.specs.Faults.{Rose};
ghost use Rattle.mu_base.specs.Files.{file, Holds, IsMissing, BeginsFile};
ghost use Rattle.mu_base.specs.Memory.{fails, files_of};
ghost use Rattle.mu_base.specs.MemoryFiles.{entries_of};

use crate::failing::stands_in;
use crate::{FetchFault, Inputs, Text};
use std::marker::Model;

/// A file in memory.
#[derive(Drop)]
pub struct File {
    /// Its name, as inputs are asked for it.
    pub name: Text,
    /// What it holds.
    pub bytes: Text,
}

/// Files in memory. The fetches whose numbers, from 0, stand in `failing` fail; of two files of one name the first counts.
#[derive(Drop)]
pub struct MemoryInputs {
    files: Vec<File>,
    failing: Vec<u32>,
    calls: u64,
    faults: [u64; 16],
}

impl Model for MemoryInputs {
    ghost use Rattle.mu_base.specs.Memory.{Shelf};
    ghost use Rattle.mu_base.specs.MemoryFiles.{entries_of};

    ghost Value = { Shelf };

    ghost view = { λ m. record { files = entries_of m.files.items; failing = m.failing.items; calls = m.calls; faults = m.faults } };
}

impl MemoryInputs {
    /// Inputs that hold these files, whose fetches with these numbers fail.
    pub fn new(files: Vec<File>, failing: Vec<u32>) -> Self
        ensures { result ≡ record { files = entries_of files.items; failing = failing.items; calls = 0; faults = replicate 16 0 } }
    {
        MemoryInputs {
            files,
            failing,
            calls: 0,
            faults: [0; 16],
        }
    }
}

// The bytes of the first file of that name.
fn find<'a>(files: &'a [File], name: &str) -> Option<&'a Text>
    ensures { option_map (λ t. t.now.members) result ≡ file (files_of (entries_of files.now)) name.now }
{
    for f in files {
        if name.as_bytes() == f.name.as_slice() {
            return Some(&f.bytes);
        }
    }
    None
}

impl Inputs for MemoryInputs {
    ghost holds = { λ m. Some (files_of m.files) };

    ghost faults = { λ m s. slice_index m.faults s };

    fn fetch(
        &mut self,
        slot: u32,
        name: &str,
        limit: usize,
        out: &mut Vec<u8>,
    ) -> Result<(), FetchFault>
        requires { slot < 16 }
        ensures files { self.new.files ≡ self.old.files }
        ensures other_slots { (s : ℕ) → s ≢ slot → slice_index self.new.faults s ≡ slice_index self.old.faults s }
        ensures never_falls { (s : ℕ) → slice_index self.old.faults s ≤ slice_index self.new.faults s }

        ensures begins { BeginsFile (Some (files_of self.old.files)) name.now out.new.items }
        ensures whole { OnOk result (Holds (Some (files_of self.old.files)) name.now out.new.items) }
        ensures within { OnOk result (length out.new.items ≤ limit) }

        ensures fault { IsErrOf result FetchFault.Fault →
            Rose (slice_index self.old.faults slot) (slice_index self.new.faults slot) ⊎ IsMissing (Some (files_of self.old.files)) name.now }
        ensures missing { IsMissing (Some (files_of self.old.files)) name.now → slice_index self.new.faults slot ≡ slice_index self.old.faults slot }
        ensures failing { IsTrue (fails self.old.failing self.old.calls) → result ≡ Err FetchFault.Fault }
        ensures only_failing { result ≡ Err FetchFault.Fault →
            IsTrue (fails self.old.failing self.old.calls) ⊎ IsMissing (Some (files_of self.old.files)) name.now }
        ensures later { self.new.failing ≡ self.old.failing }
        ensures counted { self.new.calls ≡ min (self.old.calls + 1) (2 ^ 64 - 1) }

        ensures too_long { IsErrOf result FetchFault.TooLong → length out.new.items ≡ limit + 1 }
        ensures no_fault { IsErrOf result FetchFault.TooLong → slice_index self.new.faults slot ≡ slice_index self.old.faults slot }
    {
        out.clear();
        let number = self.calls;
        self.calls = number.saturating_add(1);
        let Some(text) = find(&self.files, name) else {
            return Err(FetchFault::Fault);
        };
        if stands_in(&self.failing, number) {
            let slot = slot as usize;
            self.faults[slot] = self.faults[slot].saturating_add(1);
            return Err(FetchFault::Fault);
        }
        let bytes = text.as_slice();
        if bytes.len() <= limit {
            return out.extend_from_slice(bytes).map_err(|_| FetchFault::Memory);
        }
        out.extend_from_slice(&bytes[..limit + 1])
            .map_err(|_| FetchFault::Memory)?;
        Err(FetchFault::TooLong)
    }
}
