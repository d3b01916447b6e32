// The files of a job.
ghost use Rattle.std.specs.Prelude.{◌≡◌, ◌++◌, OnOk};

use itoa::Buffer;
use std::alloc::AllocError;

/// A file of a job.
#[derive(Clone, Copy, Debug, PartialEq, Eq)]
pub enum What {
    /// The bundle that is run.
    Bundle,
    /// The script that fills the heap before the run.
    Hail,
    /// The script of the client, which answers the traps of the run.
    Client,
    /// The numbers that decide the picks of the run.
    Schedule,
    /// The log that is judged.
    Log,
    /// One of the bundles that are joined, by its number among them, from 0 on.
    Joined(u32),
}

impl What {
    ghost use Rattle.mu_texts.specs.What.{name_of, slot_of};

    /// Its slot, by which inputs count its faults.
    pub fn slot(self) -> u32
        ensures { result ≡ slot_of self }
    {
        match self {
            What::Bundle => 0,
            What::Hail => 1,
            What::Client => 2,
            What::Schedule => 3,
            What::Log => 0,
            What::Joined(k) => k,
        }
    }

    /// Appends its name in texts. After a refusal a part of it may have been appended.
    pub fn append_name(self, out: &mut Vec<u8>) -> Result<(), AllocError>
        ensures { OnOk result (out.new.items ≡ out.old.items ++ name_of self) }
    {
        match self {
            What::Bundle => out.extend_from_slice(b"bundle"),
            What::Hail => out.extend_from_slice(b"hail"),
            What::Client => out.extend_from_slice(b"client"),
            What::Schedule => out.extend_from_slice(b"schedule"),
            What::Log => out.extend_from_slice(b"log"),
            What::Joined(k) => {
                let mut buffer = Buffer::new();
                out.extend_from_slice(b"bundle ")?;
                out.extend_from_slice(buffer.format(k).as_bytes())
            }
        }
    }
}
