// What frames keep, with one copy for all records that tell of it.
ghost use Rattle.std.specs.Prelude.{◌≡◌, IfOk, Some, option_map, slice_get};
ghost use Rattle.frames.specs.Activations.{Activation};
ghost use Rattle.frames.specs.Chains.{frames_in};

use client_hooks::copy_values;
use frames::Frames;
use mu_model::SharedValues;
use mu_values::Passed;
use std::alloc::{AllocError, Global};
use std::collections::BTreeMap;
use std::marker::Model;

/// Frames, with one copy of what each of those keeps that was asked for. Contracts see the frames, from the top down.
#[derive(Drop)]
pub(crate) struct Copies<'a> {
    frames: &'a Frames,
    copies: BTreeMap<u32, SharedValues>,
}

impl<'a> Model for Copies<'a> {
    ghost use Rattle.std.specs.Prelude.{◌≡◌, ℕ, List, Some, slice_get, option_map, IfSome};
    ghost use Rattle.std.specs.Ordering.{nat_cmp};
    ghost use Rattle.std.specs.BTreeMap.{get};
    ghost use Rattle.frames.specs.Activations.{Activation};
    ghost use Rattle.frames.specs.Chains.{frames_in};

    ghost Value = { List Activation };

    ghost view = { λ c. frames_in c.frames.now };

    ghost invariant = { λ c. (n : ℕ) → IfSome (get nat_cmp c.copies n) (λ values. option_map (λ (f : Activation). f.kept) (slice_get (frames_in c.frames.now) n) ≡ Some values) };
}

impl<'a> Copies<'a> {
    /// Nothing is copied yet. It takes no memory.
    pub(crate) fn new(alloc: Global, frames: &'a Frames) -> Copies<'a>
        ensures { result ≡ frames_in frames.now }
    {
        Copies {
            frames,
            copies: BTreeMap::new(alloc),
        }
    }

    /// The frames.
    pub(crate) fn frames(&self) -> &Frames
        ensures { frames_in result.now ≡ self.now }
    {
        self.frames
    }

    /// Copies what a frame keeps, for all that ask for it from now on.
    fn copy(&mut self, alloc: Global, n: u32, kept: &Passed) -> Result<SharedValues, AllocError>
        requires { option_map (λ (f : Activation). f.kept) (slice_get self.now n) ≡ Some kept.now }
        ensures same { self.new ≡ self.old }
        ensures is { IfOk result (λ values. values ≡ kept.now) }
    {
        let values = SharedValues::new(alloc, copy_values(alloc, kept)?)?;
        let shared = values.share()?;
        match self.copies.insert(n, values) {
            Ok(_) => Ok(shared),
            Err(_) => Err(AllocError),
        }
    }

    /// What a frame keeps, by its number from the top; none where there is no such frame. The first time it takes memory for the
    /// values, and later a logarithm of time and no memory.
    pub(crate) fn kept(&mut self, alloc: Global, n: u32) -> Result<Option<SharedValues>, AllocError>
        ensures same { self.new ≡ self.old }
        ensures is { IfOk result (λ kept. kept ≡ option_map (λ (f : Activation). f.kept) (slice_get self.old n)) }
    {
        if let Some(values) = self.copies.get(&n) {
            return Ok(Some(values.share()?));
        }
        let frames = self.frames;
        match frames.kept(n) {
            Some(kept) => Ok(Some(self.copy(alloc, n, kept)?)),
            None => Ok(None),
        }
    }
}
