// Scalars that are gathered for the cells of a part.
ghost use Rattle.std.specs.Prelude.{◌≡◌, ◌<◌, [], ◌∷◌, ◌++◌, Some, length, slice_get, OnOk, OnErr};
ghost use Rattle.hail_load.specs.Gathered.{scalars_in, gathered};

use mu_values::Scalar;
use std::alloc::{AllocError, Global};
use std::marker::Model;

/// Scalars that stand one behind the other: one alone, or those of a constant where they stand, which are not copied.
#[derive(Clone, Copy)]
pub(crate) enum Run<'a> {
    One(Scalar),
    Constant(&'a [Scalar]),
}

impl<'a> Run<'a> {
    /// The scalars, in order.
    pub(crate) fn as_slice(&self) -> &[Scalar]
        ensures { result.now ≡ scalars_in self.now }
    {
        match self {
            Run::One(scalar) => std::slice::from_ref(scalar),
            Run::Constant(scalars) => scalars,
        }
    }

    /// How many scalars there are.
    pub(crate) fn len(&self) -> usize
        ensures { result ≡ length (scalars_in self.now) }
    {
        self.as_slice().len()
    }

    /// One of the scalars.
    pub(crate) fn at(&self, n: usize) -> Scalar
        requires { n < length (scalars_in self.now) }
        ensures { slice_get (scalars_in self.now) n ≡ Some result }
    {
        self.as_slice()[n]
    }
}

/// Scalars in order. Contracts see the list of them; it takes memory for each run, so a constant takes no more than one scalar.
#[derive(Drop)]
pub(crate) struct Gathered<'a> {
    runs: Vec<Run<'a>>,
}

impl<'a> Model for Gathered<'a> {
    ghost use Rattle.std.specs.Prelude.{List};
    ghost use Rattle.mu_values.specs.declared.scalars.Scalar.{Scalar};
    ghost use Rattle.hail_load.specs.Gathered.{gathered};

    ghost Value = { List Scalar };

    ghost view = { λ g. gathered g.runs.items };
}

impl<'a> Gathered<'a> {
    /// No scalars. It takes no memory yet.
    pub(crate) fn new(alloc: Global) -> Gathered<'a>
        ensures { result ≡ [] }
    {
        Gathered {
            runs: Vec::new(alloc),
        }
    }

    /// Takes all scalars away, and keeps the memory.
    pub(crate) fn clear(&mut self)
        ensures { self.new ≡ [] }
    {
        self.runs.clear();
    }

    /// Adds a scalar at the end. When out of memory, they are as before.
    #[tactic(auto, using(std::proofs::lemmas::Grind::common_steps))]
    pub(crate) fn push(&mut self, scalar: Scalar) -> Result<(), AllocError>
        ensures ok { OnOk result (self.new ≡ self.old ++ scalar ∷ []) }
        ensures err { OnErr result (self.new ≡ self.old) }
    {
        self.runs.push(Run::One(scalar))?;
        Ok(())
    }

    /// Adds the scalars of a constant at the end, in constant time. When out of memory, they are as before.
    #[tactic(auto, using(std::proofs::lemmas::Grind::common_steps))]
    pub(crate) fn push_constant(&mut self, scalars: &'a [Scalar]) -> Result<(), AllocError>
        ensures ok { OnOk result (self.new ≡ self.old ++ scalars.now) }
        ensures err { OnErr result (self.new ≡ self.old) }
    {
        self.runs.push(Run::Constant(scalars))?;
        Ok(())
    }

    /// Adds scalars at the end one by one. When out of memory, some of them may be there.
    pub(crate) fn push_each(&mut self, scalars: &[Scalar]) -> Result<(), AllocError>
        ensures { OnOk result (self.new ≡ self.old ++ scalars.now) }
    {
        for scalar in scalars {
            self.push(*scalar)?;
        }
        Ok(())
    }

    /// The runs, in order.
    pub(crate) fn as_slice(&self) -> &[Run<'a>]
        ensures { gathered result.now ≡ self.now }
    {
        self.runs.as_slice()
    }
}
