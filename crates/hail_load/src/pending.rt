// Parts that are to be filled.
ghost use Rattle.std.specs.Prelude.{◌≡◌, [], ◌∷◌, ◌++◌, map, OnOk, IfOk, IfSome, IfNone, IfOk};
ghost use Rattle.type_definitions.specs.Leaves.{times};
ghost use Rattle.hail_load.specs.declared.parts.Part.TheVariants.{Value};

use crate::parts::Part;
use std::alloc::{AllocError, Global};
use std::marker::Model;

/// The same part so many times over.
#[derive(Clone, Copy, Debug, PartialEq, Eq)]
pub(crate) struct Run {
    pub(crate) part: Part,
    pub(crate) many: u128,
}

/// Parts in order, of which the first is filled next. Contracts see the list of them; it takes memory for each run of the same part.
#[derive(Drop)]
pub(crate) struct Pending {
    runs: Vec<Run>,
}

impl Model for Pending {
    ghost use Rattle.std.specs.Prelude.{List, ◌<◌};
    ghost use Rattle.std.specs.List.{All};
    ghost use Rattle.hail_load.specs.declared.parts.Part.{Part};
    ghost use Rattle.hail_load.specs.declared.pending.Run.{Run};
    ghost use Rattle.hail_load.specs.PartsSoFar.{parts_left};

    ghost Value = { List Part };

    ghost view = { λ p. parts_left p.runs.items };

    ghost invariant = { λ p. All (λ (r : Run). 0 < r.many) p.runs.items };
}

impl Pending {
    /// No parts. It takes no memory yet.
    pub(crate) fn new(alloc: Global) -> Pending
        ensures { result ≡ [] }
    {
        Pending {
            runs: Vec::new(alloc),
        }
    }

    /// Puts a part before the others, so many times over. When out of memory, they are as before.
    #[tactic(auto, using(crate::proofs::Runs::pushed, crate::proofs::Runs::none_pushed))]
    pub(crate) fn push(&mut self, part: Part, many: u128) -> Result<(), AllocError>
        ensures { OnOk result (self.new ≡ times many (part ∷ []) ++ self.old) }
    {
        if many > 0 {
            self.runs.push(Run { part, many })?;
        }
        Ok(())
    }

    /// Takes the first part. When out of memory, parts are lost.
    #[tactic(auto, using(crate::proofs::Runs::popped, crate::proofs::Runs::last_popped))]
    pub(crate) fn next(&mut self) -> Result<Option<Part>, AllocError>
        ensures some { IfOk result (λ next. IfSome next (λ part. self.old ≡ part ∷ self.new)) }
        ensures none { IfOk result (λ next. IfNone next (self.old ≡ [])) }
    {
        match self.runs.pop() {
            None => Ok(None),
            Some(run) => {
                if run.many > 1 {
                    self.runs.push(Run {
                        part: run.part,
                        many: run.many - 1,
                    })?;
                }
                Ok(Some(run.part))
            }
        }
    }

    /// Puts the fields of a struct, or the fixed ones of a hybrid, before the other parts.
    pub(crate) fn push_fields(&mut self, fields: &[u32]) -> Result<(), AllocError>
        ensures { OnOk result (self.new ≡ map Value fields.now ++ self.old) }
    {
        let mut left = fields;
        'each: while let [more @ .., last] = left {
            self.push(Part::Value(*last), 1)?;
            left = more;
        }
        Ok(())
    }
}
