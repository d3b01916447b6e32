// Values that several records share.
ghost use Rattle.std.specs.Prelude.{◌≡◌, IfOk};

use mu_values::Passed;
use std::alloc::{AllocError, Global};
use std::marker::Model;
use std::rc::Rc;

/// Values with their types, of which there is one copy however many records have them. Contracts see the values.
#[derive(Drop)]
pub struct SharedValues {
    values: Rc<Passed>,
}

impl Model for SharedValues {
    ghost use Rattle.mu_values.specs.Slots.{TypedValues};

    ghost Value = { TypedValues };

    ghost view = { λ s. s.values.value };
}

impl SharedValues {
    /// Shares values from now on. It takes memory for a count and the lists' places, not for the values. When out of memory, the
    /// values are gone.
    pub fn new(alloc: Global, values: Passed) -> Result<SharedValues, AllocError>
        ensures { IfOk result (λ shared. shared ≡ values) }
    {
        match Rc::new(alloc, values) {
            Ok(values) => Ok(SharedValues { values }),
            Err(_) => Err(AllocError),
        }
    }

    /// The same values once more. It takes constant time and no memory: an error comes only where no more can be counted.
    pub fn share(&self) -> Result<SharedValues, AllocError>
        ensures { IfOk result (λ shared. shared ≡ self.now) }
    {
        Ok(SharedValues {
            values: self.values.clone()?,
        })
    }

    /// The values.
    pub fn get(&self) -> &Passed
        ensures { result.now ≡ self.now }
    {
        &self.values
    }
}
