//! What a bundle must meet, and what it is when it meets it: the validation rules and the tables of checked code as definitions, and
//! `Checked`, a bundle that meets all rules, by numbers. The machine stands on this, and not on the code that checks.
#![tactic(auto)]

mod blocks;
mod checked;
mod code;
mod constants;
mod fault;
mod laws;
mod scopes;

pub use blocks::{BlockCode, Function};
pub use checked::Checked;
pub use code::{
    AccessForm, AddressingForm, AllocationForm, CaseForm, Code, CommonForm, ComputationForm,
    ControlForm, Entered, Form, Source, SwitchForm, Target, TrappingForm,
};
pub use constants::Constant;
pub use fault::EntryFault;
pub use laws::{values_are_those_of_their_literals, values_fit_their_types};
pub use scopes::{BlockEntry, Body, Locals, Variable};
