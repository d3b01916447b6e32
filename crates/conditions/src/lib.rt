//! Conditions on the outcomes of a search: their text, what they say of an outcome, and the answer over all outcomes that were found.
#![tactic(auto)]

mod answering;
mod before;
mod fault;
mod holding;
mod judging;
mod laws;
mod parts;
mod printing;
mod reading;
mod tree;
mod words;

pub use answering::{Answer, answer_of, status};
pub use fault::{ConditionFault, ConditionKind};
pub use holding::{Outcome, Returned, satisfies};
pub use laws::{
    Search, answer_is_one, answers_are_true, complete_is_answered, conditions_are_grammar,
    deciding_outcomes_are_first, texts_are_answered, threads_are_named,
};
pub use printing::append_answer;
pub use reading::read_conditions;
pub use tree::{Atom, Claim, Condition, Ending, Value};
pub use words::{ending_of, thread_of};
