//! The script of a client: what answers the traps of a run.
#![tactic(auto)]

mod actions;
mod client;
mod copies;
mod entries;
mod fault;
mod judging;
mod laws;
mod mentions;
mod parts;
mod reading;
mod refusal;
mod run_client;
mod script;
mod told;
mod tree;
mod values;

pub use fault::{ScriptFault, ScriptKind};
pub use laws::{answer_is_one, script_is_grammar, texts_are_answered, values_are_told};
pub use mentions::Mention;
pub use reading::read_script;
pub use run_client::RunClient;
pub use script::Script;
pub use tree::{Action, Argument, Edit, Entry, Pushed, Reply, With};
