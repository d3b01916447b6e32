//! The program as one call: reads its words, fetches its files, and writes what they come to.
#![tactic(auto)]

mod counting;
mod finding;
mod job;
mod joining;
mod loading;
mod made;
mod options;
mod program;
mod running;
mod sound;
mod words;
mod writing;

pub use finding::find_code;
pub use job::{Job, RunJob};
pub use loading::load;
pub use options::Options;
pub use program::{answer_is_one, mu};
pub use sound::{
    printed_runs_are_answered_yes, printed_runs_are_judged, runs_are_sound, runs_have_their_endings,
};
pub use words::{USUAL_CELLS, number_up_to, read_words, with_option};
pub use writing::{put_line, put_text};
