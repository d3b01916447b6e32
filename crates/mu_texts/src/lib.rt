//! What the texts of a job's files come to: they are read and judged, and then there is something to be written, or a line that names
//! the first fault. Also the words of those lines.
#![tactic(auto)]

mod filling;
mod joining;
mod judging;
mod ready;
mod refusals;
mod start;
mod stop;
mod verdict;
mod what;

pub use filling::judge_heap_script;
pub use joining::judge_for_join;
pub use judging::{
    enter, judge_client, judge_for_check, judge_for_print, judge_for_run, judge_schedule,
    read_written,
};
pub use ready::{Ready, Telling};
pub use start::Start;
pub use stop::Stop;
pub use verdict::{judge_log, verdict_status, verdict_text};
pub use what::What;
