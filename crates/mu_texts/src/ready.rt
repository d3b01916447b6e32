// What is to be written.
use crate::start::Start;
use checked_code::Checked;
use ir_tree::Bundle;
use verdicts::Verdict;

/// What is told of a run.
#[derive(Clone, Copy, Debug, PartialEq, Eq)]
pub enum Telling {
    /// The lines of its steps, and its ending.
    Lines,
    /// One line, which tells of the run of the made bundle with `n` pairs: how many steps and events there were, and the ending.
    Counts { n: u32 },
}

/// What the judging of a job's files leaves to be written.
#[derive(Drop)]
pub enum Ready {
    /// `ok`
    Accepted,
    /// The bundle in canonical text.
    Canonical(Bundle),
    /// The verdict on a log.
    Judged(Verdict),
    /// What is told of a run of a checked bundle. One variant serves every telling, since each place that drops what is ready is proved
    /// part by part.
    Entered {
        code: Checked,
        start: Start,
        telling: Telling,
    },
}
