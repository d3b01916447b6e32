// What the words of the command line ask for.
use mem_axioms::Rule;

/// What the words ask for. A file or a name stands as the number of its word, counted from 0.
#[derive(Clone, Copy, Debug, PartialEq, Eq)]
pub enum Job {
    /// Says whether the bundle in a file meets all demands.
    Check { file: usize },
    /// Writes the bundle in a file as its canonical text.
    Print { file: usize },
    /// Runs the bundle in a file.
    Run(RunJob),
    /// Runs the made bundle with `n` pairs, and tells of the run in one line. It has no file.
    Trial { n: u32 },
    /// Says whether the log in a file meets the axioms of memory without a race, by the rule of release sequences.
    Judge { file: usize, rule: Rule },
    /// Writes the bundles in so many files, from the word with number `first` on, joined to one.
    Join { first: usize, files: usize },
}

/// A run of the bundle in a file, from the function with that name, over the heap that the script in a file fills, with the client
/// whose script is in a file, by the schedule in a file and the rule of release sequences. A file that is not named is empty. After the
/// last entry of its script the client passes zero and NULL where `auto` is given, and else it stops the run. The run may make so many
/// steps, and so many cells beside those of the globals.
#[derive(Clone, Copy, Debug, PartialEq, Eq)]
pub struct RunJob {
    pub file: usize,
    pub entry: usize,
    pub hail: Option<usize>,
    pub client: Option<usize>,
    pub auto: bool,
    pub schedule: Option<usize>,
    pub rule: Rule,
    pub budget: u32,
    pub cells: u32,
}
