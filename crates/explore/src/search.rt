// What the words of the command line ask for.
use mu_command::RunJob;

/// A search through the runs of the bundle in a file: what each run is given, how many are made at most, and the word that names a file of
/// conditions. A run is given no schedule: the search makes its picks.
#[derive(Clone, Copy, Debug, PartialEq, Eq)]
pub struct Search {
    pub run: RunJob,
    pub runs: u32,
    pub condition: Option<usize>,
}
