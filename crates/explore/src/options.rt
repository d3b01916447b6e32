// The options of a search.
ghost use Rattle.std.specs.Prelude.{◌≡◌};

use mu_command::Options;

/// What the options of a search say, as far as they are given: those of its runs, how many runs are made at most, and the word that names a
/// file of conditions.
#[derive(Clone, Copy, Debug, PartialEq, Eq)]
pub struct SearchOptions {
    pub run: Options,
    pub runs: Option<u32>,
    pub condition: Option<usize>,
}

impl SearchOptions {
    ghost use Rattle.explore.specs.Asked.{none_given, with_runs, with_condition, with_run};

    /// None of them is given.
    pub fn none() -> SearchOptions
        ensures { result ≡ none_given }
    {
        SearchOptions {
            run: Options::none(),
            runs: None,
            condition: None,
        }
    }

    /// These, with a number of runs; None where there is one already.
    pub fn with_runs(self, value: Option<u32>) -> Option<SearchOptions>
        ensures { result ≡ with_runs self value }
    {
        match (self.runs, value) {
            (None, Some(value)) => Some(SearchOptions {
                runs: Some(value),
                ..self
            }),
            _ => None,
        }
    }

    /// These, with a file of conditions; None where there is one already.
    pub fn with_condition(self, value: Option<usize>) -> Option<SearchOptions>
        ensures { result ≡ with_condition self value }
    {
        match (self.condition, value) {
            (None, Some(value)) => Some(SearchOptions {
                condition: Some(value),
                ..self
            }),
            _ => None,
        }
    }

    /// These, with other options of the runs, where there are some.
    pub fn with_run(self, more: Option<Options>) -> Option<SearchOptions>
        ensures { result ≡ with_run self more }
    {
        let run = more?;
        Some(SearchOptions { run, ..self })
    }
}
