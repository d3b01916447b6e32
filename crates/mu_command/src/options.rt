// The options of a run.
ghost use Rattle.std.specs.Prelude.{◌≡◌};

use mem_axioms::Rule;

/// What the options of a run say, as far as they are given. A name or a file stands as the number of its word.
#[derive(Clone, Copy, Debug, PartialEq, Eq)]
pub struct Options {
    pub entry: Option<usize>,
    pub hail: Option<usize>,
    pub client: Option<usize>,
    pub auto: bool,
    pub schedule: Option<usize>,
    pub rule: Option<Rule>,
    pub steps: Option<u32>,
    pub cells: Option<u32>,
}

impl Options {
    ghost use Rattle.mu_command.specs.Job.{no_options, with_entry, with_hail, with_client, with_auto, with_schedule, with_rule, with_steps, with_cells};

    /// None of them is given.
    pub fn none() -> Options
        ensures { result ≡ no_options }
    {
        Options {
            entry: None,
            hail: None,
            client: None,
            auto: false,
            schedule: None,
            rule: None,
            steps: None,
            cells: None,
        }
    }

    /// These, with an entry; None where there is one already.
    pub fn with_entry(self, value: Option<usize>) -> Option<Options>
        ensures { result ≡ with_entry self value }
    {
        match (self.entry, value) {
            (None, Some(value)) => Some(Options {
                entry: Some(value),
                ..self
            }),
            _ => None,
        }
    }

    /// These, with a script for the heap; None where there is one already.
    pub fn with_hail(self, value: Option<usize>) -> Option<Options>
        ensures { result ≡ with_hail self value }
    {
        match (self.hail, value) {
            (None, Some(value)) => Some(Options {
                hail: Some(value),
                ..self
            }),
            _ => None,
        }
    }

    /// These, with a script of the client; None where there is one already.
    pub fn with_client(self, value: Option<usize>) -> Option<Options>
        ensures { result ≡ with_client self value }
    {
        match (self.client, value) {
            (None, Some(value)) => Some(Options {
                client: Some(value),
                ..self
            }),
            _ => None,
        }
    }

    /// These, with `--auto`; None where it is there already.
    pub fn with_auto(self) -> Option<Options>
        ensures { result ≡ with_auto self }
    {
        if self.auto {
            None
        } else {
            Some(Options { auto: true, ..self })
        }
    }

    /// These, with a schedule; None where there is one already.
    pub fn with_schedule(self, value: Option<usize>) -> Option<Options>
        ensures { result ≡ with_schedule self value }
    {
        match (self.schedule, value) {
            (None, Some(value)) => Some(Options {
                schedule: Some(value),
                ..self
            }),
            _ => None,
        }
    }

    /// These, with a rule of release sequences; None where there is one already.
    pub fn with_rule(self, value: Option<Rule>) -> Option<Options>
        ensures { result ≡ with_rule self value }
    {
        match (self.rule, value) {
            (None, Some(value)) => Some(Options {
                rule: Some(value),
                ..self
            }),
            _ => None,
        }
    }

    /// These, with a number of steps; None where there is one already.
    pub fn with_steps(self, value: Option<u32>) -> Option<Options>
        ensures { result ≡ with_steps self value }
    {
        match (self.steps, value) {
            (None, Some(value)) => Some(Options {
                steps: Some(value),
                ..self
            }),
            _ => None,
        }
    }

    /// These, with a number of cells; None where there is one already.
    pub fn with_cells(self, value: Option<u32>) -> Option<Options>
        ensures { result ≡ with_cells self value }
    {
        match (self.cells, value) {
            (None, Some(value)) => Some(Options {
                cells: Some(value),
                ..self
            }),
            _ => None,
        }
    }
}
