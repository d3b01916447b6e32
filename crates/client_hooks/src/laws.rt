//! Laws of hooks: each function is proved, and does nothing.
ghost use Rattle.std.specs.Prelude.{◌≡◌, [], true, Option, IsSomeAnd};
ghost use Rattle.check_tables.specs.declared.tables.Tables.{Tables};
ghost use Rattle.mu_model.specs.Clients.{Answer};
ghost use Rattle.mu_model.specs.Outcomes.{View};
ghost use Rattle.mu_model.specs.Answers.{answer_of};
ghost use Rattle.client_hooks.specs.Handlers.{OnlyResumes};
ghost use Rattle.client_hooks.specs.AutoAnswers.{AnswersGoOn};

use crate::blank::PassBlank;
use crate::client::Client;
use crate::hook::{Handler, Hook};

/// A hook never answers misuse, and each of its answers only resumes the trapped stack with values that are asked.
pub fn hooks_resume<H: Handler>()
    ensures { (h : _) (p : Tables) (view : View) (o : Option Answer) → ⟦<Hook<H> as Client>⟧.may h p view o → IsSomeAnd o (OnlyResumes p view) }
{}

/// A hook that passes zero and NULL answers as the machine's client does that has no entry left and passes them: by a function of the
/// view.
pub fn blank_hooks_are_auto()
    ensures { (h : _) (p : Tables) (view : View) (o : Option Answer) → ⟦<Hook<PassBlank> as Client>⟧.may h p view o → o ≡ answer_of p view (record { entries = []; auto = true }) }
{}

/// An answer of a hook never ends a run: where a trap asks it, the step goes on with what comes of its answer.
pub fn hooks_go_on<H: Handler>()
    ensures { (h : _) → AnswersGoOn (⟦<Hook<H> as Client>⟧.may h) }
{}
