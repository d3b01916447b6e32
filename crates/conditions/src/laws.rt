//! Laws: each function is proved, and does nothing.
ghost use Rattle.conditions.specs.TextAnswers.{ConditionsAreGrammar, TextsAreAnswered, AnswerIsOne};
ghost use Rattle.conditions.specs.Laws.{AnswersAreTrue, CompleteIsAnswered, DecidingOutcomesAreFirst, ThreadsAreNamed};

/// A search, for the law that holds of every one: which outcomes its runs show.
pub trait Search {
    ghost use Rattle.conditions.specs.declared.holding.Outcome.{Outcome};

    ghost shows: { Outcome → Type 0 };
}

/// Conditions are read with one token of look-ahead: the next token always decides how the text goes on.
pub fn conditions_are_grammar()
    ensures { ConditionsAreGrammar }
{}

/// In the words of the grammar: a text whose demands are all met has the conditions that its tokens stand for; else its first fault is that
/// of the grammar, or that of a word, a name or a number with which some text of conditions goes on, and all before it are good.
pub fn texts_are_answered()
    ensures { TextsAreAnswered }
{}

/// The two say the same, so a text has one answer.
pub fn answer_is_one()
    ensures { AnswerIsOne }
{}

/// Where a search found these outcomes, the answer is yes only for a true condition, and no only for a false one.
pub fn answers_are_true<S: Search>()
    ensures { AnswersAreTrue S.shows }
{}

/// Where the search is complete there is an answer.
pub fn complete_is_answered()
    ensures { CompleteIsAnswered }
{}

/// The outcome that an answer names gives the answer, and none before it does.
pub fn deciding_outcomes_are_first()
    ensures { DecidingOutcomesAreFirst }
{}

/// Each of the 64 threads has the name that outcomes print, and no other word is the name of a thread.
pub fn threads_are_named()
    ensures { ThreadsAreNamed }
{}
