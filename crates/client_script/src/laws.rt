//! Laws of the grammar: each function is proved, and does nothing.
ghost use Rattle.client_script.specs.Laws.{ScriptIsGrammar, ValuesAreTold};
ghost use Rattle.client_script.specs.ScriptAnswers.{TextsAreAnswered, AnswerIsOne};

/// A script is read with one token of look-ahead: the next token always decides how it goes on. So a text has one script, or one first
/// fault of its grammar.
pub fn script_is_grammar()
    ensures { ScriptIsGrammar }
{}

/// In the words of the grammar: a text whose demands are all met is a script, with the entries that its tokens stand for; else its first
/// fault is that of the grammar, or that of a name or number with which some script goes on, and all names and numbers before it are
/// good.
pub fn texts_are_answered()
    ensures { TextsAreAnswered }
{}

/// The two say the same, so a text has one answer.
pub fn answer_is_one()
    ensures { AnswerIsOne }
{}

/// In a bundle that is accepted each name that may stand in a script has a class and a value, and no other name has them.
pub fn values_are_told()
    ensures { ValuesAreTold }
{}
