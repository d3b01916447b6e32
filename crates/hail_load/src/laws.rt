//! Laws of the grammar: each function is proved, and does nothing.
ghost use Rattle.hail_load.specs.FitLaws.{RefersWhereItFits};
ghost use Rattle.hail_load.specs.Laws.{HailIsGrammar, ScriptIsDerived, ScriptFaultIsFirst};

/// A script is read with one token of look-ahead: the next token always decides how it goes on. So a text has one script, or one first
/// fault of its grammar.
pub fn hail_is_grammar()
    ensures { HailIsGrammar }
{}

/// A text is read as the commands that the grammar derives from its tokens, and as no others.
pub fn script_is_derived()
    ensures { ScriptIsDerived }
{}

/// Where it is not read, the fault of the grammar is the first one: it stands at the first token, or at the end, with which no script
/// goes on.
pub fn script_fault_is_first()
    ensures { ScriptFaultIsFirst }
{}

/// An object, a place or a function fits a type, as a source is judged, exactly where it is a value of that type.
pub fn refers_where_it_fits()
    ensures { RefersWhereItFits }
{}
