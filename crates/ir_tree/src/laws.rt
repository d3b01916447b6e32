//! Laws of the grammar: each function is proved, and does nothing.
ghost use Rattle.ir_tree.specs.Laws.{BundleIsGrammar};

/// A bundle is read with one token of look-ahead: the next token always decides how it goes on, limits and words that the
/// profile leaves out included. So a text has one bundle, or one first fault.
pub fn bundle_is_grammar()
    ensures { BundleIsGrammar }
{}
