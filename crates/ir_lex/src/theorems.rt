// Laws of the tokens of a text. The functions do nothing; their contracts are what they are for.
ghost use Rattle.ir_lex.specs.Examples.{Kinds, Gaps, Refused, Numbers};
ghost use Rattle.ir_lex.specs.SeenLaws.{TokensAreSeen, TextsEnd, NumbersAreMeant, EachWordIsFound};
ghost use Rattle.ir_lex.specs.SeenExamples.{Seen};
ghost use Rattle.ir_lex.specs.Laws.{TokensAreOneList, SpellingsReadBack, PiecesReadBack, SpacedStandApart};

/// Each text has one list of tokens, which goes to the end of the text or to one lexical fault.
pub fn tokens_are_one_list()
    ensures { TokensAreOneList }
{}

/// A spelling that what stands behind it does not go on with is one token.
pub fn spellings_read_back()
    ensures { SpellingsReadBack }
{}

/// Tokens that are printed one after the other, so that none goes on with the one before, read back as the same tokens.
pub fn pieces_read_back()
    ensures { PiecesReadBack }
{}

/// A blank between tokens keeps them apart.
pub fn spaced_stand_apart()
    ensures { SpacedStandApart }
{}

/// Texts with their tokens, and spellings with their numbers, worked out by hand.
pub fn worked_examples()
    ensures kinds { Kinds }
    ensures gaps { Gaps }
    ensures refused { Refused }
    ensures numbers { Numbers }
{}

/// The tokens that a cursor goes through are the tokens of its text, each with what it is to the grammars.
pub fn tokens_are_seen()
    ensures { TokensAreSeen }
{}

/// The tokens of a text as the grammars see them end with one last token, and their places rise.
pub fn texts_end()
    ensures { TextsEnd }
{}

/// The number of a cursor is what its spelling stands for.
pub fn numbers_are_meant()
    ensures { NumbersAreMeant }
{}

/// Each word of the tables is found.
pub fn each_word_is_found()
    ensures { EachWordIsFound }
{}

/// Texts with their tokens as the grammars see them, worked out by hand.
pub fn seen_examples()
    ensures { Seen }
{}
