//! Laws of the definitions: what holds of every grammar. The functions do nothing; what they ensure is proved.

ghost use Rattle.text_forms.specs.Forms.{Form};
ghost use Rattle.text_forms.specs.Laws.{ReadIsDerived, FaultIsFirst, IsUnambiguous, HasOneFault, IsJudged, IsNotBoth, UntilIsEach, UpToIsShort, UpToUnlimited, IsDerivedAgain};

/// A grammar, for the laws that hold of every one.
pub trait Grammar {
    ghost form: { Form Self };
}

/// What reading a whole text gives is what the grammar derives, in both directions.
pub fn what_is_read_is_derived<G: Grammar>()
    ensures { ReadIsDerived G.form }
{}

/// Where reading a whole text gives a fault, that is the first one, in both directions.
pub fn what_is_refused_is_the_first_fault<G: Grammar>()
    ensures { FaultIsFirst G.form }
{}

/// A text has at most one meaning.
pub fn grammar_is_unambiguous<G: Grammar>()
    ensures { IsUnambiguous G.form }
{}

/// A text has at most one first fault.
pub fn first_fault_is_one<G: Grammar>()
    ensures { HasOneFault G.form }
{}

/// A text has a meaning or a first fault, and not both.
pub fn each_text_is_judged<G: Grammar>()
    ensures one { IsJudged G.form }
    ensures not_both { IsNotBoth G.form }
{}

/// A list up to a closing token is any number of elements and that token.
pub fn until_is_each<G: Grammar>()
    ensures { UntilIsEach G.form }
{}

/// A list with a limit is a list of at most so many elements; limits aside it is any list.
pub fn up_to_is_at_most<G: Grammar>()
    ensures short { UpToIsShort G.form }
    ensures unlimited { UpToUnlimited G.form }
{}

/// Tokens that are the same save places have a meaning too.
pub fn derived_again<G: Grammar>()
    ensures { IsDerivedAgain G.form }
{}
