//! Laws of the texts of bundles: each function is proved, and does nothing.
ghost use Rattle.ir_text.specs.TextAnswers.{AnswerIsOne};
ghost use Rattle.ir_text.specs.WrittenBodies.{BodyIsWritten};
ghost use Rattle.ir_text.specs.WrittenBundles.{BundleIsWritten};

/// A text has one answer: one bundle, or one first fault.
pub fn answer_is_one()
    ensures { AnswerIsOne }
{}

/// The body of a function is read line by line, since a name or a bracket alone does not tell what begins there. It has the texts
/// and the meanings that the rules as they are written give it, within the limits on blocks, instructions and results.
pub fn body_is_as_written()
    ensures { BodyIsWritten }
{}

/// So has the bundle, within the limit on items besides.
pub fn bundle_is_as_written()
    ensures { BundleIsWritten }
{}
