// Laws of the texts of logs.
ghost use Rattle.log_lines.specs.Laws.{EventLinesAreRead, TextsAreRead, ValuesAreReplaced};

/// The line of an event that can be read back is read as that event, with its value replaced.
pub fn event_lines_are_read()
    ensures { EventLinesAreRead }
{}

/// A text of such lines, and of others that do not begin with a digit, is read as the log of those events, with their values replaced.
pub fn texts_are_read()
    ensures { TextsAreRead }
{}

/// The values of such a text are replaced by one replacement for all, so equal values stay equal.
pub fn values_are_replaced()
    ensures { ValuesAreReplaced }
{}
