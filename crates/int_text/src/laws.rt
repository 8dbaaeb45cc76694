// Laws of texts.

ghost use Rattle.int_text.specs.Decimal.{PrintedIsReadBack};
ghost use Rattle.int_text.specs.Score.{ScoresAreOne};

/// Reading what was printed gives the number, and only canonical text is read. So two numbers never share a text, and two
/// texts never mean one number.
pub fn printed_text_is_read_back()
    ensures { PrintedIsReadBack }
{}

/// A text has one score, or one fault: the definition leaves no choice to the code.
pub fn scores_are_one()
    ensures { ScoresAreOne }
{}
