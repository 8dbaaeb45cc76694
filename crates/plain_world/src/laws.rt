//! Laws of the definitions, as contracts of functions that do nothing.

ghost use Rattle.plain_world.specs.Laws.{SpellingsAreApart};

/// No reply's spelling is a prefix of another reply's, so that bytes spell at most one list of replies.
pub fn spellings_are_apart()
    ensures { SpellingsAreApart }
{}
