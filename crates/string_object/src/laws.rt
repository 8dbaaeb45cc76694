ghost use Rattle.string_object.specs.Laws.{TextLaws};

/// Law: a string depends on the blocks that it owns, so that changes elsewhere in the store leave it.
pub fn text_laws()
    ensures { TextLaws }
{}
