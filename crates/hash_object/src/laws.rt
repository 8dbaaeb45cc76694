ghost use Rattle.hash_object.specs.Laws.{FieldsLaws};

/// Law: a hash depends on the blocks that it owns and on no other, each of these has a mark, and each field has one place in the
/// hash's own order and one item number.
pub fn fields_laws()
    ensures { FieldsLaws }
{}
