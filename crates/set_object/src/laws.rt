ghost use Rattle.set_object.specs.Laws.{MembersLaws};

/// Law: a set depends on the blocks that it owns and on no other, each of these has a mark, and each member has one place in the
/// set's own order and one item number.
pub fn members_laws()
    ensures { MembersLaws }
{}
