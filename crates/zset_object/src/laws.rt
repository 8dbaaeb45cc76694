ghost use Rattle.zset_object.specs.Laws.{ScoredLaws};

/// Law: a sorted set depends on the blocks that it owns and on no other, each of these has a mark, the list of its members is the one list
/// of them in order, and each has one item number.
pub fn scored_laws()
    ensures { ScoredLaws }
{}
