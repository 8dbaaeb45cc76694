ghost use Rattle.rax_packed.specs.Laws.{PackedLaws};

/// Law: a map depends on the blocks that it owns and on no other, and what others change among their blocks leaves it. The
/// least key below each of its nodes is one of its keys, and its marks name its references. Its costs tell the blocks of each key.
pub fn packed_laws()
    ensures { PackedLaws }
{}
