ghost use Rattle.stream_object.specs.Laws.{StreamLaws};

/// Law: a stream depends on the blocks that it owns and on no other, and what others change among their blocks leaves it. Each of
/// its blocks has a mark. Groups and marks that are set leave it sound.
pub fn stream_laws()
    ensures { StreamLaws }
{}
