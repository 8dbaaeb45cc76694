ghost use Rattle.quicklist.specs.Laws.{QuickLaws};

/// Law: a list depends on the blocks that it owns and on no other. What others change among their blocks leaves its elements, and
/// the list sound.
pub fn quick_laws()
    ensures { QuickLaws }
{}
