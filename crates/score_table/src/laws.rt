ghost use Rattle.score_table.specs.Laws.{ScoreTableLaws};

/// Law: a table of scores depends on the blocks that it owns and on no other, and the list of its pairs is the one list of its members
/// and scores in their order.
pub fn score_table_laws()
    ensures { ScoreTableLaws }
{}
