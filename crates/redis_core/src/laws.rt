//! Laws of the definitions, as contracts of functions that do nothing.

ghost use Rattle.redis_core.specs.Laws.{RefusalsChangeNothing};

/// A request that may be answered by an error changes nothing: it leaves the world as it was, without the keys that are
/// gone at its moment.
pub fn refusals_change_nothing()
    ensures { RefusalsChangeNothing }
{}
