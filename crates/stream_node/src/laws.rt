// Laws of nodes.

ghost use Rattle.std.specs.Prelude.{◌≡◌, ℕ, List};
ghost use Rattle.stream_node.specs.declared.id.Id.{Id};
ghost use Rattle.stream_node.specs.Entry.{Stored};
ghost use Rattle.stream_node.specs.Node.{AtMostOne, Node};
ghost use Rattle.stream_node.specs.Entries.{IsNode, entries_of};
ghost use Rattle.stream_node.specs.Ids.{IdLaws};
ghost use Rattle.stream_node.specs.Rows.{Rows};

/// Each list of elements is, for each key, a node of one list of entries at most, or has one first fault at most, and never
/// both.
pub fn at_most_one()
    ensures { (key : Id) (list : List (List ℕ)) → AtMostOne key list }
{}

/// Small lists, and what each is: a node of one entry, a deleted count without its mark, nothing, and an entry missing.
pub fn rows()
    ensures { Rows }
{}

/// The entries of a node are those that reading it from left to right gives.
pub fn entries_are_read()
    ensures { (key : Id) (list : List (List ℕ)) (es : List Stored) → Node key list es → IsNode key list × (entries_of key list ≡ es) }
{}

/// The order of ids is that of their numbers and of their bytes, and each number and sixteen bytes are of one id at most.
pub fn ids_are_ordered()
    ensures { IdLaws }
{}
