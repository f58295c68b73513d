ghost use Rattle.std.specs.Prelude.{List};
ghost use Rattle.common.specs.Bytes.{Bytes};
ghost use Rattle.tree.specs.Shape.{StaysATree, FindsOne, WalkDecides, RefusesIntoItself, reached};

/// States what any bodies lead to from the root alone: a tree, in which a look-up finds the only node of a name,
/// 64 steps up decide what lies beneath what, and no folder is moved into itself.
pub fn stays_a_tree()
    ensures tree { StaysATree }
    ensures finds { (bodies : List Bytes) → FindsOne (reached bodies) }
    ensures walk { (bodies : List Bytes) → WalkDecides (reached bodies) }
    ensures into_itself { (bodies : List Bytes) → RefusesIntoItself (reached bodies) }
{}
