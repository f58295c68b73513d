mod kinds;
mod names;
mod places;
mod reads;
mod steps;

use common::Index;
pub use kinds::{Kind, NoKind};
pub use names::Name;
use places::Node;
use std::marker::Model;

/// The number of a node, 0 to 63.
pub type NodeId = Index<64>;

// The number of the root folder.
const ROOT: usize = 0;

/// Each node, absent or there: bodies name nodes by these numbers, and no service has memory of its own.
#[derive(Drop)]
pub struct Tree {
    nodes: [Option<Node>; 64],
}

impl Model for Tree {
    ghost use Rattle.std.specs.Prelude.{◌≡◌, length};
    ghost use Rattle.tree.specs.Tree.{Nodes};

    ghost Value = { Nodes };

    ghost use Rattle.tree.specs.Contents.{places_model};

    ghost view = { λ tree. places_model tree.nodes };

    ghost invariant = { λ tree. length tree.nodes ≡ 64 };
}
