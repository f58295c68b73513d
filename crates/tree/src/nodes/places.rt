ghost use Rattle.std.specs.Prelude.{◌≡◌};
ghost use Rattle.tree.specs.Tree.{lies_in, is_named};
ghost use Rattle.tree.specs.Contents.{place_model};

use crate::nodes::{Kind, Name, NodeId};

/// A node that is there: the folder that it lies in, none for the root, its kind and its name in that folder.
#[derive(Clone, Copy)]
pub struct Node {
    pub(super) parent: Option<NodeId>,
    pub(super) kind: Kind,
    pub(super) name: Name,
}

// There is a node, and it lies in that folder.
pub(super) fn lies_in(place: &Option<Node>, folder: NodeId) -> bool
    ensures { result ≡ lies_in folder (place_model place.now) }
{
    place
        .as_ref()
        .is_some_and(|node| node.parent == Some(folder))
}

// There is a node, and it lies in that folder and has that name.
#[tactic(auto, using(crate::proofs::Names::same_name))]
pub(super) fn is_named(place: &Option<Node>, folder: NodeId, name: Name) -> bool
    ensures { result ≡ is_named folder name (place_model place.now) }
{
    let Some(node) = place else {
        return false;
    };
    lies_in(place, folder) && node.name == name
}
