ghost use Rattle.std.specs.Prelude.{◌≡◌, ℕ, true, List, IfSome, Some, Decides, length};
ghost use Rattle.common.specs.Bytes.{Bytes};
ghost use Rattle.tree.specs.Shape.{Beneath, reached};
ghost use Rattle.tree.specs.Tree.{first_nodes, node_at, is_there, is_named, named, other_named, is_empty, is_within};
ghost use Rattle.tree.specs.Contents.{place_model};

use crate::nodes::places::{is_named, lies_in};
use crate::nodes::{Kind, Name, Node, NodeId, ROOT, Tree};

impl Tree {
    /// The root alone.
    pub fn new() -> Tree
        ensures { result ≡ first_nodes }
    {
        let mut nodes = [None; 64];
        nodes[ROOT] = Some(Node {
            parent: None,
            kind: Kind::Folder,
            name: Name::empty(),
        });
        Tree { nodes }
    }

    pub(super) fn at(&self, node: NodeId) -> Option<Node>
        ensures { place_model result ≡ node_at self.now node }
    {
        self.nodes[node.get()]
    }

    // Another node has the name there.
    pub(super) fn other_named(&self, folder: NodeId, name: Name, node: NodeId) -> bool
        ensures { result ≡ other_named self.now folder name node }
    {
        let node = node.get();
        self.nodes
            .iter()
            .enumerate()
            .any(|(i, place)| i != node && is_named(place, folder, name))
    }

    // Nothing lies in the folder.
    pub(super) fn is_empty(&self, folder: NodeId) -> bool
        ensures { result ≡ is_empty self.now folder }
    {
        !self.nodes.iter().any(|place| lies_in(place, folder))
    }

    /// The node that has a name in a folder; in a tree that bodies led to it is the only one.
    pub fn find(&self, folder: NodeId, name: Name) -> Option<NodeId>
        ensures there { IfSome result (λ i. is_there self.now i ≡ true) }
        ensures value { result ≡ named self.now folder name }
        ensures only { (bodies : List Bytes) → self.now ≡ reached bodies → (i : ℕ) → is_named folder name (node_at self.now i) ≡ true → result ≡ Some i }
    {
        self.nodes
            .iter()
            .position(|place| is_named(place, folder, name))
            .and_then(NodeId::new)
    }

    // The node is `top` or lies beneath it: from it up, folder by folder, `top` is met.
    // A chain of `successors` is no plainer: each node has to be there before it is compared.
    #[tactic(auto, using(crate::proofs::Walks::walk_over, crate::proofs::Views::whole))]
    pub(super) fn is_within(&self, top: NodeId, node: NodeId) -> bool
        ensures value { result ≡ is_within 64 self.now top node }
        ensures whole { length self.now ≡ 64 }
    {
        let nodes = &self.nodes;
        let mut here = node;
        for _ in 0..64u8 {
            let Some(found) = nodes[here.get()] else {
                return false;
            };
            if here == top {
                return true;
            }
            let Some(parent) = found.parent else {
                return false;
            };
            here = parent;
        }
        false
    }

    /// Whether the node is `top` or lies beneath it, however far down.
    pub fn lies_beneath(&self, top: NodeId, node: NodeId) -> bool
        ensures value { Decides result (Beneath self.now top node) }
        ensures whole { length self.now ≡ 64 }
    {
        self.is_within(top, node)
    }
}
