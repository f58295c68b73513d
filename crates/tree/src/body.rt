ghost use Rattle.std.specs.Prelude.{◌≡◌, ◌&&◌, if◌then◌else◌};
ghost use Rattle.tree.specs.Tree.{tree_ask, make, remove, move, look, unfit, is_node, is_kind, is_name};
ghost use Rattle.tree.specs.Asks.{ask_model};

use crate::nodes::{Kind, Name, NodeId};

/// What a body asks of the tree.
#[derive(Clone, Copy, PartialEq, Eq, Debug)]
pub enum Ask {
    Make {
        parent: NodeId,
        node: NodeId,
        kind: Kind,
        name: Name,
    },
    Remove {
        node: NodeId,
    },
    Move {
        node: NodeId,
        parent: NodeId,
        name: Name,
    },
    Look {
        parent: NodeId,
        name: Name,
    },
}

fn node_id(number: u8) -> Option<NodeId>
    ensures { result ≡ (if is_node number then Some number else None) }
{
    NodeId::new(number.into())
}

fn make(parent: u8, node: u8, kind: u8, name: &[u8]) -> Option<Ask>
    ensures { ask_model result ≡ (if is_node parent && (is_node node && (is_kind kind && is_name name.now)) then make parent node kind name.now else unfit) }
{
    Some(Ask::Make {
        parent: node_id(parent)?,
        node: node_id(node)?,
        kind: kind.try_into().ok()?,
        name: Name::read(name)?,
    })
}

fn remove(node: u8) -> Option<Ask>
    ensures { ask_model result ≡ (if is_node node then remove node else unfit) }
{
    Some(Ask::Remove {
        node: node_id(node)?,
    })
}

fn move_to(node: u8, parent: u8, name: &[u8]) -> Option<Ask>
    ensures { ask_model result ≡ (if is_node node && (is_node parent && is_name name.now) then move node parent name.now else unfit) }
{
    Some(Ask::Move {
        node: node_id(node)?,
        parent: node_id(parent)?,
        name: Name::read(name)?,
    })
}

fn look(parent: u8, name: &[u8]) -> Option<Ask>
    ensures { ask_model result ≡ (if is_node parent && is_name name.now then look parent name.now else unfit) }
{
    Some(Ask::Look {
        parent: node_id(parent)?,
        name: Name::read(name)?,
    })
}

impl Ask {
    /// Takes a body apart; none is one of no such form.
    // No `TryFrom`: a body is unfit in one way, so that an error would say no more than none does.
    pub fn read(body: &[u8]) -> Option<Ask>
        ensures { ask_model result ≡ tree_ask body.now }
    {
        match body {
            [b'm', parent, node, kind, name @ ..] => make(*parent, *node, *kind, name),
            [b'r', node] => remove(*node),
            [b'v', node, parent, name @ ..] => move_to(*node, *parent, name),
            [b'l', parent, name @ ..] => look(*parent, name),
            _ => None,
        }
    }
}
