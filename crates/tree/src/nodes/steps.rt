ghost use Rattle.std.specs.Prelude.{◌≡◌, Some, if◌then◌else◌, slice_set};
ghost use Rattle.tree.specs.Laws.{tree_laws};
ghost use Rattle.tree.specs.Tree.{make, remove, move, look, is_there, is_folder, other_named, tree_ask, tree_after, tree_answer, tree_model};
ghost use Rattle.tree.specs.Kinds.{kind_letter};
ghost use Rattle.tree.specs.Contents.{node_of};
ghost use Rattle.tree.specs.Replies.{judged_status, reply_bytes};

use crate::body::Ask;
use crate::nodes::{Kind, Name, Node, NodeId, ROOT, Tree};
use crate::refused::Refused;
use crate::reply::{Answer, write_reply};
use service::Service;

// The tests stand in the order of their statuses.
impl Tree {
    // There is such a folder.
    fn judge_folder(&self, folder: NodeId) -> Result<(), Refused>
        ensures { judged_status result ≡ (if is_there self.now folder then (if is_folder self.now folder then 0 else 3) else 2) }
    {
        match self.at(folder).ok_or(Refused::Absent)?.kind {
            Kind::Folder => Ok(()),
            Kind::Card => Err(Refused::NoFolder),
        }
    }

    // There is such a folder, and no other node has the name in it.
    fn judge_place(&self, parent: NodeId, name: Name, node: NodeId) -> Result<(), Refused>
        ensures { judged_status result ≡ (if is_there self.now parent then (if is_folder self.now parent then (if other_named self.now parent name node then 4 else 0) else 3) else 2) }
    {
        self.judge_folder(parent)?;
        if self.other_named(parent, name, node) {
            return Err(Refused::NameTaken);
        }
        Ok(())
    }

    fn put(&mut self, parent: NodeId, node: NodeId, kind: Kind, name: Name)
        ensures { self.new ≡ slice_set self.old node (Some (node_of parent kind name)) }
    {
        self.nodes[node.get()] = Some(Node {
            parent: Some(parent),
            kind,
            name,
        });
    }

    fn make(
        &mut self,
        parent: NodeId,
        node: NodeId,
        kind: Kind,
        name: Name,
    ) -> Result<Answer, Refused>
        ensures reply { reply_bytes result ≡ tree_answer self.old (make parent node (kind_letter kind) name) }
        ensures nodes { self.new ≡ tree_after self.old (make parent node (kind_letter kind) name) }
    {
        self.judge_place(parent, name, node)?;
        if self.at(node).is_some() {
            return Err(Refused::Exists);
        }
        self.put(parent, node, kind, name);
        Ok(Answer::Done)
    }

    fn remove(&mut self, node: NodeId) -> Result<Answer, Refused>
        ensures reply { reply_bytes result ≡ tree_answer self.old (remove node) }
        ensures nodes { self.new ≡ tree_after self.old (remove node) }
    {
        self.at(node).ok_or(Refused::Absent)?;
        if node.get() == ROOT {
            return Err(Refused::IsRoot);
        }
        if !self.is_empty(node) {
            return Err(Refused::NotEmpty);
        }
        self.nodes[node.get()] = None;
        Ok(Answer::Done)
    }

    fn move_to(&mut self, node: NodeId, parent: NodeId, name: Name) -> Result<Answer, Refused>
        ensures reply { reply_bytes result ≡ tree_answer self.old (move node parent name) }
        ensures nodes { self.new ≡ tree_after self.old (move node parent name) }
    {
        let kind = self.at(node).ok_or(Refused::Absent)?.kind;
        self.judge_place(parent, name, node)?;
        if node.get() == ROOT {
            return Err(Refused::IsRoot);
        }
        if self.is_within(node, parent) {
            return Err(Refused::IntoItself);
        }
        self.put(parent, node, kind, name);
        Ok(Answer::Done)
    }

    fn look(&self, parent: NodeId, name: Name) -> Result<Answer, Refused>
        ensures { reply_bytes result ≡ tree_answer self.now (look parent name) }
    {
        self.judge_folder(parent)?;
        let node = self.find(parent, name).ok_or(Refused::NoSuchName)?;
        let kind = self.at(node).unwrap().kind;
        Ok(Answer::Found { node, kind })
    }

    // What a body asks, done.
    fn serve(&mut self, body: &[u8]) -> Result<Answer, Refused>
        ensures reply { reply_bytes result ≡ tree_answer self.old (tree_ask body.now) }
        ensures nodes { self.new ≡ tree_after self.old (tree_ask body.now) }
    {
        match Ask::read(body).ok_or(Refused::NotOfForm)? {
            Ask::Make {
                parent,
                node,
                kind,
                name,
            } => self.make(parent, node, kind, name),
            Ask::Remove { node } => self.remove(node),
            Ask::Move { node, parent, name } => self.move_to(node, parent, name),
            Ask::Look { parent, name } => self.look(parent, name),
        }
    }
}

impl Service for Tree {
    ghost model = { tree_model };

    ghost content = { λ nodes. nodes };

    ghost lawful = { tree_laws };

    fn run(&mut self, body: &[u8], out: &mut [u8; 256]) -> usize {
        write_reply(self.serve(body), out)
    }
}
