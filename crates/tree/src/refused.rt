ghost use Rattle.std.specs.Prelude.{◌≡◌};
ghost use Rattle.tree.specs.Replies.{status_number};

/// Why a body is refused, smallest status first.
#[derive(Clone, Copy, PartialEq, Eq, Debug)]
pub enum Refused {
    /// It is none of the four forms, or names a node above 63.
    NotOfForm,
    /// A node that it names is absent.
    Absent,
    /// The parent is no folder.
    NoFolder,
    /// Another node in the parent has the name.
    NameTaken,
    /// The node to be made exists.
    Exists,
    /// The root is neither removed nor moved.
    IsRoot,
    /// The folder to be removed is not empty.
    NotEmpty,
    /// The new parent is the node or lies beneath it.
    IntoItself,
    /// No node in the parent has the name.
    NoSuchName,
}

/// The status that a reply gives.
impl From<Refused> for u8 {
    ghost from_gives = { λ refused status. status ≡ status_number refused };

    fn from(refused: Refused) -> u8 {
        match refused {
            Refused::NotOfForm => 1,
            Refused::Absent => 2,
            Refused::NoFolder => 3,
            Refused::NameTaken => 4,
            Refused::Exists => 5,
            Refused::IsRoot => 6,
            Refused::NotEmpty => 7,
            Refused::IntoItself => 8,
            Refused::NoSuchName => 9,
        }
    }
}
