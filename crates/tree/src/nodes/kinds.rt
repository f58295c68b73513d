ghost use Rattle.std.specs.Prelude.{◌≡◌};
ghost use Rattle.tree.specs.Kinds.{kind_letter, read_kind};

/// What a node is.
#[derive(Clone, Copy, PartialEq, Eq, Debug)]
pub enum Kind {
    Folder,
    Card,
}

/// A letter of no kind.
// A type of its own: it names what its letter is none of, and no crate that has such a type knows another.
#[derive(Clone, Copy, PartialEq, Eq, Debug)]
pub struct NoKind(pub u8);

/// The kind of a letter: d folder, f card.
impl TryFrom<u8> for Kind {
    type Error = NoKind;

    ghost try_from_gives = { λ letter kind. kind ≡ read_kind letter };

    fn try_from(letter: u8) -> Result<Kind, NoKind> {
        match letter {
            b'd' => Ok(Kind::Folder),
            b'f' => Ok(Kind::Card),
            _ => Err(NoKind(letter)),
        }
    }
}

impl From<Kind> for u8 {
    ghost from_gives = { λ kind letter. letter ≡ kind_letter kind };

    fn from(kind: Kind) -> u8 {
        match kind {
            Kind::Folder => b'd',
            Kind::Card => b'f',
        }
    }
}
