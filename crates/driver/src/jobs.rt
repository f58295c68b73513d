ghost use Rattle.std.specs.Prelude.{◌≡◌, ◌+◌, ◌%◌, true};
ghost use Rattle.ledger.specs.Forms.{move_bytes};

use crate::dice::Dice;
use common::ByteString;
use ledger::{Ledger, move_body};
use service::Service;
use tree::{Name, NodeId, Tree};

/// What a call has at stake: how much it adds where it is done, and how much it takes away.
#[derive(Clone, Copy, Default)]
pub struct Stake {
    pub adds: u8,
    pub takes: u8,
}

/// A call to be ordered.
#[derive(Clone, Copy)]
pub struct Job {
    pub body: ByteString<7>,
    pub keep: bool,
    pub stake: Stake,
}

/// A service that things are asked of at random.
pub trait Trade: Service {
    fn job(dice: &mut Dice) -> Job;

    /// How much there is beyond what was there at first.
    fn gained(&self) -> u64;

    /// Whether nothing else was lost or made.
    fn is_sound(&self) -> bool;
}

/// What bin 0 holds at first: more than the calls can move.
pub const STOCK: u32 = 4_000_000;

/// Grams go from bin 0 to bin 31, which always can be done.
impl Trade for Ledger {
    fn job(dice: &mut Dice) -> Job
        ensures body { result.body ≡ move_bytes 0 31 result.stake.adds }
        ensures takes { result.stake.takes ≡ 0 }
    {
        let adds = dice.byte();
        Job {
            body: ByteString::front(move_body(0, 31, u32::from(adds)), 7),
            keep: dice.byte() < 128,
            stake: Stake { adds, takes: 0 },
        }
    }

    fn gained(&self) -> u64 {
        u64::from(self.count(31).unwrap_or(0))
    }

    fn is_sound(&self) -> bool {
        self.total() == u64::from(STOCK)
    }
}

/// The name of a card is one graphic byte.
fn card_name(node: u8) -> u8
    ensures { result ≡ 33 + node % 64 }
{
    b'!' + node % 64
}

/// Cards are made in the root and removed. The outcome of a card's call can be a refusal, so that its reply is always kept.
impl Trade for Tree {
    fn job(dice: &mut Dice) -> Job
        ensures keep { result.keep ≡ true }
        ensures stake { result.stake.adds + result.stake.takes ≡ 1 }
    {
        let node = 1 + dice.byte() % 63;
        let makes = dice.byte() < 128;
        let (body, stake) = if makes {
            let make = ByteString::copied(&[b'm', 0, node, b'f', card_name(node)]);
            (make.unwrap(), Stake { adds: 1, takes: 0 })
        } else {
            let remove = ByteString::copied(&[b'r', node]);
            (remove.unwrap(), Stake { adds: 0, takes: 1 })
        };
        Job {
            body,
            keep: true,
            stake,
        }
    }

    /// How many cards are in the root.
    fn gained(&self) -> u64 {
        let Some(root) = NodeId::new(0) else {
            return 0;
        };
        (1..64)
            .filter_map(|node| Name::read(&[card_name(node)]))
            .filter(|name| self.find(root, *name).is_some())
            .count() as u64
    }

    fn is_sound(&self) -> bool {
        true
    }
}
