ghost use Rattle.std.specs.Prelude.{◌≡◌};
ghost use Rattle.ledger.specs.Ledger.{ledger_ask};
ghost use Rattle.ledger.specs.Forms.{ask_model, move_bytes, count_bytes};

/// What a body asks of the ledger.
#[derive(Clone, Copy, PartialEq, Eq, Debug)]
pub enum Ask {
    Move { from: u8, to: u8, amount: u32 },
    Count { bin: u8 },
}

impl Ask {
    /// Takes a body apart; none is one of no such form.
    // No `TryFrom`: a body is unfit in one way, so that an error would say no more than none does.
    pub fn read(body: &[u8]) -> Option<Ask>
        ensures { ask_model result ≡ ledger_ask body.now }
    {
        match body {
            [1, from, to, a, b, c, d] => Some(Ask::Move {
                from: *from,
                to: *to,
                amount: u32::from_be_bytes([*a, *b, *c, *d]),
            }),
            [2, which] => Some(Ask::Count { bin: *which }),
            _ => None,
        }
    }
}

/// The body of a move.
pub fn move_body(from: u8, to: u8, amount: u32) -> [u8; 7]
    ensures { result ≡ move_bytes from to amount }
{
    let [a, b, c, d] = amount.to_be_bytes();
    [1, from, to, a, b, c, d]
}

/// The body of a count.
pub fn count_body(bin: u8) -> [u8; 2]
    ensures { result ≡ count_bytes bin }
{
    [2, bin]
}
