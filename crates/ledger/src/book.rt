ghost use Rattle.std.specs.Prelude.{◌≡◌, ℕ, ◌≤◌, List, length};
ghost use Rattle.ledger.specs.Ledger.{move, ledger_ask, ledger_after, ledger_answer, ledger_model};
ghost use Rattle.ledger.specs.Laws.{ledger_laws};
ghost use Rattle.ledger.specs.Forms.{reply_bytes};
ghost use Rattle.ledger.specs.Books.{held};
ghost use Rattle.ledger.specs.Runs.{grams, after_run};
ghost use Rattle.common.specs.Bytes.{Bytes};

use crate::body::Ask;
use crate::refused::Refused;
use crate::reply::{Answer, write_reply};
use service::Service;
use std::marker::Model;

/// The book: what each of the 32 bins holds, in grams.
#[derive(Drop, PartialEq, Eq)]
pub struct Ledger {
    bins: [u32; 32],
}

impl Model for Ledger {
    ghost use Rattle.std.specs.Prelude.{List, ℕ};

    ghost Value = { List ℕ };

    ghost view = { λ ledger. ledger.bins };

    ghost inverse = { λ bins. record { bins = bins } };
}

fn grams_in(bins: &[u32]) -> u64
    requires { length bins.now ≤ 32 }
    ensures { result ≡ grams bins.now }
{
    bins.iter().map(|grams| u64::from(*grams)).sum()
}

impl Ledger {
    /// The book with these counts.
    pub fn new(bins: [u32; 32]) -> Ledger
        ensures { result ≡ bins }
    {
        Ledger { bins }
    }

    /// What a bin holds, if there is such a bin.
    pub fn count(&self, bin: u8) -> Option<u32>
        ensures { result ≡ held self.now bin }
    {
        self.bins.get(usize::from(bin)).copied()
    }

    /// The grams in all bins together; no run of bodies since the book was `first` has changed them.
    #[tactic(auto, using(crate::proofs::Runs::grams_kept))]
    pub fn total(&self) -> u64
        ensures value { result ≡ grams self.now }
        ensures kept { (first : List ℕ) (bodies : List Bytes) → length first ≡ 32 → self.now ≡ after_run first bodies → result ≡ grams first }
    {
        grams_in(&self.bins)
    }

    // The tests stand in the order of their statuses.
    fn transfer(&mut self, from: u8, to: u8, amount: u32) -> Result<Answer, Refused>
        ensures reply { reply_bytes result ≡ ledger_answer self.old (move from to amount) }
        ensures bins { self.new ≡ ledger_after self.old (move from to amount) }
    {
        let source = self.count(from).ok_or(Refused::NoSuchBin)?;
        let sink = self.count(to).ok_or(Refused::NoSuchBin)?;
        let less = source.checked_sub(amount).ok_or(Refused::HoldsLess)?;
        if from == to {
            return Ok(Answer::Moved {
                from: source,
                to: sink,
            });
        }
        let more = sink.checked_add(amount).ok_or(Refused::WouldPass)?;
        self.bins[usize::from(from)] = less;
        self.bins[usize::from(to)] = more;
        Ok(Answer::Moved {
            from: less,
            to: more,
        })
    }

    // What a body asks, done.
    fn serve(&mut self, body: &[u8]) -> Result<Answer, Refused>
        ensures reply { reply_bytes result ≡ ledger_answer self.old (ledger_ask body.now) }
        ensures bins { self.new ≡ ledger_after self.old (ledger_ask body.now) }
    {
        match Ask::read(body).ok_or(Refused::NotOfForm)? {
            Ask::Move { from, to, amount } => self.transfer(from, to, amount),
            Ask::Count { bin } => {
                let grams = self.count(bin).ok_or(Refused::NoSuchBin)?;
                Ok(Answer::Counted { grams })
            }
        }
    }
}

impl Service for Ledger {
    ghost model = { ledger_model };

    ghost content = { λ bins. bins };

    ghost lawful = { ledger_laws };

    fn run(&mut self, body: &[u8], out: &mut [u8; 256]) -> usize {
        write_reply(self.serve(body), out)
    }
}
