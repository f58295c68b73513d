ghost use Rattle.std.specs.Prelude.{◌≡◌, ◌<◌, ◌≤◌, map, length, IfSome};
ghost use Rattle.common.specs.Search.{lowest_at};
ghost use Rattle.channel.specs.Channel.{laid};
ghost use Rattle.wire.specs.Wire.{read_reply};
ghost use Rattle.wire.specs.Models.{answer_model, reply_model, id_model};
ghost use Rattle.terminal.specs.Replies.{effect_model};
ghost use Rattle.exactly_once.specs.History.{asked_take};
ghost use Rattle.house.specs.Answers.{answer_by};
ghost use Rattle.house.specs.Houses.{place_model, Met, takes};
ghost use Rattle.house.specs.Takes.{closing_model, taken_answer, Short, bears_id, accepts, settled, handed, received};

use crate::channels::take_from;
use crate::places::Place;
use crate::state::House;
use channel::Channel;
use service::Service;
use slots::Body;
use terminal::Effect;
use wire::{Refusal, Reply, SessionId, read_reply};

/// What a reply did to the open call that it belongs to, with a copy of its body.
pub type Closing = Effect<Body>;

/// A reply that belongs to an open call: where that call was ordered, and what the reply did to it.
#[derive(Clone, Copy)]
pub struct Taken {
    pub terminal: usize,
    pub slot: u32,
    pub closing: Closing,
}

// Variant by variant: a `map` of `Effect` for this one use is as long, with the clauses for its closure besides.
/// Keeps the body of an effect: what a reply carries always fits.
fn kept(effect: Effect<&[u8]>) -> Closing
    requires { Short (effect_model effect) }
    ensures { closing_model result ≡ effect_model effect.entry }
{
    match effect {
        Effect::Answered(bytes) => Effect::Answered(Body::copied(bytes).unwrap()),
        Effect::Done => Effect::Done,
        Effect::Unknown => Effect::Unknown,
        Effect::StillOpen(status) => Effect::StillOpen(status),
    }
}

impl Place {
    /// Whether its terminal has a session's id.
    fn bears(&self, id: SessionId) -> bool
        ensures { result ≡ bears_id (id_model id) (place_model self.now) }
    {
        self.terminal
            .as_ref()
            .is_some_and(|terminal| terminal.has_id(id))
    }

    // That the body is short the reader tells, as at the server.
    fn accept(&mut self, reply: Reply<'_>) -> Result<Closing, Refusal>
        requires { length reply.body.now ≤ 256 }
        ensures answer { answer_model closing_model result ≡ accepts (place_model self.old) (reply_model reply.entry) }
        ensures after { place_model self.new ≡ settled (place_model self.old) (reply_model reply.entry) }
    {
        let terminal = self.terminal.as_mut().ok_or(Refusal::NoCall)?;
        terminal.accept(reply).map(kept)
    }
}

/// The lowest place whose terminal has a session's id.
fn bearer(places: &[Place], id: SessionId) -> Option<usize>
    ensures found { result ≡ lowest_at (λ p. bears_id (id_model id) (place_model p)) places.now 0 }
    ensures within { IfSome result (λ p. p < length places.now) }
{
    places.iter().position(|place| place.bears(id))
}

/// Hands a reply to the terminal whose session id it bears.
#[tactic(auto, using(slots::proofs::Slots::lowest_map))]
fn accept_at(places: &mut [Place], reply: Reply<'_>) -> Result<Taken, Refusal>
    requires { length reply.body.now ≤ 256 }
    ensures answer { answer_by taken_answer result ≡ (handed (map place_model places.old) (reply_model reply.entry)).answer }
    ensures after { map place_model places.new ≡ (handed (map place_model places.old) (reply_model reply.entry)).records }
{
    let place = bearer(places, reply.id).ok_or(Refusal::NoCall)?;
    // `get_mut` of a slice would tell nothing of the places afterwards.
    let closing = places[place].accept(reply)?;
    Ok(Taken {
        terminal: place,
        slot: reply.slot,
        closing,
    })
}

/// Reads a message as a reply and hands it over.
fn receive(places: &mut [Place], message: &[u8]) -> Result<Taken, Refusal>
    ensures answer { answer_by taken_answer result ≡ (received (map place_model places.old) (read_reply message.now)).answer }
    ensures after { map place_model places.new ≡ (received (map place_model places.old) (read_reply message.now)).records }
{
    let reply = read_reply(message)?;
    accept_at(places, reply)
}

impl<S: Service, Q: Channel, R: Channel> House<S, Q, R> {
    /// Takes a reply from its channel and hands it to its terminal.
    pub fn take(&mut self, scratch: &mut [u8]) -> Result<Taken, Refusal>
        ensures met { Met S.Service Q.Channel R.Channel self.old self.new (asked_take (length scratch.old)) (answer_by taken_answer result) }
        ensures scratch { scratch.new ≡ laid (takes S.Service Q.Channel R.Channel self.old (asked_take (length scratch.old))) scratch.old }
    {
        let len = take_from(&mut self.replies, scratch)?;
        receive(&mut self.places, &scratch[..len])
    }
}
