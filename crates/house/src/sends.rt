ghost use Rattle.std.specs.Prelude.{◌≡◌, ℕ, ◌≤◌, IfOk, map, length, Result, slice_index_or};
ghost use Rattle.channel.specs.Channel.{laid};
ghost use Rattle.wire.specs.Wire.{Refusal as WireRefusal};
ghost use Rattle.terminal.specs.Terminal.{TerminalM, Sending};
ghost use Rattle.exactly_once.specs.History.{Answer, ordered, ok, asked_order, asked_part, asked_resend};
ghost use Rattle.house.specs.Answers.{answer_by};
ghost use Rattle.house.specs.Houses.{place_model, Met, puts};
ghost use Rattle.house.specs.Sends.{sends_in, place_after, placed, CanWrite, Wrote, Writes, SentBy};

use crate::places::Place;
use crate::state::House;
use channel::Channel;
use service::Service;
use terminal::{Sent, Terminal};
use wire::{Refusal, has_room};

// What is asked of the closure stands at each of the three functions that hand it on: a bound on a closure has no
// shorter form.
impl Place {
    fn send<F: FnOnce(&mut Terminal, &mut [u8]) -> Result<Sent, Refusal>>(
        &mut self,
        scratch: &mut [u8],
        write: F,
    ) -> Result<Sent, Refusal>
        requires { CanWrite F.FnOnce write }
        ensures wrote { (sends : TerminalM → Result Sending WireRefusal) → Writes F.FnOnce write sends → Wrote (sends_in (length scratch.old) sends (place_model self.old)) scratch.old scratch.new result }
        ensures after { (sends : TerminalM → Result Sending WireRefusal) → Writes F.FnOnce write sends → place_model self.new ≡ place_after (place_model self.old) (sends_in (length scratch.old) sends (place_model self.old)) }
        ensures fits { IfOk result (λ s. s.len ≤ 304) }
    {
        let terminal = self.terminal.as_mut().ok_or(Refusal::NoTerminal)?;
        write(terminal, scratch)
    }
}

/// Has the terminal at a place write its message to the front of the scratch.
fn send_at<F: FnOnce(&mut Terminal, &mut [u8]) -> Result<Sent, Refusal>>(
    places: &mut [Place],
    place: usize,
    scratch: &mut [u8],
    write: F,
) -> Result<Sent, Refusal>
    requires { CanWrite F.FnOnce write }
    ensures wrote { (sends : TerminalM → Result Sending WireRefusal) → Writes F.FnOnce write sends → Wrote (sends_in (length scratch.old) sends (slice_index_or (map place_model places.old) place None)) scratch.old scratch.new result }
    ensures after { (sends : TerminalM → Result Sending WireRefusal) → Writes F.FnOnce write sends → map place_model places.new ≡ placed (map place_model places.old) place (sends_in (length scratch.old) sends (slice_index_or (map place_model places.old) place None)) }
    ensures fits { IfOk result (λ s. s.len ≤ 304) }
{
    if place >= places.len() {
        return Err(Refusal::NoTerminal);
    }
    // `get_mut` of a slice would tell nothing of the places afterwards.
    places[place].send(scratch, write)
}

impl<S: Service, Q: Channel, R: Channel> House<S, Q, R> {
    fn send<F: FnOnce(&mut Terminal, &mut [u8]) -> Result<Sent, Refusal>>(
        &mut self,
        terminal: usize,
        scratch: &mut [u8],
        write: F,
    ) -> Result<usize, Refusal>
        requires { CanWrite F.FnOnce write }
        ensures { (sends : TerminalM → Result Sending WireRefusal) (say : ℕ → Answer) → Writes F.FnOnce write sends → SentBy S.Service Q.Channel R.Channel self.old self.new scratch.old scratch.new terminal say sends result }
    {
        has_room(scratch)?;
        let sent = send_at(&mut self.places, terminal, scratch, write)?;
        self.requests.put(&scratch[..sent.len]);
        Ok(sent.slot)
    }

    /// Begins a call at a terminal: its request goes into the request channel, and its slot is told.
    pub fn order(
        &mut self,
        terminal: usize,
        keep: bool,
        body: &[u8],
        scratch: &mut [u8],
    ) -> Result<usize, Refusal>
        ensures met { Met S.Service Q.Channel R.Channel self.old self.new (asked_order terminal keep body.now (length scratch.old)) (answer_by ordered result) }
        ensures scratch { scratch.new ≡ laid (puts S.Service Q.Channel R.Channel self.old (asked_order terminal keep body.now (length scratch.old))) scratch.old }
    {
        self.send(terminal, scratch, |t, scratch| t.order(keep, body, scratch))
    }

    /// Offers to part with a slot of a terminal, by a bare call there.
    pub fn part(
        &mut self,
        terminal: usize,
        slot: usize,
        scratch: &mut [u8],
    ) -> Result<usize, Refusal>
        ensures met { Met S.Service Q.Channel R.Channel self.old self.new (asked_part terminal slot (length scratch.old)) (answer_by ordered result) }
        ensures scratch { scratch.new ≡ laid (puts S.Service Q.Channel R.Channel self.old (asked_part terminal slot (length scratch.old))) scratch.old }
    {
        self.send(terminal, scratch, |t, scratch| t.part(slot, scratch))
    }

    /// Sends the open call of a terminal's slot once more, the same bytes.
    pub fn resend(
        &mut self,
        terminal: usize,
        slot: usize,
        scratch: &mut [u8],
    ) -> Result<(), Refusal>
        ensures met { Met S.Service Q.Channel R.Channel self.old self.new (asked_resend terminal slot (length scratch.old)) (answer_by (λ _. ok) result) }
        ensures scratch { scratch.new ≡ laid (puts S.Service Q.Channel R.Channel self.old (asked_resend terminal slot (length scratch.old))) scratch.old }
    {
        self.send(terminal, scratch, |t, scratch| t.resend(slot, scratch))?;
        Ok(())
    }
}
