ghost use Rattle.std.specs.Prelude.{◌≡◌, ◌≤◌, length};
ghost use Rattle.common.specs.Bytes.{Bytes};
ghost use Rattle.channel.specs.Channel.{laid};
ghost use Rattle.wire.specs.Wire.{reply_message};
ghost use Rattle.server.specs.Server.{run_work, set_work_aside};
ghost use Rattle.server.specs.Models.{model, answer_model};
ghost use Rattle.server.specs.Calls.{work_model};
ghost use Rattle.exactly_once.specs.History.{ok, asked_hear, asked_resume};
ghost use Rattle.exactly_once.specs.Houses.{parts};
ghost use Rattle.exactly_once.specs.Steps.{hear_run, hear_aside, hear_request};
ghost use Rattle.house.specs.Answers.{answer_by};
ghost use Rattle.house.specs.Hears.{told_model, heard_answer, Stepped};
ghost use Rattle.house.specs.Houses.{house_state, Met, puts, takes};

use crate::channels::take_from;
use crate::sessions::id_at;
use crate::state::House;
use channel::Channel;
use server::{Answer, Served, WorkOrder};
use service::Service;
use slots::SLOTS;
use wire::{ROOM, Refusal, Status, has_room, write};

/// What a hear is to do with a new call: run it, or set it aside to be resumed.
// No closure: it is an argument of the rules, and a history tells it.
#[derive(Clone, Copy)]
pub enum Told {
    Run,
    Aside,
}

/// What a hear did with the request that it took.
#[derive(Clone, Copy)]
pub enum Heard {
    /// A new call was run, and its reply put.
    Ran,
    /// A new call was set aside. No reply is put.
    Aside,
    /// A repeat of a finished call: its outcome was put once more.
    Again,
    /// Not served: this status was put.
    Status(Status),
}

/// Writes a reply to the front of a buffer and puts it. What the server answers can always be written.
fn put_answer<R: Channel>(replies: &mut R, answer: &Answer, buffer: &mut [u8])
    requires { 304 ≤ length buffer.old }
    ensures after { R.Channel.state replies.new ≡ R.Channel.model.puts (R.Channel.state replies.old) (reply_message (answer_model answer.now)) }
    ensures buffer { buffer.new ≡ laid (Some (reply_message (answer_model answer.now))) buffer.old }
{
    let len = write(answer.reply(), buffer).unwrap();
    replies.put(&buffer[..len]);
}

impl<S: Service, Q: Channel, R: Channel> House<S, Q, R> {
    fn run(&mut self, order: WorkOrder) -> Result<Heard, Refusal>
        ensures { (b : Bytes) → Stepped S.Service Q.Channel R.Channel self.new (answer_by heard_answer result) (hear_run (parts S.Service Q.Channel R.Channel) (house_state S.Service Q.Channel R.Channel self.old) b (run_work S.Service.model (S.Service.content self.old.service) (model self.old.server) (work_model order))) }
    {
        let answer = order.run(&mut self.server, &mut self.service)?;
        let mut buffer = [0; ROOM];
        put_answer(&mut self.replies, &answer, &mut buffer);
        Ok(Heard::Ran)
    }

    fn set_aside(&mut self, order: WorkOrder) -> Result<Heard, Refusal>
        ensures { (b : Bytes) → Stepped S.Service Q.Channel R.Channel self.new (answer_by heard_answer result) (hear_aside (parts S.Service Q.Channel R.Channel) (house_state S.Service Q.Channel R.Channel self.old) b (set_work_aside (model self.old.server) (work_model order))) }
    {
        order.set_aside(&self.server)?;
        Ok(Heard::Aside)
    }

    /// Serves a request. A reply is written in a buffer of its own, since the request is still lent.
    fn serve(&mut self, told: Told, request: &[u8]) -> Result<Heard, Refusal>
        ensures { Stepped S.Service Q.Channel R.Channel self.new (answer_by heard_answer result) (hear_request (parts S.Service Q.Channel R.Channel) (house_state S.Service Q.Channel R.Channel self.old) (told_model told) request.now) }
    {
        let mut buffer = [0; ROOM];
        match self.server.serve(request)? {
            Served::Says(answer) => {
                put_answer(&mut self.replies, &answer, &mut buffer);
                Ok(Heard::Status(answer.reply().status))
            }
            Served::Old(answer) => {
                put_answer(&mut self.replies, &answer, &mut buffer);
                Ok(Heard::Again)
            }
            Served::Work(order) => match told {
                Told::Run => self.run(order),
                Told::Aside => self.set_aside(order),
            },
        }
    }

    /// Takes a request from its channel and serves it: a new call is run or set aside as told, and any reply put.
    pub fn hear(&mut self, told: Told, scratch: &mut [u8]) -> Result<Heard, Refusal>
        ensures met { Met S.Service Q.Channel R.Channel self.old self.new (asked_hear (told_model told) (length scratch.old)) (answer_by heard_answer result) }
        ensures scratch { scratch.new ≡ laid (takes S.Service Q.Channel R.Channel self.old (asked_hear (told_model told) (length scratch.old))) scratch.old }
    {
        let len = take_from(&mut self.requests, scratch)?;
        self.serve(told, &scratch[..len])
    }

    /// Runs the work set aside at a slot of a terminal's session, and puts the reply.
    pub fn resume(
        &mut self,
        terminal: usize,
        slot: usize,
        scratch: &mut [u8],
    ) -> Result<(), Refusal>
        ensures met { Met S.Service Q.Channel R.Channel self.old self.new (asked_resume terminal slot (length scratch.old)) (answer_by (λ _. ok) result) }
        ensures scratch { scratch.new ≡ laid (puts S.Service Q.Channel R.Channel self.old (asked_resume terminal slot (length scratch.old))) scratch.old }
    {
        has_room(scratch)?;
        let id = id_at(&self.places, terminal)?;
        // No session has a slot past the last.
        let slot = slot.min(SLOTS) as u32;
        let answer = self.server.resume(id, slot, &mut self.service)?;
        put_answer(&mut self.replies, &answer, scratch);
        Ok(())
    }
}
