ghost use Rattle.std.specs.Prelude.{◌≡◌, ◌≤◌, cond, [], length, None, ◌==◌};
ghost use Rattle.wire.specs.Wire.{forbidden_reply};
ghost use Rattle.wire.specs.Models.{reply_model};
ghost use Rattle.server.specs.Models.{answer_model};
ghost use Rattle.server.specs.Trays.{no_tray, spot};

use crate::answers::Answer;
use crate::records::{LONGEST, Spot, Tray};
use service::Service;
use slots::Body;
use wire::Reply;

// What the service replies to a request body; a call without one asks nothing of it.
pub(crate) fn reply_of<S: Service>(service: &mut S, request: &[u8]) -> Body
    ensures content { S.Service.content service.new ≡ cond (length request.now == 0) (S.Service.content service.old) (S.Service.model.next (S.Service.content service.old) request.now) }
    ensures reply { result ≡ cond (length request.now == 0) [] (S.Service.model.reply (S.Service.content service.old) request.now) }
{
    if request.is_empty() {
        return Body::empty();
    }
    let mut bytes = [0; LONGEST];
    let len = service.run(request, &mut bytes);
    Body::front(bytes, len)
}

impl Answer {
    /// The reply, its body lent from here. No `From`: it lends, and converts nothing.
    pub fn reply(&self) -> Reply<'_>
        ensures value { reply_model result ≡ answer_model self.now }
        ensures short { length result.body.now ≤ 256 }
        ensures fit { forbidden_reply (reply_model result) ≡ None }
    {
        Reply {
            status: self.status,
            id: self.id,
            number: self.number,
            slot: self.slot,
            highest: self.highest,
            target: self.target,
            body: self.body.as_slice(),
        }
    }
}

impl Tray {
    // No derived `Default`: the contract tells which tray it is, which a derived one would not.
    pub(crate) fn free() -> Tray
        ensures { result ≡ no_tray }
    {
        Tray {
            owner: None,
            request: Body::empty(),
            reply: Body::empty(),
        }
    }

    // Gives the tray to a slot that opens, which finds nothing of another's here.
    pub(crate) fn give(&mut self, spot: Spot)
        ensures { self.new ≡ record no_tray { owner = Some spot } }
    {
        self.owner = Some(spot);
        self.request.clear();
        self.reply.clear();
    }

    // Puts the body of a request.
    pub(crate) fn put_request(&mut self, body: &[u8])
        requires { length body.now ≤ 256 }
        ensures { self.new ≡ record self.old { request = body.now } }
    {
        let _ = self.request.set(body);
    }

    // Keeps a reply body, if it is to be kept.
    pub(crate) fn keep(&mut self, keeps: bool, body: &Body)
        ensures { self.new ≡ record self.old { reply = cond keeps body.now self.old.reply } }
    {
        if keeps {
            self.reply = *body;
        }
    }
}
