ghost use Rattle.std.specs.Prelude.{◌≡◌, ◌+◌, ◌≤◌, not, ◌==◌, position, length, take, drop, Some, None, IfOk, if◌then◌else◌, nat_eq, nat_le};
ghost use Rattle.common.specs.Bytes.{be32};
ghost use Rattle.wire.specs.Wire.{is_status, padded, u32_at, permitted_at, id_at, zeros_at, body_at, end_at};
ghost use Rattle.wire.specs.Groups.{head_model, head_at, reach_model, reach_at, last_at, request_at, reply_at};
ghost use Rattle.wire.specs.Models.{answer_model, itself, lent, id_model, request_model, reply_model, status_number};

use crate::messages::{Head, Reach, Reply, Request, SessionId, padded};
use crate::refusals::Refusal;
use crate::statuses::Status;

/// Lent bytes, whose fields are read by the offset at which each stands.
#[derive(Clone, Copy)]
pub(crate) struct Reader<'a> {
    bytes: &'a [u8],
}

/// Where the first byte other than 0 stands.
fn first_other(bytes: &[u8]) -> Option<usize>
    ensures { result ≡ position (λ b. not (b == 0)) bytes.now }
{
    bytes.iter().position(|byte| *byte != 0)
}

impl<'a> Reader<'a> {
    pub(crate) fn new(bytes: &'a [u8]) -> Reader<'a>
        ensures { result.bytes.now ≡ bytes.now }
    {
        Reader { bytes }
    }

    /// The N bytes from an offset on, if so many are left.
    fn array<const N: usize>(&self, at: usize) -> Option<[u8; N]>
        ensures { result ≡ (if nat_le (at + N) (length self.now.bytes.now) then Some (take N (drop at self.now.bytes.now)) else None) }
    {
        self.bytes.get(at..)?.first_chunk().copied()
    }

    /// A number, if it is not cut off.
    fn number(&self, at: usize) -> Option<u32>
        ensures { result ≡ (if nat_le (at + 4) (length self.now.bytes.now) then Some (be32 self.now.bytes.now at) else None) }
    {
        self.array(at).map(u32::from_be_bytes)
    }

    /// A number. Cut off, it counts at its own offset.
    fn u32(&self, at: usize) -> Result<u32, Refusal>
        ensures { answer_model itself result ≡ u32_at self.now.bytes.now at }
    {
        self.number(at).ok_or(Refusal::Unreadable { offset: at })
    }

    /// A session id. Cut off, it counts as one field.
    fn id(&self, at: usize) -> Result<SessionId, Refusal>
        ensures { answer_model id_model result ≡ id_at self.now.bytes.now at }
    {
        let cut = Refusal::Unreadable { offset: at };
        let boot = self.array(at).ok_or(cut)?;
        let count = self.array(at + 8).ok_or(cut)?;
        Ok(SessionId {
            boot: u64::from_be_bytes(boot),
            count: u64::from_be_bytes(count),
        })
    }

    /// A number of at most `most`.
    fn at_most(&self, at: usize, most: u32) -> Result<u32, Refusal>
        ensures { answer_model itself result ≡ permitted_at (λ n. nat_le n most) self.now.bytes.now at }
    {
        self.number(at)
            .filter(|n| *n <= most)
            .ok_or(Refusal::Unreadable { offset: at })
    }

    // Not one function with `at_most` over its test: the clauses for the closure are longer than what the two share.
    /// The number `value` itself.
    fn exactly(&self, at: usize, value: u32) -> Result<u32, Refusal>
        ensures { answer_model itself result ≡ permitted_at (λ n. nat_eq n value) self.now.bytes.now at }
    {
        self.number(at)
            .filter(|n| *n == value)
            .ok_or(Refusal::Unreadable { offset: at })
    }

    /// A reply's status.
    fn status(&self, at: usize) -> Result<Status, Refusal>
        ensures { answer_model status_number result ≡ permitted_at is_status self.now.bytes.now at }
    {
        self.number(at)
            .and_then(|n| Status::try_from(n).ok())
            .ok_or(Refusal::Unreadable { offset: at })
    }

    /// The first of n bytes that is not 0 is reported.
    fn zeros(&self, at: usize, n: usize) -> Result<(), Refusal>
        requires { at + n ≤ length self.now.bytes.now }
        ensures { answer_model itself result ≡ zeros_at n self.now.bytes.now at }
    {
        match first_other(&self.bytes[at..at + n]) {
            Some(i) => Err(Refusal::Unreadable { offset: at + i }),
            None => Ok(()),
        }
    }

    /// A length of at most `longest`, so many bytes, and their padding.
    fn body(&self, at: usize, longest: u32) -> Result<&'a [u8], Refusal>
        ensures value { answer_model lent result ≡ body_at longest self.now.bytes.now at }
        ensures short { IfOk result (λ b. length b.now ≤ longest) }
        ensures within { IfOk result (λ b. at + 4 + padded (length b.now) ≤ length self.now.bytes.now) }
    {
        let n = self.at_most(at, longest)? as usize;
        let at = at + 4;
        let all = padded(n);
        if all > self.bytes.len() - at {
            return Err(Refusal::Unreadable { offset: at });
        }
        self.zeros(at + n, all - n)?;
        Ok(&self.bytes[at..at + n])
    }

    /// Nothing more.
    fn end(&self, at: usize) -> Result<(), Refusal>
        ensures { answer_model itself result ≡ end_at self.now.bytes.now at }
    {
        if at < self.bytes.len() {
            return Err(Refusal::Unreadable { offset: at });
        }
        Ok(())
    }

    /// The fields that both messages have.
    fn head(&self, at: usize) -> Result<Head, Refusal>
        ensures { answer_model head_model result ≡ head_at self.now.bytes.now at }
    {
        let id = self.id(at)?;
        let number = self.u32(at + 16)?;
        let slot = self.u32(at + 20)?;
        Ok(Head { id, number, slot })
    }

    /// Highest and target, each at most `top`, and the flags, which are 0.
    fn reach(&self, at: usize, top: u32) -> Result<Reach, Refusal>
        ensures { answer_model reach_model result ≡ reach_at top self.now.bytes.now at }
    {
        let highest = self.at_most(at, top)?;
        let target = self.at_most(at + 4, top)?;
        self.exactly(at + 8, 0)?;
        Ok(Reach { highest, target })
    }

    /// A body with nothing behind it.
    fn last(&self, at: usize, longest: u32) -> Result<&'a [u8], Refusal>
        ensures value { answer_model lent result ≡ last_at longest self.now.bytes.now at }
        ensures short { IfOk result (λ b. length b.now ≤ longest) }
    {
        let body = self.body(at, longest)?;
        self.end(at + 4 + padded(body.len()))?;
        Ok(body)
    }

    pub(crate) fn request(&self) -> Result<Request<'a>, Refusal>
        ensures value { answer_model request_model result ≡ request_at self.now.bytes.now 0 }
        ensures short { IfOk result (λ q. length q.body.now ≤ 256) }
    {
        self.exactly(0, 53)?;
        let head = self.head(4)?;
        let highest = self.u32(28)?;
        let keep = self.at_most(32, 1)?;
        let body = self.last(36, 256)?;
        Ok(Request {
            id: head.id,
            number: head.number,
            slot: head.slot,
            highest,
            keep: keep == 1,
            body,
        })
    }

    pub(crate) fn reply(&self) -> Result<Reply<'a>, Refusal>
        ensures value { answer_model reply_model result ≡ reply_at self.now.bytes.now 0 }
        ensures short { IfOk result (λ p. length p.body.now ≤ 256) }
    {
        self.exactly(0, 53)?;
        let status = self.status(4)?;
        let head = self.head(8)?;
        let reach = self.reach(32, status.top())?;
        let body = self.last(44, status.longest())?;
        Ok(Reply {
            status,
            id: head.id,
            number: head.number,
            slot: head.slot,
            highest: reach.highest,
            target: reach.target,
            body,
        })
    }
}
