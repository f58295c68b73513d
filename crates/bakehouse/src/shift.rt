use crate::hex::Hex;
use channel::Channel;
use house::{Closing, Heard, House, Taken, Told};
use service::Service;
use slots::Body;
use std::io;
use wire::{ROOM, Refusal};

/// A house at work, the scratch that its messages pass through, and where its day is told.
/// Each call is told in a line: what came of it, and why.
#[derive(Drop)]
pub struct Shift<'a, S: Service, Q: Channel, R: Channel> {
    pub house: House<S, Q, R>,
    pub scratch: [u8; ROOM],
    pub rt: &'a HostRuntime,
}

impl<'a, S: Service, Q: Channel, R: Channel> Shift<'a, S, Q, R> {
    pub fn begin(rt: &'a HostRuntime, service: S, requests: Q, replies: R) -> Shift<'a, S, Q, R> {
        Shift {
            house: House::new(service, requests, replies, 1, 1),
            scratch: [0; ROOM],
            rt,
        }
    }

    fn tell_refusal(&self, refusal: Refusal, why: &str) -> io::Result<()> {
        println!(self.rt; "  refused, {}: {why}", refusal.number())
    }

    /// Tells what a terminal did, and the slot where there is one to tell.
    fn tell(
        &self,
        deed: &str,
        terminal: usize,
        slot: Result<Option<usize>, Refusal>,
        why: &str,
    ) -> io::Result<()> {
        match slot {
            Ok(Some(slot)) => println!(self.rt;
                "  terminal {terminal}, {deed} in slot {slot}: {why}"
            ),
            Ok(None) => println!(self.rt; "  terminal {terminal}, {deed}: {why}"),
            Err(refusal) => self.tell_refusal(refusal, why),
        }
    }

    /// A message in hex.
    pub fn show_message(&self, title: &str, bytes: &[u8]) -> io::Result<()> {
        println!(self.rt; "    {title}, {} bytes:{}", bytes.len(), Hex(bytes))
    }

    /// What the house holds, counted.
    pub fn inspect(&self) -> io::Result<()> {
        let summary = self.house.inspect();
        println!(self.rt;
            "  the house: sessions {}, free trays {}, open calls {}, set aside {}",
            summary.sessions, summary.trays, summary.open_calls, summary.set_aside
        )
    }

    pub fn open(&mut self, target: u32, why: &str) -> io::Result<()> {
        match self.house.open(target) {
            Ok(place) => println!(self.rt; "  terminal {place}, open with target {target}: {why}"),
            Err(refusal) => self.tell_refusal(refusal, why),
        }
    }

    pub fn order(&mut self, terminal: usize, keep: bool, body: &[u8], why: &str) -> io::Result<()> {
        let ordered = self.house.order(terminal, keep, body, &mut self.scratch);
        self.tell("order", terminal, ordered.map(Some), why)
    }

    pub fn part(&mut self, terminal: usize, slot: usize, why: &str) -> io::Result<()> {
        let parted = self.house.part(terminal, slot, &mut self.scratch);
        self.tell("part", terminal, parted.map(Some), why)
    }

    pub fn resend(&mut self, terminal: usize, slot: usize, why: &str) -> io::Result<()> {
        let resent = self.house.resend(terminal, slot, &mut self.scratch);
        self.tell("resend", terminal, resent.map(|()| None), why)
    }

    pub fn resume(&mut self, terminal: usize, slot: usize, why: &str) -> io::Result<()> {
        let resumed = self.house.resume(terminal, slot, &mut self.scratch);
        self.tell("resume", terminal, resumed.map(|()| None), why)
    }

    pub fn retarget(&mut self, terminal: usize, target: u32, why: &str) -> io::Result<()> {
        let retargeted = self.house.retarget(terminal, target);
        self.tell("retarget", terminal, retargeted.map(|()| None), why)
    }

    pub fn close(&mut self, terminal: usize, why: &str) -> io::Result<()> {
        let closed = self.house.close(terminal);
        self.tell("close", terminal, closed.map(|()| None), why)
    }

    pub fn hear(&mut self, told: Told, why: &str) -> io::Result<()> {
        // By match: each arm prints another line.
        match self.house.hear(told, &mut self.scratch) {
            Ok(Heard::Ran) => println!(self.rt; "  server, ran: {why}"),
            Ok(Heard::Aside) => println!(self.rt; "  server, set aside: {why}"),
            Ok(Heard::Again) => println!(self.rt; "  server, again: {why}"),
            Ok(Heard::Status(status)) => {
                println!(self.rt; "  server, status {}: {why}", u32::from(status))
            }
            Err(refusal) => self.tell_refusal(refusal, why),
        }
    }

    fn tell_taken(&self, taken: Taken, why: &str) -> io::Result<Option<Body>> {
        print!(self.rt;
            "  terminal {}, take in slot {}, ",
            taken.terminal, taken.slot
        )?;
        // By match: each arm prints another line.
        match taken.closing {
            Closing::Answered(body) => {
                println!(self.rt; "answered: {why}")?;
                return Ok(Some(body));
            }
            Closing::Done => println!(self.rt; "done: {why}")?,
            Closing::Unknown => println!(self.rt; "unknown: {why}")?,
            Closing::StillOpen(status) => {
                println!(self.rt; "still open at {}: {why}", u32::from(status))?;
            }
        }
        Ok(None)
    }

    /// Takes a reply; the bytes of an answer are handed on.
    pub fn take(&mut self, why: &str) -> io::Result<Option<Body>> {
        match self.house.take(&mut self.scratch) {
            Ok(taken) => self.tell_taken(taken, why),
            Err(refusal) => {
                self.tell_refusal(refusal, why)?;
                Ok(None)
            }
        }
    }
}
