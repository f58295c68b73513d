// Each row is a call of a server over a ledger, with what it says, and then the free trays and the calls in progress.
use ledger::Ledger;
use server::{Answer, Served, Server, WorkOrder};
use service::Service;
use std::process::Abort;
use wire::{Refusal, Request, SessionId, write};

const BOOT: u64 = 7;

// A request of the session with that count.
#[derive(Clone, Copy)]
struct Ask {
    count: u64,
    slot: u32,
    number: u32,
    highest: u32,
    keep: bool,
    body: &'static [u8],
}

// Calls as data, so that a server's life is a table.
#[derive(Clone, Copy)]
enum Call {
    Open(u32),
    Retarget(u64, u32),
    Close(u64),
    Run(Ask),
    Aside(Ask),
    Resume(u64, u32),
    // bytes that are no request
    Noise(&'static [u8]),
}

// What becomes of a new call: it is run, or set aside to be resumed. The house has such a type, but these tests stand below it.
#[derive(Clone, Copy)]
enum Told {
    Run,
    Aside,
}

#[derive(Clone, Copy, PartialEq, Eq, Debug)]
enum Says {
    Done,
    No(u32),
    // highest and target
    Ran(u32, u32),
    Aside,
    Again(u32, u32),
    Status(u32),
    Fault(usize),
}

fn id(count: u64) -> SessionId {
    SessionId { boot: BOOT, count }
}

fn ran(answer: Answer) -> Says {
    let reply = answer.reply();
    Says::Ran(reply.highest, reply.target)
}

#[derive(Drop)]
struct Desk {
    server: Server,
    ledger: Ledger,
}

impl Desk {
    fn new(count: u64) -> Desk {
        Desk {
            server: Server::new(BOOT, count),
            ledger: Ledger::new([9; 32]),
        }
    }

    fn spend(&mut self, order: WorkOrder, told: Told) -> Result<Says, Refusal> {
        match told {
            Told::Run => order.run(&mut self.server, &mut self.ledger).map(ran),
            Told::Aside => order.set_aside(&self.server).map(|()| Says::Aside),
        }
    }

    fn serve(&mut self, bytes: &[u8], told: Told) -> Result<Says, Refusal> {
        match self.server.serve(bytes)? {
            Served::Says(answer) => Ok(Says::Status(answer.reply().status.into())),
            Served::Old(answer) => {
                let reply = answer.reply();
                Ok(Says::Again(reply.highest, reply.target))
            }
            Served::Work(order) => self.spend(order, told),
        }
    }

    fn ask(&mut self, ask: Ask, told: Told) -> Result<Says, Refusal> {
        let request = Request {
            id: id(ask.count),
            number: ask.number,
            slot: ask.slot,
            highest: ask.highest,
            keep: ask.keep,
            body: ask.body,
        };
        let mut bytes = [0; 304];
        let len = write(request, &mut bytes)?;
        self.serve(&bytes[..len], told)
    }

    fn resume(&mut self, count: u64, slot: u32) -> Result<Says, Refusal> {
        let resumed = self.server.resume(id(count), slot, &mut self.ledger);
        resumed.map(ran)
    }

    fn outcome(&mut self, call: Call) -> Result<Says, Refusal> {
        match call {
            Call::Open(target) => self.server.open(target).map(|_| Says::Done),
            Call::Retarget(count, target) => {
                let retargeted = self.server.retarget(id(count), target);
                retargeted.map(|()| Says::Done)
            }
            Call::Close(count) => self.server.close(id(count)).map(|()| Says::Done),
            Call::Run(ask) => self.ask(ask, Told::Run),
            Call::Aside(ask) => self.ask(ask, Told::Aside),
            Call::Resume(count, slot) => self.resume(count, slot),
            Call::Noise(bytes) => self.serve(bytes, Told::Run),
        }
    }

    fn call(&mut self, call: Call) -> Says {
        match self.outcome(call) {
            Ok(says) => says,
            Err(Refusal::Unreadable { offset }) => Says::Fault(offset),
            Err(refusal) => Says::No(refusal.number()),
        }
    }
}

fn plays(rt: &impl Abort, desk: &mut Desk, rows: &[(Call, Says, usize, usize)]) {
    for (call, says, trays, working) in rows.iter().copied() {
        assert_eq!(rt; desk.call(call), says);
        assert_eq!(rt; desk.server.free_trays(), trays);
        assert_eq!(rt; desk.server.in_progress(), working);
    }
}

// A kept count of bin 3, the first call of slot 0.
const FIRST: Ask = Ask {
    count: 1,
    slot: 0,
    number: 1,
    highest: 0,
    keep: true,
    body: &[2, 3],
};

// The call of slot 0 behind it.
const NEXT: Ask = Ask { number: 2, ..FIRST };

// A count that is not to be kept, the first call of slot 1.
const LOOSE: Ask = Ask {
    slot: 1,
    highest: 1,
    keep: false,
    ..FIRST
};

// The first call of slot 2.
const SECOND: Ask = Ask {
    slot: 2,
    highest: 2,
    ..FIRST
};

// A bare call that parts with slot 2, the second call there.
const PART: Ask = Ask {
    slot: 2,
    number: 2,
    highest: 1,
    keep: false,
    body: &[],
    ..FIRST
};

// The call of slot 2 behind the part.
const THIRD: Ask = Ask {
    number: 3,
    ..SECOND
};

// Requests that a session with slots 0 to 2, none of them used, turns away.
const STRANGERS: [(Ask, u32); 7] = [
    (Ask { count: 2, ..FIRST }, 10052),
    (Ask { slot: 16, ..FIRST }, 10053),
    (Ask { number: 0, ..FIRST }, 10063),
    (Ask { number: 2, ..FIRST }, 10063),
    (Ask { slot: 3, ..FIRST }, 10053),
    (
        Ask {
            highest: 16,
            ..FIRST
        },
        10077,
    ),
    (Ask { slot: 1, ..FIRST }, 10077),
];

// Repeats of the first call that differ from it.
const DIFFERING: [Ask; 3] = [
    Ask {
        highest: 4,
        ..FIRST
    },
    Ask {
        keep: false,
        ..FIRST
    },
    Ask {
        body: &[2, 4],
        ..FIRST
    },
];

#[test]
fn strangers(rt: HostRuntime) {
    let mut desk = Desk::new(1);
    assert_eq!(rt; desk.call(Call::Noise(&[0, 0, 0, 54])), Says::Fault(0));
    assert_eq!(rt; desk.call(Call::Run(FIRST)), Says::Status(10052));
    assert_eq!(rt; desk.call(Call::Open(2)), Says::Done);
    for (ask, status) in STRANGERS {
        assert_eq!(rt; desk.call(Call::Run(ask)), Says::Status(status));
    }
    assert_eq!(rt; desk.call(Call::Run(FIRST)), Says::Ran(2, 2));
    for ask in DIFFERING {
        assert_eq!(rt; desk.call(Call::Run(ask)), Says::Status(10076));
    }
}

#[test]
fn repeats(rt: HostRuntime) {
    plays(
        &rt,
        &mut Desk::new(1),
        &[
            (Call::Open(2), Says::Done, 61, 0),
            (Call::Run(FIRST), Says::Ran(2, 2), 61, 0),
            (Call::Retarget(1, 4), Says::Done, 59, 0),
            (Call::Run(FIRST), Says::Again(2, 2), 59, 0),
            (Call::Aside(FIRST), Says::Again(2, 2), 59, 0),
            (Call::Run(LOOSE), Says::Ran(4, 4), 59, 0),
            (Call::Run(LOOSE), Says::Status(10068), 59, 0),
        ],
    );
}

#[test]
fn parted_and_taken_up_again(rt: HostRuntime) {
    plays(
        &rt,
        &mut Desk::new(1),
        &[
            (Call::Open(2), Says::Done, 61, 0),
            (Call::Run(SECOND), Says::Ran(2, 2), 61, 0),
            (Call::Retarget(1, 1), Says::Done, 61, 0),
            (Call::Run(PART), Says::Ran(1, 1), 62, 0),
            (Call::Run(PART), Says::Again(1, 1), 62, 0),
            (Call::Run(THIRD), Says::Status(10053), 62, 0),
            (Call::Retarget(1, 2), Says::Done, 61, 0),
            (Call::Run(PART), Says::Again(1, 1), 61, 0),
            (Call::Run(SECOND), Says::Status(10063), 61, 0),
            (Call::Run(THIRD), Says::Ran(2, 2), 61, 0),
            (Call::Run(PART), Says::Status(10063), 61, 0),
        ],
    );
}

#[test]
fn set_aside_and_dropped(rt: HostRuntime) {
    plays(
        &rt,
        &mut Desk::new(1),
        &[
            (Call::Open(2), Says::Done, 61, 0),
            (Call::Resume(1, 0), Says::No(8), 61, 0),
            (Call::Aside(FIRST), Says::Aside, 61, 1),
            (Call::Run(FIRST), Says::Status(10008), 61, 1),
            (Call::Run(NEXT), Says::Status(10063), 61, 1),
            (Call::Resume(1, 16), Says::No(8), 61, 1),
            (Call::Resume(2, 0), Says::No(3), 61, 1),
            (Call::Resume(1, 0), Says::Ran(2, 2), 61, 0),
            (Call::Resume(1, 0), Says::No(8), 61, 0),
            (Call::Run(FIRST), Says::Again(2, 2), 61, 0),
            (Call::Aside(SECOND), Says::Aside, 61, 1),
            (Call::Close(1), Says::Done, 64, 0),
            (Call::Resume(1, 2), Says::No(3), 64, 0),
            (Call::Run(SECOND), Says::Status(10052), 64, 0),
            (Call::Retarget(1, 16), Says::No(3), 64, 0),
            (Call::Close(1), Says::No(3), 64, 0),
        ],
    );
}

#[test]
fn no_room(rt: HostRuntime) {
    plays(
        &rt,
        &mut Desk::new(1),
        &[
            (Call::Open(16), Says::No(9), 64, 0),
            (Call::Open(15), Says::Done, 48, 0),
            (Call::Open(15), Says::Done, 32, 0),
            (Call::Open(15), Says::Done, 16, 0),
            (Call::Open(14), Says::Done, 1, 0),
            (Call::Retarget(4, 16), Says::No(9), 1, 0),
            (Call::Retarget(4, 15), Says::Done, 0, 0),
            (Call::Open(0), Says::No(12), 0, 0),
            (Call::Close(2), Says::Done, 16, 0),
            (Call::Open(0), Says::Done, 15, 0),
            (Call::Retarget(5, 15), Says::Done, 0, 0),
            (Call::Close(5), Says::Done, 16, 0),
            (Call::Open(14), Says::Done, 1, 0),
            (Call::Open(0), Says::Done, 0, 0),
            (Call::Retarget(7, 1), Says::No(12), 0, 0),
            (Call::Retarget(7, 0), Says::Done, 0, 0),
        ],
    );
    plays(
        &rt,
        &mut Desk::new(u64::MAX),
        &[(Call::Open(0), Says::No(11), 64, 0)],
    );
    let mut desk = Desk::new(1);
    for trays in [63, 62, 61, 60, 59, 58, 57, 56] {
        assert_eq!(rt; desk.call(Call::Open(0)), Says::Done);
        assert_eq!(rt; desk.server.free_trays(), trays);
    }
    assert_eq!(rt; desk.call(Call::Open(0)), Says::No(10));
}
