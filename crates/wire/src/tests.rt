use crate::messages::{Reply, Request, SessionId};
use crate::read::{read_reply, read_request};
use crate::refusals::Refusal;
use crate::statuses::Status;
use crate::writes::write;

const ID: SessionId = SessionId {
    boot: 7,
    count: 258,
};

fn request() -> Request<'static> {
    Request {
        id: ID,
        number: 5,
        slot: 3,
        highest: 4,
        keep: true,
        body: b"rye",
    }
}

fn reply() -> Reply<'static> {
    Reply {
        status: Status::Ok,
        id: ID,
        number: 5,
        slot: 3,
        highest: 15,
        target: 9,
        body: b"rye",
    }
}

/// A byte put at an offset, the length that the message is cut to, and where reading it stops.
type Damage = (usize, u8, usize, Option<usize>);

const REQUESTS: [Damage; 9] = [
    (3, 53, 44, None),
    (3, 54, 44, Some(0)),
    (3, 53, 19, Some(4)),
    (35, 2, 44, Some(32)),
    (38, 2, 44, Some(36)),
    (39, 9, 44, Some(40)),
    (43, 1, 43, Some(40)),
    (43, 1, 44, Some(43)),
    (3, 53, 45, Some(44)),
];

const REPLIES: [Damage; 8] = [
    (3, 53, 52, None),
    (7, 1, 52, Some(4)),
    (35, 16, 52, Some(32)),
    (39, 16, 52, Some(36)),
    (43, 1, 52, Some(40)),
    (46, 2, 52, Some(44)),
    (51, 1, 52, Some(51)),
    (3, 53, 56, Some(52)),
];

fn stop<T: Drop>(answer: Result<T, Refusal>) -> Option<usize> {
    answer.err().map(|refusal| refusal.offset())
}

#[test]
fn damaged_requests_stop_at_the_damage(rt: HostRuntime) {
    for (at, byte, cut, stops) in REQUESTS {
        let mut bytes = [0; 304];
        assert_eq!(rt; write(request(), &mut bytes), Ok(44));
        assert!(rt; at < 304 && cut <= 304);
        bytes[at] = byte;
        assert_eq!(rt; stop(read_request(&bytes[0..cut])), stops);
    }
}

// Two loops: the two readers give different types.
#[test]
fn damaged_replies_stop_at_the_damage(rt: HostRuntime) {
    for (at, byte, cut, stops) in REPLIES {
        let mut bytes = [0; 304];
        assert_eq!(rt; write(reply(), &mut bytes), Ok(52));
        assert!(rt; at < 304 && cut <= 304);
        bytes[at] = byte;
        assert_eq!(rt; stop(read_reply(&bytes[0..cut])), stops);
    }
}

#[test]
fn a_refused_write_leaves_its_buffer(rt: HostRuntime) {
    let long = [1; 257];
    let request = Request {
        body: &long,
        ..request()
    };
    let mut out = [238; 304];
    assert_eq!(rt;
        write(request, &mut out),
        Err(Refusal::Unreadable { offset: 36 })
    );
    assert_eq!(rt;
        write(request, &mut out[0..303]),
        Err(Refusal::ShortScratch)
    );
    assert!(rt; out == [238; 304]);
}
