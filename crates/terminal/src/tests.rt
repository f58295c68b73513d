use crate::state::Terminal;
use wire::{Refusal, Reply, SessionId, Status};

const ID: SessionId = SessionId { boot: 7, count: 1 };

// Steps as data, so that a life is a table.
#[derive(Clone, Copy)]
enum Step {
    Order,
    Part(usize),
    Resend(usize),
    // slot, number, status, target
    Hear(u32, u32, Status, u32),
}

fn number_of<T: Drop>(res: Result<T, Refusal>) -> u32 {
    match res {
        Ok(_) => 0,
        Err(refusal) => refusal.number(),
    }
}

fn take(terminal: &mut Terminal, step: Step) -> u32 {
    let mut scratch = [0; 304];
    match step {
        Step::Order => number_of(terminal.order(false, b"rolls", &mut scratch)),
        Step::Part(slot) => number_of(terminal.part(slot, &mut scratch)),
        Step::Resend(slot) => number_of(terminal.resend(slot, &mut scratch)),
        Step::Hear(slot, number, status, target) => {
            let reply = Reply {
                status,
                id: ID,
                number,
                slot,
                highest: 0,
                target,
                body: &[],
            };
            number_of(terminal.accept(reply))
        }
    }
}

#[test]
fn a_life(rt: HostRuntime) {
    // the step, its refusal or 0, and then how many calls are open and the heard target
    let rows: [(Step, u32, usize, u32); 18] = [
        (Step::Order, 0, 1, 1),
        (Step::Order, 0, 2, 1),
        (Step::Order, 5, 2, 1),
        (Step::Hear(1, 1, Status::Ok, 3), 0, 1, 3),
        (Step::Part(3), 7, 1, 3),
        (Step::Order, 0, 2, 3),
        (Step::Hear(1, 2, Status::Ok, 1), 0, 1, 1),
        (Step::Part(3), 0, 2, 1),
        (Step::Part(3), 7, 2, 1),
        (Step::Hear(3, 1, Status::Ok, 1), 0, 1, 1),
        (Step::Part(3), 7, 1, 1),
        (Step::Hear(0, 1, Status::Ok, 9), 0, 0, 1),
        (Step::Hear(0, 1, Status::Ok, 9), 14, 0, 1),
        (Step::Order, 0, 1, 1),
        (Step::Hear(0, 2, Status::Delay, 0), 0, 1, 1),
        (Step::Resend(0), 0, 1, 1),
        (Step::Resend(1), 6, 1, 1),
        (Step::Hear(0, 2, Status::RetryUncachedRep, 0), 0, 0, 1),
    ];
    let mut terminal = Terminal::new(ID, 1);
    for (step, refusal, open, heard) in rows {
        assert_eq!(rt; take(&mut terminal, step), refusal);
        assert_eq!(rt; terminal.open_calls(), open);
        assert_eq!(rt; terminal.heard(), heard);
    }
}
