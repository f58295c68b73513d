use crate::Ledger;
use service::Service;
use std::process::Abort;

// Runs a body, and checks what is replied and what the buffer holds behind it.
fn replies(rt: &impl Abort, ledger: &mut Ledger, body: &[u8], reply: &[u8]) {
    let mut out = [0xEEu8; 256];
    let n = ledger.run(body, &mut out);
    assert_eq!(rt; n, reply.len());
    assert!(rt; n < 256);
    assert_eq!(rt; &out[0..n], reply);
    assert_eq!(rt; out[n], 0xEE);
}

// Bins 0 to 3 hold 1000, 0, the most and 7 grams.
fn stocked() -> Ledger {
    let mut bins = [0u32; 32];
    bins[0] = 1000;
    bins[2] = u32::MAX;
    bins[3] = 7;
    Ledger::new(bins)
}

#[test]
fn fit_bodies(rt: HostRuntime) {
    let mut l = stocked();
    replies(&rt, &mut l, &[2, 3], &[0, 0, 0, 0, 7]);
    replies(
        &rt,
        &mut l,
        &[1, 0, 31, 0, 0, 3, 232],
        &[0, 0, 0, 0, 0, 0, 0, 3, 232],
    );
    replies(
        &rt,
        &mut l,
        &[1, 31, 0, 0, 0, 0, 232],
        &[0, 0, 0, 3, 0, 0, 0, 0, 232],
    );
    replies(
        &rt,
        &mut l,
        &[1, 2, 2, 0, 0, 0, 1],
        &[0, 255, 255, 255, 255, 255, 255, 255, 255],
    );
    assert_eq!(rt; l.count(31), Some(768));
    assert_eq!(rt; l.count(32), None);
    assert_eq!(rt; l.total(), 4_294_968_302);
}

#[test]
fn unfit_bodies(rt: HostRuntime) {
    let mut l = stocked();
    replies(&rt, &mut l, &[], &[1]);
    replies(&rt, &mut l, &[1, 32, 0, 0, 0, 1], &[1]);
    replies(&rt, &mut l, &[2, 3, 0], &[1]);
    replies(&rt, &mut l, &[3, 3], &[1]);
    replies(&rt, &mut l, &[2, 32], &[2]);
    replies(&rt, &mut l, &[1, 1, 32, 0, 0, 0, 9], &[2]);
    replies(&rt, &mut l, &[1, 3, 2, 0, 0, 0, 8], &[3]);
    replies(&rt, &mut l, &[1, 3, 2, 0, 0, 0, 7], &[4]);
    replies(&rt, &mut l, &[1, 3, 3, 0, 0, 0, 8], &[3]);
    assert_eq!(rt; l.count(3), Some(7));
}
