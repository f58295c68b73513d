use crate::{ByteString, Index};

#[test]
fn indices_stop_below_their_bound(rt: HostRuntime) {
    for (number, stands) in [(0, true), (15, true), (16, false), (usize::MAX, false)] {
        assert_eq!(rt; Index::<16>::new(number).is_some(), stands);
    }
}

#[test]
fn bytes_are_kept_if_they_fit(rt: HostRuntime) {
    let none: &[u8] = &[];
    assert_eq!(rt; ByteString::<4>::empty().as_slice(), none);
    let full = ByteString::<4>::copied(b"oven");
    assert!(rt; full == Some(ByteString::front(*b"oven", 4)));
    assert!(rt; ByteString::<4>::copied(b"ovens").is_none());
    let front = ByteString::<4>::front([7, 8, 9, 9], 2);
    assert_eq!(rt; front.as_slice(), [7, 8].as_slice());
    assert!(rt; front == ByteString::front([7, 8, 0, 1], 2));
    assert!(rt; front != ByteString::front([7, 8, 0, 1], 3));
}
