// One row for each channel: a digit puts that message, a dot takes one, and below stands what the take gave.
use crate::Channel;
use crate::double::Double;
use crate::loss::Loss;
use crate::pile::shop_pile;
use crate::pipe::Pipe;
use crate::shelf::Shelf;

// What a take gives: the one byte of its message, or a dash.
fn told<C: Channel>(channel: &mut C) -> u8 {
    let mut buffer = [0; 304];
    match channel.take(&mut buffer) {
        Some(1) => buffer[0],
        _ => b'-',
    }
}

fn plays<C: Channel>(channel: &mut C, script: &[u8], gave: &[u8]) -> bool {
    let plays = script.iter().zip(gave).all(|(deed, expected)| {
        if *deed == b'.' {
            told(channel) == *expected
        } else {
            channel.put(&[*deed]);
            true
        }
    });
    plays && channel.is_empty()
}

#[test]
fn scripts(rt: HostRuntime) {
    assert!(rt; plays(&mut Pipe::new(), b"12.3....", b"  1 23--"));
    assert!(rt;
        plays(
            &mut Pipe::new(),
            b"123456789.........",
            b"         12345678-",
        )
    );
    assert!(rt; plays(&mut Shelf::over(&[1, 129, 128]), b"123......", b"   23113-"));
    assert!(rt;
        plays(
            &mut Loss::over(Pipe::new(), 3),
            b"1234567......",
            b"       12457-",
        )
    );
    assert!(rt;
        plays(
            &mut Double::over(Pipe::new()),
            b"12345.........",
            b"     11223344-",
        )
    );
    assert!(rt; plays(&mut shop_pile(), b"1.2....", b" 1 122-"));
}
