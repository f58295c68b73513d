use crate::Tree;
use service::Service;

// The bodies run one after another, each with its reply.
#[test]
fn replies(rt: HostRuntime) {
    let steps: [(&[u8], &[u8]); 22] = [
        (b"m\x00\x01dnorth", &[0]),
        (b"m\x01\x02dovens", &[0]),
        (b"m\x02\x03frye", &[0]),
        (b"l\x02rye", &[0, 3, b'f']),
        (b"l\x00north", &[0, 1, b'd']),
        (b"x", &[1]),
        (b"m\x00\x04d", &[1]),
        (b"m\x00\x04dabcdefghijklmnopq", &[1]),
        (b"m\x00\x40dnorth", &[1]),
        (b"r\x05", &[2]),
        (b"m\x03\x04frye", &[3]),
        (b"m\x00\x04dnorth", &[4]),
        (b"m\x00\x01dnorth", &[5]),
        (b"r\x00", &[6]),
        (b"r\x01", &[7]),
        (b"v\x01\x02north", &[8]),
        (b"l\x00rye", &[9]),
        (b"v\x03\x00rye", &[0]),
        (b"l\x00rye", &[0, 3, b'f']),
        (b"v\x02\x02ovens", &[8]),
        (b"r\x02", &[0]),
        (b"l\x01ovens", &[9]),
    ];
    let mut tree = Tree::new();
    let mut out = [0; 256];
    for (body, reply) in steps {
        let size = tree.run(body, &mut out);
        assert!(rt; size <= 256);
        assert_eq!(rt; &out[0..size], reply);
    }
}
