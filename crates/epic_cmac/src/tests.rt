//! The examples of RFC 4493 4.

ghost use Rattle.std.specs.Prelude.{◌<◌};

use crate::{CmacKey, CmacState, CmacWriter, cmac};

const KEY: [u8; 16] = *b"\x2b\x7e\x15\x16\x28\xae\xd2\xa6\xab\xf7\x15\x88\x09\xcf\x4f\x3c";

// The tags are of its first bytes.
const MESSAGE: [u8; 64] = [
    0x6b, 0xc1, 0xbe, 0xe2, 0x2e, 0x40, 0x9f, 0x96, 0xe9, 0x3d, 0x7e, 0x11, 0x73, 0x93, 0x17, 0x2a,
    0xae, 0x2d, 0x8a, 0x57, 0x1e, 0x03, 0xac, 0x9c, 0x9e, 0xb7, 0x6f, 0xac, 0x45, 0xaf, 0x8e, 0x51,
    0x30, 0xc8, 0x1c, 0x46, 0xa3, 0x5c, 0xe4, 0x11, 0xe5, 0xfb, 0xc1, 0x19, 0x1a, 0x0a, 0x52, 0xef,
    0xf6, 0x9f, 0x24, 0x45, 0xdf, 0x4f, 0x9b, 0x17, 0xad, 0x2b, 0x41, 0x7b, 0xe6, 0x6c, 0x37, 0x10,
];

struct Example {
    len: usize,
    tag: [u8; 16],
}

const EXAMPLES: [Example; 4] = [
    Example {
        len: 0,
        tag: *b"\xbb\x1d\x69\x29\xe9\x59\x37\x28\x7f\xa3\x7d\x12\x9b\x75\x67\x46",
    },
    Example {
        len: 16,
        tag: *b"\x07\x0a\x16\xb4\x6b\x4d\x41\x44\xf7\x9b\xdd\x9d\xd0\x4a\x28\x7c",
    },
    Example {
        len: 40,
        tag: *b"\xdf\xa6\x67\x47\xde\x9a\xe6\x30\x30\xca\x32\x61\x14\x97\xc8\x27",
    },
    Example {
        len: 64,
        tag: *b"\x51\xf0\xbe\xbf\x7e\x3b\x9d\x92\xfc\x49\x74\x17\x79\x36\x3c\xfe",
    },
];

fn tag_in_pieces(message: &[u8], size: usize) -> [u8; 16]
    requires { 0 < size }
{
    let mut state = CmacState::start(&KEY);
    for piece in message.chunks(size) {
        state.update(piece);
    }
    state.finish()
}

#[test]
fn tags_the_examples(rt: HostRuntime) {
    for example in &EXAMPLES {
        let message = &MESSAGE[..example.len.min(64)];
        assert_eq!(rt; cmac(&KEY, message), example.tag, "{} bytes", example.len);
        for size in [1, 7, 64] {
            assert_eq!(rt;
                tag_in_pieces(message, size),
                example.tag,
                "{} bytes by {size}",
                example.len
            );
        }
    }
}

#[test]
fn tags_two_messages_side_by_side(rt: HostRuntime) {
    // The example of NIST SP 800-38B for 20 bytes
    let tag: [u8; 16] = *b"\x7d\x85\x44\x9e\xa6\xea\x19\xc8\x23\xa7\xbf\x78\x83\x7d\xfa\xde";
    let key = CmacKey::new(&KEY);
    let message = &MESSAGE[..20];
    assert_eq!(rt; cmac(&KEY, message), tag);
    let (one, two) = key.tag_both(message, &key, message);
    assert_eq!(rt; one, tag);
    assert_eq!(rt; two, tag);
}

#[test]
fn tags_pieces_under_a_ready_key(rt: HostRuntime) {
    let key = CmacKey::new(&KEY);
    let mut writer = CmacWriter::start(&key);
    writer.update(&MESSAGE[..7]);
    writer.update(&MESSAGE[7..40]);
    assert_eq!(rt; writer.finish(), EXAMPLES[2].tag);
}
