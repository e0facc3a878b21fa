//! The examples of FIPS 197.

use crate::Aes;

struct Example {
    key: [u8; 16],
    plaintext: [u8; 16],
    ciphertext: [u8; 16],
}

const EXAMPLES: [Example; 2] = [
    // Appendix C.1
    Example {
        key: *b"\x00\x01\x02\x03\x04\x05\x06\x07\x08\x09\x0a\x0b\x0c\x0d\x0e\x0f",
        plaintext: *b"\x00\x11\x22\x33\x44\x55\x66\x77\x88\x99\xaa\xbb\xcc\xdd\xee\xff",
        ciphertext: *b"\x69\xc4\xe0\xd8\x6a\x7b\x04\x30\xd8\xcd\xb7\x80\x70\xb4\xc5\x5a",
    },
    // Appendix B
    Example {
        key: *b"\x2b\x7e\x15\x16\x28\xae\xd2\xa6\xab\xf7\x15\x88\x09\xcf\x4f\x3c",
        plaintext: *b"\x32\x43\xf6\xa8\x88\x5a\x30\x8d\x31\x31\x98\xa2\xe0\x37\x07\x34",
        ciphertext: *b"\x39\x25\x84\x1d\x02\xdc\x09\xfb\xdc\x11\x85\x97\x19\x6a\x0b\x32",
    },
];

#[test]
fn encrypts_the_examples(rt: HostRuntime) {
    for example in &EXAMPLES {
        let mut block = example.plaintext;
        Aes::new(&example.key).encrypt(&mut block);
        assert_eq!(rt; block, example.ciphertext);
    }
}

#[test]
fn encrypts_the_examples_side_by_side(rt: HostRuntime) {
    let [one, two] = &EXAMPLES;
    let mut x = one.plaintext;
    let mut y = two.plaintext;
    Aes::new(&one.key).encrypt_both(&mut x, &Aes::new(&two.key), &mut y);
    assert_eq!(rt; x, one.ciphertext);
    assert_eq!(rt; y, two.ciphertext);
}
