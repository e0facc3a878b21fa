//! Tables of tags that other programs made.

use super::*;
use epic_cmac::CmacKey;
use epic_num::{AsId, Body, Field, HostId, is_tagged};
use epic_view::PacketRef;
use std::alloc::{AllocError, Global};
use std::test::Fail;

const SOURCE: HostId = HostId {
    asn: AsId(0x0001_ff00_0000_0112),
    host: 1,
};

const DESTINATION: HostId = HostId {
    asn: AsId(0x0001_ff00_0000_0122),
    host: 2,
};

const TS: u64 = 1_700_000_000_000_000;

// The forwarding key of 1-ff00:0:111, of generation 0.
const FORWARDING_KEY: u128 = 0xe02b8f9c2e56bd8dfbf13863cd7dae06;

// Its second hop of a segment, and the hop's authenticator.
const BODY: Body = Body {
    pos: 2,
    exp: 0x3f,
    ts_path: 0x6553_f100,
    inn: 1,
    out: 2,
    link: [0x5f, 0xc8, 0x56, 0x7c, 0xf2, 0x7d, 0x68, 0x59],
};

const SIGMA: u128 = 0x545a3ebf4ce89321245a9f2ef90ba2ac;

// The key that 1-ff00:0:111 shares with the source in epoch 19675.
const SHARED_KEY: u128 = 0xfce689594b3d153706abe99720cd9024;

// The segment header and the hops without their fields.
const SEGMENT: [u8; 8] = [0x01, 3, 0, 0, 0x65, 0x53, 0xf1, 0x00];

const HOPS: [u128; 3] = [
    0x3f00010000f02fdcef5be86197,
    0x3f000100025fc8567cf27d6859,
    0x3f000000020000000000000000,
];

#[test]
fn hops_have_the_tags_of_other_programs(rt: HostRuntime) {
    let key = FORWARDING_KEY.to_be_bytes();
    let sigma = SIGMA.to_be_bytes();
    assert_eq!(rt; authenticator(&key, &BODY), sigma);
    assert_eq!(rt; link_tag(&key, &BODY), 0xf02fdcef5be86197_u64.to_be_bytes());
    assert_eq!(rt; field0(&sigma), [0x54, 0x5a, 0x3e]);
    let ready = CmacKey::new(&key);
    let (authenticator, link) = authenticator_and_link_tag_by(&ready, &BODY);
    assert_eq!(rt; authenticator, sigma);
    assert_eq!(rt; link, 0xf02fdcef5be86197_u64.to_be_bytes());
}

#[test]
fn fields_are_parts_of_the_tags_of_other_programs(rt: HostRuntime) {
    let key = SHARED_KEY.to_be_bytes();
    let sigma = SIGMA.to_be_bytes();
    assert_eq!(rt; field1(&sigma, TS, SOURCE, 0), [0x78, 0x51, 0x70]);
    assert_eq!(rt; field1(&sigma, TS, SOURCE, 31), [0xfa, 0x20, 0xfd]);
    // Fields, and the updates of level 3 behind them.
    let rows: [(u8, u8, &[u8]); 6] = [
        (0xe2, 0, &[0x10, 0x07, 0xf1]),
        (0xe2, 31, &[0x99, 0x9a, 0x0b]),
        (0xe3, 7, &[0x84, 0xd5, 0x9a, 0xcc, 0x04, 0x0f]),
        (0xf2, 7, &[0x17, 0xe7, 0x92, 0x09, 0x85, 0x3f]),
        (
            0xf3,
            0,
            &[
                0x08, 0x75, 0xb4, 0xbb, 0x7c, 0x35, 0xcd, 0x89, 0x74, 0xc8, 0xa5, 0x13,
            ],
        ),
        (
            0xf3,
            31,
            &[
                0xa1, 0xb2, 0x05, 0xf3, 0x20, 0xae, 0x80, 0x3a, 0x17, 0x8f, 0xa0, 0xdb,
            ],
        ),
    ];
    for (first, hop, bytes) in rows {
        assert!(rt; is_tagged(first));
        let tag = field23(&key, first, TS, SOURCE, hop, &sigma);
        assert!(rt; tag.starts_with(bytes), "{first} {hop}");
    }
}

// A packet of three hops without fields or destination field, and with the payload `hello`.
fn packet(alloc: Global, first: u8) -> Result<Vec<u8>, AllocError> {
    let width: u16 = if first < 0xf0 { 3 } else { 6 };
    let mut bytes = vec![in alloc; first, 0]?;
    bytes.extend_from_slice(&(64 + 3 * (13 + width)).to_be_bytes())?;
    bytes.extend_from_slice(&[0, 5, 1, 0])?;
    bytes.extend_from_slice(&SOURCE.asn.0.to_be_bytes())?;
    bytes.extend_from_slice(&DESTINATION.asn.0.to_be_bytes())?;
    bytes.extend_from_slice(&SOURCE.host.to_be_bytes())?;
    bytes.extend_from_slice(&DESTINATION.host.to_be_bytes())?;
    bytes.extend_from_slice(&TS.to_be_bytes())?;
    bytes.extend_from_slice(&SEGMENT)?;
    for hop in HOPS {
        bytes.extend_from_slice(&hop.to_be_bytes()[3..])?;
        bytes.extend_from_slice(&[0; 6][..width as usize])?;
    }
    bytes.extend_from_slice(&[0; 16])?;
    bytes.extend_from_slice(b"hello")?;
    Ok(bytes)
}

fn update(number: u64, width: u8) -> Field {
    let [_, _, a, b, c, d, e, f] = number.to_be_bytes();
    Field {
        bytes: [a, b, c, d, e, f],
        width,
    }
}

#[test]
fn destination_fields_are_those_of_other_programs(rt: HostRuntime) -> Result<(), Fail> {
    let key = 0x1a618d9fb20c9fe2894e71f1dbffa2bb_u128.to_be_bytes();
    let narrow = [
        update(0xf360_dd00_0000, 3),
        update(0xa11d_1b00_0000, 3),
        update(0x2dd9_6500_0000, 3),
    ];
    let wide = [
        update(0x9cc1_efe5_3f7c, 6),
        update(0x0984_041b_eb52, 6),
        update(0x579a_8de7_fcb1, 6),
    ];
    let rows: [(u8, &[Field], u128); 4] = [
        (0xe2, &[], 0xee94788318c3b8c183d6a5c89c23898b),
        (0xe3, &narrow, 0x568aa912e89ecc0c690be00a2e9c5e5f),
        (0xf2, &[], 0x4877ff1c2d8cfc342360089e73aa1054),
        (0xf3, &wide, 0x591cf1c9d8f53ba0f0597ab82e667dd2),
    ];
    for (first, updates, tag) in rows {
        let bytes = packet(rt.alloc(), first)?;
        let view = PacketRef::look(&bytes)?;
        assert!(rt; is_tagged(view.first_byte()));
        assert!(rt; are_updates(&view, updates));
        assert_eq!(rt;
            dest_tag(&key, &view, updates),
            tag.to_be_bytes(),
            "{first}"
        );
    }
    Ok(())
}
