//! Tables of the standard layouts, of time and of first bytes.

use super::*;
use std::test::Fail;

const SOURCE: HostId = HostId {
    asn: AsId(0x0001_ff00_0000_0112),
    host: 1,
};

/// The moment at which the packets of these tables are sent.
const SENT: u64 = 1_700_000_000_000_000;

const PROFILE: Profile = Profile {
    lifetime_us: 2_000_000,
    skew_us: 1_000_000,
    epoch_us: 86_400_000_000,
    window: 4096,
};

/// The second hop of a segment, and its bytes.
const BODY: Body = Body {
    pos: 2,
    exp: 63,
    ts_path: 1_700_000_000,
    inn: 1,
    out: 2,
    link: [0x5f, 0xc8, 0x56, 0x7c, 0xf2, 0x7d, 0x68, 0x59],
};

#[test]
fn lays_out_hops(rt: HostRuntime) {
    let last = Body {
        pos: 16,
        exp: 255,
        ts_path: 0xffff_ffff,
        inn: 0xffff,
        out: 0xffff,
        link: [0xff; 8],
    };
    assert_eq!(rt;
        BODY.to_bytes(),
        [
            0x02, 0x3f, 0x65, 0x53, 0xf1, 0x00, 0x00, 0x01, 0x00, 0x02, 0x5f, 0xc8, 0x56, 0x7c,
            0xf2, 0x7d, 0x68, 0x59,
        ]
    );
    assert_eq!(rt;
        last.to_bytes(),
        [
            0x10, 0xff, 0xff, 0xff, 0xff, 0xff, 0xff, 0xff, 0xff, 0xff, 0xff, 0xff, 0xff, 0xff,
            0xff, 0xff, 0xff, 0xff,
        ]
    );
    assert_eq!(rt;
        authenticator_message(&BODY),
        [
            0x01, 0x02, 0x3f, 0x65, 0x53, 0xf1, 0x00, 0x00, 0x01, 0x00, 0x02, 0x5f, 0xc8, 0x56,
            0x7c, 0xf2, 0x7d, 0x68, 0x59,
        ]
    );
    assert_eq!(rt;
        link_message(&BODY),
        [
            0x02, 0x02, 0x3f, 0x65, 0x53, 0xf1, 0x00, 0x00, 0x01, 0x00, 0x02, 0x5f, 0xc8, 0x56,
            0x7c, 0xf2, 0x7d, 0x68, 0x59,
        ]
    );
}

#[test]
fn lays_out_fields(rt: HostRuntime) {
    let sigma = [
        0x54, 0x5a, 0x3e, 0xbf, 0x4c, 0xe8, 0x93, 0x21, 0x24, 0x5a, 0x9f, 0x2e, 0xf9, 0x0b, 0xa2,
        0xac,
    ];
    assert_eq!(rt;
        field1_message(SENT, SOURCE, 7),
        [
            0x11, 0x00, 0x06, 0x0a, 0x24, 0x18, 0x1e, 0x40, 0x00, 0x00, 0x01, 0xff, 0x00, 0x00,
            0x00, 0x01, 0x12, 0x00, 0x00, 0x00, 0x01, 0x07,
        ]
    );
    for (first, domain) in [(0xE2, 0x12), (0xE3, 0x13), (0xF2, 0x32), (0xF3, 0x33)] {
        assert!(rt; is_tagged(first));
        assert_eq!(rt;
            field23_message(first, SENT, SOURCE, 7, &sigma),
            [
                domain, 0x00, 0x06, 0x0a, 0x24, 0x18, 0x1e, 0x40, 0x00, 0x00, 0x01, 0xff, 0x00,
                0x00, 0x00, 0x01, 0x12, 0x00, 0x00, 0x00, 0x01, 0x07, 0x54, 0x5a, 0x3e, 0xbf, 0x4c,
                0xe8, 0x93, 0x21, 0x24, 0x5a, 0x9f, 0x2e, 0xf9, 0x0b, 0xa2, 0xac,
            ]
        );
    }
}

#[test]
fn lays_out_keys(rt: HostRuntime) {
    assert_eq!(rt; forwarding_message(1), [0x46, 0, 0, 0, 1]);
    assert_eq!(rt;
        secret_message(19_675),
        [0x53, 0, 0, 0, 0, 0, 0, 0x4c, 0xdb]
    );
    assert_eq!(rt;
        as_key_message(SOURCE.asn),
        [0x41, 0x00, 0x01, 0xff, 0x00, 0x00, 0x00, 0x01, 0x12]
    );
    assert_eq!(rt; host_key_message(SOURCE.host), [0x48, 0, 0, 0, 1]);
    assert_eq!(rt; dest_key_message(2, 1), [0x44, 0, 0, 0, 2, 0, 0, 0, 1]);
}

#[test]
fn tells_time(rt: HostRuntime) {
    assert_eq!(rt; valid_until(1_700_000_000, 63), 1_700_021_600_000_000);
    assert_eq!(rt; valid_until(0, 0), 337_500_000);
    assert!(rt; !is_expired(1_700_000_000, 63, 1_700_021_600_000_000));
    assert!(rt; is_expired(1_700_000_000, 63, 1_700_021_600_000_001));
    assert!(rt; !PROFILE.is_path_future(1_700_000_001, SENT));
    assert!(rt; PROFILE.is_path_future(1_700_000_001, SENT - 1));
    assert!(rt; !PROFILE.is_early(SENT + 1_000_000, SENT));
    assert!(rt; PROFILE.is_early(SENT + 1_000_001, SENT));
    assert!(rt; !PROFILE.is_stale(SENT, SENT + 2_000_000));
    assert!(rt; PROFILE.is_stale(SENT, SENT + 2_000_001));
    assert!(rt; !PROFILE.is_stale(u64::MAX, MAX_MOMENT));
    assert!(rt; PROFILE.is_live(SENT, 1_700_000_002_211_839));
    assert!(rt; !PROFILE.is_live(SENT, 1_700_000_002_211_840));
    assert_eq!(rt;
        (bucket(262_143), bucket(262_144), PROFILE.live_buckets()),
        (0, 1, 8)
    );
    assert_eq!(rt; PROFILE.epoch_of(1_700_006_399_999_999), 19_675);
    assert_eq!(rt; PROFILE.epoch_of(1_700_006_400_000_000), 19_676);
}

#[test]
fn reads_first_bytes(rt: HostRuntime) {
    // First byte, version, level, width; whether fields are made for one packet, and updated on the way.
    let table = [
        (0xE0, 1, Level::L0, 3, false, false),
        (0xE1, 1, Level::L1, 3, true, false),
        (0xE2, 1, Level::L2, 3, true, false),
        (0xE3, 1, Level::L3, 3, true, true),
        (0xF2, 2, Level::L2, 6, true, false),
        (0xF3, 2, Level::L3, 6, true, true),
    ];
    for (first, version, level, width, timed, updated) in table {
        assert!(rt; is_first_byte(first));
        assert_eq!(rt; first_byte(version, level), first);
        assert_eq!(rt; level_of(first), level);
        assert_eq!(rt; version_of(first), version);
        assert_eq!(rt; width_of(first), width);
        assert_eq!(rt; is_timed(first), timed);
        assert_eq!(rt; is_updated(first), updated);
    }
    for first in [0xDF, 0xE4, 0xEF, 0xF0, 0xF1, 0xF4] {
        assert!(rt; !is_first_byte(first));
        assert!(rt; !is_tagged(first));
    }
}

#[test]
fn compares(rt: HostRuntime) {
    let name = HopName {
        asn: SOURCE.asn,
        generation: 0,
        body: BODY,
    };
    let rolled = HopName {
        generation: 1,
        ..name
    };
    let key = KeyName::Field {
        a: SOURCE.asn,
        src: SOURCE,
        epoch: 19_675,
    };
    let field = Field {
        bytes: [1, 2, 3, 0, 0, 0],
        width: 3,
    };
    assert!(rt;
        same_as(SOURCE.asn, name.asn) && same_host(SOURCE, SOURCE) && same_body(&BODY, &name.body)
    );
    assert!(rt; same_name(&name, &name) && !same_name(&name, &rolled));
    assert!(rt; same_holder(&Holder::Host(SOURCE), &Holder::Host(SOURCE)));
    assert!(rt; !same_holder(&Holder::Host(SOURCE), &Holder::As(SOURCE.asn)));
    assert!(rt;
        same_key(&key, &key)
            && !same_key(
                &key,
                &KeyName::Fwd {
                    a: SOURCE.asn,
                    g: 0
                }
            )
    );
    assert!(rt; same_field(&field, &field) && !same_field(&field, &Field::default()));
}

#[test]
fn keeps_lists(rt: HostRuntime) -> Result<(), Fail> {
    let bytes = Bytes::from_vec([1, 2, 3].to_vec(rt.alloc())?);
    assert_eq!(rt; bytes.as_slice(), [1, 2, 3].as_slice());
    let paths = PathList::from_vec(Vec::new(rt.alloc()));
    assert!(rt; paths.as_slice().is_empty());
    let passed = PassedList::from_vec(Vec::new(rt.alloc()));
    assert!(rt; passed.as_slice().is_empty());
    Ok(())
}
