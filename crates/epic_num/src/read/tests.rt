//! Tables of texts that are read, or where they leave their form.

use super::*;

#[test]
fn reads_ases(rt: HostRuntime) {
    let cases: [(&str, Result<u64, u32>); 32] = [
        ("1-1", Ok(0x0001_0000_0000_0001)),
        ("65535-1", Ok(0xffff_0000_0000_0001)),
        ("1-4294967295", Ok(0x0001_0000_ffff_ffff)),
        ("1-1:0:0", Ok(0x0001_0001_0000_0000)),
        ("1-ff00:0:112", Ok(0x0001_ff00_0000_0112)),
        ("65535-ffff:ffff:ffff", Ok(0xffff_ffff_ffff_ffff)),
        ("", Err(0)),
        ("-1", Err(0)),
        ("+1-1", Err(0)),
        (" 1-1", Err(0)),
        ("0-1", Err(0)),
        ("01-1", Err(0)),
        ("1", Err(1)),
        ("1,1", Err(1)),
        ("65536-1", Err(4)),
        ("1-", Err(2)),
        ("1-0", Err(2)),
        ("1-0:0:1", Err(2)),
        ("1-00:0:1", Err(2)),
        ("1-FF00:0:1", Err(2)),
        ("1-1 ", Err(3)),
        ("1-1-1", Err(3)),
        ("1-ab", Err(4)),
        ("1-4294967296", Err(11)),
        ("1-12345:", Err(7)),
        ("1-12345a", Err(7)),
        ("1-ff000:0:1", Err(6)),
        ("1-1:0", Err(5)),
        ("1-1:0:", Err(6)),
        ("1-ff00:00:1", Err(8)),
        ("1-ff00:0:A", Err(9)),
        ("1-ff00:0:112:", Err(12)),
    ];
    for (text, want) in cases {
        let text = text.as_bytes();
        assert!(rt; text.len() < 100);
        let got = read_as(text).map(|a| a.0).map_err(|s| s.at);
        assert_eq!(rt; got, want, "{text:?}");
    }
}

#[test]
fn reads_any_ases(rt: HostRuntime) {
    let cases: [(&str, Result<u64, u32>); 8] = [
        ("0-0", Ok(0)),
        ("1-0", Ok(0x0001_0000_0000_0000)),
        ("0-ff00:0:112", Ok(0x0000_ff00_0000_0112)),
        ("65535-ffff:ffff:ffff", Ok(u64::MAX)),
        ("00-1", Err(1)),
        ("0-00", Err(3)),
        ("0-0:0:1", Err(3)),
        ("65536-1", Err(4)),
    ];
    for (text, want) in cases {
        assert!(rt; text.len() < 90);
        let got = read_any_as(text.as_bytes()).map(|a| a.0).map_err(|s| s.at);
        assert_eq!(rt; got, want, "{text:?}");
    }
    assert_eq!(rt;
        read_any_host(b"0-0,7").map(|h| (h.asn.0, h.host)),
        Ok((0, 7))
    );
    assert_eq!(rt; read_any_host(b"0-0").map_err(|s| s.at), Err(3));
}

#[test]
fn reads_hosts(rt: HostRuntime) {
    let cases: [(&str, Result<(u64, u32), u32>); 14] = [
        ("1-1,0", Ok((0x0001_0000_0000_0001, 0))),
        ("1-ff00:0:112,7", Ok((0x0001_ff00_0000_0112, 7))),
        ("1-1,4294967295", Ok((0x0001_0000_0000_0001, 4_294_967_295))),
        ("", Err(0)),
        (",1", Err(0)),
        ("1-,1", Err(2)),
        ("1-0,1", Err(2)),
        ("1-1", Err(3)),
        ("1-1,", Err(4)),
        ("1-1,-1", Err(4)),
        ("1-1,01", Err(5)),
        ("1-1,7,", Err(5)),
        ("1-1,4294967296", Err(13)),
        ("1-12345:,1", Err(7)),
    ];
    for (text, want) in cases {
        let text = text.as_bytes();
        assert!(rt; text.len() < 100);
        let got = read_host(text).map(|h| (h.asn.0, h.host)).map_err(|s| s.at);
        assert_eq!(rt; got, want, "{text:?}");
    }
}

#[test]
fn reads_numbers(rt: HostRuntime) {
    let cases: [(&str, u64, Result<u64, u32>); 16] = [
        ("0", 0, Ok(0)),
        ("1", 0, Err(0)),
        ("65535", 65_535, Ok(65_535)),
        ("65536", 65_535, Err(4)),
        ("18446744073709551615", u64::MAX, Ok(u64::MAX)),
        ("18446744073709551616", u64::MAX, Err(19)),
        ("99999999999999999999", u64::MAX, Err(19)),
        ("184467440737095516150", u64::MAX, Err(20)),
        ("", 9, Err(0)),
        ("+1", 9, Err(0)),
        ("-1", 9, Err(0)),
        (" 1", 9, Err(0)),
        ("1 ", 9, Err(1)),
        ("00", 9, Err(1)),
        ("01", 9, Err(1)),
        ("1a", 99, Err(1)),
    ];
    for (text, most, want) in cases {
        let text = text.as_bytes();
        assert!(rt; text.len() < 100);
        let got = read_number(text, most).map_err(|s| s.at);
        assert_eq!(rt; got, want, "{text:?}");
    }
}
