ghost use Rattle.std.specs.Prelude.{◌≡◌, ◌≤◌, length};

use super::*;
use four_state::Vec4;
use std::alloc::{AllocError, Global};
use std::test::Fail;
use vvp_lex::Bytes;

// The argument of a value, spelled by its planes.
fn value(low: u128, high: u128, width: u8, signed: bool) -> Shown
    requires least { 1 ≤ width }
    requires most { width ≤ 128 }
{
    Shown::Value {
        value: Vec4::from_planes(low, high, width),
        signed,
    }
}

// The text of a format and a value so many times: its planes, its width and whether it is signed.
fn printed(
    alloc: Global,
    format: &[u8],
    shown: (u128, u128, u8, bool),
    count: u8,
    scale: u64,
) -> Result<Vec<u8>, AllocError> {
    let (low, high, width, signed) = shown;
    let width = width.clamp(1, 128);
    let mut args = Vec::new(alloc);
    args.push(Shown::Text(Bytes::from_slice(alloc, format)?))?;
    for _ in 0..count {
        args.push(value(low, high, width, signed))?;
    }
    let place = Place {
        path: Bytes::from_slice(alloc, b"t.s")?,
        scale,
    };
    let mut out = Vec::new(alloc);
    format_task(alloc, args.as_slice(), &place, &mut out)?;
    Ok(out)
}

#[test]
fn prints(rt: HostRuntime) -> Result<(), Fail> {
    let alloc = rt.alloc();
    for (format, shown, count, scale, expected) in [
        (&b"%d"[..], (1, 0, 1, false), 1, 1, &b"1"[..]),
        // All x, some x, all z, some z.
        (b"%d %h %b", (15, 15, 4, false), 3, 1, b" x x xxxx"),
        (b"%d %h %b", (5, 4, 4, false), 3, 1, b" X X 0x01"),
        (b"%d %h %b", (0, 15, 4, false), 3, 1, b" z z zzzz"),
        (b"%d %h %b", (1, 4, 4, false), 3, 1, b" Z Z 0z01"),
        (b"%04d %03t", (1, 4, 4, false), 2, 1, b"000Z 00Z"),
        // Decimal numbers.
        (b"%d|%0d", (5, 0, 32, true), 2, 1, b"          5|5"),
        (b"%d", (1 << 31, 0, 32, true), 1, 1, b"-2147483648"),
        (
            b"%d",
            (u128::MAX, 0, 128, false),
            1,
            1,
            b"340282366920938463463374607431768211455",
        ),
        (b"%5d|%05d", (11, 0, 4, true), 2, 1, b"   -5|000-5"),
        (b"%d", (1, 0, 1, true), 1, 1, b"-1"),
        // Times.
        (b"%t", (0, 0, 64, false), 1, 1, b"                   0"),
        (b"%0t", (15, 0, 64, false), 1, 100, b"1500"),
        (b"%0t", (3 << 63, 0, 65, false), 1, 2, b"0"),
        // Groups.
        (b"%h %0h", (10, 0, 10, false), 2, 1, b"00a a"),
        (b"%o %0o", (10, 0, 10, false), 2, 1, b"0012 12"),
        (b"%b %0b", (10, 0, 10, false), 2, 1, b"0000001010 1010"),
        (b"%6h %3b %0H", (0, 0, 10, false), 3, 1, b"000000 000 0"),
        (b"%x", (0x3ff, 0x300, 10, false), 1, 1, b"xff"),
        (b"%X", (0x2ff, 0x100, 10, false), 1, 1, b"Zff"),
        // Texts and bytes.
        (b"%s|%0s", (0x41_0042, 0, 32, false), 2, 1, b" A B|A B"),
        (b"%5s", (0x4142, 0, 16, false), 1, 1, b"   AB"),
        (b"%c|%3c", (0x4142, 0, 16, false), 2, 1, b"B|  B"),
        (b"[%0s][%s]", (0, 0, 9, false), 2, 1, b"[][  ]"),
        (b"%s", (0x41ff, 0xff, 16, false), 1, 1, b"A "),
        // Specs that are none, and `%m`.
        (b"%m %5m %M", (0, 0, 1, false), 0, 1, b"t.s t.s t.s"),
        (b"5%% %q %5", (0, 0, 1, false), 0, 1, b"5% %q %5"),
        (b"%5%%d%d", (7, 0, 4, false), 1, 1, b"%5%d 7"),
        (b"%d %d", (7, 0, 4, false), 1, 1, b" 7 %d"),
        (b"%-5d", (7, 0, 4, false), 1, 1, b"%-5d 7"),
        (b"", (7, 0, 4, false), 2, 1, b" 7 7"),
    ] {
        assert_eq!(rt;
            printed(alloc, format, shown, count, scale)?.as_slice(),
            expected
        );
    }
    Ok(())
}
