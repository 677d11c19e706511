use crate::{VcdFault, VcdKind, read_vcd};
use std::test::Fail;

/// The fault of a file of a table here.
fn fault(rt: &HostRuntime, src: &[u8]) -> Option<VcdFault> {
    if 1000 < src.len() {
        return None;
    }
    match read_vcd(rt.alloc(), src) {
        Ok(_) => None,
        Err(fault) => Some(fault),
    }
}

fn refused(line: u32, kind: VcdKind) -> Option<VcdFault> {
    Some(VcdFault::Refused { line, kind })
}

#[test]
fn faults(rt: HostRuntime) {
    let rows: [(&[u8], Option<VcdFault>); 14] = [
        (b"$enddefinitions $end", None),
        (
            b"$enddefinitions $end\n#5\n#4\n",
            refused(3, VcdKind::TimeBack),
        ),
        (b"", refused(1, VcdKind::OpenEnd)),
        (b"\n$date\n\n", refused(4, VcdKind::OpenEnd)),
        (
            b"$enddefinitions $end $dumpvars\n",
            refused(2, VcdKind::OpenEnd),
        ),
        (b"$enddefinitions $end\n\x01", refused(2, VcdKind::BadByte)),
        (b"$enddefinitions\n$en\x01", refused(2, VcdKind::BadWord)),
        (b"$var reg 0 ! a $end", refused(1, VcdKind::BadWord)),
        (b"$var reg 0129 ! a $end", refused(1, VcdKind::TooWide)),
        (
            b"$var reg 99999999999999999999 ! a $end",
            refused(1, VcdKind::TooWide),
        ),
        (b"$var real 64 ! a $end", refused(1, VcdKind::BadWord)),
        (b"$upscope $end", refused(1, VcdKind::BadWord)),
        (
            b"$enddefinitions $end b01 $end",
            refused(1, VcdKind::UnknownCode),
        ),
        (
            b"$timescale 10 ns $end $timescale 1s $end $var reg 1 ! a $end $enddefinitions $end b01\n!",
            refused(2, VcdKind::BadWord),
        ),
    ];
    for (src, expected) in rows {
        assert_eq!(rt; fault(&rt, src), expected, "at {src:?}");
    }
}

#[test]
fn traces(rt: HostRuntime) -> Result<(), Fail> {
    let src: &[u8] =
        b"$date\ttoday $end $timescale 100 us $end $timescale 10ps $end\r\n$scope module tb $end $scope task t $end\n$var reg 1 ! a $end $upscope $end $var wire 4 \"x v [3:0] $end $var wire 1 ! b $end\n$enddefinitions $end 0!\n#7 $dumpvars b0xz1 \"x $end $comment 1! $end\n#18446744073709551615 BZ1 \"x z! $dumpoff $end";
    let trace = read_vcd(rt.alloc(), src)?;
    assert_eq!(rt; trace.power, -11);
    assert_eq!(rt; trace.widths.as_slice(), [1, 4].as_slice());
    let vars: [(&[u8], u32); 3] = [(b"tb.t.a", 0), (b"tb.v", 1), (b"tb.b", 0)];
    for (i, var) in trace.vars.as_slice().iter().enumerate() {
        assert_eq!(rt; Some(&(var.path.as_slice(), var.net)), vars.get(i));
    }
    // Each place of the low plane, and of the high plane.
    let changes: [(u64, u32, u128, u128); 4] = [
        (0, 0, 0, 0),
        (7, 1, 0b0101, 0b0110),
        (u64::MAX, 1, 0b0001, 0b1110),
        (u64::MAX, 0, 0, 1),
    ];
    for (i, change) in trace.changes.iter().enumerate() {
        let (a, b) = change.value.planes();
        assert_eq!(rt; Some(&(change.time, change.net, a, b)), changes.get(i));
    }
    assert_eq!(rt; trace.vars.as_slice().len(), 3);
    assert_eq!(rt; trace.changes.len(), 4);
    Ok(())
}
