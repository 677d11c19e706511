use crate::{is_plain, read_own};
use std::test::Fail;

#[test]
fn plain_names(rt: HostRuntime) {
    let rows: [(&[u8], bool); 8] = [
        (b"a", true),
        (b"!~", true),
        (b"$end1", true),
        (b"$end", false),
        (b"", false),
        (b"a b", false),
        (b"\x7f", false),
        (b"\xc3\xa4", false),
    ];
    for (name, plain) in rows {
        assert_eq!(rt; is_plain(name), plain, "at {name:?}");
    }
}

#[test]
fn small_dump(rt: HostRuntime) -> Result<(), Fail> {
    let trace = read_own(
        rt.alloc(),
        b"$version vvp profile P1 $end\n$timescale 1s $end\n$scope module tb $end\n$var reg 2 ! a [1:0] $end\n$upscope $end\n$enddefinitions $end\n#0\n$dumpvars\nbx !\n$end\n#5\nb1 !\n",
    )?;
    assert_eq!(rt; trace.power, 0);
    assert_eq!(rt; trace.widths.as_slice(), [2].as_slice());
    for var in trace.vars.as_slice() {
        assert_eq!(rt; var.path.as_slice(), b"tb.a".as_slice());
    }
    assert_eq!(rt; trace.vars.as_slice().len(), 1);
    assert_eq!(rt; trace.changes.len(), 2);
    Ok(())
}
