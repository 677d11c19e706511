use crate::{Row, toggles};
use std::test::Fail;
use vcd_read::read_vcd;

/// The rows of a small dump.
fn rows_of(rt: &HostRuntime, src: &[u8]) -> Result<Vec<Row>, Fail> {
    if src.len() > 1000 {
        return Ok(Vec::new(rt.alloc()));
    }
    let trace = read_vcd(rt.alloc(), src)?;
    Ok(toggles(rt.alloc(), &trace)?)
}

fn row(var: u32, rises: u64, falls: u64) -> Row {
    Row { var, rises, falls }
}

#[test]
fn rows(rt: HostRuntime) -> Result<(), Fail> {
    // Values of `a`, a net of one place, and of `v`, one of 70 places; rises and falls of each.
    let table: [(&[u8], Row, Row); 7] = [
        (b"", row(0, 0, 0), row(1, 0, 0)),
        (b"0! bx01 \"", row(0, 0, 0), row(1, 0, 0)),
        (b"0! b0xx1 \" bx01 \" b0 \"", row(0, 0, 0), row(1, 0, 1)),
        (b"0! 1! 0! 1!", row(0, 2, 1), row(1, 0, 0)),
        (b"0! 1! 0! 1! 0!", row(0, 2, 2), row(1, 0, 0)),
        (b"0! 1! 0! 1! 0! 1! 0! 1! 0!", row(0, 4, 4), row(1, 0, 0)),
        (
            b"1! z! x! 0! b0 \" b1111111111111111111111111111111111111111111111111111111111111111111111 \" bx \" b1 \" b0 \"",
            row(0, 0, 0),
            row(1, 70, 1),
        ),
    ];
    for (values, a, v) in table {
        let mut src = Vec::from_slice(
            rt.alloc(),
            b"$var reg 1 ! a $end $var reg 70 \" v $end $enddefinitions $end ",
        )?;
        src.extend_from_slice(values)?;
        let found = rows_of(&rt, &src)?;
        assert_eq!(rt; found.as_slice(), [a, v].as_slice(), "of {values:?}");
    }
    Ok(())
}
