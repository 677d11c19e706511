//! The text of workloads.

use crate::workload;
use std::alloc::{AllocError, Global};
use std::test::Fail;

// The workload of one counter.
const ONE: &str = "S_0 .scope module, \"w\" \"w\" 1 1;
q_0 .var \"q_0\", 15 0;
p_0 .part q_0, 0, 1;
r_0 .part q_0, 1, 1;
x_0 .functor XOR 1, p_0, r_0;
y_0 .net \"y_0\", 0 0, x_0;
T_0 ;
 %pushi/vec4 0, 0, 16;
 %store/vec4 q_0, 0, 16;
L_0 ;
 %delay 1, 0;
 %load/vec4 q_0;
 %addi 1, 0, 16;
 %store/vec4 q_0, 0, 16;
 %jmp L_0;
 .thread T_0;
T_e ;
 %delay 100, 0;
 %vpi_call 1 1 \"$display\", \"%d %b\", q_0, y_0 {0 0 0};
 %vpi_call 1 1 \"$finish\" {0 0 0};
 %end;
 .thread T_e;
";

// The call, without its contract, which would stand in each goal after it.
fn text_of(alloc: Global, size: u32) -> Result<Vec<u8>, AllocError> {
    workload(alloc, size.clamp(1, 2_000))
}

#[test]
fn one_counter(rt: HostRuntime) -> Result<(), Fail> {
    assert_eq!(rt; text_of(rt.alloc(), 1)?.as_slice(), ONE.as_bytes());
    Ok(())
}

// How many bytes a text has, and how the statement that shows a counter stands in it.
#[test]
fn sizes_by_table(rt: HostRuntime) -> Result<(), Fail> {
    let rows = [
        (2, 719, "y_1 {"),
        (11, 3_243, "y_10 {"),
        (2_000, 653_969, "y_1999 {"),
    ];
    for (size, length, shown) in rows {
        let text = text_of(rt.alloc(), size)?;
        assert_eq!(rt; text.len(), length);
        assert!(rt;
            text.windows(shown.len())
                .any(|part| part == shown.as_bytes())
        );
    }
    Ok(())
}
