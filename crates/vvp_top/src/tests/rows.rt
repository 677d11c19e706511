//! The rows of the tests: words, the source of the file `a`, and the status, output and lines that they give.

/// A row. In each text `~` stands for a line feed, and `^` for 200 of them. No lines say that they aren't looked at.
pub(super) struct Row {
    pub(super) name: &'static str,
    pub(super) words: &'static [&'static str],
    pub(super) source: &'static [u8],
    pub(super) status: u8,
    pub(super) out: &'static [u8],
    pub(super) errs: Option<&'static [u8]>,
}

/// How many parts the rows have: a table that is large makes each goal in which it stands large.
pub(super) const PARTS: usize = 13;

/// A part of the rows.
pub(super) fn part(index: usize) -> &'static [Row] {
    match index {
        0 => part_1(),
        1 => part_2(),
        2 => part_3(),
        3 => part_4(),
        4 => part_5(),
        5 => part_6(),
        6 => part_7(),
        7 => part_8(),
        8 => part_9(),
        9 => part_10(),
        10 => part_11(),
        11 => part_12(),
        _ => part_13(),
    }
}

fn part_1() -> &'static [Row] {
    PART_1
}

const PART_1: &[Row] = &[
    Row {
        name: "hello",
        words: &["a"],
        source: b"#! /usr/bin/vvp~:ivl_version \"10.3 (stable)\" \"(v10_3)\";~:ivl_delay_selection \"TYPICAL\";~:vpi_time_precision + 0;~:vpi_module \"system\";~S_0x5581 .scope module, \"main\" \"main\" 2 1;~ .timescale 0 0;~    .scope S_0x5581;~T_0 ;~    %vpi_call 2 3 \"$display\", \"Hello, World\" {0 0 0};~    %vpi_call 2 4 \"$finish\" {0 0 0};~    %end;~    .thread T_0;~# The file index is used to find the file name in the following table.~:file_names 3;~    \"N/A\";~    \"<interactive>\";~    \"hello.v\";~",
        status: 0,
        out: b"Hello, World~",
        errs: Some(b""),
    },
    Row {
        name: "hello_counts",
        words: &["--stats", "a"],
        source: b"#! /usr/bin/vvp~:ivl_version \"10.3 (stable)\" \"(v10_3)\";~:ivl_delay_selection \"TYPICAL\";~:vpi_time_precision + 0;~:vpi_module \"system\";~S_0x5581 .scope module, \"main\" \"main\" 2 1;~ .timescale 0 0;~    .scope S_0x5581;~T_0 ;~    %vpi_call 2 3 \"$display\", \"Hello, World\" {0 0 0};~    %vpi_call 2 4 \"$finish\" {0 0 0};~    %end;~    .thread T_0;~# The file index is used to find the file name in the following table.~:file_names 3;~    \"N/A\";~    \"<interactive>\";~    \"hello.v\";~",
        status: 0,
        out: b"Hello, World~",
        errs: Some(b"ending=finish time=0 steps=3 peak=1~"),
    },
    Row {
        name: "clocked_counter",
        words: &["--stats", "a"],
        source: b":vpi_time_precision + 0;~S_1 .scope module, \"tb\" \"tb\" 2 1;~ .timescale 0 0;~v1_0 .var \"clk\", 0 0;~v2_0 .var \"q\", 3 0;~E_1 .event posedge, v1_0;~    .scope S_1;~T_0 ;~    %pushi/vec4 0, 0, 1;~    %store/vec4 v1_0, 0, 1;~    %pushi/vec4 0, 0, 4;~    %store/vec4 v2_0, 0, 4;~    %end;~    .thread T_0;~T_1 ;~    %delay 5, 0;~    %load/vec4 v1_0;~    %inv;~    %store/vec4 v1_0, 0, 1;~    %jmp T_1;~    .thread T_1;~T_2 ;~    %wait E_1;~    %load/vec4 v2_0;~    %addi 1, 0, 4;~    %assign/vec4 v2_0, 0;~    %vpi_call 2 9 \"$display\", \"%0t %d\", $time, v2_0 {0 0 0};~    %jmp T_2;~    .thread T_2;~T_3 ;~    %delay 80, 0;~    %vpi_call 2 11 \"$finish\" {0 0 0};~    %end;~    .thread T_3;~",
        status: 0,
        out: b"5  0~15  1~25  2~35  3~45  4~55  5~65  6~75  7~",
        errs: Some(b"ending=finish time=80 steps=168 peak=4~"),
    },
    Row {
        name: "empty_file",
        words: &["--events", "0", "--stats", "a"],
        source: b"",
        status: 0,
        out: b"",
        errs: Some(b"ending=idle time=0 steps=0 peak=0~"),
    },
    Row {
        name: "endless_jump",
        words: &["--events", "5", "--stats", "a"],
        source: b"S_1 .scope module, \"m\" \"m\" 1 1;~T_0 ;~ %jmp T_0;~ .thread T_0;~",
        status: 3,
        out: b"",
        errs: Some(b"ending=spent time=0 steps=5 peak=1~vvp: budget spent~"),
    },
];

fn part_2() -> &'static [Row] {
    PART_2
}

const PART_2: &[Row] = &[
    Row {
        name: "budget_edge",
        words: &["--events", "3", "a"],
        source: b"#! /usr/bin/vvp~:ivl_version \"10.3 (stable)\" \"(v10_3)\";~:ivl_delay_selection \"TYPICAL\";~:vpi_time_precision + 0;~:vpi_module \"system\";~S_0x5581 .scope module, \"main\" \"main\" 2 1;~ .timescale 0 0;~    .scope S_0x5581;~T_0 ;~    %vpi_call 2 3 \"$display\", \"Hello, World\" {0 0 0};~    %vpi_call 2 4 \"$finish\" {0 0 0};~    %end;~    .thread T_0;~# The file index is used to find the file name in the following table.~:file_names 3;~    \"N/A\";~    \"<interactive>\";~    \"hello.v\";~",
        status: 0,
        out: b"Hello, World~",
        errs: Some(b""),
    },
    Row {
        name: "budget_edge_below",
        words: &["--events", "2", "a"],
        source: b"#! /usr/bin/vvp~:ivl_version \"10.3 (stable)\" \"(v10_3)\";~:ivl_delay_selection \"TYPICAL\";~:vpi_time_precision + 0;~:vpi_module \"system\";~S_0x5581 .scope module, \"main\" \"main\" 2 1;~ .timescale 0 0;~    .scope S_0x5581;~T_0 ;~    %vpi_call 2 3 \"$display\", \"Hello, World\" {0 0 0};~    %vpi_call 2 4 \"$finish\" {0 0 0};~    %end;~    .thread T_0;~# The file index is used to find the file name in the following table.~:file_names 3;~    \"N/A\";~    \"<interactive>\";~    \"hello.v\";~",
        status: 3,
        out: b"Hello, World~",
        errs: Some(b"vvp: budget spent~"),
    },
    Row {
        name: "forward_reference",
        words: &["a"],
        source: b"S_1 .scope module, \"m\" \"m\" 1 1;~~n_0 .net \"n\", 0 0, v_0;^v_0 .var \"v\", 0 0;~",
        status: 0,
        out: b"",
        errs: Some(b""),
    },
    Row {
        name: "forward_reference_missing",
        words: &["a"],
        source: b"S_1 .scope module, \"m\" \"m\" 1 1;~~n_0 .net \"n\", 0 0, v_0;^~",
        status: 2,
        out: b"",
        errs: Some(b"vvp: line 3: unknown symbol~"),
    },
    Row {
        name: "first_bad_statement",
        words: &["a"],
        source: b"S_1 .scope module, \"m\" \"m\" 1 1;~ .thread T_9;~~ .flop 1;~~ %wat;~",
        status: 2,
        out: b"",
        errs: Some(b"vvp: line 4: unknown statement~"),
    },
    Row {
        name: "replicate_wraps",
        words: &["a"],
        source: b"S_1 .scope module, \"m\" \"m\" 1 1;~T_0 ;~ %pushi/vec4 4294967295, 0, 32;~ %replicate 4;~ %addi 1, 0, 128;~ %vpi_call 1 1 \"$display\", \"%h\", S<0,vec4,u128> {1 0 0};~ %end;~ .thread T_0;~",
        status: 0,
        out: b"00000000000000000000000000000000~",
        errs: Some(b""),
    },
];

fn part_3() -> &'static [Row] {
    PART_3
}

const PART_3: &[Row] = &[
    Row {
        name: "vector_too_wide",
        words: &["a"],
        source: b"S_1 .scope module, \"m\" \"m\" 1 1;~v_0 .var \"v\", 128 0;~",
        status: 2,
        out: b"",
        errs: Some(b"vvp: line 2: vector too wide~"),
    },
    Row {
        name: "stack_under",
        words: &["a"],
        source: b"S_1 .scope module, \"m\" \"m\" 1 1;~T_0 ;~ %add;~ %end;~ .thread T_0;~",
        status: 4,
        out: b"",
        errs: Some(b"vvp: trap StackUnder at 0~"),
    },
    Row {
        name: "widths_differ",
        words: &["a"],
        source: b"S_1 .scope module, \"m\" \"m\" 1 1;~T_0 ;~ %pushi/vec4 1, 0, 3;~ %pushi/vec4 1, 0, 4;~ %add;~ %end;~ .thread T_0;~",
        status: 4,
        out: b"",
        errs: Some(b"vvp: trap Width at 2~"),
    },
    Row {
        name: "printed_all_x",
        words: &["a"],
        source: b"S_1 .scope module, \"m\" \"m\" 1 1;~T_0 ;~ %pushi/vec4 15, 15, 4;~ %pushi/vec4 15, 15, 4;~ %pushi/vec4 15, 15, 4;~ %vpi_call 1 1 \"$display\", \"%d %h %b\", S<0,vec4,u4>, S<1,vec4,u4>, S<2,vec4,u4> {3 0 0};~ %end;~ .thread T_0;~",
        status: 0,
        out: b" x x xxxx~",
        errs: Some(b""),
    },
    Row {
        name: "printed_some_x",
        words: &["a"],
        source: b"S_1 .scope module, \"m\" \"m\" 1 1;~T_0 ;~ %pushi/vec4 5, 4, 4;~ %pushi/vec4 5, 4, 4;~ %pushi/vec4 5, 4, 4;~ %vpi_call 1 1 \"$display\", \"%d %h %b\", S<0,vec4,u4>, S<1,vec4,u4>, S<2,vec4,u4> {3 0 0};~ %end;~ .thread T_0;~",
        status: 0,
        out: b" X X 0x01~",
        errs: Some(b""),
    },
    Row {
        name: "printed_all_z",
        words: &["a"],
        source: b"S_1 .scope module, \"m\" \"m\" 1 1;~T_0 ;~ %pushi/vec4 0, 15, 4;~ %pushi/vec4 0, 15, 4;~ %pushi/vec4 0, 15, 4;~ %vpi_call 1 1 \"$display\", \"%d %h %b\", S<0,vec4,u4>, S<1,vec4,u4>, S<2,vec4,u4> {3 0 0};~ %end;~ .thread T_0;~",
        status: 0,
        out: b" z z zzzz~",
        errs: Some(b""),
    },
];

fn part_4() -> &'static [Row] {
    PART_4
}

const PART_4: &[Row] = &[
    Row {
        name: "printed_some_z",
        words: &["a"],
        source: b"S_1 .scope module, \"m\" \"m\" 1 1;~T_0 ;~ %pushi/vec4 1, 4, 4;~ %pushi/vec4 1, 4, 4;~ %pushi/vec4 1, 4, 4;~ %vpi_call 1 1 \"$display\", \"%d %h %b\", S<0,vec4,u4>, S<1,vec4,u4>, S<2,vec4,u4> {3 0 0};~ %end;~ .thread T_0;~",
        status: 0,
        out: b" Z Z 0z01~",
        errs: Some(b""),
    },
    Row {
        name: "printed_decimals",
        words: &["a"],
        source: b"S_1 .scope module, \"m\" \"m\" 1 1;~T_0 ;~ %pushi/vec4 2147483648, 0, 32;~ %pushi/vec4 2147483648, 0, 32;~ %vpi_call 1 1 \"$display\", \"%d|%0d\", S<0,vec4,s32>, S<1,vec4,s32> {2 0 0};~ %pushi/vec4 5, 0, 32;~ %pushi/vec4 5, 0, 32;~ %vpi_call 1 1 \"$display\", \"%d|%0d\", S<0,vec4,s32>, S<1,vec4,s32> {2 0 0};~ %vpi_call 1 1 \"$display\", \"%t\", $time {0 0 0};~ %end;~ .thread T_0;~",
        status: 0,
        out: b"-2147483648|-2147483648~          5|5~                   0~",
        errs: Some(b""),
    },
    Row {
        name: "resolved_drivers",
        words: &["a"],
        source: b"S_1 .scope module, \"m\" \"m\" 1 1;~A .functor BUFZ 1, C4<0>;~P .functor BUFZ 1 [5 5], C4<1>;~B .functor BUFZ 1, C4<1>;~U .functor BUFZ 1 [7 7], C4<1>;~r_0 .resolv tri, A, P;~r_1 .resolv tri, A, B;~r_2 .resolv tri, A, B, U;~n_0 .net \"n0\", 0 0, r_0;~n_1 .net \"n1\", 0 0, r_1;~n_2 .net \"n2\", 0 0, r_2;~T_0 ;~ %delay 1, 0;~ %vpi_call 1 1 \"$display\", \"%b%b%b\", n_0, n_1, n_2 {0 0 0};~ %end;~ .thread T_0;~",
        status: 0,
        out: b"0x1~",
        errs: Some(b""),
    },
    Row {
        name: "waiters_in_order",
        words: &["--stats", "a"],
        source: b"S_1 .scope module, \"m\" \"m\" 1 1;~v_0 .var \"v\", 0 0;~L_1 .functor AND 1, v_0, v_0;~E_1 .event edge, v_0;~T_0 ;~ %wait E_1;~ %vpi_call 1 1 \"$display\", \"a\" {0 0 0};~ %end;~ .thread T_0;~T_1 ;~ %wait E_1;~ %vpi_call 1 1 \"$display\", \"b\" {0 0 0};~ %end;~ .thread T_1;~T_2 ;~ %delay 1, 0;~ %pushi/vec4 1, 0, 1;~ %store/vec4 v_0, 0, 1;~ %end;~ .thread T_2;~",
        status: 0,
        out: b"a~b~",
        errs: Some(b"ending=idle time=1 steps=18 peak=4~"),
    },
    Row {
        name: "fork_join_disable",
        words: &["--stats", "a"],
        source: b"S_1 .scope module, \"m\" \"m\" 1 1;~S_2 .scope fork, \"f2\" \"f2\" 1 1, 1 1 1, S_1;~S_3 .scope fork, \"f3\" \"f3\" 1 1, 1 1 1, S_1;~S_4 .scope fork, \"f4\" \"f4\" 1 1, 1 1 1, S_1;~ .scope S_1;~T_0 ;~ %fork c_1, S_2;~ %fork c_2, S_3;~ %fork c_3, S_4;~ %join;~ %join;~ %join;~ %vpi_call 1 1 \"$display\", \"joined %0t\", $time {0 0 0};~ %end;~ .thread T_0;~c_1 ;~ %delay 2, 0;~ %vpi_call 1 1 \"$display\", \"one\" {0 0 0};~ %end;~c_2 ;~ %delay 100, 0;~ %vpi_call 1 1 \"$display\", \"two\" {0 0 0};~ %end;~c_3 ;~ %delay 1, 0;~ %disable S_3;~ %vpi_call 1 1 \"$display\", \"three\" {0 0 0};~ %end;~",
        status: 0,
        out: b"three~one~joined 2~",
        errs: Some(b"ending=idle time=100 steps=25 peak=3~"),
    },
];

fn part_5() -> &'static [Row] {
    PART_5
}

const PART_5: &[Row] = &[
    Row {
        name: "join_without_child",
        words: &["a"],
        source: b"S_1 .scope module, \"m\" \"m\" 1 1;~T_0 ;~ %join;~ %end;~ .thread T_0;~",
        status: 4,
        out: b"",
        errs: Some(b"vvp: trap NoChild at 0~"),
    },
    Row {
        name: "times_in_order",
        words: &["--stats", "a"],
        source: b"S_1 .scope module, \"m\" \"m\" 1 1;~T_0 ;~ %delay 257, 0;~ %vpi_call 1 1 \"$display\", \"c\" {0 0 0};~ %end;~ .thread T_0;~T_1 ;~ %delay 256, 0;~ %vpi_call 1 1 \"$display\", \"b\" {0 0 0};~ %delay 1, 0;~ %vpi_call 1 1 \"$display\", \"e\" {0 0 0};~ %end;~ .thread T_1;~T_2 ;~ %delay 255, 0;~ %vpi_call 1 1 \"$display\", \"a\" {0 0 0};~ %end;~ .thread T_2;~T_3 ;~ %delay 1, 0;~ %delay 256, 0;~ %vpi_call 1 1 \"$display\", \"d\" {0 0 0};~ %end;~ .thread T_3;~",
        status: 0,
        out: b"a~b~c~d~e~",
        errs: None,
    },
    Row {
        name: "past_the_last_time",
        words: &["a"],
        source: b"S_1 .scope module, \"m\" \"m\" 1 1;~T_0 ;~ %delay 1, 0;~ %delay 4294967295, 4294967295;~ %end;~ .thread T_0;~",
        status: 4,
        out: b"",
        errs: Some(b"vvp: trap TimeOver at 1~"),
    },
    Row {
        name: "workload_of_one",
        words: &["--mode", "workload", "--stats", "1"],
        source: b"",
        status: 0,
        out: b"   99 0~",
        errs: Some(b"ending=finish time=100 steps=906 peak=5~"),
    },
    Row {
        name: "workload_of_hundred",
        words: &["--mode", "workload", "100", "--stats"],
        source: b"",
        status: 0,
        out: b"  198 1~",
        errs: Some(b"ending=finish time=100 steps=90105 peak=401~"),
    },
    Row {
        name: "workload_of_none",
        words: &["--mode", "workload", "0"],
        source: b"",
        status: 1,
        out: b"",
        errs: Some(b"vvp: bad words~"),
    },
];

fn part_6() -> &'static [Row] {
    PART_6
}

const PART_6: &[Row] = &[
    Row {
        name: "order_of_none",
        words: &["--order", "0", "a"],
        source: b"S_1 .scope module, \"m\" \"m\" 1 1;~v_0 .var \"v\", 1 0;~T_0 ;~ %pushi/vec4 1, 0, 2;~ %store/vec4 v_0, 0, 2;~ %end;~ .thread T_0;~T_1 ;~ %pushi/vec4 2, 0, 2;~ %store/vec4 v_0, 0, 2;~ %end;~ .thread T_1;~T_2 ;~ %delay 1, 0;~ %vpi_call 1 1 \"$display\", \"%0d\", v_0 {0 0 0};~ %vpi_call 1 1 \"$finish\" {0 0 0};~ %end;~ .thread T_2;~",
        status: 0,
        out: b"2~",
        errs: Some(b""),
    },
    Row {
        name: "order_of_seven",
        words: &["--order", "7", "a"],
        source: b"S_1 .scope module, \"m\" \"m\" 1 1;~v_0 .var \"v\", 1 0;~T_0 ;~ %pushi/vec4 1, 0, 2;~ %store/vec4 v_0, 0, 2;~ %end;~ .thread T_0;~T_1 ;~ %pushi/vec4 2, 0, 2;~ %store/vec4 v_0, 0, 2;~ %end;~ .thread T_1;~T_2 ;~ %delay 1, 0;~ %vpi_call 1 1 \"$display\", \"%0d\", v_0 {0 0 0};~ %vpi_call 1 1 \"$finish\" {0 0 0};~ %end;~ .thread T_2;~",
        status: 0,
        out: b"1~",
        errs: Some(b""),
    },
    Row {
        name: "order_too_large",
        words: &["--order", "4294967296", "a"],
        source: b"S_1 .scope module, \"m\" \"m\" 1 1;~v_0 .var \"v\", 1 0;~T_0 ;~ %pushi/vec4 1, 0, 2;~ %store/vec4 v_0, 0, 2;~ %end;~ .thread T_0;~T_1 ;~ %pushi/vec4 2, 0, 2;~ %store/vec4 v_0, 0, 2;~ %end;~ .thread T_1;~T_2 ;~ %delay 1, 0;~ %vpi_call 1 1 \"$display\", \"%0d\", v_0 {0 0 0};~ %vpi_call 1 1 \"$finish\" {0 0 0};~ %end;~ .thread T_2;~",
        status: 1,
        out: b"",
        errs: Some(b"vvp: bad words~"),
    },
    Row {
        name: "order_with_dash",
        words: &["--order", "-1", "a"],
        source: b"S_1 .scope module, \"m\" \"m\" 1 1;~v_0 .var \"v\", 1 0;~T_0 ;~ %pushi/vec4 1, 0, 2;~ %store/vec4 v_0, 0, 2;~ %end;~ .thread T_0;~T_1 ;~ %pushi/vec4 2, 0, 2;~ %store/vec4 v_0, 0, 2;~ %end;~ .thread T_1;~T_2 ;~ %delay 1, 0;~ %vpi_call 1 1 \"$display\", \"%0d\", v_0 {0 0 0};~ %vpi_call 1 1 \"$finish\" {0 0 0};~ %end;~ .thread T_2;~",
        status: 1,
        out: b"",
        errs: Some(b"vvp: bad words~"),
    },
    Row {
        name: "gate_loop",
        words: &["--events", "100", "--stats", "a"],
        source: b"S_1 .scope module, \"m\" \"m\" 1 1;~e_0 .var \"en\", 0 0;~b_0 .functor NAND 1, e_0, a_0;~a_0 .functor BUF 1, b_0;~T_0 ;~ %pushi/vec4 0, 0, 1;~ %store/vec4 e_0, 0, 1;~ %delay 1, 0;~ %pushi/vec4 1, 0, 1;~ %store/vec4 e_0, 0, 1;~ %vpi_call 1 1 \"$display\", \"on\" {0 0 0};~ %delay 1, 0;~ %vpi_call 1 1 \"$display\", \"off\" {0 0 0};~ %end;~ .thread T_0;~",
        status: 3,
        out: b"on~",
        errs: Some(b"ending=spent time=1 steps=100 peak=3~vvp: budget spent~"),
    },
    Row {
        name: "scaled_time",
        words: &["a"],
        source: b":vpi_time_precision - 12;~S_1 .scope module, \"m\" \"m\" 1 1;~ .timescale -9 -12;~T_0 ;~ %delay 1500, 0;~ %vpi_call 1 1 \"$display\", \"%0t %0d\", $time, $time {0 0 0};~ %end;~ .thread T_0;~",
        status: 0,
        out: b"2000 2~",
        errs: Some(b""),
    },
];

fn part_7() -> &'static [Row] {
    PART_7
}

const PART_7: &[Row] = &[
    Row {
        name: "monitor_on_change",
        words: &["a"],
        source: b"S_1 .scope module, \"m\" \"m\" 1 1;~v_0 .var \"v\", 3 0;~T_0 ;~ %vpi_call 1 1 \"$monitor\", \"%0d\", v_0 {0 0 0};~ %pushi/vec4 1, 0, 4;~ %store/vec4 v_0, 0, 4;~ %delay 1, 0;~ %pushi/vec4 1, 0, 4;~ %store/vec4 v_0, 0, 4;~ %delay 1, 0;~ %pushi/vec4 2, 0, 4;~ %store/vec4 v_0, 0, 4;~ %end;~ .thread T_0;~",
        status: 0,
        out: b"1~2~",
        errs: Some(b""),
    },
    Row {
        name: "nonblocking_swap",
        words: &["a"],
        source: b"S_1 .scope module, \"m\" \"m\" 1 1;~v_0 .var \"v\", 1 0;~w_0 .var \"w\", 1 0;~T_0 ;~ %pushi/vec4 1, 0, 2;~ %store/vec4 v_0, 0, 2;~ %pushi/vec4 2, 0, 2;~ %store/vec4 w_0, 0, 2;~ %load/vec4 v_0;~ %assign/vec4 w_0, 0;~ %load/vec4 w_0;~ %assign/vec4 v_0, 0;~ %delay 1, 0;~ %vpi_call 1 1 \"$display\", \"%0d %0d\", v_0, w_0 {0 0 0};~ %end;~ .thread T_0;~",
        status: 0,
        out: b"2 1~",
        errs: Some(b""),
    },
    Row {
        name: "open_string",
        words: &["a"],
        source: b"S_1 .scope module, \"m",
        status: 2,
        out: b"",
        errs: Some(b"vvp: line 1: open string~"),
    },
    Row {
        name: "open_statement",
        words: &["a"],
        source: b"#! /usr/bin/vvp~:ivl_version \"10.3 (stable)\" \"(v10_3)\";~:ivl_delay_selection \"TYPICAL\";~:vpi_time_precision + 0;~:vpi_module \"system\";~S_0x5581 .scope module, \"main\" \"main\" 2 1",
        status: 2,
        out: b"",
        errs: Some(b"vvp: line 6: open statement~"),
    },
    Row {
        name: "missing_file",
        words: &["b"],
        source: b"",
        status: 8,
        out: b"",
        errs: Some(b"vvp: no such file~"),
    },
    Row {
        name: "no_words",
        words: &[],
        source: b"",
        status: 1,
        out: b"",
        errs: Some(b"vvp: bad words~"),
    },
];

fn part_8() -> &'static [Row] {
    PART_8
}

const PART_8: &[Row] = &[
    Row {
        name: "two_operands",
        words: &["a", "a"],
        source: b"",
        status: 1,
        out: b"",
        errs: Some(b"vvp: bad words~"),
    },
    Row {
        name: "array_words",
        words: &["a"],
        source: b"S_1 .scope module, \"m\" \"m\" 1 1;~m_0 .array \"mem\", 0 3, 7 0;~T_0 ;~ %ix/load 3, 2, 0;~ %flag_set/imm 4, 0;~ %pushi/vec4 171, 0, 8;~ %store/vec4a m_0, 3, 0;~ %load/vec4a m_0, 3;~ %ix/load 3, 4, 0;~ %load/vec4a m_0, 3;~ %vpi_call 1 1 \"$display\", \"%h %h\", S<1,vec4,u8>, S<0,vec4,u8> {2 0 0};~ %end;~ .thread T_0;~",
        status: 0,
        out: b"ab xx~",
        errs: Some(b""),
    },
    Row {
        name: "producer_constant",
        words: &["a"],
        source: b"S_1 .scope module, \"m\" \"m\" 1 1;~L_1 .functor BUFT 1, C4<00000101>, C4<0>, C4<0>, C4<0>;~k_0 .net/2u *\"_s0\", 7 0, L_1;~n_0 .net \"n\", 7 0, k_0;~T_0 ;~ %delay 1, 0;~ %vpi_call 1 1 \"$display\", \"%b\", n_0 {0 0 0};~ %end;~ .thread T_0;~",
        status: 0,
        out: b"00000101~",
        errs: Some(b""),
    },
    Row {
        name: "delayed_threads",
        words: &["a"],
        source: b"S_1 .scope module, \"m\" \"m\" 1 1;~v_0 .var \"v\", 1 0;~T_0 ;~ %delay 2, 0;~ %vpi_call 1 1 \"$display\", \"%b\", v_0 {0 0 0};~ %end;~ .thread T_0;~T_1 ;~ %pushi/vec4 2, 0, 2;~ %delay 1, 0;~ %store/vec4 v_0, 0, 2;~ %end;~ .thread T_1;~T_2 ;~ %delay 0, 0;~ %vpi_call 1 1 \"$display\", \"%b\", v_0 {0 0 0};~ %end;~ .thread T_2;~",
        status: 0,
        out: b"xx~10~",
        errs: Some(b""),
    },
    Row {
        name: "store_under",
        words: &["a"],
        source: b"S_1 .scope module, \"m\" \"m\" 1 1;~v_0 .var \"v\", 1 0;~T_0 ;~ %store/vec4 v_0, 0, 2;~ %end;~ .thread T_0;~",
        status: 4,
        out: b"",
        errs: Some(b"vvp: trap StackUnder at 0~"),
    },
    Row {
        name: "store_width",
        words: &["a"],
        source: b"S_1 .scope module, \"m\" \"m\" 1 1;~v_0 .var \"v\", 1 0;~T_0 ;~ %pushi/vec4 1, 0, 3;~ %store/vec4 v_0, 0, 2;~ %end;~ .thread T_0;~",
        status: 4,
        out: b"",
        errs: Some(b"vvp: trap Width at 1~"),
    },
];

fn part_9() -> &'static [Row] {
    PART_9
}

const PART_9: &[Row] = &[
    Row {
        name: "off_end",
        words: &["a"],
        source: b"S_1 .scope module, \"m\" \"m\" 1 1;~T_0 ;~ %delay 1, 0;~ .thread T_0;~",
        status: 4,
        out: b"",
        errs: Some(b"vvp: trap OffEnd at 1~"),
    },
    Row {
        name: "division_by_zero",
        words: &["a"],
        source: b"S_1 .scope module, \"m\" \"m\" 1 1;~v_0 .var \"v\", 3 0;~T_0 ;~ %pushi/vec4 5, 0, 4;~ %pushi/vec4 0, 0, 4;~ %div;~ %store/vec4 v_0, 0, 4;~ %vpi_call 1 1 \"$display\", \"%b\", v_0 {0 0 0};~ %end;~ .thread T_0;~",
        status: 0,
        out: b"xxxx~",
        errs: Some(b""),
    },
    Row {
        name: "unknown_select",
        words: &["a"],
        source: b"S_1 .scope module, \"m\" \"m\" 1 1;~a_0 .var \"a\", 1 0;~b_0 .var \"b\", 1 0;~s_0 .var \"s\", 0 0;~m_0 .functor MUXZ 2, a_0, b_0, s_0;~n_0 .net \"n\", 1 0, m_0;~T_0 ;~ %pushi/vec4 1, 0, 2;~ %store/vec4 a_0, 0, 2;~ %pushi/vec4 3, 0, 2;~ %store/vec4 b_0, 0, 2;~ %delay 1, 0;~ %vpi_call 1 1 \"$display\", \"%b\", n_0 {0 0 0};~ %pushi/vec4 1, 0, 1;~ %store/vec4 s_0, 0, 1;~ %delay 1, 0;~ %vpi_call 1 1 \"$display\", \"%b\", n_0 {0 0 0};~ %end;~ .thread T_0;~",
        status: 0,
        out: b"x1~11~",
        errs: Some(b""),
    },
    Row {
        name: "open_string_in_header",
        words: &["a"],
        source: b"#! /usr/bin/vvp~:ivl_version \"10.3~",
        status: 2,
        out: b"",
        errs: Some(b"vvp: line 2: open string~"),
    },
    Row {
        name: "bad_byte",
        words: &["a"],
        source: b"\x80",
        status: 2,
        out: b"",
        errs: Some(b"vvp: line 1: bad character~"),
    },
    Row {
        name: "bad_number",
        words: &["a"],
        source: b"S_1 .scope module, \"m\" \"m\" 1 1;~ %delay 12ab, 0;~",
        status: 2,
        out: b"",
        errs: Some(b"vvp: line 2: bad character~"),
    },
];

fn part_10() -> &'static [Row] {
    PART_10
}

const PART_10: &[Row] = &[
    Row {
        name: "number_too_large",
        words: &["a"],
        source: b"S_1 .scope module, \"m\" \"m\" 1 1;~ %delay 18446744073709551616, 0;~",
        status: 2,
        out: b"",
        errs: Some(b"vvp: line 2: number too large~"),
    },
    Row {
        name: "wide_constant",
        words: &["a"],
        source: b"S_1 .scope module, \"m\" \"m\" 1 1;~r_0 .resolv tri, C4<000000000000000000000000000000000000000000000000000000000000000000000000000000000000000000000000000000000000000000000000000000000>;~",
        status: 2,
        out: b"",
        errs: Some(b"vvp: line 2: vector too wide~"),
    },
    Row {
        name: "no_code",
        words: &["a"],
        source: b"S_1 .scope module, \"m\" \"m\" 1 1;~T_0 ;~ .thread T_0;~",
        status: 2,
        out: b"",
        errs: Some(b"vvp: line 3: no code~"),
    },
    Row {
        name: "own_parent",
        words: &["a"],
        source: b"S_1 .scope module, \"m\" \"m\" 1 1;~S_2 .scope module, \"a\" \"a\" 1 1, 1 1 1, S_2;~",
        status: 2,
        out: b"",
        errs: Some(b"vvp: line 2: wrong kind~"),
    },
    Row {
        name: "net_delay",
        words: &["--stats", "a"],
        source: b"S_1 .scope module, \"m\" \"m\" 1 1;~v_0 .var \"v\", 0 0;~d_0 .delay 1 (3, 5, 2) v_0;~n_0 .net \"n\", 0 0, d_0;~T_0 ;~ %vpi_call 1 1 \"$monitor\", \"%0t %b\", $time, n_0 {0 0 0};~ %pushi/vec4 1, 0, 1;~ %store/vec4 v_0, 0, 1;~ %delay 10, 0;~ %pushi/vec4 0, 0, 1;~ %store/vec4 v_0, 0, 1;~ %delay 2, 0;~ %pushi/vec4 1, 0, 1;~ %store/vec4 v_0, 0, 1;~ %delay 1, 0;~ %pushi/vec4 0, 0, 1;~ %store/vec4 v_0, 0, 1;~ %delay 20, 0;~ %end;~ .thread T_0;~",
        status: 0,
        out: b"0 x~3 1~18 0~",
        errs: Some(b"ending=idle time=33 steps=27 peak=3~"),
    },
    Row {
        name: "delay_without_times",
        words: &["a"],
        source: b"S_1 .scope module, \"m\" \"m\" 1 1;~d_0 .delay 1 v_0;~",
        status: 2,
        out: b"",
        errs: Some(b"vvp: line 2: bad operands~"),
    },
];

fn part_11() -> &'static [Row] {
    PART_11
}

const PART_11: &[Row] = &[
    Row {
        name: "forced_places",
        words: &["a"],
        source: b"S_1 .scope module, \"m\" \"m\" 1 1;~v_0 .var \"v\", 3 0;~f_0 .functor NOT 4, v_0;~n_0 .net \"n\", 3 0, f_0;~T_0 ;~ %pushi/vec4 5, 0, 4;~ %store/vec4 v_0, 0, 4;~ %delay 1, 0;~ %pushi/vec4 9, 0, 4;~ %force/vec4 n_0;~ %vpi_call 1 1 \"$display\", \"%b\", n_0 {0 0 0};~ %pushi/vec4 15, 0, 4;~ %store/vec4 v_0, 0, 4;~ %delay 1, 0;~ %vpi_call 1 1 \"$display\", \"%b\", n_0 {0 0 0};~ %release/net n_0, 0, 2;~ %vpi_call 1 1 \"$display\", \"%b\", n_0 {0 0 0};~ %release/net n_0, 0, 4;~ %vpi_call 1 1 \"$display\", \"%b\", n_0 {0 0 0};~ %pushi/vec4 2, 0, 4;~ %force/vec4 v_0;~ %vpi_call 1 1 \"$display\", \"%b\", v_0 {0 0 0};~ %pushi/vec4 7, 0, 4;~ %store/vec4 v_0, 0, 4;~ %vpi_call 1 1 \"$display\", \"%b\", v_0 {0 0 0};~ %release/reg v_0, 0, 4;~ %vpi_call 1 1 \"$display\", \"%b\", v_0 {0 0 0};~ %pushi/vec4 7, 0, 4;~ %store/vec4 v_0, 0, 4;~ %vpi_call 1 1 \"$display\", \"%b\", v_0 {0 0 0};~ %end;~ .thread T_0;~",
        status: 0,
        out: b"1001~1001~1000~0000~0010~0010~0010~0111~",
        errs: Some(b""),
    },
    Row {
        name: "release_outside",
        words: &["a"],
        source: b"S_1 .scope module, \"m\" \"m\" 1 1;~v_0 .var \"v\", 3 0;~f_0 .functor NOT 4, v_0;~n_0 .net \"n\", 3 0, f_0;~T_0 ;~ %pushi/vec4 5, 0, 4;~ %store/vec4 v_0, 0, 4;~ %delay 1, 0;~ %pushi/vec4 9, 0, 4;~ %force/vec4 n_0;~ %vpi_call 1 1 \"$display\", \"%b\", n_0 {0 0 0};~ %pushi/vec4 15, 0, 4;~ %store/vec4 v_0, 0, 4;~ %delay 1, 0;~ %vpi_call 1 1 \"$display\", \"%b\", n_0 {0 0 0};~ %release/net n_0, 2, 3;~ %vpi_call 1 1 \"$display\", \"%b\", n_0 {0 0 0};~ %release/net n_0, 0, 4;~ %vpi_call 1 1 \"$display\", \"%b\", n_0 {0 0 0};~ %pushi/vec4 2, 0, 4;~ %force/vec4 v_0;~ %vpi_call 1 1 \"$display\", \"%b\", v_0 {0 0 0};~ %pushi/vec4 7, 0, 4;~ %store/vec4 v_0, 0, 4;~ %vpi_call 1 1 \"$display\", \"%b\", v_0 {0 0 0};~ %release/reg v_0, 0, 4;~ %vpi_call 1 1 \"$display\", \"%b\", v_0 {0 0 0};~ %pushi/vec4 7, 0, 4;~ %store/vec4 v_0, 0, 4;~ %vpi_call 1 1 \"$display\", \"%b\", v_0 {0 0 0};~ %end;~ .thread T_0;~",
        status: 2,
        out: b"",
        errs: Some(b"vvp: line 16: part outside~"),
    },
];

fn part_12() -> &'static [Row] {
    PART_12
}

const PART_12: &[Row] = &[
    Row {
        name: "toggles",
        words: &["--mode", "toggles", "a"],
        source: b"$version vvp profile P1 $end~$timescale 1ns $end~$scope module tb $end~$var reg 1 ! a $end~$var reg 4 \" v [3:0] $end~$upscope $end~$enddefinitions $end~#0~$dumpvars~0!~b0xx1 \"~$end~#1~bx01 \"~#2~b0 \"~",
        status: 0,
        out: b"tb.a 0 0~tb.v 0 1~",
        errs: Some(b""),
    },
    Row {
        name: "toggles_time_back",
        words: &["--mode", "toggles", "a"],
        source: b"$enddefinitions $end~#5~#4~",
        status: 2,
        out: b"",
        errs: Some(b"vvp: line 3: time back~"),
    },
    Row {
        name: "toggles_open_end",
        words: &["--mode", "toggles", "a"],
        source: b"~",
        status: 2,
        out: b"",
        errs: Some(b"vvp: line 2: open end~"),
    },
    Row {
        name: "toggles_stats",
        words: &["--stats", "--mode", "toggles", "a"],
        source: b"$enddefinitions $end",
        status: 1,
        out: b"",
        errs: Some(b"vvp: bad words~"),
    },
    Row {
        name: "toggles_usual_order",
        words: &["--order", "0", "--mode", "toggles", "a"],
        source: b"$enddefinitions $end",
        status: 1,
        out: b"",
        errs: Some(b"vvp: bad words~"),
    },
    Row {
        name: "toggles_events",
        words: &["--events", "5", "--mode", "toggles", "a"],
        source: b"$enddefinitions $end",
        status: 1,
        out: b"",
        errs: Some(b"vvp: bad words~"),
    },
    Row {
        name: "toggles_no_file",
        words: &["--mode", "toggles", "b"],
        source: b"$enddefinitions $end",
        status: 8,
        out: b"",
        errs: Some(b"vvp: no such file~"),
    },
];

fn part_13() -> &'static [Row] {
    PART_13
}

const PART_13: &[Row] = &[
    Row {
        name: "activity",
        words: &["--mode", "activity", "a"],
        source: b":vpi_time_precision - 9;~S_1 .scope module, \"tb\" \"tb\" 1 1;~a_0 .var \"a\", 0 0;~v_0 .var \"v\", 3 0;~T_0 ;~ %vpi_call 1 1 \"$dumpfile\", \"d\" {0 0 0};~ %vpi_call 1 1 \"$dumpvars\" {0 0 0};~ %pushi/vec4 0, 0, 1;~ %store/vec4 a_0, 0, 1;~ %pushi/vec4 7, 6, 4;~ %store/vec4 v_0, 0, 4;~ %delay 1, 0;~ %pushi/vec4 1, 0, 1;~ %store/vec4 a_0, 0, 1;~ %pushi/vec4 0, 0, 1;~ %store/vec4 a_0, 0, 1;~ %pushi/vec4 13, 12, 4;~ %store/vec4 v_0, 0, 4;~ %delay 1, 0;~ %pushi/vec4 0, 0, 4;~ %store/vec4 v_0, 0, 4;~ %end;~ .thread T_0;~",
        status: 0,
        out: b"tb.a 0 0~tb.v 0 1~",
        errs: Some(b""),
    },
    Row {
        name: "activity_trap",
        words: &["--mode", "activity", "a"],
        source: b"S_1 .scope module, \"tb\" \"tb\" 1 1;~a_0 .var \"a\", 0 0;~T_0 ;~ %vpi_call 1 1 \"$dumpvars\" {0 0 0};~ %pushi/vec4 0, 0, 1;~ %store/vec4 a_0, 0, 1;~ %delay 1, 0;~ %vpi_call 1 1 \"$display\", \"hello\" {0 0 0};~ %pushi/vec4 1, 0, 1;~ %store/vec4 a_0, 0, 1;~ %delay 1, 0;~ %pushi/vec4 0, 0, 1;~ %store/vec4 a_0, 0, 1;~ %delay 1, 0;~ %add;~ .thread T_0;~",
        status: 4,
        out: b"tb.a 1 1~",
        errs: Some(b"vvp: trap StackUnder at 11~"),
    },
    Row {
        name: "activity_spent",
        words: &["--events", "12", "--mode", "activity", "a"],
        source: b"S_1 .scope module, \"tb\" \"tb\" 1 1;~a_0 .var \"a\", 0 0;~T_0 ;~ %vpi_call 1 1 \"$dumpvars\" {0 0 0};~ %pushi/vec4 0, 0, 1;~ %store/vec4 a_0, 0, 1;~ %delay 1, 0;~ %vpi_call 1 1 \"$display\", \"hello\" {0 0 0};~ %pushi/vec4 1, 0, 1;~ %store/vec4 a_0, 0, 1;~ %delay 1, 0;~ %pushi/vec4 0, 0, 1;~ %store/vec4 a_0, 0, 1;~ %delay 1, 0;~ %add;~ .thread T_0;~",
        status: 3,
        out: b"tb.a 1 0~",
        errs: Some(b"vvp: budget spent~"),
    },
    Row {
        name: "activity_no_dump",
        words: &["--order", "1", "--mode", "activity", "a"],
        source: b"S_1 .scope module, \"m\" \"m\" 1 1;~T_0 ;~ %vpi_call 1 1 \"$display\", \"Hello\" {0 0 0};~ %end;~ .thread T_0;~",
        status: 0,
        out: b"",
        errs: Some(b""),
    },
    Row {
        name: "activity_bad_name",
        words: &["--mode", "activity", "a"],
        source: b"S_1 .scope module, \"m\" \"m\" 1 1;~a_0 .var \"a b\", 0 0;~",
        status: 2,
        out: b"",
        errs: Some(b"vvp: line 0: bad name~"),
    },
    Row {
        name: "activity_stats",
        words: &["--stats", "--mode", "activity", "a"],
        source: b"S_1 .scope module, \"m\" \"m\" 1 1;~T_0 ;~ %vpi_call 1 1 \"$display\", \"Hello\" {0 0 0};~ %end;~ .thread T_0;~",
        status: 1,
        out: b"",
        errs: Some(b"vvp: bad words~"),
    },
];
