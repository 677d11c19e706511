//! The text of a workload.

ghost use Rattle.std.specs.Prelude.{◌≡◌, ◌++◌, ◌≤◌, ◌^◌, OnOk, IfOk, decimal};
ghost use Rattle.work_gen.specs.Workload.{counter_text, end_text, filled, filled_byte, workload_text};

use itoa::Buffer;
use std::alloc::{AllocError, Global};

// The scope in which all stands.
const SCOPE: &[u8] = b"S_0 .scope module, \"w\" \"w\" 1 1;\n";

// A counter of 16 bits that begins at its number, the gate behind its two lowest bits, and the thread that counts; `#` stands for the number.
const COUNTER: &[u8] = b"q_# .var \"q_#\", 15 0;
p_# .part q_#, 0, 1;
r_# .part q_#, 1, 1;
x_# .functor XOR 1, p_#, r_#;
y_# .net \"y_#\", 0 0, x_#;
T_# ;
 %pushi/vec4 #, 0, 16;
 %store/vec4 q_#, 0, 16;
L_# ;
 %delay 1, 0;
 %load/vec4 q_#;
 %addi 1, 0, 16;
 %store/vec4 q_#, 0, 16;
 %jmp L_#;
 .thread T_#;
";

// The thread that shows a counter and its net after 100 ticks, and ends the run.
const END: &[u8] = b"T_e ;
 %delay 100, 0;
 %vpi_call 1 1 \"$display\", \"%d %b\", q_#, y_# {0 0 0};
 %vpi_call 1 1 \"$finish\" {0 0 0};
 %end;
 .thread T_e;
";

// Adds a byte of a template, or the digits in its place where it is `#`.
fn fill_byte(text: &mut Vec<u8>, byte: u8, digits: &[u8]) -> Result<(), AllocError>
    ensures { OnOk result (text.new.items ≡ text.old.items ++ filled_byte digits.now byte) }
{
    if byte == b'#' {
        return text.extend_from_slice(digits);
    }
    text.push(byte)?;
    Ok(())
}

// Adds a text with these digits at each `#`.
fn fill(text: &mut Vec<u8>, template: &[u8], digits: &[u8]) -> Result<(), AllocError>
    ensures { OnOk result (text.new.items ≡ text.old.items ++ filled template.now digits.now) }
{
    for byte in template {
        fill_byte(text, *byte, digits)?;
    }
    Ok(())
}

// Adds the text of a counter.
fn push_counter(text: &mut Vec<u8>, number: u32) -> Result<(), AllocError>
    ensures { OnOk result (text.new.items ≡ text.old.items ++ counter_text number) }
{
    let mut digits = Buffer::new();
    fill(text, COUNTER, digits.format(number).as_bytes())
}

// Adds the text of the thread that ends the run and shows a counter.
fn push_end(text: &mut Vec<u8>, number: u32) -> Result<(), AllocError>
    ensures { OnOk result (text.new.items ≡ text.old.items ++ end_text number) }
{
    let mut digits = Buffer::new();
    fill(text, END, digits.format(number).as_bytes())
}

/// The text of the workload of a size: that many counters that step at every tick for 100 ticks, from 1 to 2,000. Its run takes 901 steps
/// for each counter and 5 more, and its greatest number of pending dues is 4 for each counter and 1 more.
///
/// # Errors
///
/// `AllocError` where memory is wanting.
pub fn workload(alloc: Global, size: u32) -> Result<Vec<u8>, AllocError>
    requires least { 1 ≤ size }
    requires most { size ≤ 2000 }
    ensures { IfOk result (λ text. text.items ≡ workload_text size) }
{
    let mut text = Vec::new(alloc);
    text.extend_from_slice(SCOPE)?;
    for number in 0..size {
        push_counter(&mut text, number)?;
    }
    push_end(&mut text, size - 1)?;
    Ok(text)
}
