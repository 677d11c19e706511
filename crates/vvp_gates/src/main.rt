//! Runs a design with gates, a monitor and a dump as the program does, and then shows the dump's file.
#![tactic(auto)]

use std::io::Write;
use std::process::ExitCode;
use std::{fs, io};
use vvp_edge::{DirStore, OutSink};
use vvp_top::vvp_main;

// Shows what stands in the dump's file.
fn show_dump(rt: &HostRuntime) -> io::Result<()> {
    let dump = fs::read(rt, "gates.vcd")?;
    rt.stdout().write_all(&dump)
}

fn main(rt: HostRuntime) -> io::Result<ExitCode> {
    let alloc = rt.alloc();
    let mut words = Vec::new(alloc);
    words.push("gates.vvp".to_string(alloc)?)?;
    let mut errs = OutSink::new(rt.stderr());
    let mut store = DirStore::new(&rt);
    let mut out = OutSink::new(rt.stdout());
    let status = vvp_main(alloc, &words, &mut store, &mut out, &mut errs);
    show_dump(&rt)?;
    Ok(ExitCode::from(status))
}
