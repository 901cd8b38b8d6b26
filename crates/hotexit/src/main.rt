//! `hotexit`: plays a script of editing on a disk, with crashes and restarts, or runs its windows at once, and prints what came
//! of it.
#![tactic(auto)]

use hx_io::{StdSink, StdSource};
use hx_top::{NoWords, run_to_exit};
use std::env;
use std::io::ErrorKind;
use std::process::ExitCode;

// What is said of sources and sinks is said of the standard streams because nothing else here reads or writes.
fn main(rt: HostRuntime) -> ExitCode {
    let mut source = StdSource::new(rt.stdin());
    let mut sink = StdSink::new(rt.stdout());
    let mut errors = StdSink::new(rt.stderr());
    run_to_exit(
        &rt,
        rt.alloc(),
        words_of(&rt),
        &mut source,
        &mut sink,
        &mut errors,
    )
    .code
}

/// The words behind the program's name.
fn words_of(rt: &HostRuntime) -> Result<Vec<String>, NoWords> {
    let args = match env::args(rt) {
        Ok(args) => args,
        Err(error) if error.kind() == ErrorKind::InvalidData => return Err(NoWords::NotText),
        Err(_) => return Err(NoWords::OutOfMemory),
    };
    args.skip(1)
        .collect(rt.alloc())
        .map_err(|_| NoWords::OutOfMemory)
}
