//! The program `bloaty`: which parts of a binary take up its space.
#![tactic(auto)]

mod program;

use custom_rewrites::RegexPatterns;
use outside::{HostFiles, HostSink};
use program::Host;
use std::process::ExitCode;
use std::{env, io};

// The arguments. The first one is the program's name.
fn args_of(rt: &HostRuntime) -> io::Result<Vec<String>> {
    Ok(env::args(rt)?.collect(rt.alloc())?)
}

fn main(rt: HostRuntime) -> ExitCode {
    let args = args_of(&rt);
    let mut host = Host {
        files: HostFiles::new(&rt),
        patterns: RegexPatterns::new(Vec::new(rt.alloc())),
        out: HostSink::new(rt.stdout()),
        err: HostSink::new(rt.stderr()),
    };
    let status = program::run(rt.alloc(), &args, &mut host);
    ExitCode::from(status)
}
