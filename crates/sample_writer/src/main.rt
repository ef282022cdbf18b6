//! The program `sample_writer`: writes the sample file with the name that it is given to the standard output. Without
//! arguments it prints the names of all sample files. The exit status is 1 if memory runs out or the output fails, and
//! 2 if the arguments are any others; then it writes nothing.
#![tactic(auto)]

mod names;

use names::SAMPLES;
use sample_files::bytes_of;
use std::alloc::{AllocError, Global};
use std::io::{ErrorKind, Write};
use std::process::ExitCode;
use std::{env, io};

// The names of the sample files, one a line.
fn list(alloc: Global) -> Result<Vec<u8>, AllocError> {
    let mut lines = Vec::new(alloc);
    for (name, _) in &SAMPLES {
        lines.extend_from_slice(name.as_bytes())?;
        lines.push(b'\n')?;
    }
    Ok(lines)
}

// The sample file with this name.
fn sample(alloc: Global, wanted: &str) -> Result<Option<Vec<u8>>, AllocError> {
    for &(name, input) in &SAMPLES {
        if name == wanted {
            return Ok(Some(bytes_of(alloc, input)?));
        }
    }
    Ok(None)
}

// What the arguments ask for. The first of them is the program's name.
fn output(alloc: Global, args: &[String]) -> Result<Option<Vec<u8>>, AllocError> {
    match args {
        [] | [_] => Ok(Some(list(alloc)?)),
        [_, name] => sample(alloc, name),
        _ => Ok(None),
    }
}

// Writes what the arguments ask for. False if that is nothing.
fn run(rt: &HostRuntime) -> io::Result<bool> {
    let args: Vec<String> = env::args(rt)?.collect(rt.alloc())?;
    let Some(bytes) = output(rt.alloc(), &args)? else {
        return Ok(false);
    };
    let mut out = rt.stdout();
    out.write_all(&bytes)?;
    out.flush()?;
    Ok(true)
}

fn main(rt: HostRuntime) -> ExitCode {
    let status = match run(&rt) {
        Ok(true) => 0,
        Ok(false) => 2,
        // An argument that isn't UTF-8 is the name of no sample file.
        Err(e) if e.kind() == ErrorKind::InvalidData => 2,
        Err(_) => 1,
    };
    ExitCode::from(status)
}
