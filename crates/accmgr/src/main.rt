//! A part of Apache Accumulo's manager, run from a script over one directory.
#![tactic(auto)]

ghost use Rattle.std.specs.Prelude.{◌≡◌, codes, MatchOption};
ghost use Rattle.std.specs.Str.{IsUtf8};

mod report;

use host_files::FilesHost;
use report::report;
use row_keys::{Octets, Words};
use shell::{dir_of, run};
use std::alloc::{AllocError, Global};
use std::process::ExitCode;
use std::{env, str};

/// The status of want of memory.
const NO_MEMORY: u8 = 7;

/// The words behind the program's name.
fn words(rt: &HostRuntime, alloc: Global) -> Result<Words, AllocError> {
    let mut words = Words::new(alloc);
    if let Ok(args) = env::args(rt) {
        for arg in args.skip(1) {
            words.push(Octets::new(alloc, arg.as_bytes())?)?;
        }
    }
    Ok(words)
}

/// The path of the directory, and where none is named that of the current one.
fn path_of(dir: &Option<Octets>) -> &str
    ensures { MatchOption dir.now (result.now ≡ codes ".") (λ name. IsUtf8 name → result.now ≡ name) }
{
    match dir {
        Some(dir) => str::from_utf8(dir.as_bytes()).unwrap_or("."),
        None => ".",
    }
}

fn serve(rt: &HostRuntime) -> Result<u8, AllocError> {
    let alloc = rt.alloc();
    let words = words(rt, alloc)?;
    let dir = dir_of(alloc, &words)?;
    let host = FilesHost::new(rt.clone()?, alloc, path_of(&dir))?;
    let (outcome, _) = run(alloc, &words, host);
    let _ = report(rt, &outcome);
    Ok(outcome.status)
}

fn main(rt: HostRuntime) -> ExitCode {
    ExitCode::from(serve(&rt).unwrap_or(NO_MEMORY))
}

#[cfg(test)]
mod action_tests;
#[cfg(test)]
mod data_file_tests;
#[cfg(test)]
mod log_tests;
#[cfg(test)]
mod tests;
