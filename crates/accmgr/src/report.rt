// What is said on the standard error.
use shell::Outcome;
use std::{io, str};

/// Says in one line why the status isn't 0.
pub fn report(rt: &HostRuntime, outcome: &Outcome) -> io::Result<()> {
    match outcome.status {
        0 => Ok(()),
        2 => eprintln!(rt; "usage: accmgr DIR, or accmgr --init DIR"),
        3 => eprintln!(rt; "line {} is too long, or one too many", outcome.lines),
        4 => eprintln!(rt; "the disk failed"),
        5 => eprintln!(rt; "standard input could not be read"),
        6 => eprintln!(rt; "standard output could not be written"),
        7 => eprintln!(rt; "out of memory"),
        8 => eprintln!(rt; "there is no store here, or with --init there is one"),
        9 => report_damaged(rt, outcome),
        _ => eprintln!(rt; "a journal is full, or a number is at its end"),
    }
}

fn report_damaged(rt: &HostRuntime, outcome: &Outcome) -> io::Result<()> {
    match &outcome.damaged {
        Some(name) => {
            let name = str::from_utf8(name.as_bytes()).unwrap_or("");
            eprintln!(rt; "damaged {name}")
        }
        None => Ok(()),
    }
}
