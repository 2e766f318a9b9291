//! `wdf`: filters audio by the wave digital filter of a netlist, in integers.
//!
//! [`run`] is the whole program over any words, files, input, output and note: its contract says what
//! they hold then. `main` calls it with the real ones.
#![tactic(auto)]

mod beginning;
mod beginning_stop;
mod begun;
mod certifying;
mod certifying_stop;
mod checking;
mod checking_stop;
mod commands;
mod designed;
mod designing;
mod filtering;
mod filtering_stop;
mod keeping;
mod laws;
mod networks_stop;
mod noting;
mod reporting;
mod reporting_stop;
mod run;
mod soaking;
mod soaking_stop;
mod statuses;
#[cfg(test)]
mod tests;

use beginning_stop::BeginningStop;
use begun::Begun;
use certifying_stop::CertifyingStop;
use checking_stop::CheckingStop;
use designed::Designed;
use filtering_stop::FilteringStop;
use networks_stop::NetworksStop;
use reporting_stop::ReportingStop;
use soaking_stop::SoakingStop;
use std::env;
use std::io::ErrorKind;
use std::process::ExitCode;
use wdf_io::{DirShelf, StdSink, StdSource};

/// The exit status where the list of arguments finds no memory.
const NO_MEMORY: u8 = 20;

/// The exit status where the system does not give the arguments, or one is not UTF-8.
const NO_WORDS: u8 = 28;

fn main(rt: HostRuntime) -> ExitCode {
    let alloc = rt.alloc();
    let words = match env::args(&rt) {
        Ok(words) => words,
        Err(error) if error.kind() == ErrorKind::OutOfMemory => return ExitCode::from(NO_MEMORY),
        Err(_) => return ExitCode::from(NO_WORDS),
    };
    let Ok(words) = words.skip(1).collect::<Vec<String>>(alloc) else {
        return ExitCode::from(NO_MEMORY);
    };
    let mut shelf = DirShelf::new(&rt);
    let mut input = StdSource::new(rt.stdin());
    let mut out = StdSink::new(rt.stdout());
    let mut note = StdSink::new(rt.stderr());
    let status = run::run(alloc, &words, &mut shelf, &mut input, &mut out, &mut note);
    ExitCode::from(status.code())
}
