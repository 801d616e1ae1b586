//! The program `fst`: it makes the desk of the operating system, collects the words of its command line, and
//! ends with the status of `fst_command::run`, which does all the work.
#![tactic(auto)]

use fst_command::{Queues, run};
use fst_delayed::CountMeter;
use fst_desk::RealDesk;
use fst_queue::{BestFirst, Fifo, Lifo};
use std::alloc::Global;
use std::io::ErrorKind;
use std::process::ExitCode;
use std::{env, io};

/// The words behind the program's name.
fn words(rt: &HostRuntime, alloc: Global) -> io::Result<Vec<String>> {
    let mut words = Vec::new(alloc);
    for word in env::args(rt)?.skip(1) {
        words.push(word)?;
    }
    Ok(words)
}

fn main(rt: HostRuntime) -> ExitCode {
    let alloc = rt.alloc();
    let mut desk = RealDesk::new(alloc, &rt);
    // The queues that a search of distances may take its states from.
    let (Ok(fifo), Ok(lifo), Ok(best)) = (
        Box::new(alloc, Fifo::new(alloc)),
        Box::new(alloc, Lifo::new(alloc)),
        Box::new(alloc, BestFirst::new(alloc)),
    ) else {
        return ExitCode::from(3);
    };
    let queues = Queues { fifo, lifo, best };
    // It counts the expansions of a batch.
    let mut meter = CountMeter::new();
    let status = match words(&rt, alloc) {
        Ok(words) => run(&rt, alloc, words.as_slice(), &mut desk, queues, &mut meter),
        Err(fault) if fault.kind() == ErrorKind::OutOfMemory => 3,
        // A word that is no text makes a command line that no command has, as no words do.
        Err(_) => run(&rt, alloc, &[], &mut desk, queues, &mut meter),
    };
    ExitCode::from(status)
}
