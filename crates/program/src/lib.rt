// What the programs share at their edges: the words that they are given, the files that they read, and what they say.
#![tactic(auto)]

use std::fmt::Display;
use std::fs::File;
use std::io::Read;
use std::{env, io};

// The job is not done; what there is to say of it has been said.
#[derive(Drop)]
pub struct NotDone;

// The words behind the program's own name.
pub fn arguments(rt: &HostRuntime) -> io::Result<Vec<String>> {
    let words = env::args(rt)?.skip(1).collect(rt.alloc())?;
    Ok(words)
}

// The bytes of a file: all of them, or so many of the first ones.
pub fn front_of(rt: &HostRuntime, path: &str, most: u64) -> io::Result<Vec<u8>> {
    let file = File::open(rt, path)?;
    // There is memory at once for the length that the file is said to have, if there is so much: for 0 where the system does not say.
    let length = file.metadata().map_or(0, |said| said.len());
    let mut bytes = Vec::new(rt.alloc());
    let _ = bytes.reserve(length.min(most) as usize);
    let _ = file.take(most).read_to_end(&mut bytes)?;
    Ok(bytes)
}

// A program at work: the runtime that it is given, and its name, which stands before what it says on standard error.
#[derive(Clone, Copy)]
pub struct Program<'a> {
    pub rt: &'a HostRuntime,
    pub name: &'a str,
}

impl Program<'_> {
    // The words behind the program's own name, or it is said why they cannot be read.
    pub fn arguments(&self) -> Result<Vec<String>, NotDone> {
        arguments(self.rt).map_err(|error| {
            self.not_done(format_args!("the arguments cannot be read: {error}"))
        })
    }

    // The bytes of a file: all of them, or so many of the first ones; or it is said why they cannot be read.
    pub fn front_of(&self, path: &str, most: u64) -> Result<Vec<u8>, NotDone> {
        front_of(self.rt, path, most).map_err(|error| self.not_done(format_args!(
            "{path}: {error}"
        )))
    }

    // Prints an answer, or says why it cannot be printed.
    pub fn print<D: Display + Drop>(&self, answer: D) -> Result<(), NotDone> {
        println!(self.rt; "{answer}").map_err(|error| {
            self.not_done(format_args!("the answer cannot be printed: {error}"))
        })
    }

    // Says on standard error why the job is not done. Where that cannot be said either, the exit status still tells.
    pub fn not_done<D: Display + Drop>(&self, why: D) -> NotDone {
        let name = self.name;
        let _ = eprintln!(self.rt; "{name}: {why}");
        NotDone
    }
}
