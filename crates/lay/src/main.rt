//! The program `lay`: the top call over standard input and standard output.
#![tactic(auto)]

use lay_cli::{Exit, Means, top};
use lay_outside::{InputSource, OpenGate, OutputSink};
use std::rt::Env;
use std::sync::Wait;
use std::thread::Threads;
use std::{env, io};

fn main(rt: HostRuntime) -> Exit {
    // Words that can't be had as text are a wrong command line, as none is, but for want of memory.
    match words(&rt) {
        Ok(words) => run(&rt, &words),
        Err(error) => match error.kind() {
            io::ErrorKind::OutOfMemory => Exit::without_memory(),
            _ => run(&rt, &[]),
        },
    }
}

fn words(rt: &(impl Env + AllocGlobal)) -> io::Result<Vec<String>> {
    let mut words = Vec::new(rt.alloc());
    for word in env::args(rt)?.skip(1) {
        words.push(word)?;
    }
    Ok(words)
}

fn run<R: Threads + Wait + Sync + Input + Print + AllocGlobal>(rt: &R, words: &[String]) -> Exit {
    let mut source = InputSource::new(rt.reader());
    let mut sink = OutputSink::new(io::writer(rt));
    let mut kept = None;
    let means = Means {
        rt,
        alloc: rt.alloc(),
        gate: &OpenGate,
    };
    top(&means, words, &mut source, &mut sink, &mut kept)
}
