//! The program `lay_picture`: the call that draws reports over standard input and standard output.
#![tactic(auto)]

use lay_drawing::{Ending, draw, usage};
use lay_outside::{InputSource, OutputSink};
use std::process::ExitCode;
use std::rt::Env;
use std::{env, io};

fn main(rt: HostRuntime) -> ExitCode {
    // Words that can't be had as text are a wrong command line, but for want of memory.
    let ending = match words(&rt) {
        Ok(words) => run(&rt, &words),
        Err(error) => match error.kind() {
            io::ErrorKind::OutOfMemory => Ending::NoMemory,
            _ => usage(&mut OutputSink::new(io::writer(&rt))),
        },
    };
    ExitCode::from(ending.number())
}

fn words(rt: &(impl Env + AllocGlobal)) -> io::Result<Vec<String>> {
    let mut words = Vec::new(rt.alloc());
    for word in env::args(rt)?.skip(1) {
        words.push(word)?;
    }
    Ok(words)
}

fn run<R: Input + Print + AllocGlobal>(rt: &R, words: &[String]) -> Ending {
    let mut source = InputSource::new(rt.reader());
    let mut sink = OutputSink::new(io::writer(rt));
    draw(rt.alloc(), words, &mut source, &mut sink)
}
