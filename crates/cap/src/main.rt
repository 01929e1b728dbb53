//! A card terminal and its host: the words of the command line over standard input and output.
#![tactic(auto)]

use cap_base::{StdSink, StdSource};
use cap_top::run::run;
use cap_top::status::Status;
use std::env::Env;
use std::process::ExitCode;
use std::{env, io};

// The words of the command line, without the program's name.
fn all_words<R: Env + Alloc>(rt: &R) -> io::Result<Vec<String<R::A>, R::A>> {
    let mut words = Vec::new(rt.alloc());
    for word in env::args(rt)?.skip(1) {
        words.push(word)?;
    }
    Ok(words)
}

// How the program ends without its words: memory lacks, or one of them is no text.
fn without_words(error: &io::Error) -> Status {
    if error.kind() == io::ErrorKind::OutOfMemory {
        Status::Memory
    } else {
        Status::Words
    }
}

fn main(rt: HostRuntime) -> ExitCode {
    let status = match all_words(&rt) {
        Ok(words) => {
            let mut input = StdSource::new(rt.reader());
            let mut out = StdSink::new(io::writer(&rt));
            run(rt.alloc(), &words, &mut input, &mut out)
        }
        Err(error) => without_words(&error),
    };
    if status != Status::Done {
        let _ = eprintln!(&rt; "{status}");
    }
    ExitCode::from(status.number())
}
