//! The program: it reads a board script on standard input, and writes its account on standard output.
#![tactic(auto)]

mod command;
mod commands;
mod complaints;
mod ending;
mod header;
mod input;
mod line;
mod output;
mod reading;
mod report;
mod stop;
mod top;
mod work;

use command::words_behind_name;
use complaints::{complaint, unread_words};
use std::process::ExitCode;
use std::rt::Env;
use std::{env, io};
use top::run_top;
use xv_base::{NoMemory, Status, Word};
use xv_io::{StdSink, StdSource};

/// The words behind the program's name, or how a run ends without them.
fn command_words<R: Env + AllocGlobal>(rt: &R) -> Result<Vec<Word>, Status> {
    let args: Vec<String> = match env::args(rt) {
        Ok(args) => match args.collect(rt.alloc()) {
            Ok(args) => args,
            Err(_) => return Err(Status::NoMemory),
        },
        Err(error) => return Err(unread_words(error.kind())),
    };
    match words_behind_name(rt.alloc(), args.as_slice()) {
        Ok(words) => Ok(words),
        Err(NoMemory) => Err(Status::NoMemory),
    }
}

fn main(rt: HostRuntime) -> ExitCode {
    let status = match command_words(&rt) {
        Ok(words) => {
            let mut source = StdSource::new(rt.stdin());
            let mut sink = StdSink::new(io::writer(&rt));
            run_top(rt.alloc(), words.as_slice(), &mut source, &mut sink)
        }
        Err(status) => status,
    };
    let text = complaint(status);
    if !text.is_empty() {
        let _ = rt.eprintln(text);
    }
    ExitCode::from(status.number())
}
