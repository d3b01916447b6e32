//! The program `mu_explore`: does what the words of the command line ask for, over the files of the system and standard output.
#![tactic(auto)]

mod progress;

use crate::progress::Progress;
use mu_base::{FileInputs, Status, StdSink, Words};
use std::alloc::AllocError;
use std::env;
use std::process::ExitCode;
use std::rt::Env;

// The status where the words of the command line cannot be read.
const WORDS_UNREAD: u8 = 14;

// The words of the command line, but for the program's name; None where they cannot be read.
fn read_words<R: Env + AllocGlobal>(rt: &R) -> Option<Result<Words, AllocError>> {
    let mut words = Words::new(rt.alloc());
    let Ok(all) = env::args(rt) else {
        return None;
    };
    for word in all.skip(1) {
        if let Err(error) = words.push(word.as_str()) {
            return Some(Err(error));
        }
    }
    Some(Ok(words))
}

fn main(rt: HostRuntime) -> ExitCode {
    let words = match read_words(&rt) {
        None => return ExitCode::from(WORDS_UNREAD),
        Some(Err(_)) => return ExitCode::from(Status::Memory.code()),
        Some(Ok(words)) => words,
    };
    let mut inputs = FileInputs::new(&rt);
    let mut out = StdSink::new(&rt);
    let mut progress = Progress::new(&rt);
    let status = explore::explore(rt.alloc(), &words, &mut inputs, &mut out, &mut progress);
    // A search that was refused left its line.
    progress.erase();
    ExitCode::from(status.code())
}
