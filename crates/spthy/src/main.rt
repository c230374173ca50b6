// The program: it hands the words of the command line, the files and the terminal to the top call, whose status it ends with.
// It stands on `sp_top`, whose `run` it calls, and on `sp_host`, whose files and terminal it brings. Nothing stands above it.
// It promises nothing of its own: what is said of a call stands on `run`, and of files and the terminal on `sp_host`.
#![tactic(auto)]

use sp_host::{Files, Terminal};
use sp_top::{Status, Words, run};
use std::alloc::AllocError;
use std::env;
use std::io::ErrorKind;
use std::process::ExitCode;
use std::rt::Env;

/// The words of the command line. Words that are no texts are no line of the command, as no words are.
fn words<R: Env + AllocGlobal>(rt: &R) -> Result<Words, AllocError> {
    let mut words = Words::new(rt.alloc());
    match env::args(rt) {
        Ok(args) => {
            for word in args {
                words.push(word.as_str())?;
            }
        }
        Err(cause) => {
            if cause.kind() == ErrorKind::OutOfMemory {
                return Err(AllocError);
            }
        }
    }
    Ok(words)
}

fn main(rt: HostRuntime) -> ExitCode {
    let status = match words(&rt) {
        Ok(words) => {
            let mut library = Files::new(&rt);
            let mut sink = Terminal::new(&rt);
            run(rt.alloc(), &words, &mut library, &mut sink)
        }
        Err(_) => Status::NoMemory,
    };
    ExitCode::from(status as u8)
}
