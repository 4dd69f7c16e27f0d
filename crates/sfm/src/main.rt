// The program `sfm`: it passes its words, the files and the two streams to `run`, and ends with the code of the status.
#![tactic(auto)]

use sfm_due::Status;
use sfm_io::{FileShelf, StreamSink};
use sfm_run::{complain, run};
use std::alloc::AllocError;
use std::env;
use std::io::ErrorKind;
use std::process::ExitCode;
use std::rt::Env;

/// The words after the program's own name. Where one can't be read the program is called with none, which is no command.
fn words_of(rt: &(impl Env + AllocGlobal)) -> Result<Vec<String>, AllocError> {
    let mut words = Vec::new(rt.alloc());
    match env::args(rt) {
        Ok(args) => {
            for word in args.skip(1) {
                words.push(word)?;
            }
            Ok(words)
        }
        Err(error) if error.kind() == ErrorKind::OutOfMemory => Err(AllocError),
        Err(_) => Ok(words),
    }
}

/// One call over the files and the two streams, or Err where there is no memory for the words.
fn call(rt: &HostRuntime) -> Result<Status, AllocError> {
    let alloc = rt.alloc();
    let words = words_of(rt)?;
    let words = words
        .iter()
        .map(|word| word.as_str())
        .collect::<Vec<&str>>(alloc)?;
    let mut shelf = FileShelf::new(rt);
    let mut out = StreamSink::new(rt.stdout());
    let mut err = StreamSink::new(rt.stderr());
    Ok(run(alloc, words.as_slice(), &mut shelf, &mut out, &mut err))
}

fn main(rt: HostRuntime) -> ExitCode {
    let status = match call(&rt) {
        Ok(status) => status,
        Err(_) => {
            complain(&mut StreamSink::new(rt.stderr()), Status::Memory);
            Status::Memory
        }
    };
    ExitCode::from(status.code())
}
