// One call of the program, from its words to its status.
ghost use Rattle.std.specs.Prelude.{◌≡◌, ◌≤◌, ℕ, map};
ghost use Rattle.sfm_words.specs.Command.{command_of, demo as Showing};
ghost use Rattle.sfm_run.specs.{Headline.{EndsFor, EndsBy, EndsByForm, Prints, Complains, IsComplete}, Tasks.{task_of}};

use crate::prepare::prepare;
use sfm_due::Status;
use sfm_io::{Shelf, Sink, write_all};
use sfm_words::{Command, Refusal, read_command};
use std::alloc::Global;

/// Makes what is due for a command whole, and writes that.
fn obey<S: Shelf, K: Sink>(alloc: Global, command: Command, shelf: &mut S, out: &mut K) -> Status
    requires { (seed : ℕ) → command_of command ≡ Showing seed → seed ≤ 999999999 }
    ensures { EndsFor (task_of (command_of command.entry)) (S.state shelf.old) (S.state shelf.new)
        (K.state out.old) (K.state out.new) result }
{
    let due = match prepare(alloc, shelf, command) {
        Ok(due) => due,
        Err(status) => return status,
    };
    match write_all(out, due.text.as_slice()) {
        Ok(()) => due.status,
        Err(_) => Status::WriteFault,
    }
}

/// Writes a line, or as much of it as the sink takes.
fn say<E: Sink>(err: &mut E, line: &[u8])
    ensures { Prints line.now (E.state err.old) (E.state err.new) }
{
    let _ = write_all(err, line);
}

/// Says on the second sink why a call failed.
pub fn complain<E: Sink>(err: &mut E, status: Status)
    ensures { Complains (E.state err.old) (E.state err.new) status }
{
    match status {
        Status::Done | Status::Refused | Status::Invalid => {}
        Status::ReadFault => say(err, b"sfm: read failed\n"),
        Status::WriteFault => say(err, b"sfm: write failed\n"),
        Status::Memory => say(err, b"sfm: out of memory\n"),
        Status::Usage => say(
            err,
            b"usage: sfm solve FILE | check FILE ANSWER | demo SEED | weigh FILE SIZES | weighed FILE SIZES ANSWER | ask FILE PINS | level FILE | edit FILE EDITS | meet LEFT RIGHT | met LEFT RIGHT ANSWER\n",
        ),
    }
}

/// Reads the words, and does what they ask for.
fn obey_words<'a, S: Shelf, K: Sink>(
    alloc: Global,
    words: &'a [&'a str],
    shelf: &mut S,
    out: &mut K,
) -> Status
    ensures ended { EndsBy (map (λ word. word.now) words.now) (S.state shelf.old) (S.state shelf.new)
        (K.state out.old) (K.state out.new) result }
    ensures by_form { EndsByForm (map (λ word. word.now) words.now) (S.state shelf.old)
        (S.state shelf.new) (K.state out.old) (K.state out.new) result }
    ensures complete { IsComplete (map (λ word. word.now) words.now) (S.state shelf.old)
        (S.state shelf.new) (K.state out.old) (K.state out.new) result }
{
    match read_command(alloc, words) {
        Ok(command) => obey(alloc, command, shelf, out),
        Err(Refusal::Usage) => Status::Usage,
        Err(Refusal::Memory) => Status::Memory,
    }
}

/// One call of the program with the words after its own name. It opens files on the shelf, writes what is due to `out`
/// and why it failed to `err`.
pub fn run<'a, S: Shelf, K: Sink, E: Sink>(
    alloc: Global,
    words: &'a [&'a str],
    shelf: &mut S,
    out: &mut K,
    err: &mut E,
) -> Status
    ensures ended { EndsBy (map (λ word. word.now) words.now) (S.state shelf.old) (S.state shelf.new)
        (K.state out.old) (K.state out.new) result }
    ensures by_form { EndsByForm (map (λ word. word.now) words.now) (S.state shelf.old)
        (S.state shelf.new) (K.state out.old) (K.state out.new) result }
    ensures said { Complains (E.state err.old) (E.state err.new) result }
    ensures complete { IsComplete (map (λ word. word.now) words.now) (S.state shelf.old)
        (S.state shelf.new) (K.state out.old) (K.state out.new) result }
{
    let status = obey_words(alloc, words, shelf, out);
    complain(err, status);
    status
}
