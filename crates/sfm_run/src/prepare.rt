// What is due for each command, made whole before any of it is written. Its files are opened one after the other, each where those
// before it have no fault.
ghost use Rattle.std.specs.Prelude.{◌≡◌, ◌≤◌, ℕ};
ghost use Rattle.sfm_io.specs.Shelf.{ShelfState};
ghost use Rattle.sfm_words.specs.{Command.{command_of}, Subcommand.{solve as Solving, check as Checking, demo as Showing, weigh as Weighing, weighed as CheckingWeighed, ask as Asking, level as Levelling, edit as Editing, meet as Meeting, met as CheckingMet}};
ghost use Rattle.sfm_run.specs.{Preparing.{Prepares, settled}, Tasks.{task_of}};

use crate::open::{
    open_edits, open_instance, open_left, open_level, open_pins, open_right, open_sizes,
};
use crate::stop::{Stop, settle};
use sfm_due::{
    Due, Status, due_to_ask, due_to_check, due_to_check_weighed, due_to_demo, due_to_level,
    due_to_solve, due_to_weigh, read_text,
};
use sfm_io::Shelf;
use sfm_pair::{due_to_meet, due_to_met};
use sfm_readback::ANSWER_LIMIT;
use sfm_words::Command;
use std::alloc::Global;

/// Reads an instance, and makes what is due to solve it.
fn prepare_solve<S: Shelf>(alloc: Global, shelf: &mut S, file: &str) -> Result<Due, Stop>
    ensures { Prepares (task_of (Solving file.now)) (S.state shelf.old) (S.state shelf.new)
        (settled result) }
{
    let instance = open_instance(alloc, shelf, file)?;
    let due = due_to_solve(alloc, &instance)?;
    Ok(due)
}

/// Reads an instance and an answer, and makes what is due to check the answer.
fn prepare_check<S: Shelf>(
    alloc: Global,
    shelf: &mut S,
    file: &str,
    answer: &str,
) -> Result<Due, Stop>
    ensures { Prepares (task_of (Checking file.now answer.now)) (S.state shelf.old)
        (S.state shelf.new) (settled result) }
{
    let instance = open_instance(alloc, shelf, file)?;
    let text = read_text(alloc, shelf, answer, ANSWER_LIMIT)?;
    let due = due_to_check(alloc, &instance, &text)?;
    Ok(due)
}

/// Makes what is due for a demonstration; no file is opened.
fn prepare_demo(alloc: Global, seed: u64) -> Result<Due, Stop>
    requires { seed ≤ 999999999 }
    ensures { (shelf : ShelfState) → Prepares (task_of (Showing seed)) shelf shelf
        (settled result) }
{
    let due = due_to_demo(alloc, seed)?;
    Ok(due)
}

/// Reads an instance and sizes, and makes what is due to find its slopes by them.
fn prepare_weigh<S: Shelf>(
    alloc: Global,
    shelf: &mut S,
    file: &str,
    sizes: &str,
) -> Result<Due, Stop>
    ensures { Prepares (task_of (Weighing file.now sizes.now)) (S.state shelf.old)
        (S.state shelf.new) (settled result) }
{
    let instance = open_instance(alloc, shelf, file)?;
    let sizes = open_sizes(alloc, shelf, &instance, sizes)?;
    let due = due_to_weigh(alloc, &instance, &sizes)?;
    Ok(due)
}

/// Reads an instance, sizes and an answer, and makes what is due to check the answer.
fn prepare_weighed<S: Shelf>(
    alloc: Global,
    shelf: &mut S,
    file: &str,
    sizes: &str,
    answer: &str,
) -> Result<Due, Stop>
    ensures { Prepares (task_of (CheckingWeighed file.now sizes.now answer.now))
        (S.state shelf.old) (S.state shelf.new) (settled result) }
{
    let instance = open_instance(alloc, shelf, file)?;
    let sizes = open_sizes(alloc, shelf, &instance, sizes)?;
    let text = read_text(alloc, shelf, answer, ANSWER_LIMIT)?;
    let due = due_to_check_weighed(alloc, &instance, &sizes, &text)?;
    Ok(due)
}

/// Reads an instance and pins, and makes what is due to find its best set with them.
fn prepare_ask<S: Shelf>(alloc: Global, shelf: &mut S, file: &str, pins: &str) -> Result<Due, Stop>
    ensures { Prepares (task_of (Asking file.now pins.now)) (S.state shelf.old)
        (S.state shelf.new) (settled result) }
{
    let instance = open_instance(alloc, shelf, file)?;
    let pins = open_pins(alloc, shelf, &instance, pins)?;
    let due = due_to_ask(alloc, &instance, &pins)?;
    Ok(due)
}

/// Reads an instance, and makes what is due to find its most level base.
fn prepare_level<S: Shelf>(alloc: Global, shelf: &mut S, file: &str) -> Result<Due, Stop>
    ensures { Prepares (task_of (Levelling file.now)) (S.state shelf.old) (S.state shelf.new)
        (settled result) }
{
    let instance = open_level(alloc, shelf, file)?;
    let due = due_to_level(alloc, &instance)?;
    Ok(due)
}

/// Reads an instance and edits of it, and makes what is due to solve the instance that they lead to.
fn prepare_edit<S: Shelf>(
    alloc: Global,
    shelf: &mut S,
    file: &str,
    edits: &str,
) -> Result<Due, Stop>
    ensures { Prepares (task_of (Editing file.now edits.now)) (S.state shelf.old)
        (S.state shelf.new) (settled result) }
{
    let instance = open_instance(alloc, shelf, file)?;
    let edited = open_edits(alloc, shelf, instance, edits)?;
    let due = due_to_solve(alloc, &edited)?;
    Ok(due)
}

/// Reads two instances, and makes what is due to find their common vectors.
fn prepare_meet<S: Shelf>(
    alloc: Global,
    shelf: &mut S,
    left: &str,
    right: &str,
) -> Result<Due, Stop>
    ensures { Prepares (task_of (Meeting left.now right.now)) (S.state shelf.old)
        (S.state shelf.new) (settled result) }
{
    let left = open_left(alloc, shelf, left)?;
    let right = open_right(alloc, shelf, &left, right)?;
    let due = due_to_meet(alloc, &left.instance, &right.instance)?;
    Ok(due)
}

/// Reads two instances and an answer, and makes what is due to check the answer.
fn prepare_met<S: Shelf>(
    alloc: Global,
    shelf: &mut S,
    left: &str,
    right: &str,
    answer: &str,
) -> Result<Due, Stop>
    ensures { Prepares (task_of (CheckingMet left.now right.now answer.now))
        (S.state shelf.old) (S.state shelf.new) (settled result) }
{
    let left = open_left(alloc, shelf, left)?;
    let right = open_right(alloc, shelf, &left, right)?;
    let text = read_text(alloc, shelf, answer, ANSWER_LIMIT)?;
    let due = due_to_met(alloc, &left.instance, &right.instance, &text)?;
    Ok(due)
}

/// Makes what is due for a command, or what comes of a text with a fault.
fn prepare_whole<S: Shelf>(alloc: Global, shelf: &mut S, command: Command) -> Result<Due, Stop>
    requires { (seed : ℕ) → command_of command ≡ Showing seed → seed ≤ 999999999 }
    ensures { Prepares (task_of (command_of command.entry)) (S.state shelf.old) (S.state shelf.new)
        (settled result) }
{
    match command {
        Command::Solve { file } => prepare_solve(alloc, shelf, file),
        Command::Check { file, answer } => prepare_check(alloc, shelf, file, answer),
        Command::Demo { seed } => prepare_demo(alloc, seed),
        Command::Weigh { file, sizes } => prepare_weigh(alloc, shelf, file, sizes),
        Command::Weighed {
            file,
            sizes,
            answer,
        } => prepare_weighed(alloc, shelf, file, sizes, answer),
        Command::Ask { file, pins } => prepare_ask(alloc, shelf, file, pins),
        Command::Level { file } => prepare_level(alloc, shelf, file),
        Command::Edit { file, edits } => prepare_edit(alloc, shelf, file, edits),
        Command::Meet { left, right } => prepare_meet(alloc, shelf, left, right),
        Command::Met {
            left,
            right,
            answer,
        } => prepare_met(alloc, shelf, left, right, answer),
    }
}

/// Makes what is due for a command whole.
pub fn prepare<S: Shelf>(alloc: Global, shelf: &mut S, command: Command) -> Result<Due, Status>
    requires { (seed : ℕ) → command_of command ≡ Showing seed → seed ≤ 999999999 }
    ensures { Prepares (task_of (command_of command.entry)) (S.state shelf.old) (S.state shelf.new)
        result }
{
    settle(prepare_whole(alloc, shelf, command))
}
