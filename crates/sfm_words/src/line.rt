// The command line of the program as clap is told of it: a subcommand for each row of the table in `specs/Subcommand.antt`,
// in that order. A function for each form of what follows the subcommand's word adds one.
ghost use Rattle.std.specs.Prelude.{◌≡◌, IfOk, false};
ghost use Rattle.clap.specs.{Words.{App, app_of, new_app, rule_of, with_rule, with_subcommand}, declared.builder.command.Command.TheViews.{out-Command as fields_of}};
ghost use Rattle.sfm_words.specs.Line.{program, word_rule, sfm_line};

use clap::builder::ValueParser;
use clap::{Arg, Command};
use std::alloc::{AllocError, Global};

/// An argument of one word, which has to be there and not to be empty.
fn required_word<'a>(alloc: Global, id: &'a str) -> Arg<'a>
    ensures rule { rule_of result ≡ word_rule ValueParser.NonEmptyString id.entry.now }
    ensures local { result.global ≡ false }
{
    Arg::new(alloc, id)
        .required(true)
        .value_parser(ValueParser::NonEmptyString)
}

/// An argument of a whole number from 0 to 999,999,999, which has to be there.
fn required_number<'a>(alloc: Global, id: &'a str) -> Arg<'a>
    ensures rule { rule_of result ≡ word_rule (ValueParser.Unsigned 0 999999999) id.entry.now }
    ensures local { result.global ≡ false }
{
    Arg::new(alloc, id)
        .required(true)
        .value_parser(ValueParser::Unsigned(0, 999_999_999))
}

/// `VERB A`, where A is the name of a file.
fn one_name<'a>(alloc: Global, verb: &'a str, a: &'a str) -> Result<Command<'a>, AllocError>
    ensures app { IfOk result (λ line. app_of line ≡ with_rule (new_app verb.entry.now)
        (word_rule ValueParser.NonEmptyString a.entry.now)) }
    ensures local { IfOk result (λ line. (fields_of line).has_globals ≡ false) }
{
    Command::new(alloc, verb).arg(required_word(alloc, a))
}

/// `VERB A B`, where A and B are names of files.
fn two_names<'a>(
    alloc: Global,
    verb: &'a str,
    a: &'a str,
    b: &'a str,
) -> Result<Command<'a>, AllocError>
    ensures app { IfOk result (λ line. app_of line
        ≡ with_rule (with_rule (new_app verb.entry.now)
        (word_rule ValueParser.NonEmptyString a.entry.now))
        (word_rule ValueParser.NonEmptyString b.entry.now)) }
    ensures local { IfOk result (λ line. (fields_of line).has_globals ≡ false) }
{
    one_name(alloc, verb, a)?.arg(required_word(alloc, b))
}

/// `VERB A B C`, where A, B and C are names of files.
fn three_names<'a>(
    alloc: Global,
    verb: &'a str,
    a: &'a str,
    b: &'a str,
    c: &'a str,
) -> Result<Command<'a>, AllocError>
    ensures app { IfOk result (λ line. app_of line
        ≡ with_rule (with_rule (with_rule (new_app verb.entry.now)
        (word_rule ValueParser.NonEmptyString a.entry.now))
        (word_rule ValueParser.NonEmptyString b.entry.now))
        (word_rule ValueParser.NonEmptyString c.entry.now)) }
    ensures local { IfOk result (λ line. (fields_of line).has_globals ≡ false) }
{
    two_names(alloc, verb, a, b)?.arg(required_word(alloc, c))
}

/// `VERB A`, where A is a number.
fn one_number<'a>(alloc: Global, verb: &'a str, a: &'a str) -> Result<Command<'a>, AllocError>
    ensures app { IfOk result (λ line. app_of line ≡ with_rule (new_app verb.entry.now)
        (word_rule (ValueParser.Unsigned 0 999999999) a.entry.now)) }
    ensures local { IfOk result (λ line. (fields_of line).has_globals ≡ false) }
{
    Command::new(alloc, verb).arg(required_number(alloc, a))
}

/// The program, without its subcommands: its words begin after its name, and have to name a subcommand.
fn program<'a>(alloc: Global) -> Command<'a>
    ensures { app_of result ≡ program }
{
    Command::new(alloc, "sfm")
        .no_binary_name(true)
        .subcommand_required(true)
}

/// A command line with one more subcommand, where there was memory for that.
fn with_line<'a>(
    line: Command<'a>,
    more: Result<Command<'a>, AllocError>,
) -> Result<Command<'a>, AllocError>
    ensures { (whole part : App) → app_of line.entry ≡ whole
        → IfOk more.entry (λ m. app_of m ≡ part)
        → IfOk more.entry (λ m. (fields_of m).has_globals ≡ false)
        → IfOk result (λ line. app_of line ≡ with_subcommand whole part.top) }
{
    line.subcommand(more?)
}

/// The command line, of the words after the program's name.
pub(crate) fn command_line<'a>(alloc: Global) -> Result<Command<'a>, AllocError>
    ensures { IfOk result (λ line. app_of line ≡ sfm_line) }
{
    let line = program(alloc);
    let line = with_line(line, one_name(alloc, "solve", "FILE"))?;
    let line = with_line(line, two_names(alloc, "check", "FILE", "ANSWER"))?;
    let line = with_line(line, one_number(alloc, "demo", "SEED"))?;
    let line = with_line(line, two_names(alloc, "weigh", "FILE", "SIZES"))?;
    let line = with_line(
        line,
        three_names(alloc, "weighed", "FILE", "SIZES", "ANSWER"),
    )?;
    let line = with_line(line, two_names(alloc, "ask", "FILE", "PINS"))?;
    let line = with_line(line, one_name(alloc, "level", "FILE"))?;
    let line = with_line(line, two_names(alloc, "edit", "FILE", "EDITS"))?;
    let line = with_line(line, two_names(alloc, "meet", "LEFT", "RIGHT"))?;
    with_line(line, three_names(alloc, "met", "LEFT", "RIGHT", "ANSWER"))
}
