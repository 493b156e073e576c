//! The program over any reader and any writer: from the words of the command line to a status.
ghost use Rattle.std.specs.{Prelude.{◌≡◌, IsTrue, IfOk, IfErr, option_map}, IoError.error_kind, Process.exit_status};
ghost use Rattle.std.specs.String.{string_bytes};
ghost use Rattle.clap.specs.Values.{kind_of};
ghost use Rattle.race_tool.specs.Draw.{Draws};
ghost use Rattle.race_command.specs.Ending.{Does, Declines, Ends, IsAnswerTo, answer_without_words, message_of};
ghost use Rattle.race_command.specs.Request.{is_in_limits};
ghost use Rattle.std.specs.declared.io.ErrorKind.TheVariants as io;

use crate::command::{Request, parse};
use clap::Error;
use clap::error::ErrorKind;
use race_records::{Sink, Source};
use race_tool::{
    run_certify, run_check, run_draw, run_edges, run_explain, run_explore, run_predict, run_race,
    run_run, run_witness, status,
};
use std::alloc::Global;
use std::env::Args;
use std::io;
use std::io::{Read, Write};
use std::process::ExitCode;
use std::sync::Wait;
use std::thread::Threads;

/// Does what the words ask for, and says on standard error what no report says.
///
/// A check ends with the status that `run_check` answers, an explained one with that of `run_explain`, a listing of
/// edges with that of `run_edges`, a run with that of `run_run`, a judged run with that of `run_race`, all runs with
/// that of `run_explore`, a witness with that of `run_witness`, a drawing with that of `run_draw`, predictions with
/// that of `run_predict`, and the run that shows one with that of `run_certify`. Help and the version end with 0, or
/// with 5 where they can't be printed. Words that are at fault or aren't text end with 3, and a line on standard error
/// says so. If memory for them is refused, the status is 4.
///
/// A check's threads, several shards and several workers are threads for which the call waits. So what is promised holds
/// where it returns, and it returns if its reads, writes and threads do.
pub fn run<T: AllocGlobal + Print + Eprint + Threads + Wait + Sync, R: Read, W: Write>(
    rt: &T,
    args: io::Result<Args>,
    source: &mut Source<R>,
    sink: &mut Sink<W>,
) -> ExitCode
    // The input is checked, its report is explained, its edges are listed, a race of it is shown, its races are drawn,
    // races of other runs are predicted or one of them is shown, it is run, it is run and judged, or all its runs are.
    // Or the words ask for none of these, and nothing is read or written.
    ensures words { IfOk args (λ words.
        Ends R.remaining W.contents source.old source.new sink.old sink.new (exit_status result)) }

    // There are no words: memory was refused for them, or they aren't text.
    ensures no_words { IfErr args (λ error.
        (exit_status result ≡ answer_without_words (error_kind error))
        × (source.new ≡ source.old) × (sink.new ≡ sink.old)) }
{
    let answer = answer_words(rt, words_of(rt.alloc(), args), source, sink);
    tell(rt, answer);
    if answer == status::DEVICE {
        let _ = eprintln!(rt; "gorace: {}", failed_device(source, sink));
    }
    ExitCode::from(answer)
}

// The words, in a list.
fn words_of(alloc: Global, args: io::Result<Args>) -> io::Result<Vec<String>>
    ensures no_words { IfErr args (λ error. result ≡ Err error) }
    ensures memory { IfOk args (λ words. IfErr result (λ error. error_kind error ≡ io.OutOfMemory)) }
{
    match args {
        Ok(args) => match args.collect(alloc) {
            Ok(words) => Ok(words),
            Err(refused) => Err(io::Error::from(refused)),
        },
        Err(error) => Err(error),
    }
}

// Does what the words ask for.
fn answer_words<T: AllocGlobal + Print + Eprint + Threads + Wait + Sync, R: Read, W: Write>(
    rt: &T,
    words: io::Result<Vec<String>>,
    source: &mut Source<R>,
    sink: &mut Sink<W>,
) -> u8
    ensures words { IfOk words (λ words.
        Ends R.remaining W.contents source.old source.new sink.old sink.new result) }
    ensures no_words { IfErr words (λ error. (result ≡ answer_without_words (error_kind error))
        × (source.new ≡ source.old) × (sink.new ≡ sink.old)) }
{
    match words {
        Ok(words) => answer_request(rt, parse(rt.alloc(), words.as_slice()), source, sink),
        Err(error) => refuse_words(rt, &error),
    }
}

// Does what was asked for, or says why nothing is done.
fn answer_request<T: AllocGlobal + Print + Eprint + Threads + Wait + Sync, R: Read, W: Write>(
    rt: &T,
    request: Result<Request, Error>,
    source: &mut Source<R>,
    sink: &mut Sink<W>,
) -> u8
    requires { IfOk request (λ asked. IsTrue (is_in_limits asked)) }
    ensures asked { IfOk request (λ asked.
        Does asked R.remaining W.contents source.old source.new sink.old sink.new result) }
    ensures none { IfErr request (λ error.
        Declines (kind_of error) source.old source.new sink.old sink.new result) }
{
    match request {
        Ok(asked) => match asked {
            Request::Check(options) => run_check(rt, rt.alloc(), source, sink, &options),
            Request::Explain => run_explain(rt.alloc(), source, sink),
            Request::Edges => run_edges(rt.alloc(), source, sink),
            Request::Run(options) => run_run(rt, rt.alloc(), source, sink, &options),
            Request::Race(run, check) => run_race(rt, rt.alloc(), source, sink, &run, &check),
            Request::Explore(options) => run_explore(rt.alloc(), source, sink, &options),
            Request::Witness(name) => run_witness(rt.alloc(), source, sink, name.as_str()),
            Request::Draw(name, svg) => draw(rt.alloc(), source, sink, &name, svg),
            Request::Predict(options) => run_predict(rt.alloc(), source, sink, &options),
            Request::Certify(name, turned) => {
                run_certify(rt.alloc(), source, sink, name.as_str(), turned)
            }
        },
        Err(error) => print(rt, &error),
    }
}

// Draws the race on the variable of the name, or without one each race.
fn draw<R: Read, W: Write>(
    alloc: Global,
    source: &mut Source<R>,
    sink: &mut Sink<W>,
    name: &Option<String>,
    svg: bool,
) -> u8
    ensures { Draws Global (option_map string_bytes name.now) svg R.remaining W.contents
        source.old source.new sink.old sink.new result }
{
    match name {
        Some(name) => run_draw(alloc, source, sink, Some(name.as_str()), svg),
        None => run_draw(alloc, source, sink, None, svg),
    }
}

// Prints a text of help, the version, or why there is no request.
fn print<R: Print + Eprint>(rt: &R, error: &Error) -> u8
    ensures { IsAnswerTo (kind_of error.now) result }
{
    if error.kind() == ErrorKind::OutOfMemory {
        return status::REFUSED;
    }
    let printed = error.print(rt);
    if error.use_stderr() {
        status::USAGE
    } else if printed.is_ok() {
        status::CLEAN
    } else {
        status::DEVICE
    }
}

// Says why the words of the command line can't be had.
fn refuse_words<R: Eprint>(rt: &R, error: &io::Error) -> u8
    ensures { result ≡ answer_without_words (error_kind error.now) }
{
    if error.kind() == io::ErrorKind::OutOfMemory {
        return status::REFUSED;
    }
    let _ = eprintln!(rt; "error: a word of the command line isn't text (UTF-8)");
    status::USAGE
}

// Says on standard error what no report says.
fn tell<R: Eprint>(rt: &R, answer: u8) {
    if let Some(text) = message(answer) {
        let _ = eprintln!(rt; "{text}");
    }
}

// Which device failed.
fn failed_device<R: Read, W: Write>(source: &Source<R>, sink: &Sink<W>) -> &'static str {
    if sink.failures() > 0 {
        "writing to standard output failed"
    } else if source.failures() > 0 {
        "reading standard input failed"
    } else if source.reads() > 0 {
        "reading was given up: 2^32 reads were not enough"
    } else {
        "help or the version could not be written"
    }
}

// What is to be said of a status of which no report tells.
fn message(answer: u8) -> Option<&'static str>
    ensures { option_map (λ text. text.now) result ≡ message_of answer }
{
    match answer {
        status::REFUSED => Some("gorace: refused for memory or a thread"),
        status::DEVICE => Some("gorace: reading or writing failed"),
        status::MISMATCH => Some("gorace: recording failed its check"),
        _ => None,
    }
}
