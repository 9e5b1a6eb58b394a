//! The program `interop`: the gRPC interop test server, and the client that tries such a server.
//!
//! It has nine commands:
//!
//! - `interop serve --port P` serves `grpc.testing.TestService` on a port of this machine.
//! - `interop misbehave NAME --port P` misbehaves as a server, and says whether the client does
//!   right.
//! - `interop case NAME --port P` runs test cases as a client, against whatever server listens
//!   there.
//! - `interop wire CASES --port P` sends a server what no client should, and judges what it
//!   answers.
//! - `interop self` runs the test cases against a server of its own.
//! - `interop drain` drains a server of its own while a client has a call.
//! - `interop parts` serves the bytes of one connection, read as hexadecimal text, and prints what
//!   they are answered with.
//! - `interop frames` prints the frames in the bytes of connections, a line each.
//! - `interop body --cut N` reads the joined DATA bytes of one call as hexadecimal text, takes them
//!   in pieces of N bytes, and prints the messages that they spell (gRPC over HTTP/2,
//!   "Length-Prefixed-Message"), then the end or the fault. It reads all of its input before it
//!   prints anything, and its text is a function of that input, in whatever pieces.
//!
//! The crate `words` reads its words, and the crates `commands`, `trials` and `frames` do what they
//! say. Here is what reaches for the process: its words, its standard input and output, and its
//! exit status.
#![tactic(auto)]

ghost use Rattle.std.specs.Prelude.{◌<◌};
ghost use Rattle.words.specs.Words.{IsInRange};

mod help;
mod misbehaving;
mod same_file;
mod signed;

use commands::{RunFault, listen, run_body, run_drain, run_parts, run_self, serve};
use connection::OpenGate;
use device::StdDevice;
use frames::{FramesFault, run_frames};
use handlers::{
    CacheableUnaryCall, EmptyCall, FullDuplexCall, HalfDuplexCall, Method, Methods,
    StreamingInputCall, StreamingOutputCall, UnaryCall,
};
use help::Help;
use misbehaving::run_misbehave;
use std::alloc::{AllocError, Global};
use std::fs::File;
use std::io::{ErrorKind, IsTerminal, StdinLock};
use std::net::{Net, TcpListener, TcpStream};
use std::process::ExitCode;
use std::rt::{Env, Files};
use std::sync::{Arc, Wait};
use std::thread::Threads;
use std::time::Clock;
use std::{env, io};
use trials::{RunVerdict, TrialFault, run_case, run_wire};
use words::{
    CaseWords, FramesWords, LOOPBACK, MisbehaveWords, Port, Reason, ServeWords, WireWords, Words,
    WordsFault, read_words,
};

const CASE_FAILED: u8 = 1;

const BAD_WORDS: u8 = 2;

const FAILED: u8 = 3;

const VERSION: &str = "interop 0.1.0";

const UNWRITTEN: &str = "standard output can't be written";

// Says what these words ask about the program itself, if they do.
fn describe(rt: &impl Print, words: &[String]) -> Option<io::Result<()>> {
    match words {
        [word] if word.as_str() == "--version" => Some(println!(rt; "{VERSION}")),
        _ => Some(help::Help::asked(words)?.print(rt)),
    }
}

// Reports on standard output on the call in standard input, and answers the exit status.
fn print_body<R: Input + Print + Eprint + AllocGlobal>(rt: &R, cut: usize) -> u8
    requires { 0 < cut }
{
    let mut input = StdDevice::new(rt.reader());
    let mut output = StdDevice::new(io::writer(rt));
    match run_body(rt.alloc(), &mut input, cut, &mut output) {
        Ok(()) => 0,
        Err(fault) => explain_fault(rt, fault),
    }
}

// Prints the frames in the bytes that the words name, and answers the exit status.
fn print_frames<R>(rt: &R, words: &FramesWords<'_>) -> u8
where
    R: Files + Input + Print + Eprint + AllocGlobal,
{
    let mut input = StdDevice::new(rt.reader());
    let mut output = StdDevice::new(io::writer(rt));
    match run_frames(rt, words, &mut input, &mut output) {
        Ok(()) => 0,
        Err(FramesFault::BothSides) => complain(rt, "one of two files has both sides"),
        Err(FramesFault::SameSide) => {
            complain(
                rt,
                "of two files one begins with a client's preface, or --side says what the first has",
            )
        }
        Err(FramesFault::BadInput(fault)) => {
            let _said = eprintln!(rt; "interop: bad input: {fault}");
            BAD_WORDS
        }
        Err(FramesFault::WriteFailed) => end_unwritten(rt),
        Err(FramesFault::ReadFailed) if words.files.is_empty() => {
            fail(rt, "standard input can't be read")
        }
        // (which file, and why, was said)
        Err(FramesFault::ReadFailed) => FAILED,
        Err(FramesFault::OutOfMemory) => fail(rt, "out of memory"),
    }
}

// The exit status of a run of cases.
fn status_of(answer: Result<RunVerdict, TrialFault>) -> u8 {
    match answer {
        Ok(RunVerdict::Passed) => 0,
        Ok(RunVerdict::Failed) => CASE_FAILED,
        Ok(RunVerdict::UnknownCase) | Err(TrialFault::BadKnown) => BAD_WORDS,
        Err(TrialFault::Failed | TrialFault::OutOfMemory) => FAILED,
    }
}

// Lists or runs the cases that the words choose, and answers the exit status.
fn try_server<R>(rt: &R, words: CaseWords<'_>, is_shown: bool) -> u8
where
    R: Net<Stream = TcpStream, Listener = TcpListener> + Print + Eprint + AllocGlobal,
    R: Files<File = File> + Threads + Wait + Clock + Copy + Send + Sync + Drop + 'static,
{
    let lists = matches!(&words, CaseWords::List);
    let mut output = StdDevice::new(io::writer(rt));
    let answer = run_case(*rt, words, is_shown, &mut output);
    if lists && output.has_failed() {
        return end_unwritten(rt);
    }
    status_of(answer)
}

// Lists or runs the misbehaviours that the words choose, and answers the exit status.
fn try_client<R>(rt: &R, words: MisbehaveWords<'_>, is_shown: bool) -> u8
where
    R: Net<Stream = TcpStream, Listener = TcpListener> + Print + Eprint + AllocGlobal,
    R: Files<File = File> + Threads + Wait + Clock + Copy + Send + Sync + Drop + 'static,
{
    let lists = matches!(&words, MisbehaveWords::List { .. });
    let mut output = StdDevice::new(io::writer(rt));
    let answer = run_misbehave(*rt, words, is_shown, &mut output);
    if lists && output.has_failed() {
        return end_unwritten(rt);
    }
    status_of(answer)
}

// Lists or runs the wire cases that the words choose, and answers the exit status.
fn try_wire<R>(rt: &R, words: WireWords<'_>, is_shown: bool) -> u8
where
    R: Net<Stream = TcpStream, Listener = TcpListener> + Print + Eprint + AllocGlobal,
    R: Files<File = File> + Threads + Wait + Clock + Copy + Send + Sync + Drop + 'static,
{
    let lists = matches!(&words, WireWords::List);
    let mut output = StdDevice::new(io::writer(rt));
    let answer = run_wire(*rt, words, is_shown, &mut output);
    if lists && output.has_failed() {
        return end_unwritten(rt);
    }
    status_of(answer)
}

// A command that answers calls.
#[derive(Clone, Copy, Debug)]
enum Server<'a> {
    Parts,
    Serve(ServeWords<'a>),
    SelfTest(u16),
    Drain(u16),
}

// Does what a command says over the methods of `grpc.testing.TestService`, and answers the exit
// status.
fn obey_server<R>(rt: R, server: Server<'_>) -> Result<u8, AllocError>
where
    R: Net<Stream = TcpStream, Listener = TcpListener> + Input<Reader = StdinLock<'static>>,
    R: Files<File = File> + Print + Eprint + AllocGlobal,
    R: Threads + Wait + Clock + Copy + Send + Sync + Drop + 'static,
    R::Dir: Send + Sync,
{
    let alloc = rt.alloc();
    let mut methods: Vec<Box<dyn Method>> = Vec::new(alloc);
    methods.push(Box::new(alloc, EmptyCall)?)?;
    methods.push(Box::new(alloc, UnaryCall)?)?;
    methods.push(Box::new(alloc, CacheableUnaryCall)?)?;
    methods.push(Box::new(alloc, StreamingInputCall)?)?;
    methods.push(Box::new(alloc, StreamingOutputCall)?)?;
    methods.push(Box::new(alloc, FullDuplexCall)?)?;
    methods.push(Box::new(alloc, HalfDuplexCall)?)?;
    let methods = Arc::new(alloc, Methods::new(methods))?;
    Ok(match server {
        Server::Parts => print_parts(rt, methods),
        Server::Serve(words) => serve_all(rt, methods, words),
        Server::SelfTest(port) => try_cases(rt, methods, port),
        Server::Drain(port) => try_drain(rt, methods, port),
    })
}

// Serves `grpc.testing.TestService`, and answers the exit status.
fn serve_all<R>(rt: R, methods: Arc<Methods>, words: ServeWords<'_>) -> u8
where
    R: Net<Stream = TcpStream, Listener = TcpListener> + Input<Reader = StdinLock<'static>>,
    R: Files<File = File> + Print + Eprint + AllocGlobal,
    R: Threads + Wait + Clock + Copy + Send + Sync + Drop + 'static,
    R::Dir: Send + Sync,
{
    match serve(rt, methods, words) {
        Ok(true) => 0,
        Ok(false) => CASE_FAILED,
        Err(_) => FAILED,
    }
}

// Runs the test cases against a server of its own, and answers the exit status.
fn try_cases<R>(rt: R, methods: Arc<Methods>, port: u16) -> u8
where
    R: Net<Stream = TcpStream, Listener = TcpListener> + Print + Eprint + AllocGlobal,
    R: Files<File = File> + Threads + Wait + Clock + Copy + Send + Sync + Drop + 'static,
    R::Dir: Send + Sync,
{
    let Ok(listener) = listen(&rt, LOOPBACK, Port::Number(port)) else {
        return FAILED;
    };
    let mut output = StdDevice::new(io::writer(&rt));
    match run_self(rt, methods, listener, port, &mut output) {
        Ok(true) => 0,
        Ok(false) => CASE_FAILED,
        Err(_) if output.has_failed() => fail(&rt, UNWRITTEN),
        Err(_) => FAILED,
    }
}

// Drains a server of its own while a client has a call, and answers the exit status.
fn try_drain<R>(rt: R, methods: Arc<Methods>, port: u16) -> u8
where
    R: Net<Stream = TcpStream, Listener = TcpListener> + Print + Eprint + AllocGlobal,
    R: Files<File = File> + Threads + Wait + Clock + Copy + Send + Sync + Drop + 'static,
    R::Dir: Send + Sync,
{
    let Ok(listener) = listen(&rt, LOOPBACK, Port::Number(port)) else {
        return FAILED;
    };
    let mut output = StdDevice::new(io::writer(&rt));
    match run_drain(rt, methods, listener, port, &mut output) {
        Ok(true) => 0,
        Ok(false) => CASE_FAILED,
        Err(_) if output.has_failed() => fail(&rt, UNWRITTEN),
        Err(_) => FAILED,
    }
}

// Serves the connection in standard input, reports on standard output, and answers the exit status.
fn print_parts<R>(rt: R, methods: Arc<Methods>) -> u8
where
    R: Input
        + Print
        + Eprint
        + AllocGlobal
        + Threads
        + Wait
        + Clock
        + Copy
        + Send
        + Sync
        + Drop
        + 'static,
{
    let Ok(gate) = Arc::new(rt.alloc(), OpenGate) else {
        return FAILED;
    };
    let mut input = StdDevice::new(rt.reader());
    let mut output = StdDevice::new(io::writer(&rt));
    match run_parts(rt, rt.alloc(), methods, gate, &mut input, &mut output) {
        Ok(()) => 0,
        Err(fault) => explain_fault(&rt, fault),
    }
}

// Does what the words after the program's name say, and answers the exit status. Where `is_shown`,
// standard error is a terminal.
fn obey<R>(rt: &R, words: &[String], is_shown: bool) -> u8
where
    R: Net<Stream = TcpStream, Listener = TcpListener> + Input<Reader = StdinLock<'static>>,
    R: Print + Eprint + AllocGlobal,
    R: Threads + Wait + Clock + Copy + Send + Sync + Drop + 'static,
    R: Files<File = File>,
    R::Dir: Send + Sync,
{
    if let Some(said) = describe(rt, words) {
        return match said {
            Ok(()) => 0,
            Err(_) => end_unwritten(rt),
        };
    }
    if let Some(reason) = signed::signed_port(words) {
        return explain(rt, reason);
    }
    match read_words(rt.alloc(), words) {
        Ok(words) => match same_file::same_file(&words) {
            Some(reason) => explain(rt, reason),
            None => obey_words(rt, words, is_shown).unwrap_or(FAILED),
        },
        Err(WordsFault::BadWords(reason)) => explain(rt, reason),
        Err(WordsFault::OutOfMemory) => FAILED,
    }
}

// Does what the words mean, and answers the exit status.
fn obey_words<R>(rt: &R, words: Words<'_>, is_shown: bool) -> Result<u8, AllocError>
where
    R: Net<Stream = TcpStream, Listener = TcpListener> + Input<Reader = StdinLock<'static>>,
    R: Print + Eprint + AllocGlobal,
    R: Threads + Wait + Clock + Copy + Send + Sync + Drop + 'static,
    R: Files<File = File>,
    R::Dir: Send + Sync,
    requires { IsInRange words }
{
    match words {
        Words::Body(cut) => Ok(print_body(rt, cut)),
        Words::Case(words) => Ok(try_server(rt, words, is_shown)),
        Words::Parts => obey_server(*rt, Server::Parts),
        Words::Serve(words) => obey_server(*rt, Server::Serve(words)),
        Words::SelfTest(port) => obey_server(*rt, Server::SelfTest(port)),
        Words::Drain(port) => obey_server(*rt, Server::Drain(port)),
        Words::Misbehave(words) => Ok(try_client(rt, words, is_shown)),
        Words::Wire(words) => Ok(try_wire(rt, words, is_shown)),
        Words::Frames(words) => Ok(print_frames(rt, &words)),
    }
}

// Says on standard error that the arguments are bad, which of them is, and what would be right.
fn explain(rt: &impl Eprint, reason: Reason<'_>) -> u8 {
    let status = complain(rt, "bad arguments");
    let _ = eprintln!(rt; "interop: {reason}");
    status
}

// Says on standard error what was wrong with the words or the input.
fn complain(rt: &impl Eprint, what: &str) -> u8 {
    let _ = eprintln!(rt; "interop: {what}");
    BAD_WORDS
}

// Says on standard error why a command that reads hexadecimal text gave up.
fn explain_fault(rt: &impl Eprint, fault: RunFault) -> u8 {
    match fault {
        RunFault::NotHex => complain(rt, "input is not hexadecimal"),
        RunFault::ReadFailed => fail(rt, "standard input can't be read"),
        RunFault::WriteFailed => fail(rt, UNWRITTEN),
        RunFault::OutOfMemory => fail(rt, "out of memory"),
    }
}

// Says on standard error that standard output can't be written. If nobody reads it any more, as
// after `| head`, that is no failure, and nothing is said. A device doesn't keep why a write
// failed, so one more is tried, which then fails for the same reason.
fn end_unwritten<R: Print + Eprint>(rt: &R) -> u8 {
    match println!(rt; "") {
        Err(error) if error.kind() == ErrorKind::BrokenPipe => 0,
        _ => fail(rt, UNWRITTEN),
    }
}

// Says on standard error what failed.
fn fail(rt: &impl Eprint, what: &str) -> u8 {
    let _ = eprintln!(rt; "interop: {what}");
    FAILED
}

// The words after the program's name.
fn arguments<R: Env + AllocGlobal>(rt: &R) -> io::Result<Vec<String>> {
    let words = env::args(rt)?;
    Ok(words.skip(1).collect(rt.alloc())?)
}

fn main(rt: HostRuntime) -> ExitCode {
    ExitCode::from(match arguments(&rt) {
        Ok(words) => obey(&rt, words.as_slice(), rt.stderr().is_terminal()),
        Err(error) if error.kind() == ErrorKind::InvalidData => {
            complain(&rt, "bad arguments");
            complain(&rt, "an argument is not UTF-8")
        }
        Err(_) => FAILED,
    })
}
