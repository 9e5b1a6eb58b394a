//! What the program says of itself: of all that it does, or of one command.
//! No line has over 80 columns.

use std::io;

/// A command, as the help shows it.
#[derive(Clone, Copy)]
pub struct Command {
    name: &'static str,
    /// How it is called.
    usage: &'static str,
    /// What it does.
    text: &'static str,
}

const ALL: [Command; 9] = [
    Command {
        name: "body",
        usage: "  interop [body --cut N]",
        text: "  body --cut N
      Read the joined DATA bytes of one call as hexadecimal text, in pieces of
      N bytes (1 to 65536), and print its messages. The program without any
      words means this with N = 3.",
    },
    Command {
        name: "case",
        usage: "  interop case NAME .. --port P [--host H] [--times N] [--streams K]
               [--timeout S] [--soak_iterations N ..] [SEEN ..] [RUN ..]
  interop case --list",
        text: "  case NAME ..
      Run the test cases with these names as a client of the server at port P
      of H (default 127.0.0.1); all means the fourteen below. Standard output
      has a line for each case, and standard error says what was wrong.
      --timeout S    the seconds that a case may take (default 10)
      --times N      run each case N times; its line counts the runs that passed
      --streams K    run K at a time, each over its own connection whose windows
                     stay open, and print the times (p50 and p99)
      --list         print the names
      gRPC's own flags work too: --test_case=NAME --server_host=H
      --server_port=P --use_tls=false, and for rpc_soak and channel_soak
      --soak_iterations, --soak_max_failures,
      --soak_per_iteration_max_acceptable_latency_ms,
      --soak_overall_timeout_seconds, --soak_min_time_ms_between_rpcs,
      --soak_request_size, --soak_response_size.",
    },
    Command {
        name: "drain",
        usage: "  interop drain [--port P]",
        text: "  drain
      Serve port P of 127.0.0.1 (default 50051), run ping_pong against this
      server, and drain the server after the first reply. Print the GOAWAYs that
      came (last stream and error), a line for the case, and one that sums up.",
    },
    Command {
        name: "frames",
        usage: "  interop frames [FILE [FILE]] [--side (client | server)] [--full]",
        text: "  frames
      Print the frames of a connection, as --trace does. A FILE is a capture of
      --pcap, a file of --record, or the bytes of one side, raw or as
      hexadecimal text. Two files have one side each; no FILE means standard
      input.
      --side         whose bytes the first file has, if the client's preface
                     doesn't show it (default: one file without a preface has
                     the server's; of two, the first has the client's)
      --full         print whole values, and how fields are spelled",
    },
    Command {
        name: "misbehave",
        usage: "  interop misbehave NAME .. --port P [--host H] [--timeout S]
                    [--port-file FILE] [--ready-file FILE] [SEEN ..] [RUN ..]
  interop misbehave --list [--verbose]",
        text: "  misbehave NAME ..
      Serve port P of H (default 127.0.0.1), misbehave in the way with this
      name, and judge the client. Several names, or all, take one port each,
      from P on. Each case says first what the client has to do, then what the
      client did, and whether that is ok, failed (with the sentence that forbids
      it) or not tested.
      --timeout S    end a case after S seconds (default 30), if the client
                     hasn't gone before
      --port-file    FILE gets the first port once all ports listen
      --ready-file   FILE gets a line with the name and address of each case
      --list         print the names; with --verbose, what each case does",
    },
    Command {
        name: "parts",
        usage: "  interop parts",
        text: "  parts
      Read the bytes of a connection from standard input, as hexadecimal text or
      a file of --record. Serve it, and print what the server wrote, stream by
      stream, and how the connection ended.",
    },
    Command {
        name: "self",
        usage: "  interop self [--port P]",
        text: "  self
      Serve port P of 127.0.0.1 (default 50051), and run all test cases against
      this server. Print a line for each case, and one that sums up.",
    },
    Command {
        name: "serve",
        usage: "  interop serve (--port P | --any-port) [--host H] [--conns N] [--report]
                [--log [text | json]] [--time (seconds | utc)]
                [--drain-on-eof] [--drain-timeout S] [--port-file FILE]
                [--ready-file FILE] [--record DIR] [SEEN ..]",
        text: "  serve
      Serve grpc.testing.TestService on port P of H (default 127.0.0.1), or on a
      free port, until it is interrupted or an option drains it. The first line
      says where it listens.
      --report       print a line for each settled call, and for each connection
                     that has ended
      --log          print at once what happens, and why: calls, faults,
                     connections; --log json prints JSON objects
      --time         begin each line of the log with the seconds since the
                     start, or with the time in UTC
      --conns N      drain once N connections have come and ended
      --drain-on-eof drain once standard input has ended
      --drain-timeout S
                     the seconds that a drain may take (default 10); then the
                     server names the open connections, and ends with status 1
      --port-file    FILE gets the port once the server listens
      --ready-file   FILE gets the address, after that
      --record DIR   write the bytes of the Nth connection to DIR/N.txt, for
                     frames and parts
      While the server drains, calls that began are answered, and others are
      refused. ./interop also drains it on SIGINT and SIGTERM; a second signal
      ends it at once.",
    },
    Command {
        name: "wire",
        usage: "  interop wire CASES .. --port P [--host H] [--silence S] [--timeout T]
               [--jobs N] [--verbose] [SEEN ..] [RUN ..]
  interop wire --list",
        text: "  wire CASES ..
      Send the server at port P of H (default 127.0.0.1) what no real client
      would, and judge its reaction by RFC 9113, RFC 7541 and gRPC. CASES are
      all, a group (start, conn, hpack, stream, flow, control, grpc), or cases,
      as grpc/4. Each case has a line. A case that fails is tried twice more:
      unsteady means that some tries passed. Not applicable means that the
      server's SETTINGS leave no room for the case, or that its steps fail
      without their fault too.
      --silence S    end a case after S milliseconds of silence (default 1000)
      --timeout T    the seconds that a case may take (default 10)
      --jobs N       run N cases at a time (default 8)
      --verbose      print the frames that each case read and, if it isn't ok,
                     the bytes that it sent
      --list         print all cases",
    },
];

const FRONT: &str = "\
The gRPC interop test server's program.

Usage:";

const RUN: &str = "  RUN
      Which cases of case, wire and misbehave are run, and where the results go.
      A word is a name, a group, a range (grpc/4-6) or a pattern ('stream/*').
      --skip WORDS   leave out what WORDS choose; commas separate them
      --level LEVEL  run only the cases of this level (must, should, ours) and
                     of stronger ones
      --repeat N     run the whole list N times
      --fail-fast    end after the first case that fails the run
      --known FILE   a list of cases that may fail: a line for each, with its
                     name and a reason. Such a failure doesn't fail the run; a
                     case on the list that passes does
      --write-known FILE
                     write that list
      --json FILE    write a JSON object as each case ends (- for standard
                     output)
      --junit FILE   write JUnit's XML
      --tap          print TAP
      --save DIR     save the bytes of each case that failed, is unsteady or
                     wasn't tested, for frames and parts
";

const SEEN: &str = "  SEEN
      What passes on the connections.
      --trace        print a line for each frame on standard error; --trace full
                     prints whole values, and how fields are spelled
      --trace-file FILE
                     write these lines to FILE
      --pcap FILE    write a capture for Wireshark and tshark
                     (tshark -r FILE -d tcp.port==P,http2)
";

const OPTIONS: &str = "  -h, --help
      Print this text; after a command, the text of that command.
  --version
      Print the version.

H is an IPv4 or IPv6 address, or a name. Options come in any order, as --port P
or --port=P.
";

const CASES: &str = "\
The cases of case all, in order: empty_unary, large_unary, client_streaming,
server_streaming, ping_pong, empty_stream, custom_metadata,
status_code_and_message, special_status_message, unimplemented_method,
unimplemented_service, cancel_after_begin, cancel_after_first_response,
timeout_on_sleeping_server. Not in all: cacheable_unary, rpc_soak, channel_soak.
";

const STATUS: &str = "\
Exit status: 0 done; 1 a case or client failed (for wire, at level must), a
known failure is mended, or a drain took too long; 2 bad arguments or input;
3 input, output, memory, the port or wire's connection failed. Standard error
says why a connection failed, and which argument is bad.";

/// What words that ask for help are answered with: those words alone, or one after a command.
#[derive(Clone, Copy)]
pub enum Help {
    Whole,
    Of(Command),
}

impl Help {
    /// The help that these words ask for, if they do.
    pub fn asked(words: &[String]) -> Option<Help> {
        match words {
            [word] if is_help(word.as_str()) => Some(Help::Whole),
            [name, word] if is_help(word.as_str()) => Some(Help::Of(command_of(name.as_str())?)),
            _ => None,
        }
    }

    /// Prints it.
    pub fn print(self, rt: &impl Print) -> io::Result<()> {
        match self {
            Help::Whole => print_whole(rt),
            Help::Of(command) => print_one(rt, command),
        }
    }
}

fn is_help(word: &str) -> bool {
    matches!(word, "-h" | "--help")
}

fn command_of(name: &str) -> Option<Command> {
    ALL.iter().find(|command| command.name == name).copied()
}

fn print_whole(rt: &impl Print) -> io::Result<()> {
    println!(rt; "{FRONT}")?;
    for command in ALL {
        let usage = command.usage;
        println!(rt; "{usage}")?;
    }
    println!(rt; "")?;
    for command in ALL {
        let text = command.text;
        println!(rt; "{text}")?;
    }
    println!(rt; "{SEEN}{RUN}{OPTIONS}\n{CASES}\n{STATUS}")
}

fn print_one(rt: &impl Print, command: Command) -> io::Result<()> {
    let Command { name, usage, text } = command;
    println!(rt; "Usage:\n{usage}\n\n{text}\n")?;
    if matches!(name, "case" | "misbehave" | "serve" | "wire") {
        println!(rt; "{SEEN}")?;
    }
    if matches!(name, "case" | "misbehave" | "wire") {
        println!(rt; "{RUN}")?;
    }
    if name == "case" {
        println!(rt; "{CASES}")?;
    }
    println!(rt; "{STATUS}")
}
