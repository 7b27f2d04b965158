// What the replay program is asked for by its arguments, and does, with the memory that it is lent for a file.
// The program itself ends with status 0 always: with --status the status goes to descriptor 3 as a digit, where ./replay takes it.
#![tactic(auto)]

ghost use Rattle.std.specs.Prelude.{◌≡◌, ◌≢◌, true, ◌+◌, ◌≤◌, length, IfOk};
ghost use Rattle.replay_rows.specs.Replayed.{missed, status as status_of};

use std::env::{Env, FillError};
use std::fmt;
use std::fs::{self, File, OpenOptions};
use std::io::{self, Cursor, IsTerminal, Read, Write};

// Descriptor 3, under its name, and what the system tells of it.
const STATUS_PATH: &str = "/dev/fd/3";

const STATUS_INFO: &str = "/proc/self/fdinfo/3";

// Nothing was replayed, or the output could not be written. A status is a number: the shell takes it so.
const NOTHING: u8 = 1;

// What can't be written to standard error is lost.
fn say(rt: &HostRuntime, words: &[u8]) {
    let _ = rt.stderr().write_all(words);
}

// The system's words for a failure, without the number that io::Error prints behind them.
fn say_why(rt: &HostRuntime, failure: &io::Error) {
    let mut line = Cursor::new([0u8; 256]);
    let _ = write!(line, "{failure}");
    let text = line.into_inner();
    let end = (0..text.len())
        .position(|n| text[n] == 0 || text[n..].starts_with(b" (os error "))
        .unwrap_or(text.len());
    say(rt, &text[..end]);
}

// What failed, a colon and why.
fn fail(rt: &HostRuntime, what: &[u8], failure: &io::Error) {
    say(rt, what);
    say(rt, b": ");
    say_why(rt, failure);
    say(rt, b"\n");
}

// The reader of a pipe may go away: that needs no words.
fn tell_unwritten(rt: &HostRuntime, failure: &io::Error) {
    if failure.kind() != io::ErrorKind::BrokenPipe {
        fail(rt, b"replay: the output could not be written", failure);
    }
}

// The status of a text that was read: but for 1 it tells whether some line was not understood.
fn replay_text(rt: &HostRuntime, calls: &[u8], echo: bool) -> u8
    requires { length calls.now ≤ 2097152 }
    ensures { (result ≤ 2) × (result ≢ 1 → result ≡ status_of true (missed calls.now)) }
{
    match replay_loop::replay(rt, calls, echo) {
        Ok(done) => replay_rows::status(true, done.missed),
        Err(failure) => {
            tell_unwritten(rt, &failure);
            NOTHING
        }
    }
}

// Nothing is replayed of a file that is larger than the memory for it, or that can't be read to its end: a directory, or a failing disk.
fn replay_in<F: Read>(
    rt: &HostRuntime,
    text: &mut [u8],
    name: &[u8],
    from: &mut F,
    echo: bool,
) -> u8
    requires { length text.old ≤ 2097152 }
    ensures { result ≤ 2 }
{
    let n = input::fill(from, text).bytes;
    let mut more = [0u8; 1];
    match from.read(&mut more) {
        Ok(0) => replay_text(rt, &text[..n], echo),
        Ok(_) if n < text.len() => refuse(rt, b"replay: a read failed, nothing was replayed\n"),
        Ok(_) => refuse_longer(rt, n),
        Err(failure) => {
            fail(rt, name, &failure);
            NOTHING
        }
    }
}

fn refuse_longer(rt: &HostRuntime, n: usize) -> u8
    ensures { result ≤ 2 }
{
    let _ = eprintln!(rt; "replay: more than {n} bytes, nothing was replayed");
    NOTHING
}

// Why nothing is replayed of what the arguments ask for.
#[derive(Clone, Copy)]
enum Misuse {
    TooLong,
    NoOption,
    TwoFiles,
    NoFile,
}

impl fmt::Display for Misuse {
    fn fmt<W: fmt::Write>(&self, f: &mut fmt::Formatter<W>) -> fmt::Result {
        f.write_str(match self {
            Misuse::TooLong => "an argument is too long",
            Misuse::NoOption => "there is no such option; replay --help tells which there are",
            Misuse::TwoFiles => "more than one file",
            Misuse::NoFile => "no file, see --help",
        })
    }
}

// What the arguments ask for: `file` is the number of the one that names the file.
#[derive(Clone, Copy, Default)]
struct Asked {
    file: Option<usize>,
    echo: bool,
    status: bool,
}

impl Asked {
    // Argument i.
    fn take(&mut self, i: usize, word: &[u8]) -> Result<(), Misuse> {
        match word {
            b"--echo" => self.echo = true,
            b"--status" => self.status = true,
            // A bare - is standard input.
            [b'-', _, ..] => return Err(Misuse::NoOption),
            _ if self.file.is_some() => return Err(Misuse::TwoFiles),
            _ => self.file = Some(i),
        }
        Ok(())
    }

    // All of them, up to the first that is none.
    fn take_all(&mut self, rt: &HostRuntime) -> Result<(), Misuse> {
        let mut space = [0u8; 4096];
        for i in 1..usize::MAX {
            match rt.arg(i, &mut space) {
                Ok(n) => self.take(i, &space[..n])?,
                Err(FillError::TooLong) => return Err(Misuse::TooLong),
                Err(FillError::NotPresent) => break,
            }
        }
        Ok(())
    }
}

fn refuse(rt: &HostRuntime, words: &[u8]) -> u8
    ensures { result ≤ 2 }
{
    say(rt, words);
    NOTHING
}

fn refuse_misuse(rt: &HostRuntime, misuse: Misuse) -> u8
    ensures { result ≤ 2 }
{
    let _ = eprintln!(rt; "replay: {misuse}");
    NOTHING
}

fn replay_stdin(rt: &HostRuntime, text: &mut [u8], echo: bool) -> u8
    requires { length text.old ≤ 2097152 }
    ensures { result ≤ 2 }
{
    replay_in(rt, text, b"replay: standard input", &mut rt.stdin(), echo)
}

fn replay_file(rt: &HostRuntime, text: &mut [u8], file: usize, echo: bool) -> u8
    requires { length text.old ≤ 2097152 }
    ensures { result ≤ 2 }
{
    let mut space = [0u8; 4096];
    let n = rt.arg(file, &mut space).unwrap_or(0);
    match &space[..n] {
        b"-" => replay_stdin(rt, text, echo),
        path => replay_path(rt, text, path, echo),
    }
}

// std opens no file whose name is not UTF-8.
fn replay_path(rt: &HostRuntime, text: &mut [u8], path: &[u8], echo: bool) -> u8
    requires { length text.old ≤ 2097152 }
    ensures { result ≤ 2 }
{
    let Ok(name) = std::str::from_utf8(path) else {
        say(rt, path);
        return refuse(rt, b": a name that is not UTF-8\n");
    };
    match fs::open(rt, name) {
        Ok(mut from) => replay_in(rt, text, path, &mut from, echo),
        Err(failure) => {
            fail(rt, path, &failure);
            NOTHING
        }
    }
}

// The file, or standard input where none is named.
fn act(rt: &HostRuntime, text: &mut [u8], asked: Asked) -> Result<u8, Misuse>
    requires { length text.old ≤ 2097152 }
    ensures { IfOk result (λ status. status ≤ 2) }
{
    if let Some(file) = asked.file {
        return Ok(replay_file(rt, text, file, asked.echo));
    }
    if rt.stdin().is_terminal() {
        return Err(Misuse::NoFile);
    }
    Ok(replay_stdin(rt, text, asked.echo))
}

// What is asked before a misuse stays in `asked`.
fn obey(rt: &HostRuntime, text: &mut [u8], asked: &mut Asked) -> Result<u8, Misuse>
    requires { length text.old ≤ 2097152 }
    ensures { IfOk result (λ status. status ≤ 2) }
{
    asked.take_all(rt)?;
    act(rt, text, *asked)
}

fn digit(status: u8) -> u8
    requires { status ≤ 2 }
    ensures { result ≡ 48 + status }
{
    b'0' + status
}

// Whether a descriptor was opened for writing: the octal number behind `flags:` ends with the mode, 0 for reading alone.
fn is_writable(info: &[u8]) -> bool {
    info.split(|&b| b == b'\n')
        .filter_map(|line| line.strip_prefix(b"flags:"))
        .filter_map(|flags| flags.last())
        .any(|digit| *digit % 4 != 0)
}

// Nothing goes through a descriptor that was opened for reading alone: its name could open it for more.
fn takes_status(rt: &HostRuntime) -> bool {
    let mut info = [0u8; 256];
    let Ok(mut from) = fs::open(rt, STATUS_INFO) else {
        return false;
    };
    let n = input::fill(&mut from, &mut info).bytes;
    is_writable(&info[..n])
}

// Opened for reading too, a pipe whose reader is gone does not wait for another.
fn open_status(rt: &HostRuntime) -> io::Result<File> {
    OpenOptions::new()
        .read(true)
        .append(true)
        .open(rt, STATUS_PATH)
        .or_else(|_| OpenOptions::new().append(true).open(rt, STATUS_PATH))
}

// Behind what descriptor 3 was given before. Where it is not open, nobody hears the digit.
fn tell(rt: &HostRuntime, status: u8)
    requires { status ≤ 2 }
{
    if !takes_status(rt) {
        return;
    }
    if let Ok(mut file) = open_status(rt) {
        let _ = file.write_all(&[digit(status)]);
    }
}

// The whole program, and its status; `text` is as large as the largest file that it takes.
pub fn run(rt: &HostRuntime, text: &mut [u8]) -> u8
    requires { length text.old ≤ 2097152 }
    ensures { result ≤ 2 }
{
    let mut asked = Asked::default();
    let status = match obey(rt, text, &mut asked) {
        Ok(status) => status,
        Err(misuse) => refuse_misuse(rt, misuse),
    };
    if asked.status {
        tell(rt, status);
    }
    status
}
