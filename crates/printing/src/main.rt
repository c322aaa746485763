// The printing program of documents 01 and 02: it reads forcings from standard input, steps mesh T by each, and prints one save at the end, or only the
// first refusal. What is printed for an input is `printed` of forcelog's specs. A forcing's first two bytes say how many it has, and it is
// read whole: forcelog's law `by_wholes` says that this prints the same as cutting the input at its line feeds. A read that fails is no end of input:
// nothing is printed then, and standard error says why, as it does of a write that fails.
#![tactic(auto)]

ghost use Rattle.std.specs.Prelude.{◌≤◌, ◌≡◌, length, IfOk};
ghost use Rattle.io.specs.Counts.{IsPrefixLen};
ghost use Rattle.forcelog.specs.Printed.{ending, due_of};
ghost use Rattle.forcelog.specs.Private.{Savable};

use forcelog::Log;
use frames::reading;
use rows::{Answer, Refusal};
use std::io;
use std::io::Read;

// The save at the end: it is never refused, so the room is full.
fn save_text(log: &Log) -> [u8; 442]
    requires { Savable log.now }
    ensures { result ≡ ending log.now }
{
    let mut text = [0u8; 442];
    forcelog::end(&mut text, log).unwrap();
    text
}

// One read into a text's bytes `from` to `to`: it adds nothing where the input ends. How many bytes are there then.
fn read_part<R: Read>(reader: &mut R, text: &mut [u8], from: usize, to: usize) -> io::Result<usize>
    requires { (from ≤ to) × (to ≤ length text.old) }
    ensures { IfOk result (λ len. (from ≤ len) × (len ≤ to)) }
{
    let more = reader.read(&mut text[from..to])?;
    Ok(from + more)
}

// Reads on from byte `from` until `to` bytes are there or the input ends.
fn read_to<R: Read>(reader: &mut R, text: &mut [u8], from: usize, to: usize) -> io::Result<usize>
    requires { (from ≤ to) × (to ≤ length text.old) }
    ensures { IfOk result (λ len. IsPrefixLen len text.new) }
{
    let mut len = from;
    while len < to {
        let now = read_part(reader, text, len, to)?;
        if now == len {
            return Ok(len);
        }
        len = now;
    }
    Ok(len)
}

// How many bytes a forcing has that starts so.
fn due(text: &[u8]) -> usize
    ensures { result ≡ due_of text.now }
{
    if reading::starts(text, b'1', b'0') {
        return 57;
    }
    148
}

// Reads a whole forcing: 57 bytes, which every forcing has, and then on to as many as its first two say.
fn read_whole<R: Read>(reader: &mut R, text: &mut [u8]) -> io::Result<usize>
    requires { length text.old ≡ 148 }
    ensures { IfOk result (λ len. IsPrefixLen len text.new) }
{
    let start = read_to(reader, text, 0, 57)?;
    if start < 57 {
        return Ok(start);
    }
    let to = due(text);
    read_to(reader, text, 57, to)
}

fn say_unread(rt: &impl Eprint, error: io::Error) -> io::Result<()> {
    eprintln!(rt; "printing: cannot read standard input: {error}")
}

fn print(rt: &(impl Print + Eprint), text: &[u8]) -> io::Result<()> {
    if let Err(error) = rt.write_all(text) {
        eprintln!(rt; "printing: cannot write standard output: {error}")?;
    }
    Ok(())
}

fn print_refusal(rt: &(impl Print + Eprint), refusal: Refusal) -> io::Result<()> {
    let words = refusals::refusal(Answer::from(Err(refusal)));
    let bytes = words.bytes;
    let len = words.len;
    print(rt, &bytes[..len])
}

// The error that it ends with is of standard error, where a failed read or write is told.
fn main(rt: HostRuntime) -> io::Result<()> {
    let mut reader = rt.stdin();
    let mut log = forcelog::cold();
    loop {
        let mut text = [0u8; 148];
        let n = match read_whole(&mut reader, &mut text) {
            Ok(n) => n,
            Err(error) => return say_unread(&rt, error),
        };
        if n == 0 {
            return print(&rt, &save_text(&log));
        }
        log = match forcelog::take(&text[..n], &log) {
            Ok(next) => next,
            Err(refusal) => return print_refusal(&rt, refusal),
        };
    }
}
