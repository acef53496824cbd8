// What programs that run cases read and print: lines of names and descriptions; answers and bytes. An output is filled before a
// call, and held behind its length to what it was, so that a byte written past the length is seen.
#![tactic(auto)]

ghost use Rattle.std.specs.Prelude.{◌≡◌, [], MatchResult, take};

use described::split_once;
use refusal::Fault;

// Standard input.
const STDIN_FILENO: i32 = 0;

// Standard output.
const STDOUT_FILENO: i32 = 1;

pub fn text(s: &[u8]) {
    io::write_all(STDOUT_FILENO, s);
}

pub fn decimal(n: u64) {
    io::print_decimal(STDOUT_FILENO, n);
}

// ── Lines

// Prints a line's name, up to its =, and gives what stands behind; a line that names nothing is a heading.
fn named(line: &[u8]) -> Option<&[u8]> {
    match split_once(line, b'=') {
        Some((name, description)) if !description.is_empty() => {
            text(front(line, name.len() + 1));
            Some(description)
        }
        _ => {
            text(line);
            text(b"\n");
            None
        }
    }
}

// Runs each description of standard input, a line each, behind its printed name.
pub fn each_line<F: FnMut(&[u8])>(mut run: F)
    requires { F.IsAlwaysCallable run }
{
    let mut input = io::large_buffer();
    let n = io::read_full(STDIN_FILENO, &mut input);
    for line in input[..n].split_inclusive(|b| *b == b'\n') {
        if let Some(description) = line.strip_suffix(b"\n").and_then(named) {
            run(description);
        }
    }
}

// ── A call

// What calls answer: how many bytes they wrote, or the refusal.
pub type Answer = Result<usize, Fault>;

// What stands in the output before a call.
const BEFORE: u8 = 0xAA;

// Whether the output from `from` on is as it was before the call. Most of a run passes here, and `all` takes a quarter longer.
fn is_kept(out: &[u8], from: usize) -> bool {
    for b in out.get(from..).unwrap_or(&[]) {
        if *b != BEFORE {
            return false;
        }
    }
    true
}

// The number and the record of a refusal; 0 and 0 where nothing is refused.
pub fn verdict(refused: Option<Fault>) {
    let (number, index) = refused.map_or((0, 0), |f| (f.refusal.number(), f.index));
    text(b" ");
    decimal(u64::from(number));
    text(b" at ");
    decimal(index);
}

fn told(a: Answer, out: &[u8]) {
    let n = a.unwrap_or(0);
    verdict(a.err());
    text(b", ");
    decimal(n as u64);
    if is_kept(out, n) {
        text(b" bytes, the rest as it was\n");
    } else {
        text(b" bytes, the rest CHANGED\n");
    }
}

// Calls into the first n bytes of the output, where there are as many.
fn call_into<F: FnOnce(&mut [u8]) -> Answer>(n: usize, out: &mut [u8], call: F) -> Option<Answer>
    requires { F.IsAlwaysCallable call }
{
    out.fill(BEFORE);
    Some(call(out.get_mut(..n)?))
}

// Calls into the whole output, and prints the answer; how many bytes are written, where the call does not refuse.
pub fn call<F: FnOnce(&mut [u8]) -> Answer>(out: &mut [u8], call: F) -> Option<usize>
    requires { F.IsAlwaysCallable call }
{
    let a = call_into(out.len(), out, call)?;
    told(a, out);
    a.ok()
}

// The same call again, into n bytes; what is printed is printed behind the call.
pub fn again<F: FnOnce(&mut [u8]) -> Answer>(n: usize, out: &mut [u8], call: F)
    requires { F.IsAlwaysCallable call }
{
    if let Some(a) = call_into(n, out, call) {
        text(b"  into ");
        decimal(n as u64);
        text(b":");
        told(a, out);
    }
}

// ── Bytes

// What an answer left in an output: nothing where it refuses.
pub fn written(a: Answer, out: &[u8]) -> &[u8]
    ensures { MatchResult a (λ n. result.now ≡ take n out.now) (λ e. result.now ≡ []) }
{
    front(out, a.unwrap_or(0))
}

// The first n bytes, or all where there are fewer.
pub fn front(b: &[u8], n: usize) -> &[u8]
    ensures { result.now ≡ take n b.now }
{
    b.get(..n).unwrap_or(b)
}

// One number for bytes in their order.
pub fn mixed(b: &[u8]) -> u64 {
    b.iter().fold(0, |v, b| v % 0x1000000 * 31 + u64::from(*b))
}

pub fn hexadecimal(b: &[u8]) {
    for x in b {
        text(b" ");
        io::print_hex(STDOUT_FILENO, u64::from(*x), 2);
    }
}

// Of many bytes the first in hexadecimal, and one number for all.
fn some_bytes(b: &[u8]) {
    text(b" ");
    if b.len() <= 256 {
        hexadecimal(b);
        text(b"\n");
        return;
    }
    hexadecimal(front(b, 64));
    text(b" ..\n  all of them mixed: ");
    decimal(mixed(b));
    text(b"\n");
}

// The first n bytes of an output.
pub fn bytes_in(out: &[u8], n: usize) {
    match out.get(..n) {
        Some(b) => some_bytes(b),
        None => text(b"  longer than the output\n"),
    }
}
