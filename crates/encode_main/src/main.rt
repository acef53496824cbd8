// Document 01's program: reads a term file of at most 65,536 bytes and writes its table, or the line that says why not.
// `answer` makes all that is written; `main` reads, calls it and writes as many bytes as it says.
#![tactic(auto)]

ghost use Rattle.std.specs.Prelude.{◌≡◌, ◌≤◌, length};
ghost use Rattle.octets.specs.Filling.{Wrote};
ghost use Rattle.refusal.specs.Number.{number};
ghost use Rattle.encode_main.specs.Program.{decimal, refused_line, line_of, program_of};

use refusal::{Fault, Refusal};

// Standard input.
const STDIN_FILENO: i32 = 0;

// Standard output.
const STDOUT_FILENO: i32 = 1;

fn put_decimal(n: u64, out: &mut [u8]) -> usize
    requires { length (decimal n) ≤ length out.old }
    ensures { Wrote (decimal n) out.old out.new result }
{
    let mut text = [0u8; 20];
    let k = io::decimal(n, &mut text);
    octets::put_slice(&text[..k], out)
}

// "refused N at R" and the line's end.
#[tactic(auto, unfolding(crate::specs::Program::refused_line))]
fn put_refused(number: u64, index: u64, out: &mut [u8]) -> usize
    requires { length (refused_line number index) ≤ length out.old }
    ensures { Wrote (refused_line number index) out.old out.new result }
{
    let mut at = 0;
    at += octets::put_slice(b"refused ", &mut out[at..]);
    at += put_decimal(number, &mut out[at..]);
    at += octets::put_slice(b" at ", &mut out[at..]);
    at += put_decimal(index, &mut out[at..]);
    at += octets::put_slice(b"\n", &mut out[at..]);
    at
}

// A refusal's line; 14, a table longer than the output, has the line of input that is too long.
fn put_line(fault: Fault, out: &mut [u8]) -> usize
    requires { length (line_of (number fault.refusal) fault.index) ≤ length out.old }
    ensures { Wrote (line_of (number fault.refusal) fault.index) out.old out.new result }
{
    match fault.refusal {
        Refusal::OutputShort => octets::put_slice(b"refused size\n", out),
        refusal => put_refused(u64::from(refusal.number()), fault.index, out),
    }
}

// All that the program writes for this input.
fn answer(input: &[u8], out: &mut [u8]) -> usize
    requires { length out.old ≡ 65536 }
    ensures { Wrote (program_of input.now) out.old out.new result }
{
    if 65536 < input.len() {
        return put_line(Refusal::OutputShort.into(), out);
    }
    match encode::encode(input, out) {
        Ok(size) => size,
        Err(fault) => put_line(fault, out),
    }
}

// One byte more than a file may have: input that fills it is too long, whatever follows.
fn buffer() -> [u8; 65537]
    ensures { 65537 ≡ length result }
{
    [0; 65537]
}

fn main() {
    let mut input = buffer();
    let n = io::read_full(STDIN_FILENO, &mut input);
    let mut out = io::large_buffer();
    let k = answer(&input[..n], &mut out);
    io::write_all(STDOUT_FILENO, &out[..k]);
}
