// For programs: runs `encode` on the term files that standard input describes, a line each (crate `described`), and prints the
// answer and the table. The output holds one byte throughout before each call, so that a byte written past the length is seen.
#![tactic(auto)]

use described::{huge_buffer, put_file};
use shown::{again, bytes_in, call, each_line, text};

// A table also goes into as many bytes as it has, and not into one less.
fn run_in(file: &[u8], out: &mut [u8]) {
    let encode = |out: &mut [u8]| encode::encode(file, out);
    if let Some(n) = call(out, encode) {
        bytes_in(out, n);
        again(n, out, encode);
        again(n.wrapping_sub(1), out, encode);
    }
}

fn run(line: &[u8]) {
    let mut buffer = huge_buffer();
    let n = put_file(line, &mut buffer);
    match buffer.get(..n) {
        Some(file) => {
            let mut out = huge_buffer();
            run_in(file, &mut out);
        }
        None => text(b" no room\n"),
    }
}

// All lines of standard input.
pub fn run_all() {
    each_line(run);
}
