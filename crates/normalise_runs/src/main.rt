// Runs `normalise` on the term files that standard input describes, a line each (crate `described`), and prints the answer and the
// normal-form file; then whether that file is its own normal form and encodes as the first one does, and the call in less room.
#![tactic(auto)]

use described::{huge_buffer, put_file};
use shown::{again, bytes_in, call, each_line, front, text, written};

// ── A call

fn form_again(form: &[u8], out: &mut [u8]) {
    let a = normalise::normalise(form, out);
    if written(a, out) == form {
        text(b"  it is its own normal form");
    } else {
        text(b"  ANOTHER NORMAL FORM");
    }
}

fn table_again(form: &[u8], table: &[u8], out: &mut [u8]) {
    let a = encode::encode(form, out);
    if written(a, out) == table {
        text(b", and has the file's table\n");
    } else {
        text(b", and has ANOTHER TABLE\n");
    }
}

fn form_in(file: &[u8], form: &[u8], out: &mut [u8], table: &mut [u8]) {
    form_again(form, out);
    let a = encode::encode(file, table);
    table_again(form, written(a, table), out);
}

fn run_in(file: &[u8], out: &mut [u8], spare: &mut [u8], table: &mut [u8]) {
    let normalise = |out: &mut [u8]| normalise::normalise(file, out);
    if let Some(n) = call(out, normalise) {
        bytes_in(out, n);
        form_in(file, front(out, n), spare, table);
        again(n, spare, normalise);
        again(n.wrapping_sub(1), spare, normalise);
    }
}

fn run_long(file: &[u8]) {
    let mut out = huge_buffer();
    let mut spare = huge_buffer();
    let mut table = huge_buffer();
    run_in(file, &mut out, &mut spare, &mut table);
}

// The normal form of a file under 2,048 bytes, and its table, have under 65,536.
fn run_file(file: &[u8]) {
    if 2048 <= file.len() {
        run_long(file);
        return;
    }
    let mut out = io::large_buffer();
    let mut spare = io::large_buffer();
    let mut table = io::large_buffer();
    run_in(file, &mut out, &mut spare, &mut table);
}

// ── A line each

fn run(line: &[u8]) {
    let mut buffer = huge_buffer();
    let n = put_file(line, &mut buffer);
    run_file(front(&buffer, n));
}

fn main() {
    each_line(run);
}
