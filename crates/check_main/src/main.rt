// Runs `check` on the term files that standard input describes, a line each (crate `described`), and prints the line's name, the
// number and the record; then on two files of many arity entries.
#![tactic(auto)]

use described::{huge_buffer, put, put_file};
use shown::{each_line, text};

// The verdict on the file that the first n bytes of the output are.
fn verdict(out: &[u8], n: usize) {
    match out.get(..n) {
        Some(file) => {
            shown::verdict(checker::check(file).err());
            text(b"\n");
        }
        None => text(b" no room\n"),
    }
}

fn run(line: &[u8]) {
    let mut out = huge_buffer();
    let n = put_file(line, &mut out);
    verdict(&out, n);
}

// ── Many arity entries

// The entry at place j of n: a path of four letters that count j, in the pool where the entries end, and one argument.
fn put_entry(j: u16, n: u16, out: &mut [u8]) {
    let k = u64::from(j);
    let path = 60 + 8 * usize::from(n) + 4 * usize::from(j);
    put(8, 0x0001000400000000 + 4 * k, 60 + 8 * usize::from(j), out);
    put(1, 65 + k / 676, path, out);
    put(1, 65 + k / 26 % 26, path + 1, out);
    put(1, 65 + k % 26, path + 2, out);
    put(1, 65, path + 3, out);
}

// The header of a file of n entries alone, each with a path of four bytes.
fn put_header(n: u16, out: &mut [u8]) {
    put(4, 0x4D524554, 0, out);
    put(4, 60, 8, out);
    put(4, u64::from(n), 12, out);
    put(4, 60, 16, out);
    put(4, 4 * u64::from(n), 20, out);
    put(4, 60 + 8 * u64::from(n), 24, out);
}

fn entries(name: &[u8], n: u16) {
    let mut out = io::large_buffer();
    put_header(n, &mut out);
    for j in 0..n {
        put_entry(j, n, &mut out);
    }
    text(name);
    verdict(&out, 60 + 12 * usize::from(n));
}

fn main() {
    each_line(run);
    entries(b"4,096 arities =", 4096);
    entries(b"4,097 arities =", 4097);
}
