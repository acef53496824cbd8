// Runs `read` on the tables that standard input describes, a line each: a term file (crate `described`), whose table is read with
// its arity list, and must give its normal form. Behind the file may stand | and bytes that are appended to the table; ! and the
// bytes of a table, which is read with the file as arity file; ~ for each other value of each byte behind the table's header.
// Bytes stand as the pool of a file. Length and checksum are made right, but behind !.
#![tactic(auto)]

use described::{huge_buffer, put, put_file, split_once};
use refusal::Refusal;
use shown::{again, bytes_in, call, decimal, each_line, front, mixed, text, written};

// ── A call

// Whether a file's table is this one.
fn gives(form: &[u8], table: &[u8], out: &mut [u8]) -> bool {
    let a = encode::encode(form, out);
    written(a, out) == table
}

fn table_again(form: &[u8], table: &[u8], out: &mut [u8]) {
    if gives(form, table, out) {
        text(b"  it has this table\n");
    } else {
        text(b"  it has ANOTHER TABLE\n");
    }
}

// The length of the file, where one is read.
fn read_in(list: &[u8], table: &[u8], out: &mut [u8], spare: &mut [u8]) -> Option<usize> {
    let read = |out: &mut [u8]| reader::read(list, table, out);
    let Some(n) = call(out, read) else {
        again(0, out, read);
        return None;
    };
    bytes_in(out, n);
    table_again(front(out, n), table, spare);
    again(n, spare, read);
    again(n.wrapping_sub(1), spare, read);
    Some(n)
}

fn form_held(file: &[u8], form: &[u8], out: &mut [u8]) {
    let a = normalise::normalise(file, out);
    if written(a, out) == form {
        text(b"  it is the file's normal form\n");
    } else {
        text(b"  it is ANOTHER FILE\n");
    }
}

// What is read is held to the file's normal form; where the file is empty, to none.
fn run_in(file: &[u8], list: &[u8], table: &[u8], out: &mut [u8], spare: &mut [u8]) {
    if let Some(n) = read_in(list, table, out, spare)
        && !file.is_empty()
    {
        form_held(file, front(out, n), spare);
    }
}

fn run_long(file: &[u8], list: &[u8], table: &[u8]) {
    let mut out = huge_buffer();
    let mut spare = huge_buffer();
    run_in(file, list, table, &mut out, &mut spare);
}

// What a table under 2,048 bytes is read as has under 65,536, with the few arities that stand in a line.
fn run_table(file: &[u8], list: &[u8], table: &[u8]) {
    if 2048 <= table.len() {
        run_long(file, list, table);
        return;
    }
    let mut out = io::large_buffer();
    let mut spare = io::large_buffer();
    run_in(file, list, table, &mut out, &mut spare);
}

// ── The table of a file

fn run_file(file: &[u8], list: &[u8]) {
    let mut table = huge_buffer();
    match encode::encode(file, &mut table) {
        Ok(n) => run_table(file, list, front(&table, n)),
        Err(_) => text(b" no table\n"),
    }
}

// ── Tables that differ

// The checksum as it must be.
fn mend(table: &mut [u8]) {
    put(1, 0, 9, table);
    let c = octets::generate_checksum(table);
    put(1, u64::from(c), 9, table);
}

// The bytes of `piece` behind a table of n bytes; the length of both, 0 where there is no room.
fn append(table: &mut [u8], n: usize, piece: &[u8]) -> usize {
    if table.len() < n || table.len() - n < piece.len() {
        return 0;
    }
    let m = n + piece.len();
    table[n..m].copy_from_slice(piece);
    put(4, m as u64, 4, table);
    mend(&mut table[..m]);
    m
}

fn run_appended(file: &[u8], list: &[u8], piece: &[u8]) {
    let mut table = huge_buffer();
    let a = encode::encode(file, &mut table);
    let n = append(&mut table, a.unwrap_or(0), piece);
    run_table(&[], list, front(&table, n));
}

// How many of the tables were read, and one number for their files.
#[derive(Clone, Copy)]
struct Tally {
    files: u64,
    mixed: u64,
}

impl Tally {
    // With the file that is read where v stands.
    fn with(self, form: &[u8], v: u8) -> Tally {
        Tally {
            files: self.files.wrapping_add(1),
            mixed: self.mixed % 0x1000000 * 31 + mixed(form) % 0x1000000 + u64::from(v),
        }
    }

    fn tell(self, i: usize) {
        text(b"  at ");
        decimal(i as u64);
        text(b": ");
        decimal(self.files);
        text(b" read, mixed ");
        decimal(self.mixed);
        text(b"\n");
    }
}

fn change(table: &mut [u8], i: usize, v: u8) {
    if let Some(b) = table.get_mut(i) {
        *b = v;
    }
    mend(table);
}

// The length of the file that a changed table is read as; a refusal must be 22.
fn read_changed(list: &[u8], table: &[u8], out: &mut [u8]) -> Option<usize> {
    let a = reader::read(list, table, out);
    if let Err(f) = a
        && f.refusal != Refusal::NoFile
    {
        text(b"  ANOTHER NUMBER\n");
    }
    a.ok()
}

// Each other value at i, and then the old one.
fn sweep_at(list: &[u8], table: &mut [u8], i: usize, out: &mut [u8], spare: &mut [u8]) {
    let old = table.get(i).copied().unwrap_or(0);
    let mut tally = Tally { files: 0, mixed: 0 };
    for step in 1..=u8::MAX {
        let v = old.wrapping_add(step);
        change(table, i, v);
        if let Some(n) = read_changed(list, table, out) {
            if !gives(front(out, n), table, spare) {
                text(b"  ANOTHER TABLE\n");
            }
            tally = tally.with(front(out, n), v);
        }
    }
    change(table, i, old);
    tally.tell(i);
}

fn sweep(list: &[u8], table: &mut [u8], out: &mut [u8], spare: &mut [u8]) {
    for i in 36..table.len() {
        sweep_at(list, table, i, out, spare);
    }
}

fn run_sweep(file: &[u8], list: &[u8]) {
    let mut table = io::buffer();
    let a = encode::encode(file, &mut table);
    if let Some(table) = table.get_mut(..a.unwrap_or(0)) {
        text(b"\n");
        let mut out = io::buffer();
        let mut spare = io::buffer();
        sweep(list, table, &mut out, &mut spare);
    }
}

// ── A line each

// What stands behind the header of a file without records and arities.
fn pool_of(file: &[u8]) -> &[u8] {
    file.get(60..).unwrap_or(file)
}

// Where the part of a description ends that starts at `from`.
fn part_end(description: &[u8], from: usize) -> usize {
    description
        .iter()
        .skip(from)
        .position(|b| *b == b';')
        .map_or(description.len(), |n| from.wrapping_add(n))
}

// The second and the third part of a description: its arity entries, and the text of its pool.
fn list_of(description: &[u8]) -> &[u8] {
    let records = part_end(description, 0);
    let entries = part_end(description, records.wrapping_add(1));
    let text = part_end(description, entries.wrapping_add(1));
    description.get(records..text).unwrap_or(&[])
}

fn plain(description: &[u8]) {
    let mut file = huge_buffer();
    let n = put_file(description, &mut file);
    let mut list = io::large_buffer();
    let k = put_file(list_of(description), &mut list);
    run_file(front(&file, n), front(&list, k));
}

fn swept(description: &[u8]) {
    let mut file = io::large_buffer();
    let n = put_file(description, &mut file);
    let mut list = io::large_buffer();
    let k = put_file(list_of(description), &mut list);
    run_sweep(front(&file, n), front(&list, k));
}

fn appended(description: &[u8], piece: &[u8]) {
    let mut file = huge_buffer();
    let n = put_file(description, &mut file);
    let mut list = io::large_buffer();
    let k = put_file(list_of(description), &mut list);
    let mut piece_file = io::large_buffer();
    let m = put_file(piece, &mut piece_file);
    run_appended(
        front(&file, n),
        front(&list, k),
        pool_of(front(&piece_file, m)),
    );
}

fn raw(arities: &[u8], bytes: &[u8]) {
    let mut list = io::large_buffer();
    let k = put_file(arities, &mut list);
    let mut table = io::large_buffer();
    let n = put_file(bytes, &mut table);
    run_table(&[], front(&list, k), pool_of(front(&table, n)));
}

fn run(line: &[u8]) {
    if let Some((description, piece)) = split_once(line, b'|') {
        appended(description, piece);
    } else if let Some((arities, bytes)) = split_once(line, b'!') {
        raw(arities, bytes);
    } else if let Some((description, _)) = split_once(line, b'~') {
        swept(description);
    } else {
        plain(line);
    }
}

fn main() {
    each_line(run);
}
