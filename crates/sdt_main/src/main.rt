// Runs the growing table: document 01's whole table in a new header and three appends, writes, and each refusal.
// Each line is a call, its number, the record and every byte of the buffer as they are left.
#![tactic(auto)]

use refusal::Refusal;
use sdt::Sdt;
use shown::{hexadecimal, text};

const IDENTITY: &[u8; 31] =
    b"DSDT\x02\x00\x00\x00\x00\x00\x00\x00\x00\x00\x00\x00\x00\x00\x00\x00\x00\x00\x00\x00\x00\x00\x00\x00\x00\x00\x00";

// A record that no table has: a refused edit has to leave it as it is.
const NO_TABLE: Sdt = Sdt {
    length: 7,
    checksum: 9,
};

// A piece, and the offset at which it is written.
type Write = (u64, &'static [u8]);

static INSIDE: [Write; 5] = [
    (37, b"BAR_"),
    (0, b"SSDT"),
    (8, b"\x01"),
    (10, b"\x55"),
    (41, b"\xFF"),
];

static OUTSIDE: [Write; 5] = [
    (42, b"x"),
    (40, b"xyz"),
    (u64::MAX, b""),
    (u64::MAX, b"x"),
    (u64::MAX, b"xy"),
];

static ON_THE_SEAL: [Write; 8] = [
    (4, b"x"),
    (5, b"x"),
    (6, b"x"),
    (7, b"x"),
    (9, b"x"),
    (3, b"xy"),
    (7, b"xy"),
    (8, b"xy"),
];

static EMPTY: [Write; 5] = [(4, b""), (7, b""), (9, b""), (42, b""), (43, b"")];

// ── A line

fn decimal(n: u64) {
    text(b" ");
    shown::decimal(n);
}

// What an edit left.
fn show(edit: Result<(), Refusal>, t: Sdt, b: &[u8]) {
    let number = match edit {
        Ok(()) => 0,
        Err(refusal) => refusal.number(),
    };
    text(b":");
    decimal(u64::from(number));
    text(b", record");
    decimal(u64::from(t.length));
    hexadecimal(&[t.checksum]);
    text(b"\n ");
    hexadecimal(b);
    text(b"\n");
}

fn made(t: &mut Sdt, b: &mut [u8], length: u32) {
    text(b"new of");
    decimal(u64::from(length));
    let edit = t.new(IDENTITY, length, b);
    show(edit, *t, b);
}

fn appended(t: &mut Sdt, b: &mut [u8], piece: &[u8]) {
    text(b"append of");
    decimal(piece.len() as u64);
    let edit = t.append(b, piece);
    show(edit, *t, b);
}

fn written(t: &mut Sdt, b: &mut [u8], offset: u64, piece: &[u8]) {
    text(b"write at");
    decimal(offset);
    text(b" of");
    decimal(piece.len() as u64);
    let edit = t.write(b, offset, piece);
    show(edit, *t, b);
}

fn all_written(t: &mut Sdt, b: &mut [u8], writes: &[Write]) {
    for (offset, piece) in writes {
        written(t, b, *offset, piece);
    }
}

// ── The runs

fn new_refused(b: &mut [u8]) {
    let mut t = NO_TABLE;
    for length in [35, 268435456, 4294967295, 49] {
        made(&mut t, b, length);
    }
}

// Document 01's whole table, in three appends; then nothing, and one byte more than there is room for.
fn grown(b: &mut [u8]) -> Sdt {
    let mut t = NO_TABLE;
    made(&mut t, b, 36);
    appended(&mut t, b, b"\x08");
    appended(&mut t, b, b"FOO_");
    appended(&mut t, b, b"\x01");
    appended(&mut t, b, b"");
    appended(&mut t, b, b"sevenxx");
    t
}

fn poke(b: &mut [u8], x: u8) {
    if let Some(byte) = b.get_mut(38) {
        *byte = x;
    }
}

// A byte was changed behind the record: an empty edit renews the checksum.
fn renewed(t: &mut Sdt, b: &mut [u8]) {
    poke(b, 0x5A);
    appended(t, b, b"");
    poke(b, 0xA5);
    written(t, b, 4, b"");
}

fn refused(mut t: Sdt, b: &mut [u8]) {
    appended(&mut t, b, b"x");
    written(&mut t, b, u64::MAX, b"x");
}

// A record of another length, or of another checksum.
fn unsound(t: Sdt, b: &mut [u8]) {
    for length in [35, 41, 49] {
        refused(Sdt { length, ..t }, b);
    }
    refused(Sdt { checksum: 0, ..t }, b);
}

fn short(b: &mut [u8]) {
    let mut t = Sdt {
        length: 36,
        checksum: 0xEE,
    };
    refused(t, b);
    written(&mut t, b, 0, b"");
    made(&mut t, b, 35);
    made(&mut t, b, 36);
}

// Zeros behind the header, and a buffer that is filled to its last byte.
fn filled(b: &mut [u8]) {
    let mut t = Sdt {
        length: 0,
        checksum: 0,
    };
    made(&mut t, b, 40);
    appended(&mut t, b, b"nine byte");
    appended(&mut t, b, b"8 bytes.");
    appended(&mut t, b, b"");
    appended(&mut t, b, b"x");
    written(&mut t, b, 47, b"!");
}

fn main() {
    let mut b = [0xEE; 48];
    new_refused(&mut b);
    let mut t = grown(&mut b);
    all_written(&mut t, &mut b, &INSIDE);
    all_written(&mut t, &mut b, &OUTSIDE);
    all_written(&mut t, &mut b, &ON_THE_SEAL);
    all_written(&mut t, &mut b, &EMPTY);
    renewed(&mut t, &mut b);
    unsound(t, &mut b);
    short(&mut [0xEE; 9]);
    filled(&mut [0xEE; 48]);
}
