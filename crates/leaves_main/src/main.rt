// Runs the leaves on document 01's examples and on the limits around them, and prints what they give: a line each.
// What is written is read back; what is longer than it has to be must be read as none.
#![tactic(auto)]

ghost use Rattle.std.specs.Prelude.{◌≤◌};

use ident::GenericAddress;
use refusal::Refusal;
use shown::{front, hexadecimal, text};

// Standard output.
const STDOUT_FILENO: i32 = 1;

// The first n bytes in hexadecimal, and the line's end.
fn bytes(b: &[u8], n: usize) {
    hexadecimal(front(b, n));
    text(b"\n");
}

fn decimal(n: u64) {
    text(b" ");
    shown::decimal(n);
}

// A number that was read, and where it ends.
fn read(n: Option<(u64, usize)>) {
    match n {
        Some((value, next)) => {
            text(b"  read");
            decimal(value);
            text(b" to");
            decimal(next as u64);
            text(b"\n");
        }
        None => text(b"  none\n"),
    }
}

// ── Integers and lengths

fn integer(x: u64) {
    let mut out = io::buffer();
    let n = number::put_int(x, &mut out);
    text(b"integer");
    decimal(x);
    text(b":");
    bytes(&out, n);
    read(number::int_at(&out, 0));
}

fn pkg_length(n: u64, include_self: bool)
    requires { n ≤ 268435455 }
{
    let mut out = io::buffer();
    let k = number::create_pkg_length(n, include_self, &mut out);
    text(b"length");
    decimal(n);
    text(b":");
    bytes(&out, k);
    read(number::pkg_length_at(&out, 0, include_self));
}

fn integers() {
    for x in [
        0,
        1,
        2,
        255,
        256,
        65535,
        65536,
        4294967295,
        4294967296,
        u64::MAX,
    ] {
        integer(x);
    }
    text(b"not the shortest, or cut off\n");
    read(number::int_at(b"\x0A\x01", 0));
    read(number::int_at(b"\x0B\xFF\x00", 0));
    read(number::int_at(b"\x0B\x00", 0));
    read(number::int_at(b"\x0D\x00", 0));
    read(number::int_at(b"\x00", 1));
}

fn pkg_lengths() {
    pkg_length(0, true);
    pkg_length(62, true);
    pkg_length(63, true);
    pkg_length(4093, true);
    pkg_length(4094, true);
    pkg_length(1048572, true);
    pkg_length(1048573, true);
    pkg_length(268435451, true);
    text(b"field entries\n");
    pkg_length(62, false);
    pkg_length(63, false);
    pkg_length(268435455, false);
    text(b"not the shortest, a reserved bit, cut off, less than its own bytes\n");
    read(number::pkg_length_at(b"\x40\x01", 0, true));
    read(number::pkg_length_at(b"\x51\x04", 0, true));
    read(number::pkg_length_at(b"\x41", 0, true));
    read(number::pkg_length_at(b"\x00", 0, true));
}

// ── Paths

fn path_into(t: &[u8], out: &mut [u8]) -> usize {
    if t.len() < 64 && 66 <= out.len() && path::is_path(t) {
        return path::put_path(t, out);
    }
    0
}

// The text of the path in b, into `out`.
fn path_text_into(b: &[u8], out: &mut [u8]) -> usize {
    match path::path_at(b, 0) {
        Some((len, _)) if len <= out.len() as u64 => path::put_path_text(b, 0, out),
        _ => 0,
    }
}

fn path_text(b: &[u8], out: &mut [u8]) {
    let n = path_text_into(b, out);
    text(b"  text");
    bytes(out, n);
}

fn a_path(t: &[u8]) {
    let mut out = io::buffer();
    let n = path_into(t, &mut out);
    text(t);
    text(b":");
    bytes(&out, n);
    read(path::path_at(&out, 0));
    let mut back = io::buffer();
    path_text(&out, &mut back);
}

fn paths() {
    a_path(b"_SB_.PCI0");
    a_path(b"FOO_");
    a_path(b"\\_SB_");
    a_path(b"\\_SB_.PCI0.ISA_.COM1");
    text(b"no paths\n");
    a_path(b"");
    a_path(b"\\");
    a_path(b"FOO");
    a_path(b"0FOO");
    a_path(b"foo_");
    a_path(b"FOO_.");
    a_path(b"FOO_,BAR_");
    text(b"2F with 2 and with 3 segments, and cut off\n");
    read(path::path_at(b"\x2F\x02FOO_BAR_", 0));
    read(path::path_at(b"\x2F\x03FOO_BAR_BAZ_", 0));
    read(path::path_at(b"\x2F\x03FOO_BAR_BAZ", 0));
}

// ── Identifiers

fn eisa(t: &[u8]) {
    text(t);
    match ident::eisa_name(t) {
        Some(value) => {
            text(b" is ");
            integer(value);
        }
        None => text(b" is malformed\n"),
    }
}

fn uuid_into(t: &[u8], out: &mut [u8]) -> usize {
    if 16 <= out.len() && ident::is_uuid(t) {
        return ident::put_uuid(t, out);
    }
    0
}

fn uuid(t: &[u8]) {
    let mut out = io::buffer();
    let n = uuid_into(t, &mut out);
    text(t);
    text(b":");
    bytes(&out, n);
}

// A refused address has all fields 0.
fn address(made: Result<GenericAddress, Refusal>) {
    let (number, a) = ident::number_and_address(made);
    text(b"address");
    decimal(u64::from(number));
    text(b":");
    decimal(a.address_space_id as u64);
    decimal(a.register_bit_width as u64);
    decimal(a.register_bit_offset as u64);
    decimal(a.access_size as u64);
    decimal(a.address);
    text(b"\n");
}

fn identifiers() {
    eisa(b"PNP0501");
    eisa(b"PNP0000");
    eisa(b"PNP0a03");
    eisa(b"pnp0501");
    eisa(b"PNP050");
    eisa(b"PNP050G");
    uuid(b"33DB4D5B-1FF7-401C-9657-7441C03DD766");
    uuid(b"33db4d5b-1ff7-401c-9657-7441c03dd766");
    uuid(b"33DB4D5B-1FF7-401C-9657+7441C03DD766");
    uuid(b"33DB4D5B-1FF7-401C-9657-7441C03DD76");
    address(ident::io_port_address(1, 1016));
    address(ident::io_port_address(4, 65535));
    address(ident::mmio_address(8, 18446744073709551615));
    address(ident::mmio_address(3, 1));
}

// ── Descriptors

fn fault(kind: u64, t: &[u8], a: u64, x: u64) -> u64 {
    if !descriptor::descriptor_in_range(kind, t, a, x) {
        5
    } else if !descriptor::descriptor_spelled(kind, t) {
        6
    } else {
        0
    }
}

fn descriptor_into(kind: u64, t: &[u8], a: u64, x: u64, out: &mut [u8]) -> usize {
    if out.len() < 64 {
        return 0;
    }
    if descriptor::descriptor_in_range(kind, t, a, x) {
        if descriptor::descriptor_spelled(kind, t) {
            return descriptor::put_descriptor(kind, t, a, x, out);
        }
    }
    0
}

fn descriptor(kind: u64, t: &[u8], a: u64, x: u64) {
    let mut out = io::buffer();
    let n = descriptor_into(kind, t, a, x, &mut out);
    text(b"descriptor ");
    io::print_hex(STDOUT_FILENO, kind, 4);
    text(b" of");
    decimal(descriptor::descriptor_len(kind) as u64);
    text(b", refusal");
    decimal(fault(kind, t, a, x));
    text(b":");
    bytes(&out, n);
}

fn descriptors() {
    descriptor(0xE047, b"\xF8\x03\xFF\x03\x01\x08", 0, 0);
    descriptor(0xE047, b"\x01\x00\x00\x00\x00\x00", 0, 0);
    descriptor(0xE047, b"\xF8\x03", 0, 0);
    descriptor(
        0xE082,
        b"\x01\x08\x00\x01\xF8\x03\x00\x00\x00\x00\x00\x00",
        0,
        0,
    );
    descriptor(0xE086, b"", 1, 0x00001000FED00000);
    descriptor(0xE086, b"", 2, 0);
    descriptor(0xE086, b"x", 1, 0);
    descriptor(0xE089, b"", 15, 4294967295);
    descriptor(0xE089, b"", 16, 0);
    descriptor(0xE089, b"", 0, 4294967296);
}

fn spaces() {
    descriptor(0xE088, b"\x00\x00\xFE\xFF\x00\x00", 0, 0);
    descriptor(0xE088, b"\x00\x00\xFF\xFF\x00\x00", 0, 0);
    descriptor(0xE088, b"\x01\x00\x00\x00\x00\x00", 0, 0);
    descriptor(0xE088, b"\x01\x00\x00\x00\x00", 0, 0);
    descriptor(0xE088, b"\x00\x00\xFF\x00\x00\x00", 2, 0);
    descriptor(0xE088, b"\x00\x00\xFF\x00\x01\x00", 2, 0);
    descriptor(0xE088, b"\x00\x00\xFF\x00\x01\x00", 1, 3);
    descriptor(0xE088, b"\x00\x00\xFF\x00\x01\x00", 1, 2);
    descriptor(
        0xE087,
        b"\x00\x00\x00\x80\xFF\xFF\xFF\xFE\x00\x00\x00\x00",
        0,
        7,
    );
    descriptor(
        0xE087,
        b"\x00\x00\x00\x80\xFF\xFF\xFF\xFE\x00\x00\x00\x00",
        0,
        8,
    );
    descriptor(
        0xE08A,
        b"\x00\x00\x00\x00\x01\x00\x00\x00\xFF\xFF\xFF\xFF\xFF\xFF\xFF\xFF\x00\x00\x00\x00\x00\x00\x00\x00",
        0,
        1,
    );
    descriptor(
        0xE08A,
        b"\x00\x00\x00\x00\x00\x00\x00\x00\xFF\xFF\xFF\xFF\xFF\xFF\xFF\xFF\x00\x00\x00\x00\x00\x00\x00\x00",
        0,
        1,
    );
}

// ── The end of a template

fn end_tag() {
    let mut out = io::buffer();
    let n = descriptor::put_end_tag(&mut out);
    text(b"  end:");
    bytes(&out, n);
}

// ── The sum

// Document 01's whole table, whose checksum is 59.
fn sums() {
    let open =
        b"DSDT\x2A\x00\x00\x00\x02\x00\x00\x00\x00\x00\x00\x00\x00\x00\x00\x00\x00\x00\x00\x00\x00\x00\x00\x00\x00\x00\x00\x00\x00\x00\x00\x00\x08FOO_\x01";
    let closed =
        b"DSDT\x2A\x00\x00\x00\x02\x59\x00\x00\x00\x00\x00\x00\x00\x00\x00\x00\x00\x00\x00\x00\x00\x00\x00\x00\x00\x00\x00\x00\x00\x00\x00\x00\x08FOO_\x01";
    text(b"checksum ");
    io::print_hex(STDOUT_FILENO, u64::from(octets::generate_checksum(open)), 2);
    text(b", sum");
    decimal(u64::from(octets::byte_sum(closed)));
    text(b", sum of nothing");
    decimal(u64::from(octets::byte_sum(b"")));
    text(b"\n");
    if octets::begins_at(closed, 36, b"\x08FOO_") {
        text(b"FOO_ is there\n");
    }
    if octets::begins_at(closed, 38, b"FOO_") {
        text(b"and one byte on\n");
    }
}

fn main() {
    integers();
    pkg_lengths();
    paths();
    identifiers();
    descriptors();
    spaces();
    end_tag();
    sums();
}
