// Resource descriptors: which fields they may have, their sizes and their bytes, by the columns of their rows;
// and the end of a resource template, before which they stand.
#![tactic(auto)]

ghost use Rattle.std.specs.Prelude.{◌≡◌, ◌+◌, ◌-◌, ◌*◌, ◌^◌, ◌≤◌, ◌<◌, length};
ghost use Rattle.octets.specs.Filling.{Wrote};
ghost use Rattle.descriptor.specs.Descriptor.{row_of, range_length, flags_fit, range_fits, spelled, unused_fits, space_fits, in_range, descriptor};
ghost use Rattle.descriptor.specs.Template.{end_tag};
ghost use Rattle.descriptor.specs.DescriptorLaws.{Valid, Ranged, bus_fits, fields_fit};
ghost use Rattle.descriptor.specs.Columns.{columns_of, size_of, text_columns, number_columns, space_columns};

// A row as numbers: the bytes before x as one number in which a counts `unit`, and how many they are; the bytes of x and the
// zeros behind it; the largest a and x; the text's length; the width of an address space's numbers, and the largest of them.
#[derive(Clone, Copy)]
pub struct Columns {
    pub head: u64,
    pub unit: u64,
    pub width: usize,
    pub tail: usize,
    pub alimit: u64,
    pub xlimit: u64,
    pub text: usize,
    pub space: usize,
    pub full: u64,
}

// A row of no bytes, as a kind has that is no descriptor.
const NO_COLUMNS: Columns = Columns {
    head: 0,
    unit: 1,
    width: 0,
    tail: 0,
    alimit: 0,
    xlimit: 0,
    text: 0,
    space: 0,
    full: 0,
};

// The tag, then the text alone.
fn text_columns(head: u64, unit: u64, width: usize, text: usize) -> Columns
    ensures { result ≡ text_columns head unit width text }
{
    Columns {
        head,
        unit,
        width,
        text,
        ..NO_COLUMNS
    }
}

// The tag, a, a constant, and x of `tail` bytes.
fn number_columns(head: u64, width: usize, alimit: u64, tail: usize, xlimit: u64) -> Columns
    ensures { result ≡ number_columns head width alimit tail xlimit }
{
    Columns {
        head,
        unit: 0x1000000,
        width,
        tail,
        alimit,
        xlimit,
        ..NO_COLUMNS
    }
}

// An address space whose numbers have w bytes.
fn space_columns(head: u64, w: usize, full: u64) -> Columns
    requires { w ≤ 8 }
    ensures { result ≡ space_columns head w full }
{
    Columns {
        head,
        unit: 0x1000000,
        width: 5,
        tail: 1 + w,
        alimit: 2,
        xlimit: 7,
        text: 3 * w,
        space: w,
        full,
    }
}

// The row of a kind, E0 and the descriptor's tag.
fn columns_of(kind: u64) -> Columns
    ensures { result ≡ columns_of (row_of kind) }
{
    match kind {
        0xE047 => text_columns(0x0147, 0x10000, 2, 6),
        0xE082 => text_columns(0x0C82, 0x1000000, 3, 12),
        0xE086 => number_columns(0x0986, 4, 1, 8, 0xFFFFFFFFFFFFFFFF),
        0xE089 => number_columns(0x0100000689, 5, 15, 4, 0xFFFFFFFF),
        0xE088 => space_columns(0x0C00000D88, 2, 0xFFFF),
        0xE087 => space_columns(0x0C00001787, 4, 0xFFFFFFFF),
        0xE08A => space_columns(0x0C00002B8A, 8, 0xFFFFFFFFFFFFFFFF),
        _ => NO_COLUMNS,
    }
}

// ── Sizes and field checks

// The bytes of a descriptor whose text has the right length.
pub fn descriptor_len(kind: u64) -> usize
    ensures { result ≡ size_of (row_of kind) }
{
    let c = columns_of(kind);
    c.width + c.tail + c.text + c.space
}

// Whether the text has the right length: else 6.
pub fn descriptor_spelled(kind: u64, text: &[u8]) -> bool
    ensures { result ≡ spelled (row_of kind) text.now }
{
    let c = columns_of(kind);
    text.len() == c.text
}

fn flags_fit(a: u64, x: u64) -> bool
    ensures { result ≡ flags_fit a x }
{
    match a {
        0 => x <= 7,
        1 => x == 3,
        _ => x == 0,
    }
}

// A bus has no translation.
fn bus_fits(w: usize, a: u64, text: &[u8]) -> bool
    requires { (w ≤ 8) × (3 * w ≤ length text.now) }
    ensures { result ≡ bus_fits w a text.now }
{
    a != 2 || octets::get_le(text, w + w, w) == 0
}

// Max - min + 1 fits exactly where max - min is under the largest number of w bytes.
fn range_fits(w: usize, full: u64, a: u64, text: &[u8]) -> bool
    requires { (w ≤ 8) × (3 * w ≤ length text.now) × (full ≡ 256 ^ w - 1) }
    ensures { result ≡ range_fits w a text.now }
{
    let min = octets::get_le(text, 0, w);
    let max = octets::get_le(text, w, w);
    min <= max && max - min < full && bus_fits(w, a, text)
}

// A text that its row does not use is empty.
fn unused_fits(n: usize, text: &[u8]) -> bool
    ensures { result ≡ unused_fits n text.now }
{
    n != 0 || text.is_empty()
}

fn space_fits(w: usize, full: u64, text: &[u8], a: u64, x: u64) -> bool
    requires { (w ≤ 8) × (full ≡ 256 ^ w - 1) }
    ensures { result ≡ space_fits w text.now a x }
{
    flags_fit(a, x) && (text.len() != 3 * w || range_fits(w, full, a, text))
}

fn fields_fit(c: &Columns, text: &[u8], a: u64, x: u64) -> bool
    ensures { result ≡ fields_fit c.now text.now a x }
{
    a <= c.alimit && x <= c.xlimit && unused_fits(c.text, text)
}

// Whether the fields are in their ranges: else 5, before 6.
pub fn descriptor_in_range(kind: u64, text: &[u8], a: u64, x: u64) -> bool
    ensures { result ≡ in_range (row_of kind) text.now a x }
{
    let c = columns_of(kind);
    fields_fit(&c, text, a, x) && (c.space == 0 || space_fits(c.space, c.full, text, a, x))
}

// ── Bytes

// Max - min + 1.
fn range_length(w: usize, text: &[u8]) -> u64
    requires { (w ≤ 8) × Ranged w text.now }
    ensures { result ≡ range_length w text.now }
{
    let min = octets::get_le(text, 0, w);
    let max = octets::get_le(text, w, w);
    max - min + 1
}

pub fn put_descriptor(kind: u64, text: &[u8], a: u64, x: u64, out: &mut [u8]) -> usize
    requires { Valid (row_of kind) text.now a x × (length (descriptor (row_of kind) text.now a x) ≤ length out.old) }
    ensures { Wrote (descriptor (row_of kind) text.now a x) out.old out.new result }
{
    let c = columns_of(kind);
    let n = range_length(c.space, text);
    let mut at = 0;
    at += octets::put_le(c.width, c.head + c.unit * a, &mut out[at..]);
    at += octets::put_le(c.tail, x, &mut out[at..]);
    at += octets::put_slice(text, &mut out[at..]);
    at += octets::put_le(c.space, n, &mut out[at..]);
    at
}

// ── What stands behind a template's descriptors

pub fn put_end_tag(out: &mut [u8]) -> usize
    requires { 2 ≤ length out.old }
    ensures { Wrote end_tag out.old out.new result }
{
    octets::put_le(2, 0x79, out)
}
