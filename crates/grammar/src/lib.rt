// The kinds of terms: one table of rows that checker, encoder and reader share, found by kind and by leading byte.
#![tactic(auto)]

ghost use Rattle.std.specs.Prelude.{◌≡◌, ◌+◌, ◌<◌, drop};
ghost use Rattle.grammar.specs.Kinds.{kinds, stands, child_place};
ghost use Rattle.grammar.specs.Packed.{position, row_at, place_of, places_of, text_of, rest_of, numbers_of, unpack, entry, words, seconds, thirds};
ghost use Rattle.grammar.specs.Family.{family_of};

// Where a term may stand: in a list (L), as an operand or a target (V), as data (D); as a package's element, a field's entry, a
// template's descriptor.
#[derive(Clone, Copy, Debug, PartialEq, Eq)]
pub enum Place {
    InList,
    Operand,
    Datum,
    Element,
    FieldEntry,
    Descriptor,
}

// Where a kind may stand, as document 01 writes it: L, L V, L V of a name, V, V D; and the two kinds of entries.
#[derive(Clone, Copy, Debug, PartialEq, Eq)]
pub enum Places {
    Lists,
    ListsOperands,
    Names,
    Operands,
    Data,
    FieldEntries,
    Descriptors,
}

// What a kind's text is: a string's bytes are 01-7F and 00 ends it; a buffer's go to the end of its body.
#[derive(Clone, Copy, Debug, PartialEq, Eq)]
pub enum Text {
    Unused,
    PathText,
    SegmentText,
    Ascii,
    AnyBytes,
    EisaText,
    UuidText,
    DescriptorText,
}

// How a and x are written: base + a in so many bytes; a method's flags, a + 8 times x; a power resource's level x, then its order a; a
// as the flags of a field; x as an integer; x as the length of a field's entry.
#[derive(Clone, Copy, Debug, PartialEq, Eq)]
pub enum Numbers {
    Digits { width: u64, base: u64 },
    MethodFlags,
    LevelOrder,
    FieldFlags,
    IntegerX,
    LengthX,
}

// Which children stand behind the operands: none; as many as the path's arity; a list, to the end of the body; up to 255 with their
// number before them; or any number with the size of their bytes before them and the end tag behind.
#[derive(Clone, Copy, Debug, PartialEq, Eq)]
pub enum Rest {
    Nothing,
    Arity,
    Listed,
    Counted,
    Measured,
}

// A kind: its opcode (so many bytes, as one number whose low byte is first); whether a PkgLength follows; text, numbers, and the
// largest a and x; whether these stand behind the children; how many operands it has and their place; the children behind them and
// their place; where the kind may stand.
#[derive(Clone, Copy)]
pub struct Row {
    pub kind: u64,
    pub ops: u64,
    pub op: u64,
    pub boxed: bool,
    pub text: Text,
    pub numbers: Numbers,
    pub alimit: u64,
    pub xlimit: u64,
    pub last: bool,
    pub operands: u64,
    pub operand: Place,
    pub rest: Rest,
    pub place: Place,
    pub places: Places,
}

// ── Columns, from the digits of a row's number. Functions, not `From`: the digits are those of the rows alone.

#[tactic(auto, unfolding(crate::specs::Packed::place_of))]
fn place_of(c: u64) -> Place
    ensures { result ≡ place_of c }
{
    match c {
        1 => Place::Operand,
        2 => Place::Datum,
        3 => Place::Element,
        4 => Place::FieldEntry,
        5 => Place::Descriptor,
        _ => Place::InList,
    }
}

#[tactic(auto, unfolding(crate::specs::Packed::places_of))]
fn places_of(c: u64) -> Places
    ensures { result ≡ places_of c }
{
    match c {
        1 => Places::ListsOperands,
        2 => Places::Names,
        3 => Places::Operands,
        4 => Places::Data,
        5 => Places::FieldEntries,
        6 => Places::Descriptors,
        _ => Places::Lists,
    }
}

#[tactic(auto, unfolding(crate::specs::Packed::text_of))]
fn text_of(c: u64) -> Text
    ensures { result ≡ text_of c }
{
    match c {
        1 => Text::PathText,
        2 => Text::SegmentText,
        3 => Text::Ascii,
        4 => Text::AnyBytes,
        5 => Text::EisaText,
        6 => Text::UuidText,
        7 => Text::DescriptorText,
        _ => Text::Unused,
    }
}

#[tactic(auto, unfolding(crate::specs::Packed::rest_of))]
fn rest_of(c: u64) -> Rest
    ensures { result ≡ rest_of c }
{
    match c {
        1 => Rest::Arity,
        2 => Rest::Listed,
        3 => Rest::Counted,
        4 => Rest::Measured,
        _ => Rest::Nothing,
    }
}

#[tactic(auto, unfolding(crate::specs::Packed::numbers_of))]
fn numbers_of(c: u64, width: u64, base: u64) -> Numbers
    ensures { result ≡ numbers_of c width base }
{
    match c {
        1 => Numbers::MethodFlags,
        2 => Numbers::LevelOrder,
        3 => Numbers::FieldFlags,
        4 => Numbers::IntegerX,
        5 => Numbers::LengthX,
        _ => Numbers::Digits { width, base },
    }
}

// ── The rows, a number each, and by its last digits two more. The tables are statics, whose entries the machine code reads where they
// stand: an array constant would be made anew on the stack at every look-up.

fn word_of(j: usize) -> u64
    ensures { result ≡ entry words 0 j }
{
    if j < WORDS.len() { WORDS[j] } else { 0 }
}

fn second_of(c: u64) -> u64
    ensures { result ≡ entry seconds 1 c }
{
    let i = c as usize;
    if i < SECONDS.len() { SECONDS[i] } else { 0 }
}

fn third_of(c: u64) -> u64
    ensures { result ≡ entry thirds 1 c }
{
    let i = c as usize;
    if i < THIRDS.len() { THIRDS[i] } else { 0 }
}

fn unpacked(w: u64) -> Row
    ensures { result ≡ unpack w }
{
    let c = w / 0x40000000000000;
    let v = second_of(c);
    let x = third_of(c);
    let text = text_of(w / 0x1000000000 % 8);
    let numbers = numbers_of(v % 8, v / 8 % 4, v / 32 % 256);
    let operand = place_of(w / 0x40000000000 % 8);
    let rest = rest_of(w / 0x8000000000 % 8);
    let place = place_of(w / 0x1000000000000 % 8);
    let places = places_of(w / 0x8000000000000 % 8);
    Row {
        kind: w % 65536,
        ops: w / 65536 % 4,
        op: w / 0x40000 % 65536,
        boxed: w / 0x400000000 % 2 == 1,
        text,
        numbers,
        alimit: v / 8192,
        xlimit: x,
        last: w / 0x800000000 % 2 == 1,
        operands: w / 0x200000000000 % 8,
        operand,
        rest,
        place,
        places,
    }
}

pub fn row_at(j: usize) -> Row
    ensures { result ≡ row_at j }
{
    unpacked(word_of(j))
}

// ── One column of the row at a place, for whoever needs few: a row that is handed over is copied

pub fn kind_at(j: usize) -> u64
    ensures { result ≡ (row_at j).kind }
{
    word_of(j) % 65536
}

pub fn ops_at(j: usize) -> u64
    ensures { result ≡ (row_at j).ops }
{
    word_of(j) / 65536 % 4
}

pub fn op_at(j: usize) -> u64
    ensures { result ≡ (row_at j).op }
{
    word_of(j) / 0x40000 % 65536
}

pub fn boxed_at(j: usize) -> bool
    ensures { result ≡ (row_at j).boxed }
{
    word_of(j) / 0x400000000 % 2 == 1
}

pub fn text_at(j: usize) -> Text
    ensures { result ≡ (row_at j).text }
{
    text_of(word_of(j) / 0x1000000000 % 8)
}

pub fn numbers_at(j: usize) -> Numbers
    ensures { result ≡ (row_at j).numbers }
{
    let v = second_of(word_of(j) / 0x40000000000000);
    numbers_of(v % 8, v / 8 % 4, v / 32 % 256)
}

pub fn last_at(j: usize) -> bool
    ensures { result ≡ (row_at j).last }
{
    word_of(j) / 0x800000000 % 2 == 1
}

pub fn rest_at(j: usize) -> Rest
    ensures { result ≡ (row_at j).rest }
{
    rest_of(word_of(j) / 0x8000000000 % 8)
}

// ── Looked up

// Where a kind stands in the table. 67 is none, as a number: whoever has checked the kind takes the place as it is. Arms of a match,
// since a search along the table would take the more steps the further back a kind stands.
#[tactic(auto, unfolding(crate::specs::Packed::position, crate::specs::Kinds::kinds, crate::specs::Kinds::normal_kinds, crate::specs::Kinds::other_kinds))]
fn last_position(kind: u64) -> usize
    ensures { result ≡ 45 + position kind (drop 45 kinds) }
{
    match kind {
        0x9E => 45,
        0x2E => 46,
        0x60 => 47,
        0x68 => 48,
        0xE => 49,
        0xFF => 50,
        0xD => 51,
        0x11 => 52,
        0x12 => 53,
        0x13 => 54,
        0xF000 => 55,
        0xF001 => 56,
        0xE001 => 57,
        0xE002 => 58,
        0xE003 => 59,
        0xE047 => 60,
        0xE082 => 61,
        0xE086 => 62,
        0xE089 => 63,
        0xE088 => 64,
        0xE087 => 65,
        0xE08A => 66,
        _ => 67,
    }
}

#[tactic(auto, unfolding(crate::specs::Packed::position, crate::specs::Kinds::kinds, crate::specs::Kinds::normal_kinds, crate::specs::Kinds::other_kinds))]
fn middle_position(kind: u64) -> usize
    ensures { result ≡ 23 + position kind (drop 23 kinds) }
{
    match kind {
        0x94 => 23,
        0x95 => 24,
        0x9293 => 25,
        0x9294 => 26,
        0x9295 => 27,
        0x96 => 28,
        0x99 => 29,
        0x72 => 30,
        0x73 => 31,
        0x74 => 32,
        0x77 => 33,
        0x79 => 34,
        0x7A => 35,
        0x7B => 36,
        0x7C => 37,
        0x7D => 38,
        0x7E => 39,
        0x7F => 40,
        0x84 => 41,
        0x85 => 42,
        0x88 => 43,
        0x9C => 44,
        _ => last_position(kind),
    }
}

#[tactic(auto, unfolding(crate::specs::Packed::position, crate::specs::Kinds::kinds, crate::specs::Kinds::normal_kinds, crate::specs::Kinds::other_kinds))]
pub fn position_of(kind: u64) -> usize
    ensures { result ≡ position kind kinds }
{
    match kind {
        0x8 => 0,
        0x10 => 1,
        0x5B82 => 2,
        0x14 => 3,
        0x5B84 => 4,
        0x5B81 => 5,
        0x5B80 => 6,
        0x5B01 => 7,
        0x5B23 => 8,
        0x5B27 => 9,
        0x5B13 => 10,
        0x8A => 11,
        0x8F => 12,
        0xA0 => 13,
        0xA2 => 14,
        0xA1 => 15,
        0xA4 => 16,
        0x86 => 17,
        0x70 => 18,
        0x83 => 19,
        0x87 => 20,
        0x8E => 21,
        0x93 => 22,
        _ => middle_position(kind),
    }
}

// The family of kinds that begins with a byte, as document 01's table of 256 codes has it: its kind, or the first byte of kinds with
// two; 0 is none.
pub fn family(b: u8) -> u8
    ensures { result ≡ family_of b }
{
    FAMILY[b as usize]
}

// Where child j of a kind stands.
#[tactic(auto, unfolding(crate::specs::Kinds::child_place))]
pub fn child_place(row: Row, j: u64) -> Place
    ensures { result ≡ child_place row j }
{
    if j < row.operands {
        row.operand
    } else {
        row.place
    }
}

// Whether a kind may stand in a place.
#[tactic(auto, unfolding(crate::specs::Kinds::rank, crate::specs::Kinds::is, crate::specs::Kinds::stands))]
pub fn may_stand(places: Places, place: Place) -> bool
    ensures { result ≡ stands places place }
{
    match places {
        Places::Lists => matches!(place, Place::InList),
        Places::ListsOperands => matches!(place, Place::InList | Place::Operand),
        Places::Names => matches!(place, Place::InList | Place::Operand | Place::Element),
        Places::Operands => matches!(place, Place::Operand),
        Places::Data => matches!(place, Place::Operand | Place::Datum | Place::Element),
        Places::FieldEntries => matches!(place, Place::FieldEntry),
        Places::Descriptors => matches!(place, Place::Descriptor),
    }
}

// ── The tables

static WORDS: [u64; 67] = [
    0x2281000210008,
    0x11400410010,
    0x116096E5B82,
    0x40011400510014,
    0x800116116E5B84,
    0xC41116056E5B81,
    0x1014412016E5B80,
    0x1410410056E5B01,
    0x18904108D6E5B23,
    0x104109D6E5B27,
    0x164184D6E5B13,
    0x144180229008A,
    0x14418023D008F,
    0x2504028100A0,
    0x2504028900A2,
    0x504028500A1,
    0x12400029100A4,
    0x1440002190086,
    0x9440001C10070,
    0x92400020D0083,
    0x92400021D0087,
    0x924000239008E,
    0x94400024D0093,
    0x9440002510094,
    0x9440002550095,
    0x944024E4A9293,
    0x94402524A9294,
    0x94402564A9295,
    0x9440002590096,
    0x9440002650099,
    0x9640001C90072,
    0x9640001CD0073,
    0x9640001D10074,
    0x9640001DD0077,
    0x9640001E50079,
    0x9640001E9007A,
    0x9640001ED007B,
    0x9640001F1007C,
    0x9640001F5007D,
    0x9640001F9007E,
    0x9640001FD007F,
    0x9640002110084,
    0x9640002150085,
    0x9640002210088,
    0x964000271009C,
    0x984000279009E,
    0x1104900000002E,
    0x1D9040000000060,
    0x219040000000068,
    0x26104000000000E,
    0x21040003FD00FF,
    0x2104300035000D,
    0x21244C00450011,
    0x23058C00490012,
    0x21240C004D0013,
    0x2A904000001F000,
    0x2A904200000F001,
    0x2104500000E001,
    0x2104600000E002,
    0x25060C0045E003,
    0x2F104700000E047,
    0x2F104700000E082,
    0x2F104700000E086,
    0x2F104700000E089,
    0x2F104700000E088,
    0x2F104700000E087,
    0x2F104700000E08A,
];

// Rows name these from 1 on.
static SECONDS: [u64; 12] = [
    0, 0xE001, 0x1FFFE002, 0x1FE003, 0x12008, 0x1E008, 0x1FFFE010, 0xEC08, 0xCD08, 0x4, 0x5,
    0x1FFFE000,
];

static THIRDS: [u64; 12] = [
    0,
    0x1,
    0xFF,
    0,
    0,
    0,
    0,
    0,
    0,
    0xFFFFFFFFFFFFFFFF,
    0xFFFFFFF,
    0xFFFFFFFFFFFFFFFF,
];

static FAMILY: [u8; 256] = [
    0x0E, 0x0E, 0x00, 0x00, 0x00, 0x00, 0x00, 0x00, 0x08, 0x00, 0x0E, 0x0E, 0x0E, 0x0D, 0x0E, 0x00,
    0x10, 0x11, 0x12, 0x13, 0x14, 0x00, 0x00, 0x00, 0x00, 0x00, 0x00, 0x00, 0x00, 0x00, 0x00, 0x00,
    0x00, 0x00, 0x00, 0x00, 0x00, 0x00, 0x00, 0x00, 0x00, 0x00, 0x00, 0x00, 0x00, 0x00, 0x2E, 0x2E,
    0x00, 0x00, 0x00, 0x00, 0x00, 0x00, 0x00, 0x00, 0x00, 0x00, 0x00, 0x00, 0x00, 0x00, 0x00, 0x00,
    0x00, 0x2E, 0x2E, 0x2E, 0x2E, 0x2E, 0x2E, 0x2E, 0x2E, 0x2E, 0x2E, 0x2E, 0x2E, 0x2E, 0x2E, 0x2E,
    0x2E, 0x2E, 0x2E, 0x2E, 0x2E, 0x2E, 0x2E, 0x2E, 0x2E, 0x2E, 0x2E, 0x5B, 0x2E, 0x00, 0x00, 0x2E,
    0x60, 0x60, 0x60, 0x60, 0x60, 0x60, 0x60, 0x60, 0x68, 0x68, 0x68, 0x68, 0x68, 0x68, 0x68, 0x00,
    0x70, 0x00, 0x72, 0x73, 0x74, 0x00, 0x00, 0x77, 0x00, 0x79, 0x7A, 0x7B, 0x7C, 0x7D, 0x7E, 0x7F,
    0x00, 0x00, 0x00, 0x83, 0x84, 0x85, 0x86, 0x87, 0x88, 0x00, 0x8A, 0x00, 0x00, 0x00, 0x8E, 0x8F,
    0x00, 0x00, 0x92, 0x93, 0x94, 0x95, 0x96, 0x00, 0x00, 0x99, 0x00, 0x00, 0x9C, 0x00, 0x9E, 0x00,
    0xA0, 0xA1, 0xA2, 0x00, 0xA4, 0x00, 0x00, 0x00, 0x00, 0x00, 0x00, 0x00, 0x00, 0x00, 0x00, 0x00,
    0x00, 0x00, 0x00, 0x00, 0x00, 0x00, 0x00, 0x00, 0x00, 0x00, 0x00, 0x00, 0x00, 0x00, 0x00, 0x00,
    0x00, 0x00, 0x00, 0x00, 0x00, 0x00, 0x00, 0x00, 0x00, 0x00, 0x00, 0x00, 0x00, 0x00, 0x00, 0x00,
    0x00, 0x00, 0x00, 0x00, 0x00, 0x00, 0x00, 0x00, 0x00, 0x00, 0x00, 0x00, 0x00, 0x00, 0x00, 0x00,
    0x00, 0x00, 0x00, 0x00, 0x00, 0x00, 0x00, 0x00, 0x00, 0x00, 0x00, 0x00, 0x00, 0x00, 0x00, 0x00,
    0x00, 0x00, 0x00, 0x00, 0x00, 0x00, 0x00, 0x00, 0x00, 0x00, 0x00, 0x00, 0x00, 0x00, 0x00, 0xFF,
];
