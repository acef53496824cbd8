// The term file: its layout, its records and their texts.
#![tactic(auto)]

ghost use Rattle.std.specs.Prelude.{◌≡◌, ◌/◌, ◌≤◌, ◌<◌, ◌^◌, length, IsTrue};
ghost use Rattle.octets.specs.Bytes.{le_at};
ghost use Rattle.term.specs.File.{touching, laid_out, few};
ghost use Rattle.term.specs.FileLaws.{InOrder};
ghost use Rattle.term.specs.LaidOut.{LaidOut};
ghost use Rattle.term.specs.Record.{record_at, text_at};

use refusal::Refusal;

// ── Document 01's sizes and limits

// The bytes of the header.
pub const HEADER: usize = 60;

// The bytes of a record.
pub const RECORD: usize = 24;

// The bytes of an arity entry.
pub const ARITY: usize = 8;

// How many records, and how many arities, a file may have.
const MOST_RECORDS: usize = 65536;

const MOST_ARITIES: usize = 4096;

// A term file taken apart: the identity in its header, and its sections.
#[derive(Clone, Copy)]
pub struct File<'a> {
    pub identity: &'a [u8],
    pub records: &'a [u8],
    pub arities: &'a [u8],
    pub pool: &'a [u8],
}

// A record of the file.
#[derive(Clone, Copy)]
pub struct Record {
    pub kind: u64,
    pub a: u64,
    pub kids: u64,
    pub x: u64,
    pub start: u64,
    pub len: u64,
}

// ── Layout

// A number of the header.
fn number_at(file: &[u8], at: usize) -> usize
    requires header { 60 ≤ length file.now }
    requires within { at ≤ 56 }
    ensures value { result ≡ le_at 4 file.now at }
    ensures small { result < 2 ^ 32 }
{
    octets::get_le(file, at, 4) as usize
}

// Whether each section begins where the one before it ends, and the file ends with the pool.
#[tactic(auto, unfolding(crate::specs::File::touching))]
fn is_touching(file: &[u8]) -> bool
    requires { 60 ≤ length file.now }
    ensures told { result ≡ touching file.now }
    ensures in_order { IsTrue result → InOrder file.now }
{
    let arities = number_at(file, 16);
    let pool = number_at(file, 24);
    number_at(file, 8) == HEADER
        && arities == HEADER + RECORD * number_at(file, 4)
        && pool == arities + ARITY * number_at(file, 12)
        && file.len() == pool + number_at(file, 20)
}

// The magic, the zero behind the identity, and the sections.
#[tactic(auto, unfolding(crate::specs::File::laid_out))]
fn is_laid_out(file: &[u8]) -> bool
    ensures told { result ≡ laid_out file.now }
    ensures in_order { IsTrue result → InOrder file.now }
{
    HEADER <= file.len()
        && octets::begins_at(file, 0, b"TERM")
        && file[59] == 0
        && is_touching(file)
}

#[tactic(auto, unfolding(crate::specs::File::few))]
fn is_few(file: &[u8]) -> bool
    requires { 60 ≤ length file.now }
    ensures { result ≡ few file.now }
{
    number_at(file, 4) <= MOST_RECORDS && number_at(file, 12) <= MOST_ARITIES
}

// The file's sections: refused where they do not touch, or are of too many records or arities.
#[tactic(auto, unfolding(crate::specs::File::layout_of, crate::specs::File::identity))]
pub fn lay_out(file: &[u8]) -> Result<File<'_>, Refusal>
    ensures { LaidOut file.now result }
{
    if !is_laid_out(file) {
        return Err(Refusal::Layout);
    }
    if !is_few(file) {
        return Err(Refusal::TooMany);
    }
    let arities = number_at(file, 16);
    let pool = number_at(file, 24);
    Ok(File {
        identity: &file[28..59],
        records: &file[HEADER..arities],
        arities: &file[arities..pool],
        pool: &file[pool..],
    })
}

// ── Records and texts

// Record i of the section b, read as three numbers of eight bytes and taken apart: fewer loads than byte by byte.
pub fn record_at(b: &[u8], i: usize) -> Record
    requires { i < length b.now / 24 }
    ensures { result ≡ record_at b.now i }
{
    let at = RECORD * i;
    let w = octets::get_u64(b, at);
    let x = octets::get_u64(b, at + 8);
    let v = octets::get_u64(b, at + 16);
    Record {
        kind: w % 65536,
        a: w / 65536 % 65536,
        kids: w / 4294967296,
        x,
        start: v % 4294967296,
        len: v / 4294967296,
    }
}

// A text in the pool; what lies outside is left out.
pub fn text_at(pool: &[u8], start: u64, len: u64) -> &[u8]
    ensures { result.now ≡ text_at pool.now start len }
{
    let from = start.min(pool.len() as u64) as usize;
    let behind = &pool[from..];
    let n = len.min(behind.len() as u64) as usize;
    &behind[..n]
}
