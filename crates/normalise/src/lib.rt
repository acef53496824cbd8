// Normalises a term file: what its records become, walking along them, and the arity list repacked, in a file of normal form.
#![tactic(auto)]

ghost use Rattle.std.specs.Prelude.{◌≡◌, ◌++◌, ◌/◌, ◌≤◌, ◌<◌, length};
ghost use Rattle.octets.specs.Filling.{Wrote};
ghost use Rattle.descriptor.specs.Template.{end_tag};
ghost use Rattle.normal.specs.File.{header_bytes, start_of, records_bytes, term_texts};
ghost use Rattle.encode.specs.Answer.{whole, walked};
ghost use Rattle.encode.specs.Encode.{Answered};
ghost use Rattle.whole.specs.Whole.{normalise_of};
ghost use Rattle.normalise.specs.Flat.{changes};
ghost use Rattle.normalise.specs.FlatLaws.{texts_in, Stepped, becomes_at, normal_from, texts_from};
ghost use Rattle.normalise.specs.Pack.{integer_bytes, buffer_bytes, step_bytes, step_at, kids_from, Named, Slender};
ghost use Rattle.normalise.specs.Sections.{normal_file, Sections, Measures};

use arity::Arities;
use encode::Terms;
use refusal::{Fault, Refusal};

// How many bytes of text a record becomes, and the record where the pass goes on.
#[derive(Clone, Copy)]
pub struct Step {
    pub texts: u64,
    pub next: usize,
}

// ── Measuring

// EISA id, UUID and template are not in normal form.
fn is_changed(kind: u64) -> bool
    ensures { result ≡ changes kind }
{
    matches!(kind, 0xE001 | 0xE002 | 0xE003)
}

// The text of what a record becomes, by the length of its own text and the size of its children.
#[tactic(auto, unfolding(crate::specs::FlatLaws::texts_in))]
fn texts_in(kind: u64, len: u64, size: u64) -> u64
    requires { size ≤ 281474983002112 }
    ensures { result ≡ texts_in kind len size }
{
    match kind {
        0xE001 => 0,
        0xE002 => 16,
        0xE003 => size + 2,
        _ => len,
    }
}

fn step_at(terms: &Terms<'_>, i: usize) -> Step
    requires { i < length terms.now.records.now / 24 }
    ensures { Stepped terms.now.records.now terms.now.pool.now i result.texts result.next }
{
    let r = terms.record_at(i);
    let text = terms.text_of(r);
    let len = text.len() as u64;
    if is_changed(r.kind) {
        let kids = terms.sizes_of(r.kids, i + 1, 64);
        return Step {
            texts: texts_in(r.kind, len, kids.size),
            next: kids.next,
        };
    }
    Step {
        texts: len,
        next: i + 1,
    }
}

// How many bytes of text the records become. A record that changes takes those below it along, so each turn says where to go on.
pub fn texts_len(terms: &Terms<'_>) -> u64
    ensures { result ≡ texts_from terms.now.records.now terms.now.pool.now 0 }
{
    let n = terms.count();
    let mut i = 0;
    let mut total = 0;
    while i < n {
        let s = step_at(terms, i);
        total += s.texts;
        i = s.next;
    }
    total
}

// ── Records

// An empty text starts at 0.
#[tactic(auto, unfolding(normal::specs::File::start_of))]
fn start_of(n: u64, at: u64) -> u64
    ensures { result ≡ start_of n at }
{
    if n == 0 { 0 } else { at }
}

#[tactic(auto, unfolding(crate::specs::Pack::integer_bytes))]
fn put_integer(x: u64, out: &mut [u8]) -> usize
    requires { length (integer_bytes x) ≤ length out.old }
    ensures { Wrote (integer_bytes x) out.old out.new result }
{
    let r = term::Record {
        kind: 0x0E,
        a: 0,
        kids: 0,
        x,
        start: 0,
        len: 0,
    };
    repack::put_record(r, out)
}

// A buffer of n bytes, and its size.
fn put_buffer(n: u64, start: u64, out: &mut [u8]) -> usize
    requires { length (buffer_bytes n start) ≤ length out.old }
    ensures { Wrote (buffer_bytes n start) out.old out.new result }
{
    let r = term::Record {
        kind: 0x11,
        a: 0,
        kids: 1,
        x: 0,
        start,
        len: n,
    };
    let mut at = 0;
    at += repack::put_record(r, &mut out[at..]);
    at += put_integer(n, &mut out[at..]);
    at
}

// What a record becomes, by the text beside it and the length of the text that it becomes.
#[tactic(auto, unfolding(crate::specs::Pack::step_bytes))]
fn put_step(r: term::Record, text: &[u8], n: u64, start: u64, out: &mut [u8]) -> usize
    requires { Named r.kind text.now × (length (step_bytes r text.now n start) ≤ length out.old) }
    ensures { Wrote (step_bytes r text.now n start) out.old out.new result }
{
    match r.kind {
        0xE001 => put_integer(written::eisa_value(text), out),
        0xE002 | 0xE003 => put_buffer(n, start, out),
        _ => repack::put_record(term::Record { start, len: n, ..r }, out),
    }
}

// The same for the record at i, where the texts go on at `start`.
fn put_step_at(terms: &Terms<'_>, i: usize, n: u64, start: u64, out: &mut [u8]) -> usize
    requires { (i < length terms.now.records.now / 24) × (length (step_at terms.now.records.now terms.now.pool.now i n start) ≤ length out.old) }
    ensures { Wrote (step_at terms.now.records.now terms.now.pool.now i n start) out.old out.new result }
{
    let r = terms.record_at(i);
    put_step(r, terms.text_of(r), n, start_of(n, start), out)
}

// The records of the normal form; its texts stand in the pool from `first` on.
pub fn put_records(terms: &Terms<'_>, first: u64, out: &mut [u8]) -> usize
    requires { (first ≤ 4294967296) × (length (records_bytes first (normal_from terms.now.records.now terms.now.pool.now 0)) ≤ length out.old) }
    ensures { Wrote (records_bytes first (normal_from terms.now.records.now terms.now.pool.now 0)) out.old out.new result }
{
    let n = terms.count();
    let mut i = 0;
    let mut start = first;
    let mut at = 0;
    while i < n {
        let s = step_at(terms, i);
        at += put_step_at(terms, i, s.texts, start, &mut out[at..]);
        start += s.texts;
        i = s.next;
    }
    at
}

// ── Texts

// A template's bytes: its children and the end tag.
fn put_template(terms: &Terms<'_>, n: u64, i: usize, out: &mut [u8]) -> usize
    requires { (length (kids_from terms.now.records.now terms.now.pool.now n i) ≤ 268435419) × (length (kids_from terms.now.records.now terms.now.pool.now n i ++ end_tag) ≤ length out.old) }
    ensures { Wrote (kids_from terms.now.records.now terms.now.pool.now n i ++ end_tag) out.old out.new result }
{
    let mut at = 0;
    at += terms.write_list(n, i, 64, &mut out[at..]).size;
    at += descriptor::put_end_tag(&mut out[at..]);
    at
}

// The text of what the record at i becomes.
fn put_text_at(terms: &Terms<'_>, i: usize, out: &mut [u8]) -> usize
    requires { Slender terms.now.records.now terms.now.pool.now × (i < length terms.now.records.now / 24) × (length (term_texts (becomes_at terms.now.records.now terms.now.pool.now i)) ≤ length out.old) }
    ensures { Wrote (term_texts (becomes_at terms.now.records.now terms.now.pool.now i)) out.old out.new result }
{
    let r = terms.record_at(i);
    let text = terms.text_of(r);
    match r.kind {
        0xE001 => 0,
        0xE002 => ident::put_uuid(text, out),
        0xE003 => put_template(terms, r.kids, i + 1, out),
        _ => octets::put_slice(text, out),
    }
}

// The texts of the normal form.
pub fn put_texts(terms: &Terms<'_>, out: &mut [u8]) -> usize
    requires { Slender terms.now.records.now terms.now.pool.now × (texts_from terms.now.records.now terms.now.pool.now 0 ≤ length out.old) }
    ensures { Wrote (term_texts (normal_from terms.now.records.now terms.now.pool.now 0)) out.old out.new result }
{
    let n = terms.count();
    let mut i = 0;
    let mut at = 0;
    while i < n {
        let s = step_at(terms, i);
        at += put_text_at(terms, i, &mut out[at..]);
        i = s.next;
    }
    at
}

// ── The file

// The header of a file with so many records, arity entries and bytes of pool.
fn put_header(id: &[u8], n: u64, arities: u64, pool: u64, out: &mut [u8]) -> usize
    requires { (n ≤ 65536) × (arities ≤ 4096) × (length (header_bytes id.now n arities pool) ≤ length out.old) }
    ensures { Wrote (header_bytes id.now n arities pool) out.old out.new result }
{
    let mut at = 0;
    at += repack::put_head(n, arities, pool, &mut out[at..]);
    at += octets::put_slice(id, &mut out[at..]);
    at += octets::put_le(1, 0, &mut out[at..]);
    at
}

// The file, with so many records, bytes of arity texts and bytes of record texts.
fn put_file(
    id: &[u8],
    terms: &Terms<'_>,
    arities: &[u8],
    n: u64,
    names: u64,
    texts: u64,
    out: &mut [u8],
) -> usize
    requires { Measures id.now terms.now.records.now arities.now terms.now.pool.now n names texts out.old }
    ensures { Wrote (normal_file id.now terms.now.records.now arities.now terms.now.pool.now) out.old out.new result }
{
    let count = (arities.len() / term::ARITY) as u64;
    let list = Arities {
        entries: arities,
        pool: terms.pool,
    };
    let mut at = 0;
    at += put_header(id, n, count, names + texts, &mut out[at..]);
    at += put_records(terms, names, &mut out[at..]);
    at += repack::put_entries(&list, &mut out[at..]);
    at += repack::put_texts(arities, terms.pool, &mut out[at..]);
    at += put_texts(terms, &mut out[at..]);
    at
}

// Refusals 11, 12 and 14, or the file.
fn normalise_sections(
    id: &[u8],
    terms: &Terms<'_>,
    arities: &[u8],
    out: &mut [u8],
) -> Result<usize, Fault>
    requires { Sections id.now terms.now.records.now arities.now terms.now.pool.now }
    ensures { Answered result out.new (walked (normal_file id.now terms.now.records.now arities.now terms.now.pool.now) (whole terms.now.records.now terms.now.pool.now) out.old) }
{
    let s = terms.sizes_of(terms.count() as u64, 0, 64);
    encode::late_number(s.records, s.deep, s.size)?;
    let list = Arities {
        entries: arities,
        pool: terms.pool,
    };
    let names = repack::texts_len(&list);
    let texts = texts_len(terms);
    let size = 60 + 24 * s.records + 8 * (arities.len() / term::ARITY) as u64 + (names + texts);
    if (out.len() as u64) < size {
        return Err(Refusal::OutputShort.into());
    }
    Ok(put_file(id, terms, arities, s.records, names, texts, out))
}

// The normal form of a term file into `out`, or the refusal, and then `out` is as it was.
pub fn normalise(file: &[u8], out: &mut [u8]) -> Result<usize, Fault>
    ensures { Answered result out.new (normalise_of file.now out.old) }
{
    let sections = checker::accept(file)?;
    let terms = Terms {
        records: sections.records,
        pool: sections.pool,
    };
    normalise_sections(sections.identity, &terms, sections.arities, out)
}
