// Encodes a term file: measures its terms, writes them behind the header, and seals the table.
#![tactic(auto)]

ghost use Rattle.std.specs.Prelude.{◌≡◌, ◌+◌, ◌-◌, ◌/◌, ◌≤◌, ◌<◌, false, length};
ghost use Rattle.octets.specs.Filling.{Wrote};
ghost use Rattle.grammar.specs.Kinds.{kinds};
ghost use Rattle.grammar.specs.Packed.{position, row_at};
ghost use Rattle.written.specs.Fine.{fields_of};
ghost use Rattle.term.specs.Record.{record_at, text_at};
ghost use Rattle.refusal.specs.Number.{number_said};
ghost use Rattle.encode.specs.Walk.{records_in, deeper, list, term};
ghost use Rattle.encode.specs.Terms.{body_of, takes_of, head_of, Told, Framed, Able};
ghost use Rattle.encode.specs.WalkLaws.{terms_from, Measured, Put, Room};
ghost use Rattle.encode.specs.Sound.{Sound, Parent};
ghost use Rattle.encode.specs.Kept.{kept_in, kept_of, Kept};
ghost use Rattle.sdt.specs.Table.{opened, sealed};
ghost use Rattle.encode.specs.Encode.{encode_of, Answered};
ghost use Rattle.encode.specs.Answer.{whole, figures_number, walked};
ghost use Rattle.encode.specs.TableLaws.{TableRoom};

use refusal::{Fault, Refusal};

// A file's records and their pool: each record is of a known kind, and its fields can be written.
#[derive(Clone, Copy)]
pub struct Terms<'a> {
    pub records: &'a [u8],
    pub pool: &'a [u8],
    ghost sound: { Sound records.now pool.now },
}

// The record of a term, the place of its kind in the table, and its text: its fields can be written.
#[derive(Clone, Copy)]
struct Own<'a> {
    row: usize,
    record: term::Record,
    text: &'a [u8],
    ghost able: { Able (row_at row) (fields_of text.now record.a record.x) },
}

// The size of some terms; how many records they have in normal form, and whether these go below the last level; the record behind.
#[derive(Clone, Copy)]
pub struct Sized {
    pub size: u64,
    pub records: u64,
    pub deep: bool,
    pub next: usize,
}

// How many bytes were written, and the record behind those that were.
#[derive(Clone, Copy)]
pub struct Done {
    pub size: usize,
    pub next: usize,
}

impl Sized {
    // Of no terms.
    fn none(next: usize) -> Sized
        ensures { result ≡ record { size = 0; records = 0; deep = false; next = next } }
    {
        Sized {
            size: 0,
            records: 0,
            deep: false,
            next,
        }
    }
}

// ── Measuring

// The records of a term in normal form, whose children have n. UUID and template become a buffer with its size as a child. Only the
// kinds that are not in normal form are told apart, by document 01's numbers.
#[tactic(auto, unfolding(crate::specs::Walk::records_in))]
fn records_in(kind: u64, n: u64) -> u64
    requires { n ≤ 131072 }
    ensures { result ≡ records_in kind n }
{
    match kind {
        0xE001 => 1,
        0xE002 | 0xE003 => 2,
        _ => 1 + n,
    }
}

// Whether its normal form goes below the last level, with so many levels below its own.
#[tactic(auto, unfolding(crate::specs::Walk::deeper))]
fn is_deeper(levels: usize, kind: u64, deep: bool) -> bool
    ensures { result ≡ deeper levels kind deep }
{
    match kind {
        0xE001 => false,
        0xE002 | 0xE003 => levels == 0,
        _ => deep,
    }
}

impl Own<'_> {
    // The bytes of its body around children of so many bytes, and these.
    fn body_len(&self, size: u64) -> u64
        requires { size ≤ 281474983002112 }
        ensures { result ≡ body_of (row_at self.now.row) (fields_of self.now.text.now self.now.record.a self.now.record.x) self.now.record.kids size }
    {
        let r = self.record;
        frame::around_len(self.row, self.text, r.a, r.x, r.kids, size) as u64 + size
    }

    fn term_len(&self, size: u64) -> u64
        requires { size ≤ 281474983002112 }
        ensures { result ≡ takes_of (row_at self.now.row) (fields_of self.now.text.now self.now.record.a self.now.record.x) self.now.record.kids size }
    {
        let body = self.body_len(size);
        frame::frame_len(self.row, body) as u64 + body
    }

    // The size of its body, where it has a box.
    fn boxed_len(&self, size: u64) -> u64
        requires { size ≤ 281474983002112 }
        ensures { Framed (row_at self.now.row) (body_of (row_at self.now.row) (fields_of self.now.text.now self.now.record.a self.now.record.x) self.now.record.kids size) result }
    {
        if grammar::boxed_at(self.row) {
            self.body_len(size)
        } else {
            0
        }
    }

    // Its frame, and what is before its children.
    fn put_head(&self, size: u64, out: &mut [u8]) -> usize
        requires { (size ≤ 281474983002112) × (length (head_of (row_at self.now.row) (fields_of self.now.text.now self.now.record.a self.now.record.x) self.now.record.kids size) ≤ length out.old) × (body_of (row_at self.now.row) (fields_of self.now.text.now self.now.record.a self.now.record.x) self.now.record.kids size ≤ 268435455) }
        ensures { Wrote (head_of (row_at self.now.row) (fields_of self.now.text.now self.now.record.a self.now.record.x) self.now.record.kids size) out.old out.new result }
    {
        let r = self.record;
        let body = self.boxed_len(size);
        let mut at = 0;
        at += frame::put_frame(self.row, body, &mut out[at..]);
        at += frame::put_before(self.row, self.text, r.a, r.x, r.kids, size, &mut out[at..]);
        at
    }
}

// ── Sizes that were measured are kept, each with its record and level, so that what stands in several boxes is not measured for each

// Keeps the size of the children of record i. Its place may have had another's, which is lost. The memory is lent beside the terms, since
// that it is right speaks of both.
#[tactic(auto, unfolding(crate::specs::Kept::kept_in, crate::specs::Kept::slot_of, crate::specs::Kept::key_of))]
fn keep(kept: &mut [u64], i: usize, levels: usize, size: u64)
    requires { (i ≤ 65536) × (levels ≤ 64) }
    ensures { kept.new ≡ kept_in kept.old i levels size }
{
    let slot = i % 4096;
    let key = levels as u64 + 1 + 128 * i as u64;
    if slot < kept.len() && size < 0x100000000 {
        kept[slot] = size + 0x100000000 * key;
    }
}

// The size that is kept for the children of record i.
#[tactic(auto, unfolding(crate::specs::Kept::kept_of, crate::specs::Kept::slot_of, crate::specs::Kept::key_of))]
fn kept_at(kept: &[u64], i: usize, levels: usize) -> Option<u64>
    requires { (i ≤ 65536) × (levels ≤ 64) }
    ensures { result ≡ kept_of kept.now i levels }
{
    let slot = i % 4096;
    let key = levels as u64 + 1 + 128 * i as u64;
    if slot < kept.len() && kept[slot] / 0x100000000 == key {
        Some(kept[slot] % 0x100000000)
    } else {
        None
    }
}

// ── Terms are measured: a term, its children one level down, one after the other

impl<'a> Terms<'a> {
    // How many records there are.
    pub fn count(&self) -> usize
        ensures { result ≡ length self.now.records.now / 24 }
    {
        self.records.len() / term::RECORD
    }

    pub fn record_at(&self, i: usize) -> term::Record
        requires { i < length self.now.records.now / 24 }
        ensures { result ≡ record_at self.now.records.now i }
    {
        term::record_at(self.records, i)
    }

    pub fn text_of(&self, r: term::Record) -> &'a [u8]
        ensures { result.now ≡ text_at self.now.pool.now r.start r.len }
    {
        term::text_at(self.pool, r.start, r.len)
    }

    fn own_at(&self, i: usize) -> Own<'a>
        requires { i < length self.now.records.now / 24 }
        ensures { (result.record ≡ record_at self.now.records.now i) × (result.row ≡ position result.record.kind kinds) × (result.text.now ≡ text_at self.now.pool.now result.record.start result.record.len) }
    {
        let record = self.record_at(i);
        Own {
            row: grammar::position_of(record.kind),
            record,
            text: self.text_of(record),
        }
    }

    #[cycle(measure)]
    fn size_of(&self, i: usize, levels: usize, kept: &mut [u64]) -> Sized
        requires { (levels ≤ 64) × Kept self.now.records.now self.now.pool.now kept.old }
        ensures { Measured (term levels (terms_from self.now.records.now self.now.pool.now i)) self.now.records.now self.now.pool.now result.size result.records result.deep result.next × Kept self.now.records.now self.now.pool.now kept.new }
    {
        let n = self.count();
        if levels == 0 || n <= i {
            return Sized::none(i);
        }
        let own = self.own_at(i);
        let kids = self.kids_of(own.record.kids, i, levels, kept);
        Sized {
            size: own.term_len(kids.size),
            records: records_in(own.record.kind, kids.records),
            deep: is_deeper(levels - 1, own.record.kind, kids.deep),
            next: kids.next,
        }
    }

    // The n children of record i. A term without children, as most are, costs no call and is not kept.
    #[cycle(measure)]
    fn kids_of(&self, n: u64, i: usize, levels: usize, kept: &mut [u64]) -> Sized
        requires { Parent self.now.records.now levels i n × Kept self.now.records.now self.now.pool.now kept.old }
        ensures { Measured (list (term (levels - 1)) n (terms_from self.now.records.now self.now.pool.now (i + 1))) self.now.records.now self.now.pool.now result.size result.records result.deep result.next × Kept self.now.records.now self.now.pool.now kept.new }
    {
        if n == 0 {
            return Sized::none(i + 1);
        }
        let s = self.sizes_in(n, i + 1, levels - 1, kept);
        keep(kept, i, levels, s.size);
        s
    }

    #[cycle(measure)]
    fn sizes_in(&self, n: u64, i: usize, levels: usize, kept: &mut [u64]) -> Sized
        requires { (levels ≤ 64) × Kept self.now.records.now self.now.pool.now kept.old }
        ensures { Measured (list (term levels) n (terms_from self.now.records.now self.now.pool.now i)) self.now.records.now self.now.pool.now result.size result.records result.deep result.next × Kept self.now.records.now self.now.pool.now kept.new }
    {
        let mut all = Sized::none(i);
        for _ in 0..n {
            let s = self.size_of(all.next, levels, kept);
            all = Sized {
                size: all.size + s.size,
                records: all.records + s.records,
                deep: all.deep | s.deep,
                next: s.next,
            };
        }
        all
    }

    // n terms from record i on, for whoever measures once: with a memory of one number, since the memory is fixed and nothing is asked again.
    pub fn sizes_of(&self, n: u64, i: usize, levels: usize) -> Sized
        requires { levels ≤ 64 }
        ensures { Measured (list (term levels) n (terms_from self.now.records.now self.now.pool.now i)) self.now.records.now self.now.pool.now result.size result.records result.deep result.next }
    {
        let mut kept = [0u64; 1];
        self.sizes_in(n, i, levels, &mut kept)
    }
}

// ── Writing

impl<'a> Terms<'a> {
    // The size of the n children of record i: kept, or measured now.
    fn kids_size(&self, n: u64, i: usize, levels: usize, kept: &mut [u64]) -> u64
        requires { Parent self.now.records.now levels i n × Kept self.now.records.now self.now.pool.now kept.old }
        ensures { (result ≡ length (list (term (levels - 1)) n (terms_from self.now.records.now self.now.pool.now (i + 1))).bytes) × Kept self.now.records.now self.now.pool.now kept.new }
    {
        match kept_at(kept, i, levels) {
            Some(size) => size,
            None => self.kids_of(n, i, levels, kept).size,
        }
    }

    // The same where the term's box or its template asks for it.
    fn asked_size(&self, j: usize, n: u64, i: usize, levels: usize, kept: &mut [u64]) -> u64
        requires { Parent self.now.records.now levels i n × Kept self.now.records.now self.now.pool.now kept.old }
        ensures { Told (row_at j) (list (term (levels - 1)) n (terms_from self.now.records.now self.now.pool.now (i + 1))).bytes result × Kept self.now.records.now self.now.pool.now kept.new }
    {
        if grammar::boxed_at(j) || matches!(grammar::rest_at(j), grammar::Rest::Measured) {
            self.kids_size(n, i, levels, kept)
        } else {
            0
        }
    }

    // A term: its frame, what is before its children, the children in the part behind, what is behind them.
    #[cycle(write)]
    fn write_term(&self, i: usize, levels: usize, kept: &mut [u64], out: &mut [u8]) -> Done
        requires { (levels ≤ 64) × Kept self.now.records.now self.now.pool.now kept.old × Room (term levels (terms_from self.now.records.now self.now.pool.now i)) out.old }
        ensures { Put (term levels (terms_from self.now.records.now self.now.pool.now i)) self.now.records.now self.now.pool.now out.old out.new result.size result.next × Kept self.now.records.now self.now.pool.now kept.new }
    {
        let n = self.count();
        if levels == 0 || n <= i {
            return Done { size: 0, next: i };
        }
        let own = self.own_at(i);
        let r = own.record;
        let size = self.asked_size(own.row, r.kids, i, levels, kept);
        let mut at = 0;
        at += own.put_head(size, &mut out[at..]);
        let done = self.write_kids(r.kids, i + 1, levels - 1, kept, &mut out[at..]);
        at += done.size;
        at += frame::put_behind(own.row, own.text, r.a, r.x, &mut out[at..]);
        Done {
            size: at,
            next: done.next,
        }
    }

    // n children from record i on. A term without children, as most are, costs no call.
    #[cycle(write)]
    fn write_kids(&self, n: u64, i: usize, levels: usize, kept: &mut [u64], out: &mut [u8]) -> Done
        requires { (levels ≤ 64) × Kept self.now.records.now self.now.pool.now kept.old × Room (list (term levels) n (terms_from self.now.records.now self.now.pool.now i)) out.old }
        ensures { Put (list (term levels) n (terms_from self.now.records.now self.now.pool.now i)) self.now.records.now self.now.pool.now out.old out.new result.size result.next × Kept self.now.records.now self.now.pool.now kept.new }
    {
        if n == 0 {
            return Done { size: 0, next: i };
        }
        self.write_in(n, i, levels, kept, out)
    }

    #[cycle(write)]
    fn write_in(&self, n: u64, i: usize, levels: usize, kept: &mut [u64], out: &mut [u8]) -> Done
        requires { (levels ≤ 64) × Kept self.now.records.now self.now.pool.now kept.old × Room (list (term levels) n (terms_from self.now.records.now self.now.pool.now i)) out.old }
        ensures { Put (list (term levels) n (terms_from self.now.records.now self.now.pool.now i)) self.now.records.now self.now.pool.now out.old out.new result.size result.next × Kept self.now.records.now self.now.pool.now kept.new }
    {
        let mut at = 0;
        let mut next = i;
        for _ in 0..n {
            let done = self.write_term(next, levels, kept, &mut out[at..]);
            at += done.size;
            next = done.next;
        }
        Done { size: at, next }
    }

    // n terms from record i on, for whoever has nothing measured: with a memory of one number.
    pub fn write_list(&self, n: u64, i: usize, levels: usize, out: &mut [u8]) -> Done
        requires { (levels ≤ 64) × Room (list (term levels) n (terms_from self.now.records.now self.now.pool.now i)) out.old }
        ensures { Put (list (term levels) n (terms_from self.now.records.now self.now.pool.now i)) self.now.records.now self.now.pool.now out.old out.new result.size result.next }
    {
        let mut kept = [0u64; 1];
        self.write_in(n, i, levels, &mut kept, out)
    }
}

// ── The table

// 11 or 12 of so many records in normal form, whether they are too deep, so many bytes. A table of this size has no body over the
// range of its PkgLength, so 13 cannot come behind 12.
#[tactic(auto, unfolding(crate::specs::Answer::figures_number))]
pub fn late_number(records: u64, deep: bool, size: u64) -> Result<(), Refusal>
    ensures { number_said result ≡ figures_number records deep size }
{
    if 65536 < records || deep {
        return Err(Refusal::NormalForm);
    }
    if 268435455 - 36 < size {
        return Err(Refusal::TooLarge);
    }
    Ok(())
}

// The header, with no length and no checksum yet, and the terms.
fn put_opened(identity: &[u8], terms: &Terms<'_>, kept: &mut [u64], out: &mut [u8]) -> usize
    requires { Kept terms.now.records.now terms.now.pool.now kept.old × TableRoom identity.now (whole terms.now.records.now terms.now.pool.now) out.old }
    ensures { Wrote (opened identity.now (whole terms.now.records.now terms.now.pool.now).bytes) out.old out.new result }
{
    let n = terms.count() as u64;
    let mut at = 0;
    at += sdt::put_header(identity, &mut out[at..]);
    let done = terms.write_in(n, 0, 64, kept, &mut out[at..]);
    at + done.size
}

fn put_table(identity: &[u8], terms: &Terms<'_>, kept: &mut [u64], out: &mut [u8]) -> usize
    requires { Kept terms.now.records.now terms.now.pool.now kept.old × TableRoom identity.now (whole terms.now.records.now terms.now.pool.now) out.old }
    ensures { Wrote (sealed (opened identity.now (whole terms.now.records.now terms.now.pool.now).bytes)) out.old out.new result }
{
    let total = put_opened(identity, terms, kept, out);
    sdt::update_checksum(&mut out[0..total]);
    total
}

// Refusals 11, 12 and 14, or the table.
fn encode_sections(identity: &[u8], terms: &Terms<'_>, out: &mut [u8]) -> Result<usize, Fault>
    requires { length identity.now ≡ 31 }
    ensures { Answered result out.new (walked (sealed (opened identity.now (whole terms.now.records.now terms.now.pool.now).bytes)) (whole terms.now.records.now terms.now.pool.now) out.old) }
{
    let n = terms.count() as u64;
    let mut kept = [0u64; 4096];
    let s = terms.sizes_in(n, 0, 64, &mut kept);
    late_number(s.records, s.deep, s.size)?;
    if (out.len() as u64) < 36 + s.size {
        return Err(Refusal::OutputShort.into());
    }
    Ok(put_table(identity, terms, &mut kept, out))
}

// The table of a term file into `out`, or the refusal, and then `out` is as it was.
pub fn encode(file: &[u8], out: &mut [u8]) -> Result<usize, Fault>
    ensures { Answered result out.new (encode_of file.now out.old) }
{
    let sections = checker::accept(file)?;
    let terms = Terms {
        records: sections.records,
        pool: sections.pool,
    };
    encode_sections(sections.identity, &terms, out)
}
