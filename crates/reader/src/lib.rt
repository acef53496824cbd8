// Reads a table: the one normal-form file that it came from, with the arity list of a file that has no record; or the refusal.
#![tactic(auto)]

ghost use Rattle.std.specs.Prelude.{◌≡◌, ◌≤◌, length, MatchResult};
ghost use Rattle.octets.specs.Filling.{Wrote};
ghost use Rattle.normal.specs.File.{header_bytes};
ghost use Rattle.encode.specs.Encode.{Answered};
ghost use Rattle.refusal.specs.Number.{number};
ghost use Rattle.whole.specs.Whole.{identity_of, read_of};
ghost use Rattle.reader.specs.Reader.{table_number, list_bytes, body_bytes, read_file, read_sections, Ready, Room};

use arity::Arities;
use refusal::{Fault, Refusal};

// 20, 12 and 21.
fn table_number(table: &[u8]) -> Result<(), Refusal>
    ensures { MatchResult result (λ _. table_number table.now ≡ 0) (λ e. number e ≡ table_number table.now) }
{
    if table.len() < 36 {
        return Err(Refusal::BadTable);
    }
    if octets::get_le(table, 4, 4) != table.len() as u64 {
        return Err(Refusal::BadTable);
    }
    if 268435455 < table.len() {
        return Err(Refusal::TooLarge);
    }
    if octets::byte_sum(table) != 0 {
        return Err(Refusal::Sum);
    }
    Ok(())
}

// ── The file

// The identity, which is three pieces of the table's own header.
fn put_identity(table: &[u8], out: &mut [u8]) -> usize
    requires { (36 ≤ length table.now) × (length (identity_of table.now) ≤ length out.old) }
    ensures { Wrote (identity_of table.now) out.old out.new result }
{
    let mut at = 0;
    at += octets::put_slice(&table[0..4], &mut out[at..]);
    at += octets::put_slice(&table[8..9], &mut out[at..]);
    at += octets::put_slice(&table[10..36], &mut out[at..]);
    at
}

fn put_header(table: &[u8], n: u64, arities: u64, pool: u64, out: &mut [u8]) -> usize
    requires { (36 ≤ length table.now) × (n ≤ 65536) × (arities ≤ 4096) × (length (header_bytes (identity_of table.now) n arities pool) ≤ length out.old) }
    ensures { Wrote (header_bytes (identity_of table.now) n arities pool) out.old out.new result }
{
    let mut at = 0;
    at += repack::put_head(n, arities, pool, &mut out[at..]);
    at += put_identity(table, &mut out[at..]);
    at += octets::put_le(1, 0, &mut out[at..]);
    at
}

// The arity list: entries, and their texts behind them.
fn put_list(arities: &Arities<'_>, out: &mut [u8]) -> usize
    requires { (length arities.now.entries.now ≤ 32768) × (length (list_bytes arities.now.entries.now arities.now.pool.now) ≤ length out.old) }
    ensures { Wrote (list_bytes arities.now.entries.now arities.now.pool.now) out.old out.new result }
{
    let mut at = 0;
    at += repack::put_entries(arities, &mut out[at..]);
    at += repack::put_texts(arities.entries, arities.pool, &mut out[at..]);
    at
}

// What stands behind the header. The records are left by a second walk, and hold where their texts stand in the table; with the arity
// list in its place, the texts are copied behind it, and the records say where they are now.
fn put_body(
    table: &[u8],
    arities: &Arities<'_>,
    n: usize,
    names: u64,
    texts: usize,
    out: &mut [u8],
) -> usize
    requires { Ready arities.now.entries.now arities.now.pool.now table.now × Room (body_bytes arities.now.entries.now arities.now.pool.now table.now) arities.now.entries.now arities.now.pool.now table.now n names texts out.old }
    ensures { Wrote (body_bytes arities.now.entries.now arities.now.pool.now table.now) out.old out.new result }
{
    let from = 24 * n;
    let size = put_list(arities, &mut out[from..]);
    let to = from + size;
    walk::walk_terms(table, arities, out);
    settle::settle(table, n, to, names, out);
    to + texts
}

// The file, of so many records, bytes of arity texts and bytes of record texts.
fn put_file(
    table: &[u8],
    arities: &Arities<'_>,
    n: usize,
    names: u64,
    texts: usize,
    out: &mut [u8],
) -> usize
    requires { Ready arities.now.entries.now arities.now.pool.now table.now × Room (read_file arities.now.entries.now arities.now.pool.now table.now) arities.now.entries.now arities.now.pool.now table.now n names texts out.old }
    ensures { Wrote (read_file arities.now.entries.now arities.now.pool.now table.now) out.old out.new result }
{
    let count = (arities.entries.len() / 8) as u64;
    let length = names + texts as u64;
    let mut at = 0;
    at += put_header(table, n as u64, count, length, &mut out[at..]);
    at += put_body(table, arities, n, names, texts, &mut out[at..]);
    at
}

// Refusals 22 and 14, or the file. The first walk counts, and has no room to leave a record.
fn read_sections(arities: &Arities<'_>, table: &[u8], out: &mut [u8]) -> Result<usize, Fault>
    requires { Ready arities.now.entries.now arities.now.pool.now table.now }
    ensures { Answered result out.new (read_sections arities.now.entries.now arities.now.pool.now table.now out.old) }
{
    let mut none = [0u8; 1];
    let Some(w) = walk::walk_terms(table, arities, &mut none[..]) else {
        return Err(Refusal::NoFile.into());
    };
    if 65536 < w.records {
        return Err(Refusal::NoFile.into());
    }
    let names = repack::texts_len(arities);
    let size = 60
        + 24 * w.records as u64
        + 8 * (arities.entries.len() / 8) as u64
        + (names + w.texts as u64);
    if (out.len() as u64) < size {
        return Err(Refusal::OutputShort.into());
    }
    Ok(put_file(table, arities, w.records, names, w.texts, out))
}

// The normal-form file of a table into `out`, or the refusal, and then `out` is as it was.
pub fn read(file: &[u8], table: &[u8], out: &mut [u8]) -> Result<usize, Fault>
    ensures { Answered result out.new (read_of file.now table.now out.old) }
{
    let sections = term::lay_out(file)?;
    if octets::get_le(file, 4, 4) != 0 {
        return Err(Refusal::TooMany.into());
    }
    let Some(arities) = Arities::new(sections.arities, sections.pool) else {
        return Err(Refusal::Arities.into());
    };
    table_number(table)?;
    read_sections(&arities, table, out)
}
