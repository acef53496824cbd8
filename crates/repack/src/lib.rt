// What every normal-form file has: its header's numbers, its records one by one, and the arity list repacked, whose texts stand one
// behind the other from the pool's beginning. Normalising and reading both write it.
#![tactic(auto)]

ghost use Rattle.std.specs.Prelude.{◌≡◌, ◌≤◌, length};
ghost use Rattle.octets.specs.Filling.{Wrote};
ghost use Rattle.arity.specs.Arity.{arities_of};
ghost use Rattle.normal.specs.File.{arities_bytes, arity_texts};
ghost use Rattle.repack.specs.Repack.{two, head_bytes, packed, entry_bytes};

use arity::Arities;

// ── Header and records

// Two numbers of n bytes each.
fn put_two(n: usize, a: u64, b: u64, out: &mut [u8]) -> usize
    requires { length (two n a b) ≤ length out.old }
    ensures { Wrote (two n a b) out.old out.new result }
{
    let mut at = 0;
    at += octets::put_le(n, a, &mut out[at..]);
    at += octets::put_le(n, b, &mut out[at..]);
    at
}

// The header up to the identity, of a file with so many records, arity entries and bytes of pool.
pub fn put_head(records: u64, arities: u64, pool: u64, out: &mut [u8]) -> usize
    requires { (records ≤ 65536) × (arities ≤ 4096) × (length (head_bytes records arities pool) ≤ length out.old) }
    ensures { Wrote (head_bytes records arities pool) out.old out.new result }
{
    let arities_at = 60 + 24 * records;
    let pool_at = arities_at + 8 * arities;
    let mut at = 0;
    at += octets::put_slice(b"TERM", &mut out[at..]);
    at += put_two(4, records, 60, &mut out[at..]);
    at += put_two(4, arities, arities_at, &mut out[at..]);
    at += put_two(4, pool, pool_at, &mut out[at..]);
    at
}

// A record by its six numbers.
pub fn put_record(r: term::Record, out: &mut [u8]) -> usize
    requires { length (packed r) ≤ length out.old }
    ensures { Wrote (packed r) out.old out.new result }
{
    let mut at = 0;
    at += put_two(2, r.kind, r.a, &mut out[at..]);
    at += octets::put_le(4, r.kids, &mut out[at..]);
    at += octets::put_le(8, r.x, &mut out[at..]);
    at += put_two(4, r.start, r.len, &mut out[at..]);
    at
}

// ── The arity list

// How many bytes the texts take. A path has at most 1,275, and the list at most 4,096 entries, so the sum fits.
pub fn texts_len(arities: &Arities<'_>) -> u64
    requires { length arities.now.entries.now ≤ 32768 }
    ensures { result ≡ length (arity_texts (arities_of arities.now.entries.now arities.now.pool.now)) }
{
    let mut sum: u64 = 0;
    for j in 0..arities.entries.len() / 8 {
        sum += arity::entry_at(arities.entries, j).len;
    }
    sum
}

// An entry by its three numbers.
fn put_entry(start: u64, len: u64, args: u64, out: &mut [u8]) -> usize
    requires { length (entry_bytes start len args) ≤ length out.old }
    ensures { Wrote (entry_bytes start len args) out.old out.new result }
{
    let mut at = 0;
    at += octets::put_le(4, start, &mut out[at..]);
    at += octets::put_le(2, len, &mut out[at..]);
    at += octets::put_le(2, args, &mut out[at..]);
    at
}

// The entries, each text behind the one before it.
pub fn put_entries(arities: &Arities<'_>, out: &mut [u8]) -> usize
    requires { (length arities.now.entries.now ≤ 32768) × (length (arities_bytes 0 (arities_of arities.now.entries.now arities.now.pool.now)) ≤ length out.old) }
    ensures { Wrote (arities_bytes 0 (arities_of arities.now.entries.now arities.now.pool.now)) out.old out.new result }
{
    let mut start: u64 = 0;
    let mut at = 0;
    for j in 0..arities.entries.len() / 8 {
        let e = arity::entry_at(arities.entries, j);
        at += put_entry(start, e.len, e.args, &mut out[at..]);
        start += e.len;
    }
    at
}

// The texts, in the entries' order: of any list, whether its entries are right or not.
pub fn put_texts(b: &[u8], pool: &[u8], out: &mut [u8]) -> usize
    requires { length (arity_texts (arities_of b.now pool.now)) ≤ length out.old }
    ensures { Wrote (arity_texts (arities_of b.now pool.now)) out.old out.new result }
{
    let mut at = 0;
    for j in 0..b.len() / 8 {
        let e = arity::entry_at(b, j);
        let t = term::text_at(pool, e.start, e.len);
        at += octets::put_slice(t, &mut out[at..]);
    }
    at
}
