// Moves texts out of the table that was read into the pool of the file that is made: the reader's last step over its records.
#![tactic(auto)]

ghost use Rattle.std.specs.Prelude.{◌≡◌, ◌≤◌, length};
ghost use Rattle.octets.specs.Filling.{Wrote};
ghost use Rattle.settle.specs.Settle.{has_path, fetched, placed, settled, Settling};

// Whether the text of this kind is a path.
fn has_path(kind: u64) -> bool
    ensures { result ≡ has_path kind }
{
    let j = grammar::position_of(kind);
    j < 67 && matches!(grammar::row_at(j).text, grammar::Text::PathText)
}

// The text of a record that says where it stands in the table.
fn put_text(table: &[u8], r: term::Record, out: &mut [u8]) -> usize
    requires { length (fetched table.now r) ≤ length out.old }
    ensures { Wrote (fetched table.now r) out.old out.new result }
{
    if has_path(r.kind) {
        return path::put_path_text(table, r.start as usize, out);
    }
    let t = term::text_at(table, r.start, r.len);
    octets::put_slice(t, out)
}

// The record of a text that is at this place of the pool: an empty text starts at 0.
fn placed_at(r: term::Record, at: u64) -> term::Record
    ensures { result ≡ placed r at }
{
    let start = if r.len == 0 { 0 } else { at };
    term::Record { start, ..r }
}

// Copies the texts of n records out of the table into the pool, one behind the other, and makes each record say where its text is now.
// `pool` is where in `out` the texts go, `first` how many bytes the pool has before them.
pub fn settle(table: &[u8], n: usize, pool: usize, first: u64, out: &mut [u8])
    requires { Settling table.now n pool first out.old }
    ensures { out.new ≡ settled table.now n pool first out.old }
{
    let mut at = 0;
    for j in 0..n {
        let r = term::record_at(&out[0..pool], j);
        let s = placed_at(r, first + at as u64);
        at += put_text(table, r, &mut out[pool + at..]);
        repack::put_record(s, &mut out[24 * j..]);
    }
}
