// Which kind of term begins at a position of a table, and where the body behind its opcode starts and ends.
#![tactic(auto)]

ghost use Rattle.std.specs.Prelude.{◌≡◌, cond, ◌+◌, ◌^◌, ◌≤◌, ◌<◌, eqb, length, drop, get_or};
ghost use Rattle.octets.specs.Bytes.{le, begins};
ghost use Rattle.tree.specs.Read.{kind_at};
ghost use Rattle.start.specs.Start.{Started};
ghost use Rattle.start.specs.Box.{Opens};

// ── The kind

// The byte at `at`; 0 behind the end.
fn byte_at(b: &[u8], at: usize) -> u64
    ensures { (result ≡ get_or b.now at 0) × (result < 256) }
{
    b.get(at).copied().map_or(0, u64::from)
}

// A field's entry is 00 or a segment.
fn entry_of(c: u64) -> u64
    ensures { result ≡ cond (eqb c 0) 0xF000 0xF001 }
{
    if c == 0 { 0xF000 } else { 0xF001 }
}

// The kind that the bytes from `at` on begin, which need not be known.
fn kind_at(b: &[u8], at: usize, place: grammar::Place) -> u64
    requires { at < length b.now }
    ensures { result ≡ kind_at place (drop at b.now) }
{
    let c = u64::from(b[at]);
    if matches!(place, grammar::Place::FieldEntry) {
        return entry_of(c);
    }
    if matches!(c, 0x5B | 0x92) {
        return 256 * c + byte_at(b, at + 1);
    }
    u64::from(grammar::family(b[at]))
}

// Whether the n bytes of op stand at `at`.
fn is_opcode(n: usize, op: u64, b: &[u8], at: usize) -> bool
    requires { (n ≤ 2) × (op < 256 ^ n) × (at ≤ length b.now) }
    ensures { result ≡ begins (le n op) (drop at b.now) }
{
    n <= b.len() - at && octets::get_le(b, at, n) == op
}

// Where in the table of kinds the kind stands that begins here, is a normal one (they are the first 57), may stand in this place, and
// has its opcode there.
pub fn start_at(b: &[u8], at: usize, place: grammar::Place) -> Option<usize>
    ensures { Started place (drop at b.now) result }
{
    if b.len() <= at {
        return None;
    }
    let j = grammar::position_of(kind_at(b, at, place));
    if 57 <= j {
        return None;
    }
    let row = grammar::row_at(j);
    let places = row.places;
    if !grammar::may_stand(places, place) {
        return None;
    }
    if is_opcode(row.ops as usize, row.op, b, at) {
        return Some(j);
    }
    None
}

// ── The body

// Where a body ends and starts: behind its PkgLength and as far as that says, if it is boxed; else from here to the end.
pub fn box_at(b: &[u8], at: usize, boxed: bool) -> Option<(u64, usize)>
    requires { at ≤ length b.now }
    ensures { Opens «boxed» b.now at result }
{
    if !boxed {
        return Some((b.len() as u64, at));
    }
    let (size, start) = number::pkg_length_at(b, at, true)?;
    let left = (b.len() - start) as u64;
    if left < size {
        return None;
    }
    Some((start as u64 + size, start))
}
