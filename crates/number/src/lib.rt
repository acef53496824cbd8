// Integers and lengths of AML: their size, their bytes, and strict reading, which takes exactly what writing gives.
#![tactic(auto)]

ghost use Rattle.std.specs.Prelude.{◌≡◌, true, false, SomeIff, ◌∷◌, ◌≤◌, ◌<◌, length};
ghost use Rattle.octets.specs.Bytes.{le};
ghost use Rattle.octets.specs.Filling.{Wrote};
ghost use Rattle.octets.specs.Reading.{Reads};
ghost use Rattle.number.specs.Lead.{steps};
ghost use Rattle.number.specs.Integer.{width, integer};
ghost use Rattle.number.specs.Get.{announced, get_integer, shortest, get_pkg_length};
ghost use Rattle.number.specs.IntegerLaws.{own_form};
ghost use Rattle.number.specs.PkgLength.{following, own, largest, create_pkg_length};
ghost use Rattle.number.specs.PkgLengthLaws.{lead_of, malformed, whole};
ghost use Rattle.number.specs.Buffer.{buffer_front};

// A first byte and the low n bytes of x: every integer and every length has this form.
fn put_lead(c: u8, n: usize, x: u64, out: &mut [u8]) -> usize
    requires { length (c ∷ le n x) ≤ length out.old }
    ensures { Wrote (c ∷ le n x) out.old out.new result }
{
    out[0] = c;
    1 + octets::put_le(n, x, &mut out[1..])
}

// How many of three ascending bounds x reaches.
#[tactic(auto, unfolding(crate::specs::Lead::steps))]
fn reached(x: u64, a: u64, b: u64, c: u64) -> usize
    ensures { (result ≡ steps x a b c) × (result ≤ 3) }
{
    if x < a {
        0
    } else if x < b {
        1
    } else if x < c {
        2
    } else {
        3
    }
}

// ── Integers

// The bytes of the shortest form of x, where it is not 0 or 1.
fn int_width(x: u64) -> usize
    ensures { result ≡ width x }
{
    1 << reached(x, 256, 65536, 4294967296)
}

// The width that a leading byte announces, if it is a prefix.
#[tactic(auto, unfolding(crate::specs::Get::announced))]
fn announced_by(c: u8) -> Option<usize>
    ensures { SomeIff result (1 ≤ announced c) (announced c) }
{
    match c {
        0x0A => Some(1),
        0x0B => Some(2),
        0x0C => Some(4),
        0x0E => Some(8),
        _ => None,
    }
}

// Whether w bytes are the form in which x is written.
#[tactic(auto, unfolding(crate::specs::IntegerLaws::own_form))]
fn own_form(w: usize, x: u64) -> bool
    ensures { result ≡ own_form w x }
{
    2 <= x && int_width(x) == w
}

pub fn int_len(x: u64) -> usize
    ensures { result ≡ length (integer x) }
{
    if x < 2 { 1 } else { int_width(x) + 1 }
}

pub fn put_int(x: u64, out: &mut [u8]) -> usize
    requires { length (integer x) ≤ length out.old }
    ensures { Wrote (integer x) out.old out.new result }
{
    if x < 2 {
        return put_lead(x as u8, 0, 0, out);
    }
    let w = int_width(x);
    // 0A, 0B, 0C, 0E stand before 1, 2, 4, 8 bytes
    put_lead((0x0A + w / 2) as u8, w, x, out)
}

// The integer at `at`; none where it is cut off, or longer than it has to be.
pub fn int_at(b: &[u8], at: usize) -> Option<(u64, usize)>
    ensures { Reads get_integer b.now at result }
{
    let c = *b.get(at)?;
    if c < 2 {
        return Some((u64::from(c), at + 1));
    }
    let w = announced_by(c)?;
    let (x, next) = octets::le_at(b, at + 1, w)?;
    if own_form(w, x) {
        Some((x, next))
    } else {
        None
    }
}

// ── Lengths, of a body (which counts its own bytes) and of a field entry (which does not)

fn following_of(n: u64) -> usize
    ensures { result ≡ following n }
{
    reached(n, 63, 4094, 1048573)
}

fn own_of(include_self: bool, k: usize) -> u64
    requires { k ≤ 3 }
    ensures { result ≡ own include_self k }
{
    if include_self { k as u64 + 1 } else { 0 }
}

fn largest_of(include_self: bool) -> u64
    ensures { result ≡ largest include_self }
{
    if include_self { 268435451 } else { 268435455 }
}

// The first byte of the length m with k bytes after it.
#[tactic(auto, unfolding(crate::specs::PkgLengthLaws::lead_of))]
fn lead_of(k: usize, m: u64) -> u8
    requires { (k ≤ 3) × (lead_of k m < 256) }
    ensures { result ≡ lead_of k m }
{
    if k == 0 {
        m as u8
    } else {
        (64 * k as u64 + m % 16) as u8
    }
}

// The size does not depend on whether the length counts itself.
pub fn pkg_length_len(n: u64) -> usize
    ensures { (result ≡ length (create_pkg_length true n)) × (result ≡ length (create_pkg_length false n)) }
{
    following_of(n) + 1
}

pub fn create_pkg_length(n: u64, include_self: bool, out: &mut [u8]) -> usize
    requires { (length (create_pkg_length include_self n) ≤ length out.old) × (n ≤ 268435455) }
    ensures { Wrote (create_pkg_length include_self n) out.old out.new result }
{
    let k = following_of(n);
    let m = n + own_of(include_self, k);
    put_lead(lead_of(k, m), k, m / 16, out)
}

// A long length has 0 in bits 4 and 5 of its first byte.
#[tactic(auto, unfolding(crate::specs::PkgLengthLaws::malformed))]
fn is_malformed(c: u64) -> bool
    ensures { result ≡ malformed c }
{
    64 <= c && 16 <= c % 64
}

// The length with the first byte c and the number x after it.
#[tactic(auto, unfolding(crate::specs::PkgLengthLaws::whole))]
fn whole_of(c: u64, x: u64) -> u64
    requires { (c < 256) × (x < 16777216) }
    ensures { result ≡ whole c x }
{
    if c < 64 { c } else { c % 16 + 16 * x }
}

// Whether the length m with k bytes after its first is one that is written.
#[tactic(auto, unfolding(crate::specs::Get::shortest))]
fn is_shortest(include_self: bool, k: usize, m: u64) -> bool
    requires { k ≤ 3 }
    ensures { result ≡ shortest include_self k m }
{
    let o = own_of(include_self, k);
    o <= m && m - o <= largest_of(include_self) && following_of(m - o) == k
}

// What is measured by the length at `at`; none where that is cut off, malformed, or longer than it has to be.
pub fn pkg_length_at(b: &[u8], at: usize, include_self: bool) -> Option<(u64, usize)>
    ensures { Reads (get_pkg_length include_self) b.now at result }
{
    let c = u64::from(*b.get(at)?);
    if is_malformed(c) {
        return None;
    }
    let k = (c / 64) as usize;
    let (x, next) = octets::le_at(b, at + 1, k)?;
    let m = whole_of(c, x);
    if is_shortest(include_self, k, m) {
        Some((m - own_of(include_self, k), next))
    } else {
        None
    }
}

// ── What stands before a buffer's n bytes

pub fn put_buffer_front(n: u64, out: &mut [u8]) -> usize
    requires { (length (buffer_front n) ≤ length out.old) × (n ≤ 268435440) }
    ensures { Wrote (buffer_front n) out.old out.new result }
{
    let body = int_len(n) as u64 + n;
    out[0] = 0x11;
    let mut at = 1;
    at += create_pkg_length(body, true, &mut out[at..]);
    at + put_int(n, &mut out[at..])
}
