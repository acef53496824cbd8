// Paths, for the checker, the encoder and the decoder: text is checked and written as bytes, bytes are read
// strictly and written as text. Every loop goes from segment to segment.
#![tactic(auto)]

ghost use Rattle.std.specs.Prelude.{◌≡◌, ◌+◌, ◌-◌, ◌*◌, ◌≤◌, ◌<◌, T, length, drop, get_or};
ghost use Rattle.octets.specs.Filling.{Wrote};
ghost use Rattle.octets.specs.Reading.{Reads};
ghost use Rattle.path.specs.Path.{lead_name, name_char, is_path, count_bytes, path_bytes};
ghost use Rattle.path.specs.Get.{get_count, get_path_length, path_text};
ghost use Rattle.path.specs.PathLaws.{root_size};
ghost use Rattle.path.specs.PathText.{segment_at};
ghost use Rattle.path.specs.PathReading.{runs};
ghost use Rattle.path.specs.PathWriting.{spaced, strung};
ghost use Rattle.path.specs.PathSpelled.{spelled};

// ── Segments

// Whether c may begin a segment: A to Z, or _.
#[tactic(auto, unfolding(crate::specs::Path::lead_name))]
fn is_lead(c: u8) -> bool
    ensures { result ≡ lead_name c }
{
    matches!(c, b'A'..=b'Z' | b'_')
}

// Whether c may stand in one: those, or 0 to 9.
#[tactic(auto, unfolding(crate::specs::Path::name_char))]
fn is_name_char(c: u8) -> bool
    ensures { result ≡ name_char c }
{
    is_lead(c) || matches!(c, b'0'..=b'9')
}

// Whether the four bytes from `at` on are there, and a segment.
pub fn is_segment(b: &[u8], at: usize) -> bool
    ensures { result ≡ segment_at b.now at }
{
    let Some(rest) = b.get(at..) else {
        return false;
    };
    let [lead, second, third, last, ..] = rest else {
        return false;
    };
    is_lead(*lead) && is_name_char(*second) && is_name_char(*third) && is_name_char(*last)
}

// ── Path text

// How many bytes from `at` on are a root mark.
pub fn root_at(b: &[u8], at: usize) -> usize
    ensures { result ≡ root_size (drop at b.now) }
{
    match b.get(at) {
        Some(c) => usize::from(*c == b'\\'),
        None => 0,
    }
}

// Whether t is a path. 255 segments and the dots between them are 1,274 characters: what is longer is not scanned.
pub fn is_path(t: &[u8]) -> bool
    ensures { result ≡ is_path t.now }
{
    let mut at = root_at(t, 0);
    if 1274 < t.len() - at {
        return false;
    }
    // A segment and its dot a turn: whether one more turn follows is seen in the text, and the last has no dot.
    while at + 4 < t.len() {
        if t[at + 4] != b'.' || !is_segment(t, at) {
            return false;
        }
        at += 5;
    }
    is_segment(t, at)
}

// ── Path text to bytes

// How many bytes say that n segments follow.
#[tactic(auto, unfolding(crate::specs::Path::count_bytes))]
fn count_len(n: usize) -> usize
    ensures { result ≡ length (count_bytes n) }
{
    match n {
        1 => 0,
        2 => 1,
        _ => 2,
    }
}

#[tactic(auto, unfolding(crate::specs::Path::count_bytes))]
fn put_count(n: usize, out: &mut [u8]) -> usize
    requires { (n ≤ 255) × (length (count_bytes n) ≤ length out.old) }
    ensures { Wrote (count_bytes n) out.old out.new result }
{
    match n {
        1 => 0,
        2 => {
            out[0] = 0x2E;
            1
        }
        _ => {
            out[0] = 0x2F;
            out[1] = n as u8;
            2
        }
    }
}

// n more segments: in b, from a position in a table, each stands behind `skip` bytes, in `out` behind as many dots as `dots`.
fn put_spaced(b: &[u8], from: usize, n: usize, skip: usize, dots: usize, out: &mut [u8]) -> usize
    requires { (from + (skip + 4) * n ≤ length b.now) × (length (spaced skip dots n (drop from b.now)) ≤ length out.old) }
    ensures { Wrote (spaced skip dots n (drop from b.now)) out.old out.new result }
{
    let mut p = from;
    let mut at = 0;
    for _ in 0..n {
        at += octets::put_le(dots, 0x2E, &mut out[at..]);
        p += skip;
        at += octets::put_slice(&b[p..p + 4], &mut out[at..]);
        p += 4;
    }
    at
}

// n segments, the first of which stands at `from`.
fn put_parts(b: &[u8], from: usize, n: usize, skip: usize, dots: usize, out: &mut [u8]) -> usize
    requires { (1 ≤ n) × (from + 4 + (skip + 4) * (n - 1) ≤ length b.now) × (length (strung skip dots n (drop from b.now)) ≤ length out.old) }
    ensures { Wrote (strung skip dots n (drop from b.now)) out.old out.new result }
{
    let mut at = 0;
    at += octets::put_slice(&b[from..from + 4], &mut out[at..]);
    at += put_spaced(b, from + 4, n - 1, skip, dots, &mut out[at..]);
    at
}

// How many bytes the path t is.
pub fn path_len(t: &[u8]) -> usize
    requires { T (is_path t.now) }
    ensures { result ≡ length (path_bytes t.now) }
{
    let k = root_at(t, 0);
    let n = (t.len() - k + 1) / 5;
    k + (count_len(n) + 4 * n)
}

// The bytes of the path t. Its root mark is the same in both.
pub fn put_path(t: &[u8], out: &mut [u8]) -> usize
    requires { T (is_path t.now) × (length (path_bytes t.now) ≤ length out.old) }
    ensures { Wrote (path_bytes t.now) out.old out.new result }
{
    let k = root_at(t, 0);
    let n = (t.len() - k + 1) / 5;
    let mut at = 0;
    at += octets::put_slice(&t[..k], &mut out[at..]);
    at += put_count(n, &mut out[at..]);
    at += put_parts(t, k, n, 1, 0, &mut out[at..]);
    at
}

// ── Path bytes

// The number of segments, of which 2E says that it is two and 2F that it follows, and where the first begins.
fn count_at(b: &[u8], at: usize) -> Option<(u64, usize)>
    ensures { Reads get_count b.now at result }
{
    match *b.get(at)? {
        0x2E => Some((2, at + 1)),
        0x2F => {
            let n = u64::from(*b.get(at + 1)?);
            if n < 3 { None } else { Some((n, at + 2)) }
        }
        _ => Some((1, at)),
    }
}

// Whether n segments stand one after the other.
fn are_segments(b: &[u8], from: usize, n: usize) -> bool
    requires { from ≤ length b.now }
    ensures { result ≡ runs n (drop from b.now) }
{
    for i in 0..n {
        if !is_segment(b, from + 4 * i) {
            return false;
        }
    }
    true
}

// The length of the path's text, and where its bytes end.
pub fn path_at(b: &[u8], at: usize) -> Option<(u64, usize)>
    ensures { Reads get_path_length b.now at result }
{
    let k = root_at(b, at);
    let (n, q) = count_at(b, at + k)?;
    let m = n as usize;
    if are_segments(b, q, m) {
        Some((k as u64 + (5 * n - 1), q + 4 * m))
    } else {
        None
    }
}

// The text of the path whose bytes stand at `at`: nothing where none does.
pub fn put_path_text(b: &[u8], at: usize, out: &mut [u8]) -> usize
    requires { length (path_text (drop at b.now)) ≤ length out.old }
    ensures { Wrote (path_text (drop at b.now)) out.old out.new result }
{
    let Some((v, next)) = path_at(b, at) else {
        return 0;
    };
    let k = root_at(b, at);
    let n = (v as usize - k + 1) / 5;
    let mut end = 0;
    end += octets::put_slice(&b[at..at + k], &mut out[end..]);
    end += put_parts(b, next - 4 * n, n, 0, 1, &mut out[end..]);
    end
}

// Byte i of the text that `head` and the segments in `rest` spell.
pub fn spelled_at(head: &[u8], rest: &[u8], i: usize) -> u8
    requires { i < length (spelled head.now rest.now) }
    ensures { result ≡ get_or (spelled head.now rest.now) i 0 }
{
    if i < head.len() {
        return head[i];
    }
    let j = i - head.len();
    if j % 5 == 4 { b'.' } else { rest[j - j / 5] }
}
