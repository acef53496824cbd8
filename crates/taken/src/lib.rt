// Reads a term's text and numbers by the columns of its kind: the text's length, a and x, and where they end.
#![tactic(auto)]

ghost use Rattle.std.specs.Prelude.{◌≡◌, ◌-◌, ◌≤◌, T, length};
ghost use Rattle.octets.specs.Reading.{Reads};
ghost use Rattle.fields.specs.Get.{get_string, get_segment};
ghost use Rattle.taken.specs.Taken.{Takes, sized, get_text_length, get_number, up_to, parts_of, short};

// The text's length, the numbers, and where they end.
#[derive(Clone, Copy, Debug, PartialEq, Eq)]
pub struct Fields {
    pub len: u64,
    pub a: u64,
    pub x: u64,
    pub next: usize,
}

// ── Text

// The length of the string that stands at `at`, up to its 00, and where the 00 ends.
fn string_at(b: &[u8], at: usize) -> Option<(u64, usize)>
    requires { at ≤ length b.now }
    ensures { Reads (sized get_string) b.now at result }
{
    for (i, c) in b[at..].iter().enumerate() {
        if *c == 0 {
            return Some((i as u64, at + i + 1));
        }
        if 127 < *c {
            return None;
        }
    }
    None
}

fn segment_at(b: &[u8], at: usize) -> Option<(u64, usize)>
    ensures { Reads (sized get_segment) b.now at result }
{
    if path::is_segment(b, at) {
        Some((4, at + 4))
    } else {
        None
    }
}

// The length of a text of this form, and where its bytes end. The last three are never read as they stand.
fn text_at(text: grammar::Text, b: &[u8], at: usize) -> Option<(u64, usize)>
    requires { at ≤ length b.now }
    ensures { Reads (get_text_length text) b.now at result }
{
    match text {
        grammar::Text::Unused => Some((0, at)),
        grammar::Text::PathText => path::path_at(b, at),
        grammar::Text::SegmentText => segment_at(b, at),
        grammar::Text::Ascii => string_at(b, at),
        grammar::Text::AnyBytes => Some(((b.len() - at) as u64, b.len())),
        grammar::Text::EisaText | grammar::Text::UuidText | grammar::Text::DescriptorText => None,
    }
}

// ── Numbers

// The number that holds both, and where it ends.
fn number_at(numbers: grammar::Numbers, b: &[u8], at: usize) -> Option<(u64, usize)>
    requires { T (short numbers) × (at ≤ length b.now) }
    ensures { Reads (get_number numbers) b.now at result }
{
    match numbers {
        grammar::Numbers::Digits { width, .. } => octets::le_at(b, at, width as usize),
        grammar::Numbers::MethodFlags | grammar::Numbers::FieldFlags => octets::le_at(b, at, 1),
        grammar::Numbers::LevelOrder => octets::le_at(b, at, 3),
        grammar::Numbers::IntegerX => number::int_at(b, at),
        grammar::Numbers::LengthX => number::pkg_length_at(b, at, false),
    }
}

// a and x, where each is up to its limit.
fn limited(a: u64, x: u64, alimit: u64, xlimit: u64) -> Option<(u64, u64)>
    ensures { result ≡ up_to alimit xlimit a x }
{
    if a <= alimit && x <= xlimit {
        Some((a, x))
    } else {
        None
    }
}

// The a and x that one number holds, if it is one of the row's at all.
fn parts_of(numbers: grammar::Numbers, alimit: u64, xlimit: u64, w: u64) -> Option<(u64, u64)>
    ensures { result ≡ parts_of numbers alimit xlimit w }
{
    match numbers {
        grammar::Numbers::Digits { base, .. } => limited(w.checked_sub(base)?, 0, alimit, xlimit),
        grammar::Numbers::MethodFlags => limited(w % 8, w / 8, alimit, xlimit),
        grammar::Numbers::LevelOrder => limited(w / 256, w % 256, alimit, xlimit),
        grammar::Numbers::FieldFlags => {
            if fields::flags_fit(w) {
                limited(w, 0, alimit, xlimit)
            } else {
                None
            }
        }
        grammar::Numbers::IntegerX | grammar::Numbers::LengthX => limited(0, w, alimit, xlimit),
    }
}

// ── Both

// Text and numbers of the row's kind: the text, which stands at the position itself, then the numbers.
pub fn fields_at(row: grammar::Row, b: &[u8], at: usize) -> Option<Fields>
    requires { T (short row.numbers) × (at ≤ length b.now) }
    ensures { Takes row b.now at result }
{
    let (len, from) = text_at(row.text, b, at)?;
    let (w, next) = number_at(row.numbers, b, from)?;
    let (a, x) = parts_of(row.numbers, row.alimit, row.xlimit, w)?;
    Some(Fields { len, a, x, next })
}
