// What a term's fields may be, by the columns of its kind: refusals 5 and 6.
#![tactic(auto)]

ghost use Rattle.std.specs.Prelude.{◌≡◌};
ghost use Rattle.octets.specs.Bytes.{every};
ghost use Rattle.fields.specs.Fields.{flags_fit, form_fits, numbers_fit, text_fits, in_range, ascii, text_spelled, spelled};

// ── 5: out of range

// A field's flags: access 0-5, plus 16 for lock, plus 32 times an update rule 0-2.
pub fn flags_fit(a: u64) -> bool
    ensures { result ≡ flags_fit a }
{
    a % 16 <= 5 && a / 32 <= 2
}

fn form_fits(numbers: grammar::Numbers, a: u64) -> bool
    ensures { result ≡ form_fits numbers a }
{
    match numbers {
        grammar::Numbers::FieldFlags => flags_fit(a),
        _ => true,
    }
}

fn numbers_fit(row: grammar::Row, a: u64, x: u64) -> bool
    ensures { result ≡ numbers_fit row a x }
{
    let limited = a <= row.alimit && x <= row.xlimit;
    limited && form_fits(row.numbers, a)
}

fn text_fits(text: grammar::Text, kind: u64, t: &[u8], a: u64, x: u64) -> bool
    ensures { result ≡ text_fits text kind t.now a x }
{
    match text {
        grammar::Text::Unused => t.is_empty(),
        grammar::Text::DescriptorText => descriptor::descriptor_in_range(kind, t, a, x),
        _ => true,
    }
}

// Whether a term's numbers and its text are in their ranges: else 5.
pub fn in_range(row: grammar::Row, t: &[u8], a: u64, x: u64) -> bool
    ensures { result ≡ in_range row t.now a x }
{
    numbers_fit(row, a, x) && text_fits(row.text, row.kind, t, a, x)
}

// ── 6: malformed

// Bytes 01-7F. Each is looked at, so that the loop has no way out and takes many at a time.
fn is_ascii(t: &[u8]) -> bool
    ensures { result ≡ every ascii t.now }
{
    let mut fine = true;
    for byte in t {
        fine &= (1 <= *byte) & (*byte <= 127);
    }
    fine
}

fn text_spelled(text: grammar::Text, kind: u64, t: &[u8]) -> bool
    ensures { result ≡ text_spelled text kind t.now }
{
    match text {
        grammar::Text::PathText => path::is_path(t),
        grammar::Text::SegmentText => t.len() == 4 && path::is_segment(t, 0),
        grammar::Text::Ascii => is_ascii(t),
        grammar::Text::EisaText => ident::is_eisa(t),
        grammar::Text::UuidText => ident::is_uuid(t),
        grammar::Text::DescriptorText => descriptor::descriptor_spelled(kind, t),
        grammar::Text::Unused => true,
        grammar::Text::AnyBytes => true,
    }
}

// Whether a term's text is spelled as its kind asks: else 6.
pub fn is_spelled(row: grammar::Row, t: &[u8]) -> bool
    ensures { result ≡ spelled row t.now }
{
    text_spelled(row.text, row.kind, t)
}
