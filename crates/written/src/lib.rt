// Writes a term's text and numbers by the columns of its kind, and says how many bytes they take.
#![tactic(auto)]

ghost use Rattle.std.specs.Prelude.{◌≡◌, ◌++◌, ◌∷◌, [], ◌+◌, ◌^◌, ◌≤◌, ◌<◌, T, length};
ghost use Rattle.octets.specs.Bytes.{le};
ghost use Rattle.octets.specs.Filling.{Wrote};
ghost use Rattle.grammar.specs.Packed.{row_at};
ghost use Rattle.ident.specs.Ident.{is_eisa, eisa_id, is_uuid, uuid};
ghost use Rattle.fields.specs.Fields.{text_fits, text_spelled};
ghost use Rattle.fields.specs.Written.{text_bytes, form_bytes, field_bytes};
ghost use Rattle.written.specs.Fine.{Fine, fields_of, narrow};
ghost use Rattle.written.specs.FineLaws.{TextTakes, FormTakes};

// ── Text

// The integer of a well-formed EISA id.
pub fn eisa_value(t: &[u8]) -> u64
    requires { T (is_eisa t.now) }
    ensures { result ≡ eisa_id t.now }
{
    ident::eisa_name(t).unwrap_or(0)
}

// The bytes of a text of this form, whatever the numbers beside it.
fn text_len(text: grammar::Text, kind: u64, t: &[u8]) -> usize
    requires { T (text_spelled text kind t.now) }
    ensures { TextTakes text kind t.now result }
{
    match text {
        grammar::Text::Unused => 0,
        grammar::Text::PathText => path::path_len(t),
        grammar::Text::SegmentText => t.len(),
        grammar::Text::Ascii => t.len() + 1,
        grammar::Text::AnyBytes => t.len(),
        grammar::Text::EisaText => number::int_len(eisa_value(t)),
        grammar::Text::UuidText => 20,
        grammar::Text::DescriptorText => descriptor::descriptor_len(kind),
    }
}

// A string, and the 00 that ends it.
fn put_string(t: &[u8], out: &mut [u8]) -> usize
    requires { length (t.now ++ (0 ∷ [])) ≤ length out.old }
    ensures { Wrote (t.now ++ (0 ∷ [])) out.old out.new result }
{
    let mut at = 0;
    at += octets::put_slice(t, &mut out[at..]);
    at += octets::put_le(1, 0, &mut out[at..]);
    at
}

// A UUID, as a buffer of its 16 bytes.
fn put_uuid_buffer(t: &[u8], out: &mut [u8]) -> usize
    requires { T (is_uuid t.now) × (length (uuid t.now) ≤ length out.old) }
    ensures { Wrote (uuid t.now) out.old out.new result }
{
    let mut at = 0;
    at += number::put_buffer_front(16, &mut out[at..]);
    at += ident::put_uuid(t, &mut out[at..]);
    at
}

fn put_text(text: grammar::Text, kind: u64, t: &[u8], a: u64, x: u64, out: &mut [u8]) -> usize
    requires { (length (text_bytes text kind (fields_of t.now a x)) ≤ length out.old) × T (text_fits text kind t.now a x) × T (text_spelled text kind t.now) }
    ensures { Wrote (text_bytes text kind (fields_of t.now a x)) out.old out.new result }
{
    match text {
        grammar::Text::Unused => 0,
        grammar::Text::PathText => path::put_path(t, out),
        grammar::Text::SegmentText => octets::put_slice(t, out),
        grammar::Text::Ascii => put_string(t, out),
        grammar::Text::AnyBytes => octets::put_slice(t, out),
        grammar::Text::EisaText => number::put_int(eisa_value(t), out),
        grammar::Text::UuidText => put_uuid_buffer(t, out),
        grammar::Text::DescriptorText => descriptor::put_descriptor(kind, t, a, x, out),
    }
}

// ── Numbers

// The bytes of numbers of this form, whatever a is.
fn form_len(numbers: grammar::Numbers, x: u64) -> usize
    ensures { FormTakes numbers x result }
{
    match numbers {
        grammar::Numbers::Digits { width, .. } => width as usize,
        grammar::Numbers::MethodFlags => 1,
        grammar::Numbers::LevelOrder => 3,
        grammar::Numbers::FieldFlags => 1,
        grammar::Numbers::IntegerX => number::int_len(x),
        grammar::Numbers::LengthX => number::pkg_length_len(x),
    }
}

// base + a in so many bytes. Most kinds have none, and for them no writer is called.
fn put_digits(width: u64, base: u64, a: u64, out: &mut [u8]) -> usize
    requires { (base + a < 2 ^ 32) × (length (le width (base + a)) ≤ length out.old) }
    ensures { Wrote (le width (base + a)) out.old out.new result }
{
    if width == 0 {
        return 0;
    }
    octets::put_le(width as usize, base + a, out)
}

// A level and then an order of two bytes are one number of three.
fn put_form(numbers: grammar::Numbers, a: u64, x: u64, out: &mut [u8]) -> usize
    requires { (length (form_bytes numbers a x) ≤ length out.old) × T (narrow numbers a x) }
    ensures { Wrote (form_bytes numbers a x) out.old out.new result }
{
    match numbers {
        grammar::Numbers::Digits { width, base } => put_digits(width, base, a, out),
        grammar::Numbers::MethodFlags => octets::put_le(1, a + 8 * x, out),
        grammar::Numbers::LevelOrder => octets::put_le(3, x + 256 * a, out),
        grammar::Numbers::FieldFlags => octets::put_le(1, a, out),
        grammar::Numbers::IntegerX => number::put_int(x, out),
        grammar::Numbers::LengthX => number::create_pkg_length(x, false, out),
    }
}

// ── Both, of the kind at j in the table

// The bytes of a term's text and numbers.
pub fn field_len(j: usize, t: &[u8], a: u64, x: u64) -> usize
    requires { Fine (row_at j) (fields_of t.now a x) }
    ensures { result ≡ length (field_bytes (row_at j) (fields_of t.now a x)) }
{
    let text = grammar::text_at(j);
    let numbers = grammar::numbers_at(j);
    text_len(text, grammar::kind_at(j), t) + form_len(numbers, x)
}

// The text, then the numbers.
pub fn put_fields(j: usize, t: &[u8], a: u64, x: u64, out: &mut [u8]) -> usize
    requires { Fine (row_at j) (fields_of t.now a x) × (length (field_bytes (row_at j) (fields_of t.now a x)) ≤ length out.old) }
    ensures { Wrote (field_bytes (row_at j) (fields_of t.now a x)) out.old out.new result }
{
    let text = grammar::text_at(j);
    let kind = grammar::kind_at(j);
    let numbers = grammar::numbers_at(j);
    let mut at = 0;
    at += put_text(text, kind, t, a, x, &mut out[at..]);
    at += put_form(numbers, a, x, &mut out[at..]);
    at
}
