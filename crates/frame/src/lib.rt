// What stands around a term's children, of the kind at j in the table: its frame, and in its body what is before them and what is behind.
#![tactic(auto)]

ghost use Rattle.std.specs.Prelude.{◌≡◌, ◌+◌, ◌≤◌, length};
ghost use Rattle.octets.specs.Filling.{Wrote};
ghost use Rattle.grammar.specs.Packed.{row_at};
ghost use Rattle.written.specs.Fine.{Fine, fields_of};
ghost use Rattle.tree.specs.Bytes.{back, behind};
ghost use Rattle.frame.specs.Frame.{length_of, frame_of, front_of, before_of, beside_of};

use grammar::Rest;

// ── The frame: opcode, and the PkgLength of the body

#[tactic(auto, unfolding(crate::specs::Frame::length_of))]
fn length_len(boxed: bool, body: u64) -> usize
    ensures { result ≡ length (length_of boxed body) }
{
    if boxed {
        number::pkg_length_len(body)
    } else {
        0
    }
}

#[tactic(auto, using(crate::specs::FrameLaws::wrote_none), unfolding(crate::specs::Frame::length_of))]
fn put_length(boxed: bool, body: u64, out: &mut [u8]) -> usize
    requires { (length (length_of boxed body) ≤ length out.old) × (body ≤ 268435455) }
    ensures { Wrote (length_of boxed body) out.old out.new result }
{
    if boxed {
        number::create_pkg_length(body, true, out)
    } else {
        0
    }
}

// The bytes before a body of so many bytes.
pub fn frame_len(j: usize, body: u64) -> usize
    requires { (row_at j).ops ≤ 2 }
    ensures { result ≡ length (frame_of (row_at j) body) }
{
    grammar::ops_at(j) as usize + length_len(grammar::boxed_at(j), body)
}

pub fn put_frame(j: usize, body: u64, out: &mut [u8]) -> usize
    requires { ((row_at j).ops ≤ 2) × (length (frame_of (row_at j) body) ≤ length out.old) × (body ≤ 268435455) }
    ensures { Wrote (frame_of (row_at j) body) out.old out.new result }
{
    let ops = grammar::ops_at(j) as usize;
    let op = grammar::op_at(j);
    let boxed = grammar::boxed_at(j);
    let at = octets::put_le(ops, op, out);
    at + put_length(boxed, body, &mut out[at..])
}

// ── What the children have around them where the fields stand behind: their number, or a template's size and its end tag. A size
// is asked for where nothing is written yet, so it is a function beside the writer.

#[tactic(auto, unfolding(crate::specs::Frame::front_of, octets::specs::Bytes::le))]
fn front_len(rest: Rest, n: u64, size: u64) -> usize
    requires { size ≤ 1152921504606846976 }
    ensures { result ≡ length (front_of rest n size) }
{
    match rest {
        Rest::Nothing | Rest::Arity | Rest::Listed => 0,
        Rest::Counted => 1,
        Rest::Measured => number::int_len(size + 2),
    }
}

#[tactic(auto, using(crate::specs::FrameLaws::wrote_none), unfolding(crate::specs::Frame::front_of))]
fn put_front(rest: Rest, n: u64, size: u64, out: &mut [u8]) -> usize
    requires { (length (front_of rest n size) ≤ length out.old) × (size ≤ 1152921504606846976) }
    ensures { Wrote (front_of rest n size) out.old out.new result }
{
    match rest {
        Rest::Nothing | Rest::Arity | Rest::Listed => 0,
        Rest::Counted => octets::put_le(1, n, out),
        Rest::Measured => number::put_int(size + 2, out),
    }
}

#[tactic(auto, unfolding(tree::specs::Bytes::back))]
fn back_len(rest: Rest) -> usize
    ensures { result ≡ length (back rest) }
{
    match rest {
        Rest::Measured => 2,
        Rest::Nothing | Rest::Arity | Rest::Listed | Rest::Counted => 0,
    }
}

#[tactic(auto, using(crate::specs::FrameLaws::wrote_none), unfolding(tree::specs::Bytes::back))]
fn put_back(rest: Rest, out: &mut [u8]) -> usize
    requires { length (back rest) ≤ length out.old }
    ensures { Wrote (back rest) out.old out.new result }
{
    match rest {
        Rest::Measured => descriptor::put_end_tag(out),
        Rest::Nothing | Rest::Arity | Rest::Listed | Rest::Counted => 0,
    }
}

// ── What stands before n children of so many bytes, and what stands behind them: the fields are on one side of them

// The bytes of both, beside the fields.
#[tactic(auto, unfolding(crate::specs::Frame::beside_of))]
fn beside_len(last: bool, rest: Rest, n: u64, size: u64) -> usize
    requires { size ≤ 1152921504606846976 }
    ensures { result ≡ beside_of «last» rest n size }
{
    if last {
        front_len(rest, n, size) + back_len(rest)
    } else {
        0
    }
}

// The bytes of both.
pub fn around_len(j: usize, t: &[u8], a: u64, x: u64, n: u64, size: u64) -> usize
    requires { Fine (row_at j) (fields_of t.now a x) × (size ≤ 1152921504606846976) }
    ensures { result ≡ length (before_of (row_at j) (fields_of t.now a x) n size) + length (behind (row_at j) (fields_of t.now a x)) }
{
    written::field_len(j, t, a, x) + beside_len(grammar::last_at(j), grammar::rest_at(j), n, size)
}

pub fn put_before(j: usize, t: &[u8], a: u64, x: u64, n: u64, size: u64, out: &mut [u8]) -> usize
    requires { Fine (row_at j) (fields_of t.now a x) × (size ≤ 1152921504606846976) × (length (before_of (row_at j) (fields_of t.now a x) n size) ≤ length out.old) }
    ensures { Wrote (before_of (row_at j) (fields_of t.now a x) n size) out.old out.new result }
{
    if grammar::last_at(j) {
        put_front(grammar::rest_at(j), n, size, out)
    } else {
        written::put_fields(j, t, a, x, out)
    }
}

pub fn put_behind(j: usize, t: &[u8], a: u64, x: u64, out: &mut [u8]) -> usize
    requires { Fine (row_at j) (fields_of t.now a x) × (length (behind (row_at j) (fields_of t.now a x)) ≤ length out.old) }
    ensures { Wrote (behind (row_at j) (fields_of t.now a x)) out.old out.new result }
{
    if !grammar::last_at(j) {
        return 0;
    }
    let at = written::put_fields(j, t, a, x, out);
    at + put_back(grammar::rest_at(j), &mut out[at..])
}
