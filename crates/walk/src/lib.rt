// Reads the terms of a table: walks over their bytes, and leaves their records where there is room for them.
#![tactic(auto)]

ghost use Rattle.std.specs.Prelude.{◌≡◌, true, false, cond, ◌+◌, ◌*◌, ◌≤◌, length, drop, IfSome};
ghost use Rattle.octets.specs.Reading.{Reads, Got};
ghost use Rattle.path.specs.Get.{get_path_length, path_text};
ghost use Rattle.grammar.specs.Kinds.{child_place, counts, args_at};
ghost use Rattle.grammar.specs.declared.Place.TheVariants.{InList};
ghost use Rattle.tree.specs.Read.{list, get_kids, get_body, read};
ghost use Rattle.walk.specs.Walk.{args_by, tree, body_of, forest, Walks, Spans, Walkable, Normal, indexed, several, is_listed, is_call, get_number};
ghost use Rattle.walk.specs.Spots.{Spliced};
ghost use Rattle.walk.specs.Loop.{goes_on};
ghost use Rattle.walk.specs.Steps.{above};

use arity::Arities;
use taken::Fields;

// What was walked over: how many records and bytes of text it has, how many terms at its top, and where it ends.
#[derive(Clone, Copy)]
pub struct Walk {
    pub records: usize,
    pub texts: usize,
    pub kids: u64,
    pub next: usize,
}

// ── Children

// How many children are to be read, and where they start. Those of a list take a byte each, so their bytes are enough.
fn number_at(
    rest: grammar::Rest,
    operands: u64,
    args: u64,
    b: &[u8],
    at: usize,
) -> Option<(u64, usize)>
    requires { at ≤ length b.now }
    ensures { Reads (get_number rest operands args) b.now at result }
{
    match rest {
        grammar::Rest::Nothing => Some((operands, at)),
        grammar::Rest::Arity => Some((args, at)),
        grammar::Rest::Listed => Some(((b.len() - at) as u64, at)),
        grammar::Rest::Counted => octets::le_at(b, at, 1),
        grammar::Rest::Measured => None,
    }
}

#[tactic(auto, unfolding(grammar::specs::Kinds::counts))]
fn is_counted(rest: grammar::Rest, operands: u64, args: u64, n: u64) -> bool
    ensures { result ≡ counts rest operands args n }
{
    match rest {
        grammar::Rest::Nothing => n == operands,
        grammar::Rest::Arity => n == args,
        grammar::Rest::Listed => operands <= n,
        grammar::Rest::Counted => n <= 255,
        grammar::Rest::Measured => true,
    }
}

// Whether another child is read.
#[tactic(auto, unfolding(crate::specs::Loop::goes_on))]
fn is_more(listed: bool, left: u64, next: usize, end: usize) -> bool
    ensures { result ≡ goes_on «listed» left next end }
{
    0 < left && !(listed && next == end)
}

// How many arguments a call takes whose path stands at `at`; as an element none.
fn args_for(
    rest: grammar::Rest,
    place: grammar::Place,
    arities: &Arities<'_>,
    b: &[u8],
    at: usize,
    len: u64,
    next: usize,
) -> u64
    requires { is_call rest ≡ true → Got get_path_length b.now at len next }
    ensures { result ≡ cond (is_call rest) (args_at place (args_by arities.now (path_text (drop at b.now)))) 0 }
{
    match rest {
        grammar::Rest::Arity => match place {
            grammar::Place::Element => 0,
            _ => arities.args_at(b, at, len, next),
        },
        _ => 0,
    }
}

// ── Records

// Puts record i where there is room for it.
fn place_record(r: term::Record, i: usize, out: &mut [u8])
    ensures { Spliced r i out.old out.new }
{
    if i < out.len() / 24 {
        let at = 24 * i;
        repack::put_record(r, &mut out[at..]);
    }
}

// The record of a term with so many children and these fields, whose text starts here.
fn record_of(kind: u64, kids: u64, f: Fields, start: usize) -> term::Record
    ensures { result ≡ record { kind = kind; a = f.a; kids = kids; x = f.x; start = start; len = f.len } }
{
    term::Record {
        kind,
        a: f.a,
        kids,
        x: f.x,
        start: start as u64,
        len: f.len,
    }
}

// Puts record i, of a term whose children were walked over, and which ends at `next`; and the walk over the term.
#[tactic(auto, unfolding(crate::specs::Steps::above))]
fn put_term(r: term::Record, w: Walk, next: usize, i: usize, out: &mut [u8]) -> Walk
    requires { (w.records ≤ 268435455) × (w.texts ≤ 536870910) × (r.len ≤ 536870910) }
    ensures { (result ≡ above w r.len next) × Spliced r i out.old out.new }
{
    place_record(r, i, out);
    Walk {
        records: w.records + 1,
        texts: w.texts + r.len as usize,
        kids: 1,
        next,
    }
}

// ── Terms

// A term in a place, with so many levels left: its record has index i.
#[cycle(body_at_kids_at_term_at_terms_at)]
fn term_at(
    b: &[u8],
    arities: &Arities<'_>,
    at: usize,
    place: grammar::Place,
    levels: usize,
    i: usize,
    out: &mut [u8],
) -> Option<Walk>
    requires { Walkable b.now at × indexed i levels }
    ensures { Walks tree (read (args_by arities.now) levels place (drop at b.now)) b.now at i out.old out.new result × IfSome result (Spans at) }
{
    if levels == 0 {
        return None;
    }
    let j = start::start_at(b, at, place)?;
    let row = grammar::row_at(j);
    let boxed = row.boxed;
    let (end, next) = start::box_at(b, at + row.ops as usize, boxed)?;
    let e = end as usize;
    let w = body_at(&b[..e], arities, next, place, row, levels - 1, i, out)?;
    if !boxed || w.next == e { Some(w) } else { None }
}

// A body: its fields, and its children behind or before them.
#[cycle(body_at_kids_at_term_at_terms_at)]
fn body_at(
    b: &[u8],
    arities: &Arities<'_>,
    at: usize,
    place: grammar::Place,
    row: grammar::Row,
    levels: usize,
    i: usize,
    out: &mut [u8],
) -> Option<Walk>
    requires { Walkable b.now at × Normal row × indexed i (levels + 1) }
    ensures { Walks (body_of row) (get_body (args_by arities.now) (read (args_by arities.now) levels) place row row.last (drop at b.now)) b.now at i out.old out.new result }
{
    let kind = row.kind;
    if row.last {
        let w = kids_at(b, arities, at, row, 0, levels, i + 1, out)?;
        let f = taken::fields_at(row, b, w.next)?;
        let r = record_of(kind, w.kids, f, w.next);
        return Some(put_term(r, w, f.next, i, out));
    }
    let f = taken::fields_at(row, b, at)?;
    let args = args_for(row.rest, place, arities, b, at, f.len, f.next);
    let w = kids_at(b, arities, f.next, row, args, levels, i + 1, out)?;
    let r = record_of(kind, w.kids, f, at);
    Some(put_term(r, w, w.next, i, out))
}

// The children of a kind, of which a call has `args`; the first one's record has index i.
#[cycle(body_at_kids_at_term_at_terms_at)]
fn kids_at(
    b: &[u8],
    arities: &Arities<'_>,
    at: usize,
    row: grammar::Row,
    args: u64,
    levels: usize,
    i: usize,
    out: &mut [u8],
) -> Option<Walk>
    requires { Walkable b.now at × indexed (i + 268435455) levels }
    ensures { Walks forest (get_kids (read (args_by arities.now) levels) row args (drop at b.now)) b.now at i out.old out.new result × IfSome result (Spans at) }
{
    let rest = row.rest;
    let (n, next) = number_at(rest, row.operands, args, b, at)?;
    let listed = matches!(rest, grammar::Rest::Listed);
    let w = terms_at(b, arities, next, row, listed, n, levels, i, out)?;
    if is_counted(rest, row.operands, args, w.kids) {
        Some(w)
    } else {
        None
    }
}

// Terms one after the other: to the end, if they are a list, so that where one ends tells whether another is read; else n of them.
#[cycle(body_at_kids_at_term_at_terms_at)]
fn terms_at(
    b: &[u8],
    arities: &Arities<'_>,
    at: usize,
    row: grammar::Row,
    listed: bool,
    n: u64,
    levels: usize,
    i: usize,
    out: &mut [u8],
) -> Option<Walk>
    requires { Walkable b.now at × indexed (i + 268435455) levels }
    ensures { Walks forest (several «listed» (read (args_by arities.now) levels) (child_place row) n 0 (drop at b.now)) b.now at i out.old out.new result × IfSome result (Spans at) }
{
    let mut w = Walk {
        records: 0,
        texts: 0,
        kids: 0,
        next: at,
    };
    while is_more(listed, n - w.kids, w.next, b.len()) {
        let place = grammar::child_place(row, w.kids);
        let t = term_at(b, arities, w.next, place, levels, i + w.records, out)?;
        w = Walk {
            records: w.records + t.records,
            texts: w.texts + t.texts,
            kids: w.kids + 1,
            next: t.next,
        };
    }
    if !listed || w.next == b.len() {
        Some(w)
    } else {
        None
    }
}

// The terms of a table, behind its header. They are a list of terms, as the children of an Else are.
pub fn walk_terms(table: &[u8], arities: &Arities<'_>, out: &mut [u8]) -> Option<Walk>
    requires { Walkable table.now 36 }
    ensures { Walks forest (list (read (args_by arities.now) 64) (λ _. InList) (length (drop 36 table.now)) 0 (drop 36 table.now)) table.now 36 0 out.old out.new result × IfSome result (Spans 36) }
{
    let row = grammar::row_at(15);
    let n = (table.len() - 36) as u64;
    terms_at(table, arities, 36, row, true, n, 64, 0, out)
}
