// Refusals 1 to 10 of a term file, with the record at which the fault was found.
#![tactic(auto)]

ghost use Rattle.std.specs.Prelude.{◌≡◌, [], ◌+◌, ◌≤◌, IfOk};
ghost use Rattle.term.specs.LaidOut.{Sections};
ghost use Rattle.term.specs.Record.{records_from};
ghost use Rattle.arity.specs.Arity.{args_of};
ghost use Rattle.grammar.specs.Kinds.{counts, args_at};
ghost use Rattle.checker.specs.Refusal.{text_of, in_pool, place_fault, fault, scan, refusal_of};
ghost use Rattle.refusal.specs.Number.{number_said};
ghost use Rattle.checker.specs.Said.{verdict_said};
ghost use Rattle.checker.specs.Walk.{kids, check};
ghost use Rattle.checker.specs.WalkLaws.{Told};

use arity::Arities;
use refusal::{Fault, Refusal};
use term::{File, Record};

// ── One record

// Whether its text lies in the pool, and starts at 0 if it is empty.
#[tactic(auto, unfolding(crate::specs::Refusal::in_pool))]
fn is_in_pool(pool: &[u8], r: Record) -> bool
    ensures { result ≡ in_pool pool.now r }
{
    let n = pool.len() as u64;
    r.len <= n && r.start <= n - r.len && (1 <= r.len || r.start == 0)
}

// How many children a name has: as an element none, whatever its arity.
#[tactic(auto, unfolding(grammar::specs::Kinds::args_at, grammar::specs::Kinds::is, grammar::specs::Kinds::rank))]
fn args_at(arities: &Arities<'_>, place: grammar::Place, text: &[u8]) -> u64
    ensures { result ≡ args_at place (args_of arities.now.entries.now arities.now.pool.now text.now) }
{
    match place {
        grammar::Place::Element => 0,
        _ => arities.args_of(text),
    }
}

// Whether a kind has n children in a place.
#[tactic(auto, unfolding(grammar::specs::Kinds::counts))]
fn is_counted(
    arities: &Arities<'_>,
    row: grammar::Row,
    place: grammar::Place,
    text: &[u8],
    n: u64,
) -> bool
    ensures { result ≡ counts row.rest row.operands (args_at place (args_of arities.now.entries.now arities.now.pool.now text.now)) n }
{
    match row.rest {
        grammar::Rest::Nothing => n == row.operands,
        grammar::Rest::Arity => n == args_at(arities, place, text),
        grammar::Rest::Listed => row.operands <= n,
        grammar::Rest::Counted => n <= 255,
        grammar::Rest::Measured => true,
    }
}

#[tactic(auto, unfolding(crate::specs::Refusal::place_fault))]
fn place_fault(places: grammar::Places, place: grammar::Place, levels: usize) -> Result<(), Refusal>
    ensures { number_said result ≡ place_fault places place levels }
{
    if !grammar::may_stand(places, place) {
        return Err(Refusal::Place);
    }
    if levels == 0 {
        return Err(Refusal::Depth);
    }
    Ok(())
}

// The lowest number with which a record of a known kind is refused.
#[tactic(auto, unfolding(crate::specs::Refusal::fault, crate::specs::Refusal::text_of))]
fn fault_of(
    arities: &Arities<'_>,
    row: grammar::Row,
    place: grammar::Place,
    levels: usize,
    r: Record,
) -> Result<(), Refusal>
    ensures { number_said result ≡ fault row arities.now.pool.now (args_of arities.now.entries.now arities.now.pool.now (text_of arities.now.pool.now r)) place levels r }
{
    let text = term::text_at(arities.pool, r.start, r.len);
    if !(is_in_pool(arities.pool, r) && fields::in_range(row, text, r.a, r.x)) {
        return Err(Refusal::Range);
    }
    if !fields::is_spelled(row, text) {
        return Err(Refusal::Spelling);
    }
    if !is_counted(arities, row, place, text, r.kids) {
        return Err(Refusal::ChildCount);
    }
    place_fault(row.places, place, levels)
}

// ── The records: a term, and its children one level down

#[cycle(check_kids_check_term)]
fn check_term(
    records: &[u8],
    arities: &Arities<'_>,
    place: grammar::Place,
    i: usize,
    levels: usize,
) -> Result<usize, Fault>
    requires { levels ≤ 64 }
    ensures { Told (check arities.now.entries.now arities.now.pool.now levels place (records_from records.now i) i) records.now (i + 1) result }
{
    let index = i as u64;
    if records.len() / term::RECORD <= i {
        return Err(Fault {
            refusal: Refusal::RecordsEnd,
            index,
        });
    }
    let r = term::record_at(records, i);
    let j = grammar::position_of(r.kind);
    if 67 <= j {
        return Err(Fault {
            refusal: Refusal::Kind,
            index,
        });
    }
    let row = grammar::row_at(j);
    match fault_of(arities, row, place, levels, r) {
        Ok(()) => check_kids(records, arities, row, r.kids, i + 1, levels - 1),
        Err(refusal) => Err(Fault { refusal, index }),
    }
}

#[cycle(check_kids_check_term)]
fn check_kids(
    records: &[u8],
    arities: &Arities<'_>,
    row: grammar::Row,
    n: u64,
    i: usize,
    levels: usize,
) -> Result<usize, Fault>
    requires { levels ≤ 64 }
    ensures { Told (kids (check arities.now.entries.now arities.now.pool.now levels) row n 0 (records_from records.now i) i) records.now i result }
{
    let mut next = i;
    for j in 0..n {
        let place = grammar::child_place(row, j);
        next = check_term(records, arities, place, next, levels)?;
    }
    Ok(next)
}

// The terms of the top level, to the last record: each says where the next begins.
fn check_records(records: &[u8], arities: &Arities<'_>) -> Result<(), Fault>
    ensures { verdict_said result ≡ scan arities.now.entries.now arities.now.pool.now (records_from records.now 0) 0 [] }
{
    let n = records.len() / term::RECORD;
    let mut next = 0;
    while next < n {
        next = check_term(records, arities, grammar::Place::InList, next, 64)?;
    }
    Ok(())
}

// ── The file

// The file's sections, where none of 1 to 10 holds: else the refusal, and the record.
#[tactic(auto, unfolding(crate::specs::Refusal::refusal_of))]
pub fn accept(file: &[u8]) -> Result<File<'_>, Fault>
    ensures verdict { verdict_said result ≡ refusal_of file.now }
    ensures sections { IfOk result (Sections file.now) }
{
    let sections = term::lay_out(file)?;
    let arities = Arities::new(sections.arities, sections.pool).ok_or(Refusal::Arities)?;
    check_records(sections.records, &arities)?;
    Ok(sections)
}

// Refusals 1 to 10.
pub fn check(file: &[u8]) -> Result<(), Fault>
    ensures { verdict_said result ≡ refusal_of file.now }
{
    accept(file)?;
    Ok(())
}
