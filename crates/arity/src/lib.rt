// The arity list: refusal 3, and how many arguments a path takes.
#![tactic(auto)]

ghost use Rattle.std.specs.Prelude.{◌≡◌, true, false, MatchOption, ◌/◌, ◌<◌, ◌≤◌, length, take, drop};
ghost use Rattle.std.specs.Cmp.Lexicographic.{slice_cmp};
ghost use Rattle.std.specs.Ordering.{nat_cmp};
ghost use Rattle.octets.specs.Reading.{Got};
ghost use Rattle.path.specs.Get.{get_path_length, path_text};
ghost use Rattle.path.specs.PathSpelled.{spelled};
ghost use Rattle.arity.specs.Arity.{entry_at, entry_fits, arities_fit, args_of};
ghost use Rattle.arity.specs.ArityLaws.{fits_behind};

use std::cmp::Ordering;

// An entry of the list: where its text lies in the pool, and how many arguments it takes.
#[derive(Clone, Copy)]
pub struct Entry {
    pub start: u64,
    pub len: u64,
    pub args: u64,
}

// An arity list of which no entry is wrong, and the pool in which its texts lie.
#[derive(Clone, Copy)]
pub struct Arities<'a> {
    pub entries: &'a [u8],
    pub pool: &'a [u8],
    ghost fit: { arities_fit entries.now pool.now ≡ true },
}

// Entry j of the section b.
pub fn entry_at(b: &[u8], j: usize) -> Entry
    requires { j < length b.now / 8 }
    ensures { result ≡ entry_at b.now j }
{
    let at = 8 * j;
    let start = octets::get_le(b, at, 4);
    let len = octets::get_le(b, at + 4, 2);
    let args = octets::get_le(b, at + 6, 2);
    Entry { start, len, args }
}

// Whether the text is a path in the pool, and the count 1 to 7.
#[tactic(auto, unfolding(crate::specs::Arity::entry_fits))]
fn entry_fits(pool: &[u8], e: Entry) -> bool
    ensures { result ≡ entry_fits pool.now e }
{
    let n = pool.len() as u64;
    if n < e.start || n - e.start < e.len {
        return false;
    }
    path::is_path(term::text_at(pool, e.start, e.len)) && matches!(e.args, 1..=7)
}

// How a stands to the first n bytes that `head` and the segments in `rest` spell, which lie nowhere as a slice: as slices compare, in one
// pass, up to the first byte that differs.
fn compare(a: &[u8], head: &[u8], rest: &[u8], n: usize) -> Ordering
    requires { n ≤ length (spelled head.now rest.now) }
    ensures { result ≡ slice_cmp nat_cmp a.now (take n (spelled head.now rest.now)) }
{
    for i in 0..a.len() {
        if n <= i {
            return Ordering::Greater;
        }
        let (x, y) = (a[i], path::spelled_at(head, rest, i));
        if x != y {
            return x.cmp(&y);
        }
    }
    if a.len() < n {
        Ordering::Less
    } else {
        Ordering::Equal
    }
}

// Whether e is right, and its text above the one before it.
#[tactic(auto, using(crate::specs::OrderLaws::order_below), unfolding(crate::specs::ArityLaws::fits_behind))]
fn follows(pool: &[u8], last: &[u8], e: Entry) -> bool
    ensures { result ≡ fits_behind pool.now last.now e }
{
    entry_fits(pool, e) && last.cmp(term::text_at(pool, e.start, e.len)).is_lt()
}

// Whether no entry of the list is wrong: else 3. An empty text, which is no path, stands before the first.
pub fn arities_fit(b: &[u8], pool: &[u8]) -> bool
    ensures { result ≡ arities_fit b.now pool.now }
{
    let mut last = &pool[0..0];
    for j in 0..b.len() / 8 {
        let e = entry_at(b, j);
        if !follows(pool, last, e) {
            return false;
        }
        last = term::text_at(pool, e.start, e.len);
    }
    true
}

impl<'a> Arities<'a> {
    // None where an entry is wrong: refusal 3.
    pub fn new(entries: &'a [u8], pool: &'a [u8]) -> Option<Arities<'a>>
        ensures { MatchOption result (arities_fit entries.now pool.now ≡ false) (λ a. (a.entries.now ≡ entries.now) × (a.pool.now ≡ pool.now) × (arities_fit entries.now pool.now ≡ true)) }
    {
        if arities_fit(entries, pool) {
            Some(Arities { entries, pool })
        } else {
            None
        }
    }

    // How many arguments the path takes that the first n bytes spell: a binary search among entries that ascend. They are read where they
    // stand, so there is no slice of them that the library could search.
    fn seek(&self, head: &[u8], rest: &[u8], n: usize) -> u64
        requires { n ≤ length (spelled head.now rest.now) }
        ensures { result ≡ args_of self.now.entries.now self.now.pool.now (take n (spelled head.now rest.now)) }
    {
        let mut low = 0;
        let mut high = self.entries.len() / 8;
        while low < high {
            let mid = low + (high - low) / 2;
            let e = entry_at(self.entries, mid);
            match compare(term::text_at(self.pool, e.start, e.len), head, rest, n) {
                Ordering::Less => low = mid + 1,
                Ordering::Equal => return e.args,
                Ordering::Greater => high = mid,
            }
        }
        0
    }

    // How many arguments the path takes whose text is `text`.
    pub fn args_of(&self, text: &[u8]) -> u64
        ensures { result ≡ args_of self.now.entries.now self.now.pool.now text.now }
    {
        self.seek(text, text, text.len())
    }

    // How many arguments the path takes whose bytes stand in b at `at`, where `path::path_at` answers `len` and `next`.
    // Without entries the path is not looked at.
    pub fn args_at(&self, b: &[u8], at: usize, len: u64, next: usize) -> u64
        requires { Got get_path_length b.now at len next }
        ensures { result ≡ args_of self.now.entries.now self.now.pool.now (path_text (drop at b.now)) }
    {
        if self.entries.len() < 8 {
            return 0;
        }
        let k = path::root_at(b, at);
        let n = (len as usize - k + 1) / 5;
        self.seek(&b[at..at + k], &b[next - 4 * n..], len as usize)
    }
}
