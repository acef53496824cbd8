// Term files from lines of text, for programs that run cases: a line describes a file.
// A line is its name, = and six parts with ; between them: records, arity entries, the pool as text, as bytes, the header's
// numbers where they are not those that the sections give, and how many bytes the file is cut by. Numbers are hexadecimal.
// A record is its kind, then fields by letter: a, n the child count, x, s and l the text; * says how often it stands.
#![tactic(auto)]

ghost use Rattle.std.specs.Prelude.{◌≡◌, MatchOption, None, nat_eq, length, position};
ghost use Rattle.described.specs.Split.{Split};

// Room for 65,537 records.
pub fn huge_buffer() -> [u8; 1600000]
    ensures { 1600000 ≡ length result }
{
    [0; 1600000]
}

// ── Bytes
// Each writer tests its own room, and sums of positions wrap: nothing has to be shown of them, and none comes near the limit.

// The low n bytes of x, where there is room for eight.
pub fn put(n: usize, x: u64, at: usize, out: &mut [u8]) {
    if let Some(room) = out.get_mut(at..)
        && 8 <= room.len()
        && n <= 8
    {
        octets::put_le(n, x, room);
    }
}

// What stands in the first `stride` bytes, again and again to the end.
fn repeat(stride: usize, room: &mut [u8]) {
    for i in stride..room.len() {
        room[i] = room[i - stride];
    }
}

// ── The parts of a line, in their order

#[derive(Clone, Copy)]
enum Part {
    Records,
    Entries,
    Text,
    Bytes,
    Header,
    Cut,
    Done,
}

impl Part {
    fn next(self) -> Part {
        match self {
            Part::Records => Part::Entries,
            Part::Entries => Part::Text,
            Part::Text => Part::Bytes,
            Part::Bytes => Part::Header,
            Part::Header => Part::Cut,
            Part::Cut | Part::Done => Part::Done,
        }
    }

    // The bytes of a record.
    fn stride(self) -> usize {
        match self {
            Part::Records => 24,
            Part::Entries => 8,
            Part::Text | Part::Bytes | Part::Done => 1,
            Part::Header => 4,
            Part::Cut => 0,
        }
    }

    // What a number is before any letter.
    fn field(self) -> Option<Field> {
        match self {
            Part::Records => Some(Field::new(0, 2)),
            Part::Header => Some(Field::new(0, 4)),
            Part::Cut => None,
            Part::Entries | Part::Text | Part::Bytes | Part::Done => Some(Field::new(0, 1)),
        }
    }

    // What a number is behind a letter.
    fn lettered(self, letter: u8) -> Option<Field> {
        match (self, letter) {
            (Part::Entries, b's') => Some(Field::new(0, 4)),
            (Part::Entries, b'l') => Some(Field::new(4, 2)),
            (Part::Entries, b'n') => Some(Field::new(6, 2)),
            (Part::Entries, _) => None,
            (_, b'a') => Some(Field::new(2, 2)),
            (_, b'n') => Some(Field::new(4, 4)),
            (_, b'x') => Some(Field::new(8, 8)),
            (_, b's') => Some(Field::new(16, 4)),
            (_, b'l') => Some(Field::new(20, 4)),
            (_, _) => None,
        }
    }
}

// A field of a record: where it stands in it, and how many bytes it has.
#[derive(Clone, Copy)]
struct Field {
    at: usize,
    width: usize,
}

impl Field {
    fn new(at: usize, width: usize) -> Field {
        Field { at, width }
    }
}

// ── Describing a file

// Where a description is being written: its part, the record, and the field in it; with no field, the number says how often the
// record stands. No number is before the record. `count` is how many stand already, `end` the file's end.
#[derive(Clone, Copy)]
struct Pen {
    part: Part,
    at: usize,
    field: Option<Field>,
    number: Option<u64>,
    count: u64,
    end: usize,
}

// The value of a hexadecimal digit.
fn digit(b: u8) -> Option<u64> {
    match b {
        b'0'..=b'9' => Some(u64::from(b - b'0')),
        b'A'..=b'F' => Some(u64::from(b - b'A') + 10),
        _ => None,
    }
}

// The bytes of n records; none beyond what is ever asked.
fn span(n: u64, stride: usize) -> usize {
    if 0x20000 < n {
        return 0;
    }
    (n as usize).wrapping_mul(stride)
}

impl Pen {
    fn new() -> Pen {
        Pen {
            part: Part::Records,
            at: 60,
            field: Part::Records.field(),
            number: None,
            count: 0,
            end: 0,
        }
    }

    // Before the record at `at`, with `count` behind it.
    fn before(self, at: usize, count: u64) -> Pen {
        Pen {
            at,
            field: self.part.field(),
            number: None,
            count,
            ..self
        }
    }

    fn put_digit(self, d: u64, out: &mut [u8]) -> Pen {
        let number = self.number.unwrap_or(0) % 0x1000000000000000 * 16 + d % 16;
        if let Some(f) = self.field {
            put(f.width, number, self.at.wrapping_add(f.at), out);
        }
        Pen {
            number: Some(number),
            ..self
        }
    }

    fn put_letter(self, letter: u8) -> Pen {
        Pen {
            field: self.part.lettered(letter),
            number: Some(0),
            ..self
        }
    }

    fn times(self) -> u64 {
        match self.field {
            None => self.number.unwrap_or(0),
            Some(_) => 1,
        }
    }

    // The record is complete.
    fn put_record(self, out: &mut [u8]) -> Pen {
        let n = self.times();
        let stride = self.part.stride();
        let end = self.at.wrapping_add(span(n, stride));
        let last = end.min(out.len());
        if let Some(room) = out.get_mut(self.at..last) {
            repeat(stride, room);
        }
        self.before(end, self.count.wrapping_add(n))
    }

    fn put_text(self, b: u8, out: &mut [u8]) -> Pen {
        put(1, u64::from(b), self.at, out);
        self.before(self.at.wrapping_add(1), self.count.wrapping_add(1))
    }

    // The part is complete: its count, and where the next one stands, go into the header.
    fn put_part(self, out: &mut [u8]) {
        match self.part {
            Part::Records => {
                put(4, 0x4D524554, 0, out);
                put(4, self.count, 4, out);
                put(4, 60, 8, out);
                put(4, self.at as u64, 16, out);
            }
            Part::Entries => {
                put(4, self.count, 12, out);
                put(4, self.at as u64, 24, out);
            }
            Part::Bytes => put(4, self.count, 20, out),
            Part::Text | Part::Header | Part::Cut | Part::Done => {}
        }
    }

    // At the start of the next part. The pool is counted over text and bytes.
    fn turned(self) -> Pen {
        let next = Pen {
            part: self.part.next(),
            ..self
        };
        match self.part {
            Part::Records | Part::Entries => next.before(self.at, 0),
            Part::Text => next.before(self.at, self.count),
            Part::Bytes => Pen {
                end: self.at,
                ..next
            }
            .before(0, 0),
            Part::Header => next.before(0, 0),
            Part::Done => self,
            Part::Cut => Pen {
                end: self.end.wrapping_sub(self.count as usize),
                ..next
            }
            .before(0, 0),
        }
    }

    fn end_part(self, out: &mut [u8]) -> Pen {
        let pen = match self.number {
            None => self,
            Some(_) => self.put_record(out),
        };
        pen.put_part(out);
        pen.turned()
    }

    fn put_glyph(self, b: u8, out: &mut [u8]) -> Pen {
        match (self.part, b) {
            (_, b' ') => self,
            (_, b';') => self.end_part(out),
            (Part::Text, _) => self.put_text(b, out),
            (_, b',') => self.put_record(out),
            (_, _) => match digit(b) {
                Some(d) => self.put_digit(d, out),
                None => self.put_letter(b),
            },
        }
    }
}

// The file that `line` describes, and its length. Behind the line every part that it leaves out ends too.
pub fn put_file(line: &[u8], out: &mut [u8]) -> usize {
    let mut pen = Pen::new();
    for b in line {
        pen = pen.put_glyph(*b, out);
    }
    for _ in 0..6 {
        pen = pen.end_part(out);
    }
    pen.end
}

// Where the first `mark` stands.
fn mark_at(line: &[u8], mark: u8) -> Option<usize>
    ensures { result ≡ position (λ b. nat_eq b mark) line.now }
{
    line.iter().position(|b| *b == mark)
}

// What stands before the first `mark` and what behind it, where there is one.
pub fn split_once(line: &[u8], mark: u8) -> Option<(&[u8], &[u8])>
    ensures { MatchOption result (position (λ b. nat_eq b mark) line.now ≡ None) (λ p. Split line.now mark p.0.now p.1.now) }
{
    let at = mark_at(line, mark)?;
    Some((&line[..at], &line[at + 1..]))
}
