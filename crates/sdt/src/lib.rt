// The growing table of `sdt.rs`, in place: a record of its length and checksum beside a lent buffer.
#![tactic(auto)]

ghost use Rattle.std.specs.Prelude.{◌≡◌, true, ◌||◌, ◌+◌, ◌≤◌, ◌<◌, eqb, leb, length, MatchResult};
ghost use Rattle.octets.specs.Filling.{Wrote};
ghost use Rattle.refusal.specs.Number.{number, number_said};
ghost use Rattle.sdt.specs.declared.Sdt.{Sdt};
ghost use Rattle.sdt.specs.Edit.{sound, writable, new_of, append_of, write_of, Left, Leaves, edit_said, largest_table};
ghost use Rattle.sdt.specs.Answer.{Sealed, size_number, header};

use refusal::Refusal;

// The longest table that document 01 allows.
const LARGEST_TABLE: usize = 268435455;

// The table's length and checksum.
#[repr(C)]
#[derive(Clone, Copy)]
pub struct Sdt {
    pub length: u32,
    pub checksum: u8,
}

// ── What is refused

fn is_outside(first: u64, past: u64, offset: u64, end: u64) -> bool
    ensures { result ≡ (leb end first || leb past offset) }
{
    end <= first || past <= offset
}

// The length of a table of n bytes that grows by `more`.
#[tactic(auto, unfolding(crate::specs::Answer::size_number))]
fn grown(n: usize, more: usize, room: usize) -> Result<usize, Refusal>
    ensures { MatchResult result (λ m. (m ≡ n + more) × (m ≤ largest_table) × (m ≤ room)) (λ e. number e ≡ size_number (n + more) room) }
{
    if LARGEST_TABLE < more || LARGEST_TABLE - more < n {
        return Err(Refusal::TooLarge);
    }
    if room < n + more {
        return Err(Refusal::OutputShort);
    }
    Ok(n + more)
}

// ── What is written

// The header with no length and no checksum yet.
#[tactic(auto, using(crate::specs::AnswerLaws::header_sizes))]
pub fn put_header(identity: &[u8], out: &mut [u8]) -> usize
    requires { (length identity.now ≡ 31) × (length (header identity.now) ≤ length out.old) }
    ensures { Wrote (header identity.now) out.old out.new result }
{
    let header = &mut out[..36];
    header[..4].copy_from_slice(&identity[..4]);
    header[4..8].fill(0);
    header[8] = identity[4];
    header[9] = 0;
    header[10..].copy_from_slice(&identity[5..31]);
    36
}

// Length and checksum of the table t, which is all of the slice, into it.
pub fn update_checksum(t: &mut [u8]) -> Sdt
    requires { (10 ≤ length t.old) × (length t.old < 4294967296) }
    ensures { Sealed t.old result t.new }
{
    let length = t.len();
    octets::put_le(4, length as u64, &mut t[4..8]);
    t[9] = 0;
    let checksum = octets::generate_checksum(t);
    t[9] = checksum;
    Sdt {
        length: length as u32,
        checksum,
    }
}

impl Sdt {
    pub fn len(self) -> u32
        ensures { result ≡ self.length }
    {
        self.length
    }

    pub fn is_empty(self) -> bool
        ensures { result ≡ eqb self.length 0 }
    {
        self.length == 0
    }

    // 20: the record has to fit the buffer and say what the header says.
    #[tactic(auto, unfolding(crate::specs::Edit::sound))]
    fn is_sound(self, b: &[u8]) -> bool
        ensures says { result ≡ sound self b.now }
        ensures fits { result ≡ true → (36 ≤ self.length) × (self.length ≤ length b.now) }
    {
        let length = self.length as usize;
        36 <= length
            && length <= b.len()
            && octets::get_le(b, 4, 4) == u64::from(self.length)
            && b[9] == self.checksum
    }

    // 23: an offset is held to the length before the piece's length is added, so no sum can pass the widest number.
    #[tactic(auto, unfolding(crate::specs::Edit::writable))]
    fn is_writable(self, offset: u64, k: u64) -> bool
        ensures says { result ≡ writable self.length offset k }
        ensures fits { result ≡ true → offset + k ≤ self.length }
    {
        let n = u64::from(self.length);
        offset <= n
            && k <= n - offset
            && (k == 0
                || is_outside(4, 8, offset, offset + k) && is_outside(9, 10, offset, offset + k))
    }

    // ── The edits: each answers the record of the table that it leaves in the buffer

    #[tactic(auto, using(crate::specs::AnswerLaws::header_sizes))]
    pub fn new_at(identity: &[u8; 31], length: u32, buffer: &mut [u8]) -> Result<Sdt, Refusal>
        ensures { (t : Sdt) → Left (edit_said t result) buffer.new (new_of identity.now length t buffer.old) }
    {
        if length < 36 {
            return Err(Refusal::BadTable);
        }
        let n = grown(length as usize, 0, buffer.len())?;
        let at = put_header(identity, buffer);
        buffer[at..n].fill(0);
        Ok(update_checksum(&mut buffer[..n]))
    }

    pub fn append_at(self, buffer: &mut [u8], piece: &[u8]) -> Result<Sdt, Refusal>
        ensures { Left (edit_said self result) buffer.new (append_of self buffer.old piece.now) }
    {
        if !self.is_sound(buffer) {
            return Err(Refusal::BadTable);
        }
        let n = self.length as usize;
        let end = grown(n, piece.len(), buffer.len())?;
        octets::put_slice(piece, &mut buffer[n..]);
        Ok(update_checksum(&mut buffer[..end]))
    }

    pub fn write_at(self, buffer: &mut [u8], offset: u64, piece: &[u8]) -> Result<Sdt, Refusal>
        ensures { Left (edit_said self result) buffer.new (write_of self buffer.old offset piece.now) }
    {
        if !self.is_sound(buffer) {
            return Err(Refusal::BadTable);
        }
        if !self.is_writable(offset, piece.len() as u64) {
            return Err(Refusal::WriteOutside);
        }
        let n = grown(self.length as usize, 0, buffer.len())?;
        octets::put_slice(piece, &mut buffer[offset as usize..]);
        Ok(update_checksum(&mut buffer[..n]))
    }

    // ── The edits in place, as document 01 names them, over those above: the record is lent beside the buffer, and holds what the edit leaves

    pub fn new(
        &mut self,
        identity: &[u8; 31],
        length: u32,
        buffer: &mut [u8],
    ) -> Result<(), Refusal>
        ensures { Leaves (number_said result) self.new buffer.new (new_of identity.now length self.old buffer.old) }
    {
        *self = Sdt::new_at(identity, length, buffer)?;
        Ok(())
    }

    pub fn append(&mut self, buffer: &mut [u8], piece: &[u8]) -> Result<(), Refusal>
        ensures { Leaves (number_said result) self.new buffer.new (append_of self.old buffer.old piece.now) }
    {
        *self = self.append_at(buffer, piece)?;
        Ok(())
    }

    pub fn write(&mut self, buffer: &mut [u8], offset: u64, piece: &[u8]) -> Result<(), Refusal>
        ensures { Leaves (number_said result) self.new buffer.new (write_of self.old buffer.old offset piece.now) }
    {
        *self = self.write_at(buffer, offset, piece)?;
        Ok(())
    }
}
