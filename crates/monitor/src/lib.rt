// The C face, for a Rust or C program that links the static library (crate `monitor_c`, which exports these functions): the calls of
// the crates below, on byte slices and numbers. A symbol named `read` or `write` would take the C library's place, so each name has
// the prefix `acpi_`.
#![tactic(auto)]

ghost use Rattle.std.specs.Prelude.{◌≡◌, ◌<◌};
ghost use Rattle.checker.specs.Refusal.{refusal_of};
ghost use Rattle.sdt.specs.Edit.{new_of, append_of, write_of, edit_said, Left};
ghost use Rattle.encode.specs.Encode.{answer_of, encode_of};
ghost use Rattle.whole.specs.Whole.{normalise_of, read_of};
ghost use Rattle.monitor.specs.Face.{Faced, face_of, verdict_of, edit_of, record_of};

use refusal::{Fault, Refusal};
use sdt::Sdt;

// A refusal's number and the record at which it was found; or 0, and how many bytes were written: C has no `Result`.
#[repr(C)]
#[derive(Clone, Copy)]
pub struct AcpiAnswer {
    pub number: u32,
    pub index: u32,
    pub length: u64,
}

// 0 or a refusal's number; the table's length and checksum, renewed, or as they came in where the edit was refused.
#[repr(C)]
#[derive(Clone, Copy)]
pub struct AcpiEdit {
    pub number: u32,
    pub length: u32,
    pub checksum: u8,
}

// What a call answered, as C has it. No `From`, which could not ask that the index fits.
fn faced(outcome: Result<usize, Fault>) -> AcpiAnswer
    requires { (answer_of outcome).index < 4294967296 }
    ensures { result ≡ face_of (answer_of outcome) }
{
    match outcome {
        Ok(size) => AcpiAnswer {
            number: 0,
            index: 0,
            length: size as u64,
        },
        Err(fault) => AcpiAnswer {
            number: fault.refusal.number(),
            index: fault.index as u32,
            length: 0,
        },
    }
}

// What an edit left of the record t.
fn edited(t: Sdt, edit: Result<Sdt, Refusal>) -> AcpiEdit
    ensures { edit_of result ≡ edit_said t edit }
{
    let (number, left) = match edit {
        Ok(renewed) => (0, renewed),
        Err(refusal) => (refusal.number(), t),
    };
    AcpiEdit {
        number,
        length: left.length,
        checksum: left.checksum,
    }
}

// ── Term files

pub fn acpi_encode(file: &[u8], out: &mut [u8]) -> AcpiAnswer
    ensures { Faced result out.new (encode_of file.now out.old) }
{
    faced(encode::encode(file, out))
}

pub fn acpi_read(arities: &[u8], table: &[u8], out: &mut [u8]) -> AcpiAnswer
    ensures { Faced result out.new (read_of arities.now table.now out.old) }
{
    faced(reader::read(arities, table, out))
}

pub fn acpi_normalise(file: &[u8], out: &mut [u8]) -> AcpiAnswer
    ensures { Faced result out.new (normalise_of file.now out.old) }
{
    faced(normalise::normalise(file, out))
}

// Refusals 1 to 10; the length is 0.
pub fn acpi_check(file: &[u8]) -> AcpiAnswer
    ensures { result ≡ face_of (verdict_of (refusal_of file.now)) }
{
    faced(checker::check(file).map(|()| 0))
}

// ── The growing table

pub fn acpi_new(identity: &[u8; 31], length: u32, buffer: &mut [u8]) -> AcpiEdit
    ensures { Left (edit_of result) buffer.new (new_of identity.now length (record_of 0 0) buffer.old) }
{
    let none = Sdt {
        length: 0,
        checksum: 0,
    };
    edited(none, Sdt::new_at(identity, length, buffer))
}

pub fn acpi_append(buffer: &mut [u8], length: u32, checksum: u8, piece: &[u8]) -> AcpiEdit
    ensures { Left (edit_of result) buffer.new (append_of (record_of length checksum) buffer.old piece.now) }
{
    let t = Sdt { length, checksum };
    edited(t, t.append_at(buffer, piece))
}

pub fn acpi_write(
    buffer: &mut [u8],
    length: u32,
    checksum: u8,
    offset: u64,
    piece: &[u8],
) -> AcpiEdit
    ensures { Left (edit_of result) buffer.new (write_of (record_of length checksum) buffer.old offset piece.now) }
{
    let t = Sdt { length, checksum };
    edited(t, t.write_at(buffer, offset, piece))
}
