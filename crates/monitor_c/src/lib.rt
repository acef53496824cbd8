// The static library: the C face of `monitor`, for a Rust or C program that links it. Each export calls the function of its name there
// and states its clauses again: exports are of a static library, and theorems speak of a library.
#![tactic(auto)]

ghost use Rattle.std.specs.Prelude.{◌≡◌};
ghost use Rattle.checker.specs.Refusal.{refusal_of};
ghost use Rattle.sdt.specs.Edit.{new_of, append_of, write_of, Left};
ghost use Rattle.encode.specs.Encode.{encode_of};
ghost use Rattle.whole.specs.Whole.{normalise_of, read_of};
ghost use Rattle.monitor.specs.Face.{Faced, face_of, verdict_of, edit_of, record_of};

use monitor::{AcpiAnswer, AcpiEdit};

// ── Term files

#[unsafe(no_mangle)]
pub extern "C" fn acpi_encode(file: &[u8], out: &mut [u8]) -> AcpiAnswer
    ensures { Faced result out.new (encode_of file.now out.old) }
{
    monitor::acpi_encode(file, out)
}

#[unsafe(no_mangle)]
pub extern "C" fn acpi_read(arities: &[u8], table: &[u8], out: &mut [u8]) -> AcpiAnswer
    ensures { Faced result out.new (read_of arities.now table.now out.old) }
{
    monitor::acpi_read(arities, table, out)
}

#[unsafe(no_mangle)]
pub extern "C" fn acpi_normalise(file: &[u8], out: &mut [u8]) -> AcpiAnswer
    ensures { Faced result out.new (normalise_of file.now out.old) }
{
    monitor::acpi_normalise(file, out)
}

// Refusals 1 to 10; the length is 0.
#[unsafe(no_mangle)]
pub extern "C" fn acpi_check(file: &[u8]) -> AcpiAnswer
    ensures { result ≡ face_of (verdict_of (refusal_of file.now)) }
{
    monitor::acpi_check(file)
}

// ── The growing table

#[unsafe(no_mangle)]
pub extern "C" fn acpi_new(identity: &[u8; 31], length: u32, buffer: &mut [u8]) -> AcpiEdit
    ensures { Left (edit_of result) buffer.new (new_of identity.now length (record_of 0 0) buffer.old) }
{
    monitor::acpi_new(identity, length, buffer)
}

#[unsafe(no_mangle)]
pub extern "C" fn acpi_append(
    buffer: &mut [u8],
    length: u32,
    checksum: u8,
    piece: &[u8],
) -> AcpiEdit
    ensures { Left (edit_of result) buffer.new (append_of (record_of length checksum) buffer.old piece.now) }
{
    monitor::acpi_append(buffer, length, checksum, piece)
}

#[unsafe(no_mangle)]
pub extern "C" fn acpi_write(
    buffer: &mut [u8],
    length: u32,
    checksum: u8,
    offset: u64,
    piece: &[u8],
) -> AcpiEdit
    ensures { Left (edit_of result) buffer.new (write_of (record_of length checksum) buffer.old offset piece.now) }
{
    monitor::acpi_write(buffer, length, checksum, offset, piece)
}
