// Identifiers spelled as text, refused where they are malformed; and the makers of generic addresses.
#![tactic(auto)]

ghost use Rattle.std.specs.Prelude.{◌≡◌, ◌+◌, ◌-◌, ◌*◌, ◌^◌, ◌≤◌, ◌<◌, T, MatchResult, length};
ghost use Rattle.refusal.specs.Number.{number};
ghost use Rattle.octets.specs.Bytes.{every};
ghost use Rattle.octets.specs.Filling.{Wrote};
ghost use Rattle.ident.specs.Ident.{is_letter, is_hex, hex_digit, is_eisa, eisa_bits, uuid_places, is_uuid, uuid_bytes};
ghost use Rattle.ident.specs.EisaOf.{named, eisa_of};
ghost use Rattle.ident.specs.Gas.{access_size, space_id, answered, made};
ghost use Rattle.ident.specs.Parts.{letter_bits, is_hyphened, is_pair, pair_byte};

use refusal::Refusal;

// Where a register stands.
#[derive(Clone, Copy, Debug, Default, PartialEq, Eq)]
pub struct GenericAddress {
    pub address_space_id: u8,
    pub register_bit_width: u8,
    pub register_bit_offset: u8,
    pub access_size: u8,
    pub address: u64,
}

// ACPI's number of each address space.
#[derive(Clone, Copy)]
enum AddressSpace {
    SystemMemory = 0,
    SystemIo = 1,
}

// ── Characters

fn is_letter(b: u8) -> bool
    ensures { result ≡ is_letter b }
{
    b.is_ascii_uppercase()
}

fn is_hex(b: u8) -> bool
    ensures { result ≡ is_hex b }
{
    b.is_ascii_hexdigit()
}

fn hex_digit(b: u8) -> u32
    requires { T (is_hex b) }
    ensures { (result ≡ hex_digit b) × (result < 16) }
{
    match b {
        b'0'..=b'9' => u32::from(b - b'0'),
        b'A'..=b'F' => u32::from(b - b'A' + 10),
        _ => u32::from(b - b'a' + 10),
    }
}

// ── EISA id

pub fn is_eisa(t: &[u8]) -> bool
    ensures { result ≡ is_eisa t.now }
{
    t.len() == 7 && t[..3].iter().all(|b| is_letter(*b)) && t[3..].iter().all(|b| is_hex(*b))
}

// The five bits of a letter.
fn letter(b: u8) -> u32
    requires { T (is_letter b) }
    ensures { (result ≡ b - 64) × (result < 27) }
{
    u32::from(b - 64)
}

// The three letters at bits 26, 21 and 16.
fn letter_bits(t: &[u8]) -> u32
    requires { T (is_eisa t.now) }
    ensures { (result ≡ letter_bits t.now) × (result < 2 ^ 32 - 2 ^ 16) }
{
    67108864 * letter(t[0]) + 2097152 * letter(t[1]) + 65536 * letter(t[2])
}

fn eisa_bits(t: &[u8]) -> u32
    requires { T (is_eisa t.now) }
    ensures { result ≡ eisa_bits t.now }
{
    let letters = letter_bits(t);
    letters
        + 4096 * hex_digit(t[3])
        + 256 * hex_digit(t[4])
        + 16 * hex_digit(t[5])
        + hex_digit(t[6])
}

// Three uppercase letters and four hexadecimal digits in either case, as `PNP0A03`.
pub fn eisa_name(t: &[u8]) -> Option<u64>
    ensures { named result ≡ eisa_of t.now }
{
    if is_eisa(t) {
        Some(u64::from(eisa_bits(t).swap_bytes()))
    } else {
        None
    }
}

// ── UUID

// Where each byte's two digits stand in the text, in the order in which the bytes are written.
static UUID_PLACES: [usize; 16] = [6, 4, 2, 0, 11, 9, 16, 14, 19, 21, 24, 26, 28, 30, 32, 34];

static HYPHEN_PLACES: [usize; 4] = [8, 13, 18, 23];

fn has_hyphens(t: &[u8]) -> bool
    requires { length t.now ≡ 36 }
    ensures { result ≡ is_hyphened t.now }
{
    HYPHEN_PLACES.iter().all(|i| t[*i] == b'-')
}

// Whether two digits stand at i.
fn is_pair(t: &[u8], i: usize) -> bool
    requires { i + 1 < length t.now }
    ensures { result ≡ is_pair t.now i }
{
    is_hex(t[i]) && is_hex(t[i + 1])
}

fn has_pairs(t: &[u8]) -> bool
    requires { length t.now ≡ 36 }
    ensures { result ≡ every (is_pair t.now) uuid_places }
{
    UUID_PLACES.iter().all(|i| is_pair(t, *i))
}

// Digits in either case, in groups of 8, 4, 4, 4 and 12 with a hyphen between.
pub fn is_uuid(t: &[u8]) -> bool
    ensures { result ≡ is_uuid t.now }
{
    t.len() == 36 && has_hyphens(t) && has_pairs(t)
}

// The byte whose two digits stand at i.
fn pair_byte(t: &[u8], i: usize) -> u8
    requires { (i + 1 < length t.now) × T (is_pair t.now i) }
    ensures { result ≡ pair_byte t.now i }
{
    (16 * hex_digit(t[i]) + hex_digit(t[i + 1])) as u8
}

pub fn put_uuid(t: &[u8], out: &mut [u8]) -> usize
    requires { T (is_uuid t.now) × (16 ≤ length out.old) }
    ensures { Wrote (uuid_bytes t.now) out.old out.new result }
{
    for (k, i) in UUID_PLACES.iter().enumerate() {
        out[k] = pair_byte(t, *i);
    }
    16
}

// ── Generic address

// The code of an access of 1, 2, 4 or 8 bytes.
fn access_size_of(width: u64) -> Result<u8, Refusal>
    ensures { MatchResult result (λ a. (a ≡ access_size width) × (0 < a)) (λ r. (number r ≡ 5) × (access_size width ≡ 0)) }
{
    match width {
        1 => Ok(1),
        2 => Ok(2),
        4 => Ok(3),
        8 => Ok(4),
        _ => Err(Refusal::Range),
    }
}

fn generic_address(space: AddressSpace, width: u64, address: u64) -> Result<GenericAddress, Refusal>
    ensures { answered result ≡ made (space_id space) width address }
{
    let access_size = access_size_of(width)?;
    Ok(GenericAddress {
        address_space_id: space as u8,
        register_bit_width: (8 * width) as u8,
        register_bit_offset: 0,
        access_size,
        address,
    })
}

// A port has 16 bits, so that no address is refused.
pub fn io_port_address(width: u64, address: u16) -> Result<GenericAddress, Refusal>
    ensures { answered result ≡ made 1 width address }
{
    generic_address(AddressSpace::SystemIo, width, u64::from(address))
}

pub fn mmio_address(width: u64, address: u64) -> Result<GenericAddress, Refusal>
    ensures { answered result ≡ made 0 width address }
{
    generic_address(AddressSpace::SystemMemory, width, address)
}

// What was made, as document 01 has it: 0 and the address, or the refusal's number and an address whose fields are all 0.
#[tactic(auto, unfolding(crate::specs::Gas::answered, crate::specs::Gas::gas, crate::specs::Gas::access_size))]
pub fn number_and_address(made: Result<GenericAddress, Refusal>) -> (u32, GenericAddress)
    ensures { answered made ≡ record { number = result.0; address = result.1 } }
{
    match made {
        Ok(address) => (0, address),
        Err(refusal) => (refusal.number(), GenericAddress::default()),
    }
}
