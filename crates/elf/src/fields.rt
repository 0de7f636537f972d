//! Numbers at places in a file, the least byte first (gABI, "Data Representation").

ghost use Rattle.std.specs.Prelude.{◌≡◌, ◌+◌, ◌≤◌, length, if◌then◌else◌};
ghost use Rattle.std.specs.Int.{w16, w32, w64};
ghost use Rattle.elf.specs.Fields.{field, word, is_wide};

use crate::class::Class;

#[tactic(auto, unfolding(crate::specs::Fields::field))]
pub fn u16_at(bytes: &[u8], place: usize) -> u16
    requires { place + 2 ≤ length bytes.now }
    ensures { result ≡ field w16 bytes.now place }
{
    let field = &bytes[place..];
    u16::from_le_bytes([field[0], field[1]])
}

#[tactic(auto, unfolding(crate::specs::Fields::field))]
pub fn u32_at(bytes: &[u8], place: usize) -> u32
    requires { place + 4 ≤ length bytes.now }
    ensures { result ≡ field w32 bytes.now place }
{
    let field = &bytes[place..];
    u32::from_le_bytes([field[0], field[1], field[2], field[3]])
}

#[tactic(auto, unfolding(crate::specs::Fields::field))]
pub fn u64_at(bytes: &[u8], place: usize) -> u64
    requires { place + 8 ≤ length bytes.now }
    ensures { result ≡ field w64 bytes.now place }
{
    let field = &bytes[place..];
    u64::from_le_bytes([
        field[0], field[1], field[2], field[3], field[4], field[5], field[6], field[7],
    ])
}

/// A field of 8 bytes in the class of 64 bits, and of 4 in the other.
pub fn word_at(class: Class, bytes: &[u8], place: usize) -> u64
    requires { place + (if is_wide class then 8 else 4) ≤ length bytes.now }
    ensures { result ≡ word class bytes.now place }
{
    if class.is_wide() {
        u64_at(bytes, place)
    } else {
        u64::from(u32_at(bytes, place))
    }
}
