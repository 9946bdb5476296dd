// Numbers of two and eight bytes at an offset, least byte first, read and written (document 01, "Masks are unsigned 64-bit, least byte
// first" and "Two-byte numbers have the least byte first").
#![tactic(auto)]

ghost use Rattle.std.specs.Prelude.{◌≡◌, ◌+◌, ◌≤◌, length};
ghost use Rattle.std.proofs.lemmas.List.Edits.{sets};
ghost use Rattle.numbers.specs.Numbers.{to_bytes, number_at};

// The two bytes from an offset on, least byte first.
pub fn read_u16(s: &[u8], at: usize) -> u16
    requires { at + 2 ≤ length s.now }
    ensures { result ≡ number_at 2 s.now at }
{
    u16::from_le_bytes(s[at..at + 2].try_into().unwrap())
}

// The eight bytes from an offset on, least byte first.
pub fn read_u64(s: &[u8], at: usize) -> u64
    requires { at + 8 ≤ length s.now }
    ensures { result ≡ number_at 8 s.now at }
{
    u64::from_le_bytes(s[at..at + 8].try_into().unwrap())
}

// Two bytes from an offset on, least byte first.
pub fn write_u16(s: &mut [u8], at: usize, v: u16)
    requires { at + 2 ≤ length s.old }
    ensures { s.new ≡ sets s.old at (to_bytes 2 v) }
{
    s[at..at + 2].copy_from_slice(&v.to_le_bytes());
}

// Eight bytes from an offset on, least byte first.
pub fn write_u64(s: &mut [u8], at: usize, v: u64)
    requires { at + 8 ≤ length s.old }
    ensures { s.new ≡ sets s.old at (to_bytes 8 v) }
{
    s[at..at + 8].copy_from_slice(&v.to_le_bytes());
}
