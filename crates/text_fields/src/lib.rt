// The fields of a printed line, put into a lent slice: bytes, decimal numbers and masks (document 01, "A trailer on the hitch").
// Each `put` stores from an offset on and answers where the next one goes. What has no room is dropped, and an offset past the
// end is the end.
#![tactic(auto)]

ghost use Rattle.std.specs.Prelude.{◌≡◌, [], ◌∷◌, ℕ, suc, ◌^◌, ◌≤◌, ◌<◌};
ghost use Rattle.text_fields.specs.Fields.{digit, digits, decimal, mask_text};
ghost use Rattle.text_fields.specs.Puts.{Put, Highest};

pub fn put_byte(out: &mut [u8], at: usize, byte: u8) -> usize
    ensures { Put out.old out.new at result (byte ∷ []) }
{
    if at < out.len() {
        out[at] = byte;
        return at + 1;
    }
    out.len()
}

pub fn put_bytes(out: &mut [u8], at: usize, bytes: &[u8]) -> usize
    ensures { Put out.old out.new at result bytes.now }
{
    let mut next = at.min(out.len());
    for &byte in bytes {
        next = put_byte(out, next, byte);
    }
    next
}

fn digit_of(d: u64) -> u8
    requires { d < 16 }
    ensures { result ≡ digit d }
{
    if d < 10 {
        return b'0' + d as u8;
    }
    b'a' + (d - 10) as u8
}

// The digits of a number from the one that stands for `highest`, a power of the base, down to the last.
#[tactic(auto, using(crate::specs::DigitLaws::spelled_none, crate::specs::DigitLaws::spelled_more, crate::specs::DigitLaws::spelled_all, crate::specs::PutLaws::put_length))]
fn put_digits(out: &mut [u8], at: usize, n: u64, base: u64, highest: u64) -> usize
    requires { (2 ≤ base) × (base ≤ 16) }
    ensures { (k : ℕ) → highest ≡ base ^ k → Put out.old out.new at result (digits base (suc k) n) }
{
    let mut next = at.min(out.len());
    let mut power = highest;
    while power > 0 {
        next = put_byte(out, next, digit_of(n / power % base));
        power /= base;
    }
    next
}

// The power of ten that a number's first digit stands for.
#[tactic(auto, using(crate::specs::DigitLaws::highest_is))]
fn highest_ten(n: u64) -> u64
    ensures { Highest n result }
{
    10_u64.pow(n.max(1).ilog10())
}

pub fn put_decimal(out: &mut [u8], at: usize, n: u64) -> usize
    ensures { Put out.old out.new at result (decimal n) }
{
    put_digits(out, at, n, 10, highest_ten(n))
}

// 16 hexadecimal digits: the first stands for the 15th power of the base.
pub fn put_mask(out: &mut [u8], at: usize, mask: u64) -> usize
    ensures { Put out.old out.new at result (mask_text mask) }
{
    put_digits(out, at, mask, 16, 0x1000_0000_0000_0000)
}
