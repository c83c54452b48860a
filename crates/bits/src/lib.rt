// Numbers in bits and bytes: what every other crate reads and writes numbers with.
#![tactic(auto)]

ghost use Rattle.std.specs.Prelude.{◌≡◌, ◌+◌, ◌<◌, ◌≤◌, ◌^◌, length};
ghost use Rattle.bits.specs.Bits.{bits_at, signed};
ghost use Rattle.bits.specs.Bytes.{le, part, patch, halfword_at, word_at, doubleword_at};

// The low `bits` bits as a signed number. The Rust shifts left and back; the top bit decides here.
pub fn sign_extend(val: u64, bits: u32) -> i64
    requires { (bits ≤ 32) × (val < 2 ^ bits) }
    ensures { result ≡ signed bits val }
{
    let whole = 1u64 << bits;
    if val < whole / 2 {
        val as i64
    } else {
        (val as i64) - (whole as i64)
    }
}

// The N bits of a number from bit AT up.
pub fn field<const AT: u32, const N: u32>(x: u32) -> u32
    requires { (AT < 32) × (N < 32) }
    ensures { result ≡ bits_at x AT N }
{
    (x >> AT) % (1 << N)
}

// The N bytes from an offset on.
fn bytes_at<const N: usize>(s: &[u8], at: usize) -> [u8; N]
    requires { at + N ≤ length s.now }
    ensures { result ≡ part s.now at N }
{
    *s[at..at + N].first_chunk().unwrap()
}

// The halfword at an offset, low byte first; and so the word and the doubleword.
pub fn halfword_at(s: &[u8], at: usize) -> u16
    requires { at + 2 ≤ length s.now }
    ensures { result ≡ halfword_at s.now at }
{
    u16::from_le_bytes(bytes_at(s, at))
}

pub fn word_at(s: &[u8], at: usize) -> u32
    requires { at + 4 ≤ length s.now }
    ensures { result ≡ word_at s.now at }
{
    u32::from_le_bytes(bytes_at(s, at))
}

pub fn doubleword_at(s: &[u8], at: usize) -> u64
    requires { at + 8 ≤ length s.now }
    ensures { result ≡ doubleword_at s.now at }
{
    u64::from_le_bytes(bytes_at(s, at))
}

// The doubleword into the eight bytes from an offset on; those around them stay.
pub fn put_doubleword(s: &mut [u8], at: usize, x: u64)
    requires { at + 8 ≤ length s.old }
    ensures { s.new ≡ patch s.old at (le 8 x) }
{
    s[at..at + 8].copy_from_slice(&x.to_le_bytes());
}
