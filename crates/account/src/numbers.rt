//! What every text is made of: bytes, numbers and pairs.

ghost use Rattle.std.specs.Prelude.{◌≡◌, ◌+◌, ◌*◌, ◌/◌, ◌%◌, ◌^◌, ◌<◌, ◌≤◌, [], ◌∷◌, ◌++◌, false, length, decimal};
ghost use Rattle.std.specs.Fmt.{digit_glyph, signed_decimal};
ghost use Rattle.arrayvec.specs.ArrayVec.{array_vec_len};
ghost use Rattle.account.specs.text.Numbers.{pair_text, hex, number_line};

use arrayvec::ArrayVec;
use itoa::Buffer;

/// The most digits of a decimal number of 64 bits.
pub const LONGEST_NUMBER: usize = 20;

/// The most digits of a decimal number of 32 bits.
pub const LONGEST_SHORT_NUMBER: usize = 10;

/// The most bytes of a decimal number of 64 bits with its sign.
pub const LONGEST_SIGNED: usize = 21;

/// The most bytes of a hexadecimal number of 64 bits behind `0x`.
pub const LONGEST_HEX: usize = 18;

/// The two digits of each number below 100.
static PAIRS: [u8; 200] =
    *b"00010203040506070809101112131415161718192021222324252627282930313233343536373839404142434445464748495051525354555657585960616263646566676869707172737475767778798081828384858687888990919293949596979899";

/// The hexadecimal digits.
static GLYPHS: [u8; 16] = *b"0123456789abcdef";

/// Appends some bytes.
#[inline(always)]
pub fn add<const CAP: usize>(text: &mut ArrayVec<u8, CAP>, bytes: &[u8])
    requires { array_vec_len text.old + length bytes.now ≤ CAP }
    ensures items { text.new.items ≡ text.old.items ++ bytes.now }
    ensures len { array_vec_len text.new ≡ array_vec_len text.old + length bytes.now }
{
    // each push knows its room, so constant bytes become a store or two with no test
    for byte in bytes {
        text.push(*byte);
    }
}

/// Appends a number of two digits, the first of which may be 0.
#[inline(always)]
fn add_two<const CAP: usize>(text: &mut ArrayVec<u8, CAP>, n: u64)
    requires room { array_vec_len text.old + 2 ≤ CAP }
    requires small { n < 100 }
    ensures items { text.new.items ≡ text.old.items ++ (48 + n / 10) ∷ (48 + n % 10) ∷ [] }
    ensures len { array_vec_len text.new ≡ array_vec_len text.old + 2 }
{
    let at = n as usize * 2;
    text.push(PAIRS[at]);
    text.push(PAIRS[at + 1]);
}

/// Appends a number below 10,000.
#[inline(always)]
fn add_short<const CAP: usize>(text: &mut ArrayVec<u8, CAP>, n: u64)
    requires room { array_vec_len text.old + length (decimal n) ≤ CAP }
    requires small { n < 10000 }
    ensures items { text.new.items ≡ text.old.items ++ decimal n }
    ensures len { array_vec_len text.new ≡ array_vec_len text.old + length (decimal n) }
{
    if n < 100 {
        add_first(text, n);
    } else {
        add_first(text, n / 100);
        add_two(text, n % 100);
    }
}

/// Appends a number below 100.
#[inline(always)]
fn add_first<const CAP: usize>(text: &mut ArrayVec<u8, CAP>, n: u64)
    requires room { array_vec_len text.old + length (decimal n) ≤ CAP }
    requires small { n < 100 }
    ensures items { text.new.items ≡ text.old.items ++ decimal n }
    ensures len { array_vec_len text.new ≡ array_vec_len text.old + length (decimal n) }
{
    if n < 10 {
        text.push(b'0' + n as u8);
    } else {
        add_two(text, n);
    }
}

/// Appends a number of any size.
#[inline(never)]
fn add_long<const CAP: usize>(text: &mut ArrayVec<u8, CAP>, n: u64)
    requires { array_vec_len text.old + length (decimal n) ≤ CAP }
    ensures items { text.new.items ≡ text.old.items ++ decimal n }
    ensures len { array_vec_len text.new ≡ array_vec_len text.old + length (decimal n) }
{
    let mut buffer = Buffer::new();
    add(text, buffer.format(n).as_bytes());
}

/// Appends a number: one below 100,000,000 straight, and a longer one by way of a buffer.
fn add_longer<const CAP: usize>(text: &mut ArrayVec<u8, CAP>, n: u64)
    requires { array_vec_len text.old + length (decimal n) ≤ CAP }
    ensures items { text.new.items ≡ text.old.items ++ decimal n }
    ensures len { array_vec_len text.new ≡ array_vec_len text.old + length (decimal n) }
{
    if n < 10_000 {
        add_short(text, n);
    } else if n < 100_000_000 {
        add_short(text, n / 10_000);
        let four = n % 10_000;
        add_two(text, four / 100);
        add_two(text, four % 100);
    } else {
        add_long(text, n);
    }
}

/// Appends a number; one of a single digit by no call.
#[inline(always)]
fn add_digits<const CAP: usize>(text: &mut ArrayVec<u8, CAP>, n: u64)
    requires { array_vec_len text.old + length (decimal n) ≤ CAP }
    ensures items { text.new.items ≡ text.old.items ++ decimal n }
    ensures len { array_vec_len text.new ≡ array_vec_len text.old + length (decimal n) }
{
    if n < 10 {
        text.push(b'0' + n as u8);
    } else {
        add_longer(text, n);
    }
}

/// Appends a number.
pub fn add_number<const CAP: usize>(text: &mut ArrayVec<u8, CAP>, n: u64)
    requires { array_vec_len text.old + LONGEST_NUMBER ≤ CAP }
    ensures items { text.new.items ≡ text.old.items ++ decimal n }
    ensures len { array_vec_len text.new ≤ array_vec_len text.old + LONGEST_NUMBER }
{
    add_digits(text, n);
}

/// Appends a number of 32 bits, which has at most 10 digits.
pub fn add_short_number<const CAP: usize>(text: &mut ArrayVec<u8, CAP>, n: u32)
    requires { array_vec_len text.old + LONGEST_SHORT_NUMBER ≤ CAP }
    ensures items { text.new.items ≡ text.old.items ++ decimal n }
    ensures len { array_vec_len text.new ≤ array_vec_len text.old + LONGEST_SHORT_NUMBER }
{
    add_digits(text, n as u64);
}

/// Appends a number with its sign where it is negative.
pub fn add_signed<const CAP: usize>(text: &mut ArrayVec<u8, CAP>, n: i64)
    requires { array_vec_len text.old + LONGEST_SIGNED ≤ CAP }
    ensures items { text.new.items ≡ text.old.items ++ signed_decimal n }
    ensures len { array_vec_len text.new ≤ array_vec_len text.old + LONGEST_SIGNED }
{
    if n < 0 {
        text.push(b'-');
    }
    add_number(text, n.unsigned_abs());
}

/// How many hexadecimal digits a number has behind its first one.
#[inline(always)]
fn places_behind(n: u64) -> u32
    ensures few { result ≤ 15 }
    ensures first { n / 2 ^ (4 * result) < 16 }
    ensures some { 0 < result → 1 ≤ n / 2 ^ (4 * result) }
{
    if n < 16 {
        0
    } else {
        (63 - n.leading_zeros()) / 4
    }
}

/// The hexadecimal digit of a number below 16.
#[inline(always)]
fn glyph(value: u64) -> u8
    requires { value < 16 }
    ensures { result ≡ digit_glyph false value }
{
    GLYPHS[value as usize]
}

/// Appends a hexadecimal number behind `0x`.
pub fn add_hex<const CAP: usize>(text: &mut ArrayVec<u8, CAP>, n: u64)
    requires { array_vec_len text.old + LONGEST_HEX ≤ CAP }
    ensures items { text.new.items ≡ text.old.items ++ hex n }
    ensures len { array_vec_len text.new ≤ array_vec_len text.old + LONGEST_HEX }
{
    let mut behind = places_behind(n);
    add(text, b"0x");
    text.push(glyph(n >> (4 * behind)));
    while behind > 0 {
        behind -= 1;
        text.push(glyph((n >> (4 * behind)) % 16));
    }
}

/// Appends a pair, as two digits.
pub fn add_pair<const CAP: usize>(text: &mut ArrayVec<u8, CAP>, pair: u8)
    requires room { array_vec_len text.old + 2 ≤ CAP }
    requires pair { pair < 4 }
    ensures items { text.new.items ≡ text.old.items ++ pair_text pair }
    ensures len { array_vec_len text.new ≤ array_vec_len text.old + 2 }
{
    text.push(b'0' + pair / 2);
    text.push(b'0' + pair % 2);
}

/// Appends the line of a word and a number.
pub fn add_number_line<const CAP: usize>(text: &mut ArrayVec<u8, CAP>, word: &[u8], n: u64)
    requires { array_vec_len text.old + length word.now + LONGEST_NUMBER < CAP }
    ensures items { text.new.items ≡ text.old.items ++ number_line word.now n }
    ensures len { array_vec_len text.new
        ≤ array_vec_len text.old + length word.now + LONGEST_NUMBER + 1 }
{
    add(text, word);
    add_number(text, n);
    text.push(b'\n');
}
