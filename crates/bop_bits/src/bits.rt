//! Bits and bytes of words.

ghost use Rattle.std.specs.Prelude.{◌≡◌, ◌≤◌, ◌+◌};
ghost use Rattle.bop_bits.specs.Bits.{field_of, signed_of, with_field, little_endian, four_bytes};

/// The number in the LEN bits from bit LO up.
pub fn field<const LO: u32, const LEN: u32>(word: u32) -> u32
    requires some { 1 ≤ LEN }
    requires within { LO + LEN ≤ 32 }
    ensures { result ≡ field_of LO LEN word }
{
    if LEN == 32 {
        word
    } else {
        (word >> LO) % (1 << LEN)
    }
}

/// The lowest LEN bits in two's complement.
pub fn sext<const LEN: u32>(value: u32) -> i32
    requires some { 1 ≤ LEN }
    requires within { LEN ≤ 32 }
    ensures { result ≡ signed_of LEN value }
{
    if LEN == 32 {
        return value.cast_signed();
    }
    let low = value % (1 << LEN);
    if low < 1 << (LEN - 1) {
        low as i32
    } else {
        (i64::from(low) - (1i64 << LEN)) as i32
    }
}

/// The word with the value's lowest LEN bits in the bits from bit LO up.
pub fn put<const LO: u32, const LEN: u32>(word: u32, value: u32) -> u32
    requires some { 1 ≤ LEN }
    requires within { LO + LEN ≤ 32 }
    ensures { result ≡ with_field LO LEN word value }
{
    let word = u64::from(word);
    let value = u64::from(value);
    let above = (word >> (LO + LEN)) << (LO + LEN);
    let field = (value % (1 << LEN)) << LO;
    let below = word % (1 << LO);
    (above + field + below) as u32
}

/// The word of four bytes, the lowest first.
pub fn word_of(bytes: &[u8; 4]) -> u32
    ensures { result ≡ little_endian bytes.now }
{
    u32::from(bytes[0])
        + u32::from(bytes[1]) * 0x100
        + u32::from(bytes[2]) * 0x1_0000
        + u32::from(bytes[3]) * 0x100_0000
}

/// The four bytes of a word, the lowest first.
pub fn bytes_of(word: u32) -> [u8; 4]
    ensures { result ≡ four_bytes word }
{
    [
        (word % 0x100) as u8,
        (word / 0x100 % 0x100) as u8,
        (word / 0x1_0000 % 0x100) as u8,
        (word / 0x100_0000) as u8,
    ]
}
