//! The steps of a round on the state: 16 bytes, column after column.

ghost use Rattle.std.specs.Prelude.{◌≡◌, ◌≤◌, ◌+◌, ◌*◌, length};
ghost use Rattle.jc_ciphers.specs.Aes.{add_round_key, inv_mix_columns, inv_mixed_column, inv_shift_rows, inv_sub_bytes, mix_columns, mixed_column, shift_rows, sub_bytes};
ghost use Rattle.jc_ciphers.specs.AesField.{sub_byte};

use crate::aes_field::{inv_sub_byte, inverse_multiples, sub_byte, substitute_column};

/// SubBytes and ShiftRows.
pub(crate) fn sub_and_shift(s: &[u8; 16]) -> [u8; 16]
    ensures { result ≡ shift_rows (sub_bytes s.now) }
{
    [
        sub_byte(s[0]),
        sub_byte(s[5]),
        sub_byte(s[10]),
        sub_byte(s[15]),
        sub_byte(s[4]),
        sub_byte(s[9]),
        sub_byte(s[14]),
        sub_byte(s[3]),
        sub_byte(s[8]),
        sub_byte(s[13]),
        sub_byte(s[2]),
        sub_byte(s[7]),
        sub_byte(s[12]),
        sub_byte(s[1]),
        sub_byte(s[6]),
        sub_byte(s[11]),
    ]
}

/// InvShiftRows and InvSubBytes.
pub(crate) fn inv_shift_and_sub(s: &[u8; 16]) -> [u8; 16]
    ensures { result ≡ inv_sub_bytes (inv_shift_rows s.now) }
{
    [
        inv_sub_byte(s[0]),
        inv_sub_byte(s[13]),
        inv_sub_byte(s[10]),
        inv_sub_byte(s[7]),
        inv_sub_byte(s[4]),
        inv_sub_byte(s[1]),
        inv_sub_byte(s[14]),
        inv_sub_byte(s[11]),
        inv_sub_byte(s[8]),
        inv_sub_byte(s[5]),
        inv_sub_byte(s[2]),
        inv_sub_byte(s[15]),
        inv_sub_byte(s[12]),
        inv_sub_byte(s[9]),
        inv_sub_byte(s[6]),
        inv_sub_byte(s[3]),
    ]
}

// The column of the substitutes of these bytes, as MixColumns makes it.
#[inline(always)]
fn mixed_column(a: u8, b: u8, c: u8, d: u8) -> [u8; 4]
    ensures { result ≡ mixed_column (sub_byte a) (sub_byte b) (sub_byte c) (sub_byte d) }
{
    let first = substitute_column(a);
    let second = substitute_column(b);
    let third = substitute_column(c);
    let fourth = substitute_column(d);
    [
        first[0] ^ second[3] ^ third[2] ^ fourth[1],
        second[0] ^ third[3] ^ fourth[2] ^ first[1],
        third[0] ^ fourth[3] ^ first[2] ^ second[1],
        fourth[0] ^ first[3] ^ second[2] ^ third[1],
    ]
}

/// SubBytes, ShiftRows and MixColumns.
pub(crate) fn sub_shift_and_mix(s: &[u8; 16]) -> [u8; 16]
    ensures { result ≡ mix_columns (shift_rows (sub_bytes s.now)) }
{
    let first = mixed_column(s[0], s[5], s[10], s[15]);
    let second = mixed_column(s[4], s[9], s[14], s[3]);
    let third = mixed_column(s[8], s[13], s[2], s[7]);
    let fourth = mixed_column(s[12], s[1], s[6], s[11]);
    [
        first[0], first[1], first[2], first[3], second[0], second[1], second[2], second[3],
        third[0], third[1], third[2], third[3], fourth[0], fourth[1], fourth[2], fourth[3],
    ]
}

// The column of these bytes, as InvMixColumns makes it.
#[inline(always)]
fn inv_mixed_column(a: u8, b: u8, c: u8, d: u8) -> [u8; 4]
    ensures { result ≡ inv_mixed_column a b c d }
{
    let first = inverse_multiples(a);
    let second = inverse_multiples(b);
    let third = inverse_multiples(c);
    let fourth = inverse_multiples(d);
    [
        first[3] ^ second[1] ^ third[2] ^ fourth[0],
        second[3] ^ third[1] ^ fourth[2] ^ first[0],
        third[3] ^ fourth[1] ^ first[2] ^ second[0],
        fourth[3] ^ first[1] ^ second[2] ^ third[0],
    ]
}

/// InvMixColumns.
pub(crate) fn inv_mix_columns(s: &[u8; 16]) -> [u8; 16]
    ensures { result ≡ inv_mix_columns s.now }
{
    let first = inv_mixed_column(s[0], s[1], s[2], s[3]);
    let second = inv_mixed_column(s[4], s[5], s[6], s[7]);
    let third = inv_mixed_column(s[8], s[9], s[10], s[11]);
    let fourth = inv_mixed_column(s[12], s[13], s[14], s[15]);
    [
        first[0], first[1], first[2], first[3], second[0], second[1], second[2], second[3],
        third[0], third[1], third[2], third[3], fourth[0], fourth[1], fourth[2], fourth[3],
    ]
}

/// AddRoundKey with round key `n` of the schedule.
pub(crate) fn add_round_key(s: &[u8; 16], w: &[u8], n: usize) -> [u8; 16]
    requires room { 16 * n + 16 ≤ length w.now }
    requires fits { n ≤ 14 }
    ensures { result ≡ add_round_key s.now w.now n }
{
    [
        s[0] ^ w[16 * n + 0],
        s[1] ^ w[16 * n + 1],
        s[2] ^ w[16 * n + 2],
        s[3] ^ w[16 * n + 3],
        s[4] ^ w[16 * n + 4],
        s[5] ^ w[16 * n + 5],
        s[6] ^ w[16 * n + 6],
        s[7] ^ w[16 * n + 7],
        s[8] ^ w[16 * n + 8],
        s[9] ^ w[16 * n + 9],
        s[10] ^ w[16 * n + 10],
        s[11] ^ w[16 * n + 11],
        s[12] ^ w[16 * n + 12],
        s[13] ^ w[16 * n + 13],
        s[14] ^ w[16 * n + 14],
        s[15] ^ w[16 * n + 15],
    ]
}
