//! Products, powers and inverses modulo odd numbers, quotients, and inverses modulo any number.

ghost use Rattle.std.specs.Prelude.{◌≡◌, ◌<◌, ◌≤◌, length};
ghost use Rattle.jc_numbers.specs.Moduli.{IsModulus};
ghost use Rattle.jc_numbers.specs.Montgomery.{IsResidue};
ghost use Rattle.jc_numbers.specs.Numbers.{value};

use crate::words::bytes;
use jc_numbers::bytes::{from_bytes, to_bytes};
use jc_numbers::comparison::{is_one, is_zero};
use jc_numbers::inverses::invert;
use jc_numbers::moduli::{MOST_LIMBS, Modulus};
use jc_numbers::quotients::divide;
use jc_numbers::residues::remainder;
use std::alloc::{AllocError, Global};

/// What is asked of two numbers and a modulus, in as many bytes as the modulus has. It is empty where the third word is no
/// modulus, or a word has more than 512 bytes.
pub fn modular(
    alloc: Global,
    kind: &str,
    first: &str,
    second: &str,
    modulus: &str,
) -> Result<String, AllocError> {
    let first = bytes(alloc, first)?;
    let second = bytes(alloc, second)?;
    let modulus = bytes(alloc, modulus)?;
    if first.len() > 512 || second.len() > 512 || modulus.len() > 512 {
        return Ok(String::new(alloc));
    }
    modular_of(
        alloc,
        kind,
        first.as_slice(),
        second.as_slice(),
        modulus.as_slice(),
    )
}

fn modular_of(
    alloc: Global,
    kind: &str,
    first: &[u8],
    second: &[u8],
    modulus: &[u8],
) -> Result<String, AllocError>
    requires first { length first.now ≤ 512 }
    requires second { length second.now ≤ 512 }
    requires modulus { length modulus.now ≤ 512 }
{
    let mut limbs = [0; MOST_LIMBS];
    let limbs = &mut limbs[..modulus.len().div_ceil(4)];
    from_bytes(limbs, modulus);
    match Modulus::new(limbs) {
        Some(prepared) => modular_by(alloc, kind, first, second, &prepared, modulus.len()),
        None => Ok(String::new(alloc)),
    }
}

fn modular_by(
    alloc: Global,
    kind: &str,
    first: &[u8],
    second: &[u8],
    modulus: &Modulus,
    size: usize,
) -> Result<String, AllocError>
    requires first { length first.now ≤ 512 }
    requires second { length second.now ≤ 512 }
    requires modulus { IsModulus modulus.now }
    requires size { size ≤ 512 }
{
    let mut result = [0; MOST_LIMBS];
    let result = &mut result[..modulus.limbs().len()];
    put_result(modulus, kind, result, &limbs_of(first), &limbs_of(second));
    let mut answer = [0; 512];
    let answer = &mut answer[..size];
    to_bytes(answer, result);
    hex::encode(alloc, &*answer)
}

fn limbs_of(bytes: &[u8]) -> [u32; MOST_LIMBS]
    requires { length bytes.now ≤ 512 }
{
    let mut limbs = [0; MOST_LIMBS];
    from_bytes(&mut limbs, bytes);
    limbs
}

fn put_result(modulus: &Modulus, kind: &str, to: &mut [u32], first: &[u32], second: &[u32])
    requires to { length to.old ≡ length modulus.now }
    requires modulus { IsModulus modulus.now }
    requires numbers { (length first.now ≤ 128) × (length second.now ≤ 128) }
{
    match kind {
        "power" => modulus.power(to, first, second),
        "product" | "forms" => product(modulus, kind, to, first, second),
        _ => inverse(modulus, to, first),
    }
}

// The product of two numbers modulo a third, by forms or not.
fn product(prepared: &Modulus, kind: &str, to: &mut [u32], first: &[u32], second: &[u32])
    requires to { (length to.old ≡ length prepared.now) × (length to.old ≤ 128) }
    requires modulus { 0 < value prepared.now }
    requires numbers { (length first.now ≤ 128) × (length second.now ≤ 128) }
{
    let count = to.len();
    let mut a = [0; MOST_LIMBS];
    let a = &mut a[..count];
    remainder(a, first, prepared.limbs());
    let mut b = [0; MOST_LIMBS];
    let b = &mut b[..count];
    remainder(b, second, prepared.limbs());
    match kind {
        "forms" => product_of_forms(prepared, to, a, b),
        _ => prepared.multiply(to, a, b),
    }
}

// The product of two residues by their forms.
fn product_of_forms(prepared: &Modulus, to: &mut [u32], a: &[u32], b: &[u32])
    requires to { (length to.old ≡ length prepared.now) × (length to.old ≤ 128) }
    requires a { IsResidue prepared.now a.now }
    requires b { IsResidue prepared.now b.now }
{
    let count = to.len();
    let mut first = [0; MOST_LIMBS];
    let first = &mut first[..count];
    prepared.to_form(first, a);
    let mut second = [0; MOST_LIMBS];
    let second = &mut second[..count];
    prepared.to_form(second, b);
    let mut form = [0; MOST_LIMBS];
    let form = &mut form[..count];
    prepared.multiply_forms(form, first, second);
    prepared.from_form(to, form);
}

// A number to the power of a modulus less 2.
fn inverse(prepared: &Modulus, to: &mut [u32], number: &[u32])
    requires to { (length to.old ≡ length prepared.now) × (length to.old ≤ 128) }
    requires modulus { 0 < value prepared.now }
    requires number { length number.now ≤ 128 }
{
    let count = to.len();
    let mut residue = [0; MOST_LIMBS];
    let residue = &mut residue[..count];
    remainder(residue, number, prepared.limbs());
    let _is_inverse = prepared.invert(to, residue);
}

/// The quotient and the remainder of two numbers, in as many bytes as these have, or the inverse of the first modulo the second. It is
/// empty where the second is 0, or no modulus of an inverse, or a word has more than 512 bytes.
pub fn divided(alloc: Global, kind: &str, first: &str, second: &str) -> Result<String, AllocError> {
    let first = bytes(alloc, first)?;
    let second = bytes(alloc, second)?;
    if first.len() > 512 || second.len() > 512 {
        return Ok(String::new(alloc));
    }
    match kind {
        "divide" => quotient(alloc, first.as_slice(), second.as_slice()),
        _ => inverse_of_any(alloc, first.as_slice(), second.as_slice()),
    }
}

fn quotient(alloc: Global, first: &[u8], second: &[u8]) -> Result<String, AllocError>
    requires first { length first.now ≤ 512 }
    requires second { length second.now ≤ 512 }
{
    let number = limbs_of(first);
    let divisor = limbs_of(second);
    if is_zero(&divisor) {
        return Ok(String::new(alloc));
    }
    let mut quotient = [0; MOST_LIMBS];
    let mut rest = [0; MOST_LIMBS];
    divide(&mut quotient, &mut rest, &number, &divisor);
    let mut answer = [0; 1024];
    let answer = &mut answer[..first.len() + second.len()];
    let (quotient_bytes, rest_bytes) = answer.split_at_mut(first.len());
    to_bytes(quotient_bytes, &quotient);
    to_bytes(rest_bytes, &rest);
    hex::encode(alloc, &*answer)
}

fn inverse_of_any(alloc: Global, first: &[u8], second: &[u8]) -> Result<String, AllocError>
    requires first { length first.now ≤ 512 }
    requires second { length second.now ≤ 512 }
{
    let limbs = limbs_of(second);
    if is_zero(&limbs) || is_one(&limbs) {
        return Ok(String::new(alloc));
    }
    let mut residue = [0; MOST_LIMBS];
    remainder(&mut residue, &limbs_of(first), &limbs);
    let mut result = [0; MOST_LIMBS];
    let _found = invert(&mut result, &residue, &limbs);
    let mut answer = [0; 512];
    let answer = &mut answer[..second.len()];
    to_bytes(answer, &result);
    hex::encode(alloc, &*answer)
}
