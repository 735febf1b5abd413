//! Signatures in DER (X.690): a SEQUENCE of two INTEGERs, r and s, neither negative.

ghost use Rattle.std.specs.Prelude.{◌≡◌, ◌≤◌, ◌<◌, ◌+◌, ◌↔◌, ◌++◌, ◌⊎◌, ℕ, IsTrue, List, MatchOption, length, slice_index, take};
ghost use Rattle.jc_numbers.specs.Numbers.{number_of_bytes};
ghost use Rattle.jc_curves.specs.Der.{IsHead, IsInteger, IsMinimal, IsSequence, IsSignatureEncoding, BeginsWithInteger};

/// How many bytes an encoding of numbers of at most 66 bytes has at most.
pub const MOST_ENCODING: usize = 141;

const SEQUENCE: u8 = 0x30;

const INTEGER: u8 = 0x02;

const ONE_BYTE_LENGTH: u8 = 0x81;

const MOST_CONTENTS: usize = 67;

/// The contents of an INTEGER, and the bytes after it.
#[derive(Clone, Copy)]
struct Parts<'a> {
    contents: &'a [u8],
    rest: &'a [u8],
}

/// The numbers of a signature.
#[derive(Clone, Copy)]
pub struct SignatureNumbers<'a> {
    pub r: &'a [u8],
    pub s: &'a [u8],
}

// Writes a part from a place on, and returns the place after it.
fn put(to: &mut [u8], at: usize, part: &[u8]) -> usize
    requires { at + length part.now ≤ length to.old }
    ensures end { result ≡ at + length part.now }
    ensures written { take result to.new ≡ take at to.old ++ part.now }
{
    let end = at + part.len();
    to[at..end].copy_from_slice(part);
    end
}

// A number without its leading zeros.
fn significant(bytes: &[u8]) -> &[u8]
    ensures number { number_of_bytes result.now ≡ number_of_bytes bytes.now }
    ensures first { 0 < length result.now → 0 < slice_index result.now 0 }
    ensures few { length result.now ≤ length bytes.now }
{
    'zeros: for i in 0..bytes.len() {
        if bytes[i] != 0 {
            return &bytes[i..];
        }
    }
    &bytes[bytes.len()..]
}

// Whether a zero has to stand before a number: where it has no byte, or its highest bit is 1.
fn needs_zero(number: &[u8]) -> bool
    ensures { IsTrue result ↔ ((length number.now ≡ 0) ⊎ (128 ≤ slice_index number.now 0)) }
{
    if number.is_empty() {
        return true;
    }
    number[0] >= 0x80
}

// Writes an INTEGER, and returns the place after it.
fn put_integer(to: &mut [u8], at: usize, number: &[u8]) -> usize
    requires first { 0 < length number.now → 0 < slice_index number.now 0 }
    requires few { length number.now ≤ 66 }
    requires room { at + 69 ≤ length to.old }
    ensures end { result ≤ at + 69 }
    ensures written { (part : List ℕ) × IsInteger (number_of_bytes number.now) part
        × (take result to.new ≡ take at to.old ++ part) }
{
    if needs_zero(number) {
        let start = put(to, at, &[INTEGER, (number.len() + 1) as u8, 0]);
        return put(to, start, number);
    }
    let start = put(to, at, &[INTEGER, number.len() as u8]);
    put(to, start, number)
}

// Writes the head of a SEQUENCE, and returns the place after it.
fn put_head(to: &mut [u8], size: usize) -> usize
    requires size { size < 256 }
    requires room { 3 ≤ length to.old }
    ensures end { result ≤ 3 }
    ensures head { IsHead size (take result to.new) }
{
    if size < 0x80 {
        return put(to, 0, &[SEQUENCE, size as u8]);
    }
    put(to, 0, &[SEQUENCE, ONE_BYTE_LENGTH, size as u8])
}

/// Writes the encoding of a signature, and returns how many bytes it has.
pub fn encode(r: &[u8], s: &[u8], to: &mut [u8]) -> usize
    requires r { length r.now ≤ 66 }
    requires s { length s.now ≤ 66 }
    requires to { 141 ≤ length to.old }
    ensures end { result ≤ 141 }
    ensures encoding { IsSignatureEncoding (number_of_bytes r.now) (number_of_bytes s.now) (take result to.new) }
{
    let mut contents = [0; 2 * (MOST_CONTENTS + 2)];
    let middle = put_integer(&mut contents, 0, significant(r));
    let end = put_integer(&mut contents, middle, significant(s));
    let start = put_head(to, end);
    put(to, start, &contents[..end])
}

// Whether contents of an INTEGER are not negative, and have as few bytes as can be.
fn is_minimal(contents: &[u8]) -> bool
    requires { 0 < length contents.now }
    ensures { IsTrue result ↔ IsMinimal contents.now }
{
    if contents[0] >= 0x80 {
        return false;
    }
    if contents.len() == 1 || contents[0] != 0 {
        return true;
    }
    contents[1] >= 0x80
}

// The INTEGER at the start of bytes.
fn integer(bytes: &[u8]) -> Option<Parts>
    ensures { MatchOption result ((contents rest : List ℕ) → ¬ (BeginsWithInteger contents rest bytes.now))
        (λ parts. BeginsWithInteger parts.contents.now parts.rest.now bytes.now) }
{
    if bytes.len() < 3 || bytes[0] != INTEGER {
        return None;
    }
    let size = bytes[1] as usize;
    if size == 0 || size > MOST_CONTENTS || bytes.len() < 2 + size {
        return None;
    }
    let contents = &bytes[2..2 + size];
    if !is_minimal(contents) {
        return None;
    }
    Some(Parts {
        contents,
        rest: &bytes[2 + size..],
    })
}

// The contents of a SEQUENCE that the bytes are.
fn sequence(bytes: &[u8]) -> Option<&[u8]>
    ensures { MatchOption result ((contents : List ℕ) → ¬ (IsSequence contents bytes.now))
        (λ contents. IsSequence contents.now bytes.now) }
{
    if bytes.len() < 2 || bytes[0] != SEQUENCE {
        return None;
    }
    if bytes[1] < 0x80 {
        return if bytes.len() == 2 + bytes[1] as usize {
            Some(&bytes[2..])
        } else {
            None
        };
    }
    if bytes[1] != ONE_BYTE_LENGTH || bytes.len() < 3 {
        return None;
    }
    if bytes[2] < 0x80 || bytes.len() != 3 + bytes[2] as usize {
        return None;
    }
    Some(&bytes[3..])
}

/// The numbers that bytes encode, as their INTEGERs have them, or nothing where they are the encoding of no signature.
pub fn decode(bytes: &[u8]) -> Option<SignatureNumbers>
    ensures { MatchOption result ((r s : ℕ) → ¬ (IsSignatureEncoding r s bytes.now))
        (λ numbers. IsSignatureEncoding (number_of_bytes numbers.r.now) (number_of_bytes numbers.s.now) bytes.now) }
{
    let Some(contents) = sequence(bytes) else {
        return None;
    };
    let Some(first) = integer(contents) else {
        return None;
    };
    let Some(second) = integer(first.rest) else {
        return None;
    };
    if second.rest.is_empty() {
        Some(SignatureNumbers {
            r: first.contents,
            s: second.contents,
        })
    } else {
        None
    }
}
