//! Digital signature scheme 1 of ISO/IEC 9796-2, of moduli of whole bytes.
//!
//! Java Card's `ALG_RSA_SHA_ISO9796` and `ALG_RSA_SHA_ISO9796_MR` use it with SHA-1 and the trailer BC.

ghost use Rattle.std.specs.Prelude.{◌≡◌, ◌≤◌, ◌+◌, ◌++◌, ◌↔◌, ℕ, Bool, IsTrue, List, MatchOption, length, take};
ghost use Rattle.jc_rsa.specs.Iso9796.{IsRepresentative, capacity, header, heading, representative, trailer_bytes};

use crate::bytes::{MOST_ENCODING, first_other, put, put_repeated, same};
use jc_digests::kept::HashAlgorithm;

/// How an encoding ends.
#[derive(Clone, Copy)]
pub enum Trailer {
    /// The byte BC: the verifier knows the hash function.
    Implicit,
    /// A hash function's identifier, and the byte CC.
    Explicit(u8),
}

/// The parts of an encoding.
#[derive(Clone, Copy)]
pub struct Parts<'a> {
    /// Whether the message has more than its recoverable part.
    pub more: bool,

    /// The recoverable part of the message: its first bytes.
    pub recovered: &'a [u8],

    /// The message's digest.
    pub digest: &'a [u8],
}

impl Trailer {
    /// How many bytes it has.
    pub fn size(self) -> usize
        ensures { result ≡ length (trailer_bytes self) }
    {
        match self {
            Trailer::Implicit => 1,
            Trailer::Explicit(_) => 2,
        }
    }
}

/// How many bytes of a message are recoverable, by the sizes of its digest and of the encoding.
pub fn capacity(digest_size: usize, trailer: Trailer, encoding_size: usize) -> usize
    requires { digest_size + length (trailer_bytes trailer) + 1 ≤ encoding_size }
    ensures { result ≡ capacity digest_size trailer encoding_size }
{
    encoding_size - digest_size - trailer.size() - 1
}

fn put_trailer(trailer: Trailer, to: &mut [u8], at: usize) -> usize
    requires { at + length (trailer_bytes trailer) ≤ length to.old }
    ensures end { result ≡ at + length (trailer_bytes trailer) }
    ensures written { take result to.new ≡ take at to.old ++ trailer_bytes trailer }
{
    match trailer {
        Trailer::Implicit => put(to, at, &[0xbc]),
        Trailer::Explicit(identifier) => put(to, at, &[identifier, 0xcc]),
    }
}

fn header(more: bool) -> u8
    ensures value { result ≡ header more }
    ensures few { result ≤ 0x60 }
{
    if more { 0x60 } else { 0x40 }
}

// Writes the header and the padding as the first bytes, and returns the place after them.
fn put_heading(more: bool, count: usize, to: &mut [u8]) -> usize
    requires some { 1 ≤ count }
    requires fits { count ≤ length to.old }
    ensures end { result ≡ count }
    ensures written { take result to.new ≡ heading more count }
{
    let first = header(more);
    if count == 1 {
        return put(to, 0, &[first + 0x0a]);
    }
    let start = put(to, 0, &[first + 0x0b]);
    let end = put_repeated(to, start, count - 2, 0xbb);
    put(to, end, &[0xba])
}

// Writes the heading, the recoverable part of a message, its digest, and the trailer.
fn put_parts(more: bool, recoverable: &[u8], digest: &[u8], trailer: Trailer, to: &mut [u8])
    requires { length recoverable.now + length digest.now + length (trailer_bytes trailer) + 1
        ≤ length to.old }
    ensures { to.new ≡ representative more recoverable.now digest.now trailer (length to.old) }
{
    let count = to.len() - recoverable.len() - digest.len() - trailer.size();
    let start = put_heading(more, count, to);
    let middle = put(to, start, recoverable);
    let end = put(to, middle, digest);
    put_trailer(trailer, to, end);
}

/// Writes the encoding of the recoverable part of a message and of its digest. Where the message has more than that part, the part has
/// as many bytes as `capacity` returns.
pub fn encode(more: bool, recoverable: &[u8], digest: &[u8], trailer: Trailer, to: &mut [u8])
    requires room { length recoverable.now + length digest.now + length (trailer_bytes trailer) + 1
        ≤ length to.old }
    requires full { IsTrue more
        → length recoverable.now + length digest.now + length (trailer_bytes trailer) + 1 ≡ length to.old }
    ensures { to.new ≡ representative more recoverable.now digest.now trailer (length to.old) }
{
    put_parts(more, recoverable, digest, trailer, to);
}

// Where the header and the padding end, if an encoding begins with them.
fn heading_end(encoding: &[u8]) -> usize
    requires { 1 ≤ length encoding.now }
    ensures fits { result ≤ length encoding.now }
    ensures some { 1 ≤ result }
    ensures heading { (more : Bool) (count : ℕ) (rest : List ℕ) → 1 ≤ count
        → encoding.now ≡ heading more count ++ rest → result ≡ count }
{
    if encoding[0] == 0x4a || encoding[0] == 0x6a {
        return 1;
    }
    match first_other(encoding, 1, 0xbb) {
        Some(last) => last + 1,
        None => encoding.len(),
    }
}

// Whether an encoding says that the message has more than its recoverable part.
fn says_more(encoding: &[u8]) -> bool
    requires { 1 ≤ length encoding.now }
    ensures { (more : Bool) (count : ℕ) (rest : List ℕ) → 1 ≤ count
        → encoding.now ≡ heading more count ++ rest → result ≡ more }
{
    encoding[0] >= 0x60
}

// Whether these are the parts of an encoding.
fn has_parts(parts: Parts<'_>, trailer: Trailer, encoding: &[u8]) -> bool
    requires few { length encoding.now ≤ MOST_ENCODING }
    requires room { length parts.recovered.now + length parts.digest.now
        + length (trailer_bytes trailer) + 1 ≤ length encoding.now }
    ensures { IsTrue result ↔ (encoding.now ≡ representative parts.entry.more
        parts.entry.recovered.now parts.entry.digest.now trailer (length encoding.now)) }
{
    let mut buffer = [0; MOST_ENCODING];
    let expected = &mut buffer[..encoding.len()];
    put_parts(parts.more, parts.recovered, parts.digest, trailer, expected);
    same(expected, encoding)
}

/// Returns the parts of an encoding, whose digest has `digest_size` bytes, or nothing where it is no encoding.
pub fn decode(digest_size: usize, trailer: Trailer, encoding: &[u8]) -> Option<Parts<'_>>
    requires few { length encoding.now ≤ MOST_ENCODING }
    requires digest { digest_size ≤ MOST_ENCODING }
    ensures { MatchOption result
        ((more : Bool) (m h : List ℕ)
        → ¬ (IsRepresentative trailer digest_size more m h encoding.now))
        (λ p. IsRepresentative trailer digest_size
        p.more p.recovered.now p.digest.now encoding.now) }
{
    let overhead = digest_size + trailer.size();
    if encoding.len() <= overhead {
        return None;
    }
    let start = heading_end(encoding);
    let end = encoding.len() - overhead;
    let more = says_more(encoding);
    if end < start {
        return None;
    }
    if more && start > 1 {
        return None;
    }
    let parts = Parts {
        more,
        recovered: &encoding[start..end],
        digest: &encoding[end..end + digest_size],
    };
    if has_parts(parts, trailer, encoding) {
        Some(parts)
    } else {
        None
    }
}
