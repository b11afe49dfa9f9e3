// Bytes and names of the record: fixed texts, numbers and names at a place, the bytes of a part, two names
// that are the same, and the written name, a part of the record or of the word lent beside it.
#![tactic(auto)]

ghost use Rattle.std.specs.Prelude.{◌≡◌, drop};
ghost use Rattle.definitions.specs.Bytes.{is_word, same, part as part_text};
ghost use Rattle.definitions.specs.Record.{key_at, number_at, some_digits, is_forbidden, name_of, name_at};
ghost use Rattle.definitions.specs.Sizes.{same_name, is_payload_id};
ghost use Rattle.names.specs.Written.{field_name, name_text};

use definitions::{Part, Read};

// A fixed text at a place: the place behind it.
pub fn key_at(rec: &[u8], at: usize, key: &[u8]) -> Option<usize>
    ensures { result ≡ key_at rec.now at key.now }
{
    let rest = rec.get(at..).unwrap_or(&[]);
    if rest.starts_with(key) {
        Some(at + key.len())
    } else {
        None
    }
}

// A letter, a digit or `_`.
#[tactic(auto, using(crate::proofs::Bytes::word_is))]
fn is_word(b: u8) -> bool
    ensures { result ≡ is_word b }
{
    b.is_ascii_alphanumeric() || b == b'_'
}

// A number at a place, with its newline: decimal, no leading zero, below 2 ^ 64.
pub fn number_at(rec: &[u8], at: usize) -> Read<u64>
    ensures { result ≡ number_at rec.now at }
{
    let first = *rec.get(at)?;
    if !first.is_ascii_digit() {
        return None;
    }
    let mut v = u64::from(first - b'0');
    for p in at + 1..rec.len() {
        let b = rec[p];
        if b == b'\n' {
            return Some((v, p + 1));
        }
        if !b.is_ascii_digit() || v == 0 {
            return None;
        }
        v = v.checked_mul(10)?.checked_add(u64::from(b - b'0'))?;
    }
    None
}

// At least one digit, and digits up to the newline.
fn some_digits(rec: &[u8], at: usize) -> bool
    ensures { result ≡ some_digits (drop at rec.now) }
{
    let rest = rec.get(at..).unwrap_or(&[]);
    match rest.iter().position(|b| !b.is_ascii_digit()) {
        Some(n) => rest[n] == b'\n' && n != 0,
        None => false,
    }
}

// `span`, `output`, or `chunk` with digits behind it.
#[tactic(auto, unfolding(definitions::specs::Record::is_forbidden))]
fn is_forbidden(rec: &[u8], at: usize) -> bool
    ensures { result ≡ is_forbidden rec.now at }
{
    key_at(rec, at, b"span\n").is_some()
        || key_at(rec, at, b"output\n").is_some()
        || key_at(rec, at, b"chunk").is_some_and(|p| some_digits(rec, p))
}

// 1 to 32 bytes up to the newline, letters, digits and `_`, no digit first. Of a longer name no more than 33 bytes are read.
fn name_of(rec: &[u8], at: usize) -> Read<Part>
    ensures { result ≡ name_of (drop at rec.now) at }
{
    let rest = rec.get(at..)?;
    let near = &rest[..rest.len().min(33)];
    let n = near.iter().position(|&b| !is_word(b))?;
    if n == 0 || near[n] != b'\n' || near[0].is_ascii_digit() {
        return None;
    }
    let end = at + n;
    Some((Part { start: at, end }, end + 1))
}

// A name at a place, with its newline, by the form alone: it may be a keyword of C++.
#[tactic(auto, unfolding(definitions::specs::Record::name_at))]
pub fn name_at(rec: &[u8], at: usize) -> Read<Part>
    ensures { result ≡ name_at rec.now at }
{
    if is_forbidden(rec, at) {
        return None;
    }
    name_of(rec, at)
}

// The bytes of a part of the record, as far as there are any.
pub fn part(rec: &[u8], p: Part) -> &[u8]
    ensures { result.now ≡ part_text rec.now p }
{
    let end = p.end.min(rec.len());
    rec.get(p.start..end).unwrap_or(&[])
}

// Two texts that are the same: the lengths first, since names mostly differ there, and then up to the first byte that differs. `==` of two slices takes
// longer for names that begin alike, and every look-up compares such.
fn same_bytes(a: &[u8], b: &[u8]) -> bool
    ensures { result ≡ same a.now b.now }
{
    if a.len() != b.len() {
        return false;
    }
    for i in 0..a.len() {
        if a[i] != b[i] {
            return false;
        }
    }
    true
}

// Two names that are the same.
pub fn same_name(rec: &[u8], p: Part, q: Part) -> bool
    ensures { result ≡ same_name rec.now p q }
{
    same_bytes(part(rec, p), part(rec, q))
}

// `_payload_` or `_body_`.
pub fn is_payload_id(rec: &[u8], p: Part) -> bool
    ensures { result ≡ is_payload_id rec.now p }
{
    let id = part(rec, p);
    id == b"_payload_".as_slice() || id == b"_body_".as_slice()
}

// What a written name comes from: a part of the record, or the word lent beside it.
#[derive(Clone, Copy, Debug, PartialEq, Eq)]
pub enum WrittenName {
    Part(Part),
    Payload,
}

// `field_name`: `payload` for `_payload_` and `_body_`.
pub fn field_name(rec: &[u8], of: Part) -> WrittenName
    ensures { result ≡ field_name rec.now of }
{
    if is_payload_id(rec, of) {
        return WrittenName::Payload;
    }
    WrittenName::Part(of)
}

// A part of either the record or the word bytes `payload`.
pub fn name<'a>(rec: &'a [u8], word: &'a [u8], written: WrittenName) -> &'a [u8]
    ensures { result.now ≡ name_text rec.now word.now written }
{
    match written {
        WrittenName::Part(p) => part(rec, p),
        WrittenName::Payload => word,
    }
}
