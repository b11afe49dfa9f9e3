// The kinds of fields of the record that are no bit fields: array, payload, body, padding and checksum.
#![tactic(auto)]

ghost use Rattle.std.specs.Prelude.{◌≡◌, drop};
ghost use Rattle.definitions.specs.Record.{array_at, payload_at, padding_at, checksum_at, choose};
ghost use Rattle.keywords.specs.Screens.{screen_desc};
ghost use Rattle.byte_kinds.specs.Words.{byte_kinds};

use definitions::{FieldDesc, Read};

// The keys `id width type mod count`. The array is of a width or of a type: exactly one of the two is absent.
#[tactic(auto, unfolding(definitions::specs::Record::array_at, definitions::specs::Record::array_rest, definitions::specs::Refusals::any_keyword))]
fn array_at(rec: &[u8], at: usize) -> Read<Option<FieldDesc>>
    ensures { result ≡ screen_desc rec.now (array_at rec.now at) }
{
    let (id, p) = keys::name_line(rec, at, b"id=")?;
    let (width, q) = keys::maybe_number_line(rec, p, b"width=")?;
    let (type_id, t) = keys::maybe_name_line(rec, q, b"type=")?;
    let (size_modifier, u) = keys::modifier_line(rec, t, b"mod=")?;
    let (size, v) = keys::maybe_number_line(rec, u, b"count=")?;
    if width.is_some() != matches!(type_id, Some(None)) {
        return None;
    }
    let (Some(id), Some(type_id)) = (id, type_id) else {
        return Some((None, v));
    };
    let desc = FieldDesc::Array {
        id,
        width,
        type_id,
        size_modifier,
        size,
    };
    Some((Some(desc), v))
}

// The key `mod`.
#[tactic(auto, unfolding(definitions::specs::Record::payload_at, definitions::specs::Refusals::any_keyword))]
fn payload_at(rec: &[u8], at: usize) -> Read<Option<FieldDesc>>
    ensures { result ≡ screen_desc rec.now (payload_at rec.now at) }
{
    let (size_modifier, p) = keys::modifier_line(rec, at, b"mod=")?;
    Some((Some(FieldDesc::Payload { size_modifier }), p))
}

// The key `bytes`.
#[tactic(auto, unfolding(definitions::specs::Record::padding_at, definitions::specs::Refusals::any_keyword))]
fn padding_at(rec: &[u8], at: usize) -> Read<Option<FieldDesc>>
    ensures { result ≡ screen_desc rec.now (padding_at rec.now at) }
{
    let (size, p) = keys::number_line(rec, at, b"bytes=")?;
    Some((Some(FieldDesc::Padding { size }), p))
}

// The key `of`.
#[tactic(auto, unfolding(definitions::specs::Record::checksum_at, definitions::specs::Refusals::any_keyword))]
fn checksum_at(rec: &[u8], at: usize) -> Read<Option<FieldDesc>>
    ensures { result ≡ screen_desc rec.now (checksum_at rec.now at) }
{
    let (name, p) = keys::name_line(rec, at, b"of=")?;
    Some((name.map(|field_id| FieldDesc::Checksum { field_id }), p))
}

// One of array, payload, body, padding and checksum, behind `field=`.
#[tactic(auto, unfolding(definitions::specs::Refusals::any_keyword))]
pub fn byte_kind(rec: &[u8], at: usize) -> Read<Option<FieldDesc>>
    ensures { result ≡ screen_desc rec.now (choose byte_kinds rec.now (drop at rec.now) at) }
{
    if let Some(p) = names::key_at(rec, at, b"array\n") {
        return array_at(rec, p);
    }
    if let Some(p) = names::key_at(rec, at, b"payload\n") {
        return payload_at(rec, p);
    }
    if let Some(p) = names::key_at(rec, at, b"body\n") {
        return Some((Some(FieldDesc::Body), p));
    }
    if let Some(p) = names::key_at(rec, at, b"padding\n") {
        return padding_at(rec, p);
    }
    checksum_at(rec, names::key_at(rec, at, b"checksum\n")?)
}
