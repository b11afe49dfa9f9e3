// The kinds of fields of the record that can be bit fields, and the choice by the line `field=KIND`. The form is read to its end before a name is
// found to be a keyword of C++.
#![tactic(auto)]

ghost use Rattle.std.specs.Prelude.{◌≡◌, ℕ, [], ◌∷◌, drop};
ghost use Rattle.definitions.specs.Record.{named_width, fixed_scalar_at, fixed_enum_at, reserved_at, flag_at, typedef_at, choose, desc_at};
ghost use Rattle.definitions.specs.Refusals.{desc_names};
ghost use Rattle.definitions.specs.declared.Part.{Part as P};
ghost use Rattle.definitions.specs.declared.FieldDesc.{FieldDesc as D};
ghost use Rattle.keywords.specs.Screens.{screen_desc};
ghost use Rattle.kinds.specs.Words.{from_numbers, from_symbols};

use definitions::{FieldDesc, Part, Read};

// A name under `key`, and the key `width`: a field that is made of the two.
#[tactic(auto, unfolding(definitions::specs::Refusals::any_keyword))]
fn named_width<F: FnOnce(Part, u64) -> FieldDesc>(
    rec: &[u8],
    at: usize,
    key: &[u8],
    make: F,
) -> Read<Option<FieldDesc>>
    requires { (n : P) (w : ℕ) → F.pre make n w }
    ensures { (g : P → ℕ → D) → ((n : P) (w : ℕ) → desc_names (g n w) ≡ n ∷ [])
        → ((n : P) (w : ℕ) (d : D) → F.post make n w d → d ≡ g n w)
        → result ≡ screen_desc rec.now (named_width key.now g rec.now at) }
{
    let (name, p) = keys::name_line(rec, at, key)?;
    let (width, q) = keys::number_line(rec, p, b"width=")?;
    let Some(name) = name else {
        return Some((None, q));
    };
    Some((Some(make(name, width)), q))
}

// The keys `width value`.
#[tactic(auto, unfolding(definitions::specs::Record::fixed_scalar_at, definitions::specs::Refusals::any_keyword))]
fn fixed_scalar_at(rec: &[u8], at: usize) -> Read<Option<FieldDesc>>
    ensures { result ≡ screen_desc rec.now (fixed_scalar_at rec.now at) }
{
    let (width, p) = keys::number_line(rec, at, b"width=")?;
    let (value, q) = keys::number_line(rec, p, b"value=")?;
    Some((Some(FieldDesc::FixedScalar { width, value }), q))
}

// The keys `type tag`.
#[tactic(auto, unfolding(definitions::specs::Record::fixed_enum_at, definitions::specs::Refusals::any_keyword))]
fn fixed_enum_at(rec: &[u8], at: usize) -> Read<Option<FieldDesc>>
    ensures { result ≡ screen_desc rec.now (fixed_enum_at rec.now at) }
{
    let (enum_id, p) = keys::name_line(rec, at, b"type=")?;
    let (tag_id, q) = keys::name_line(rec, p, b"tag=")?;
    let desc = enum_id.zip(tag_id).map(|(enum_id, tag_id)| FieldDesc::FixedEnum {
        enum_id,
        tag_id,
    });
    Some((desc, q))
}

// The key `width`.
#[tactic(auto, unfolding(definitions::specs::Record::reserved_at, definitions::specs::Refusals::any_keyword))]
fn reserved_at(rec: &[u8], at: usize) -> Read<Option<FieldDesc>>
    ensures { result ≡ screen_desc rec.now (reserved_at rec.now at) }
{
    let (width, p) = keys::number_line(rec, at, b"width=")?;
    Some((Some(FieldDesc::Reserved { width }), p))
}

// The key `id`.
#[tactic(auto, unfolding(definitions::specs::Record::flag_at, definitions::specs::Refusals::any_keyword))]
fn flag_at(rec: &[u8], at: usize) -> Read<Option<FieldDesc>>
    ensures { result ≡ screen_desc rec.now (flag_at rec.now at) }
{
    let (id, p) = keys::name_line(rec, at, b"id=")?;
    Some((id.map(|id| FieldDesc::Flag { id }), p))
}

// The keys `id type`.
#[tactic(auto, unfolding(definitions::specs::Record::typedef_at, definitions::specs::Refusals::any_keyword))]
fn typedef_at(rec: &[u8], at: usize) -> Read<Option<FieldDesc>>
    ensures { result ≡ screen_desc rec.now (typedef_at rec.now at) }
{
    let (id, p) = keys::name_line(rec, at, b"id=")?;
    let (type_id, q) = keys::name_line(rec, p, b"type=")?;
    let desc = id
        .zip(type_id)
        .map(|(id, type_id)| FieldDesc::Typedef { id, type_id });
    Some((desc, q))
}

// A kind of field with its keys: `field=` is compared once, then the word behind it.
pub fn desc_at(rec: &[u8], at: usize) -> Read<Option<FieldDesc>>
    ensures { result ≡ screen_desc rec.now (desc_at rec.now at) }
{
    number_kind(rec, names::key_at(rec, at, b"field=")?)
}

// The kinds with a width and a number, or a later one.
#[tactic(auto, unfolding(definitions::specs::Record::scalar_at, definitions::specs::Record::size_at, definitions::specs::Record::count_at, definitions::specs::Record::element_size_at))]
fn number_kind(rec: &[u8], at: usize) -> Read<Option<FieldDesc>>
    ensures { result ≡ screen_desc rec.now (choose from_numbers rec.now (drop at rec.now) at) }
{
    if let Some(p) = names::key_at(rec, at, b"scalar\n") {
        return named_width(rec, p, b"id=", |id, width| FieldDesc::Scalar { id, width });
    }
    if let Some(p) = names::key_at(rec, at, b"size\n") {
        return named_width(
            rec,
            p,
            b"of=",
            |field_id, width| FieldDesc::Size { field_id, width },
        );
    }
    if let Some(p) = names::key_at(rec, at, b"count\n") {
        return named_width(
            rec,
            p,
            b"of=",
            |field_id, width| FieldDesc::Count { field_id, width },
        );
    }
    if let Some(p) = names::key_at(rec, at, b"elemsize\n") {
        return named_width(
            rec,
            p,
            b"of=",
            |field_id, width| FieldDesc::ElementSize { field_id, width },
        );
    }
    if let Some(p) = names::key_at(rec, at, b"fixed\n") {
        return fixed_scalar_at(rec, p);
    }
    symbol_kind(rec, at)
}

// The other kinds that can be bit fields, or a later one.
fn symbol_kind(rec: &[u8], at: usize) -> Read<Option<FieldDesc>>
    ensures { result ≡ screen_desc rec.now (choose from_symbols rec.now (drop at rec.now) at) }
{
    if let Some(p) = names::key_at(rec, at, b"fixedenum\n") {
        return fixed_enum_at(rec, p);
    }
    if let Some(p) = names::key_at(rec, at, b"reserved\n") {
        return reserved_at(rec, p);
    }
    if let Some(p) = names::key_at(rec, at, b"flag\n") {
        return flag_at(rec, p);
    }
    if let Some(p) = names::key_at(rec, at, b"typedef\n") {
        return typedef_at(rec, p);
    }
    byte_kinds::byte_kind(rec, at)
}
