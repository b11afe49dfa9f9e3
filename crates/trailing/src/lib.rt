// `parse_typedef_field` and `parse_payload_field_lite` of cxx.rs as values, with `get_trailing_size`: refusal 14. The field is number k of the target's, on an
// octet boundary. With `padded` a later array counts its padded size.
#![tactic(auto)]

ghost use Rattle.std.specs.Prelude.{◌≡◌, ◌+◌, ◌<◌};
ghost use Rattle.definitions.specs.Sizes.{has_payload_size};
ghost use Rattle.definitions.specs.FieldParser.{is_array_field, later_size, get_trailing_size};
ghost use Rattle.tables.specs.Tables.{fields_of};
ghost use Rattle.emits.specs.Target.{rest_at, annotated_at};
ghost use Rattle.trailing.specs.Values.{static_number, typedef_up_to, typedef_at, unsized_at, payload_at};

use definitions::{Field, FieldDesc, Modifier, Part, Refusal, Size, Trailing};
use emits::{BlockAt, EmitAt, Target};

// ---- the fields behind

// `static_` of analyzer.rs.
fn static_bits(size: Size) -> Option<u64>
    ensures { result ≡ static_number size }
{
    match size {
        Size::Static(bits) => Some(bits),
        _ => None,
    }
}

// `schema.field_size` of field k.
fn field_size(t: &Target, k: usize) -> Size
    requires { k < t.now.n }
    ensures { result ≡ (annotated_at t.now.tables.now t.now.i t.now.n k).field_size }
{
    annotate::field_size(t.tables, t.i, t.n, references::field_in(t.tables, t.i, k))
}

// An array without a condition.
fn is_array_field(f: Field) -> bool
    ensures { result ≡ is_array_field f }
{
    match f.desc {
        FieldDesc::Array { .. } => f.cond.is_none(),
        FieldDesc::Checksum { .. }
        | FieldDesc::Padding { .. }
        | FieldDesc::Size { .. }
        | FieldDesc::Count { .. }
        | FieldDesc::ElementSize { .. }
        | FieldDesc::Body
        | FieldDesc::Payload { .. }
        | FieldDesc::FixedScalar { .. }
        | FieldDesc::FixedEnum { .. }
        | FieldDesc::Reserved { .. }
        | FieldDesc::Scalar { .. }
        | FieldDesc::Flag { .. }
        | FieldDesc::Typedef { .. } => false,
    }
}

// What field k counts behind a payload or a typedef.
fn later_size(t: &Target, k: usize) -> Size
    requires { k < t.now.n }
    ensures { result ≡ later_size t.now.options.trailing (annotated_at t.now.tables.now t.now.i t.now.n k) }
{
    let f = references::field_in(t.tables, t.i, k);
    let size = annotate::field_size(t.tables, t.i, t.n, f);
    match t.options.trailing {
        Trailing::Padded if is_array_field(f) => {
            bits::outer_size(size, annotate::padded_size(t.tables, t.i, t.n, k))
        }
        Trailing::Plain | Trailing::Padded => size,
    }
}

// The bits that all fields behind number k count; none where one of them is not static.
fn get_trailing_size(t: &Target, k: usize) -> Option<u64>
    requires { k < t.now.n }
    ensures { result ≡ get_trailing_size t.now.options.trailing (rest_at t.now.tables.now t.now.i t.now.n (k + 1)) }
{
    let mut trailing_size: u64 = 0;
    for j in k + 1..t.n {
        trailing_size += static_bits(later_size(t, j))?;
    }
    Some(trailing_size)
}

// ---- a typedef of a type that is no enum

// Its name, and that of its type.
#[derive(Clone, Copy, Debug, PartialEq, Eq)]
pub struct TypedefParts {
    pub id: Part,
    pub type_id: Part,
}

fn typedef_up_to(id: Part, type_id: Part, trailing_size: Option<u64>) -> EmitAt
    ensures { result ≡ typedef_up_to id type_id trailing_size }
{
    match trailing_size {
        None => EmitAt::Refuses(Refusal::MultipleUnknown),
        Some(bits) if 0 < bits => EmitAt::Appends(BlockAt::NestedUpTo {
            id,
            bytes: bits / 8,
            type_id,
        }),
        Some(_) => EmitAt::Appends(BlockAt::Nested { id, type_id }),
    }
}

pub fn parse_typedef_field(t: &Target, k: usize, typedef: TypedefParts) -> EmitAt
    requires { k < t.now.n }
    ensures { result ≡ typedef_at typedef.id typedef.type_id
        (get_trailing_size t.now.options.trailing (rest_at t.now.tables.now t.now.i t.now.n (k + 1)))
        (annotated_at t.now.tables.now t.now.i t.now.n k).field_size }
{
    let TypedefParts { id, type_id } = typedef;
    match field_size(t, k) {
        Size::Static(_) | Size::Dynamic => EmitAt::Appends(BlockAt::Nested { id, type_id }),
        Size::Unknown => typedef_up_to(id, type_id, get_trailing_size(t, k)),
    }
}

// ---- a payload or a body

fn unsized_payload(trailing_size: Option<u64>) -> EmitAt
    ensures { result ≡ unsized_at trailing_size }
{
    match trailing_size {
        None => EmitAt::Refuses(Refusal::MultipleUnknown),
        Some(bits) if 0 < bits => EmitAt::Appends(BlockAt::PayloadUpTo(bits / 8)),
        Some(_) => EmitAt::Appends(BlockAt::PayloadToEnd),
    }
}

pub fn parse_payload_field_lite(t: &Target, k: usize, size_modifier: Modifier) -> EmitAt
    requires { k < t.now.n }
    ensures { result ≡ payload_at size_modifier (has_payload_size t.now.tables.now.source (fields_of t.now.tables.now t.now.i t.now.n))
        (get_trailing_size t.now.options.trailing (rest_at t.now.tables.now t.now.i t.now.n (k + 1))) }
{
    if references::has_payload_size(t.tables, t.i, t.n) {
        return EmitAt::Appends(BlockAt::SizedPayload(size_modifier));
    }
    unsized_payload(get_trailing_size(t, k))
}
