// `parse` of cxx.rs for a field that is no bit field, as a value, with `parse_optional_field` (refusal 13): the arms of a typedef and a payload are in the
// crate `trailing`, that of an array in `array_fields`. The field is number k of the target.
#![tactic(auto)]

ghost use Rattle.std.specs.Prelude.{◌≡◌, ◌+◌, ◌<◌};
ghost use Rattle.tables.specs.Tables.{rows_of, fields_of};
ghost use Rattle.emits.specs.Target.{annotated_at, rest_at};
ghost use Rattle.fields.specs.Values.{optional_type, optional_at, other_of, other_at};
ghost use Rattle.fields.specs.Parsed.{parsed_at};

use array_fields::ArrayField;
use definitions::{Condition, EndiannessValue, EnumKind, FieldDesc, Modifier, Part, Refusal};
use emits::{BlockAt, EmitAt, Target};
use tables::Tables;
use trailing::TypedefParts;

// ---- an optional field

fn optional_typedef(cond: Condition, id: Part, type_id: Part, e: Option<EnumKind>) -> EmitAt
    ensures { result ≡ optional_type cond.id cond.value id type_id e }
{
    let Condition { id: cond, value } = cond;
    EmitAt::Appends(match e {
        Some(
            EnumKind {
                width,
                is_open: true,
                ..
            },
        ) => BlockAt::OptionalOpen {
            cond,
            value,
            width,
            id,
            type_id,
        },
        Some(EnumKind { width, .. }) => BlockAt::OptionalClosed {
            cond,
            value,
            width,
            id,
            type_id,
        },
        None => BlockAt::OptionalNested {
            cond,
            value,
            id,
            type_id,
        },
    })
}

fn parse_optional_field(t: &Tables, i: usize, cond: Condition, desc: FieldDesc) -> EmitAt
    ensures { result ≡ optional_at t.now.source (rows_of t.now i) cond.id cond.value desc }
{
    match desc {
        FieldDesc::Scalar { id, width } => EmitAt::Appends(BlockAt::OptionalScalar {
            cond: cond.id,
            value: cond.value,
            width,
            id,
        }),
        FieldDesc::Typedef { id, type_id } => {
            optional_typedef(cond, id, type_id, rows::enum_of(t, i, type_id))
        }
        FieldDesc::Checksum { .. }
        | FieldDesc::Padding { .. }
        | FieldDesc::Size { .. }
        | FieldDesc::Count { .. }
        | FieldDesc::ElementSize { .. }
        | FieldDesc::Body
        | FieldDesc::Payload { .. }
        | FieldDesc::FixedScalar { .. }
        | FieldDesc::FixedEnum { .. }
        | FieldDesc::Reserved { .. }
        | FieldDesc::Array { .. }
        | FieldDesc::Flag { .. } => EmitAt::Refuses(Refusal::UnsupportedOptional),
    }
}

// ---- `parse`

// What its arms tell apart in a field without a condition; bit fields do not come here.
#[derive(Clone, Copy, Debug, PartialEq, Eq)]
pub enum Other {
    Silent,
    Payload(Modifier),
    Array(ArrayField),
    Typedef(TypedefParts),
}

fn other_of(endianness: EndiannessValue, desc: FieldDesc) -> Other
    ensures { result ≡ other_of endianness desc }
{
    match desc {
        FieldDesc::Body => Other::Payload(Modifier::None),
        FieldDesc::Payload { size_modifier } => Other::Payload(size_modifier),
        FieldDesc::Array {
            id,
            width,
            type_id,
            size_modifier,
            size,
        } => Other::Array(ArrayField {
            id,
            width,
            type_id,
            size_modifier,
            size,
            endianness,
        }),
        FieldDesc::Typedef { id, type_id } => Other::Typedef(TypedefParts { id, type_id }),
        FieldDesc::Checksum { .. }
        | FieldDesc::Padding { .. }
        | FieldDesc::Size { .. }
        | FieldDesc::Count { .. }
        | FieldDesc::ElementSize { .. }
        | FieldDesc::FixedScalar { .. }
        | FieldDesc::FixedEnum { .. }
        | FieldDesc::Reserved { .. }
        | FieldDesc::Scalar { .. }
        | FieldDesc::Flag { .. } => Other::Silent,
    }
}

fn parse_other(t: &Target, k: usize, other: Other) -> EmitAt
    requires { k < t.now.n }
    ensures { result ≡ other_at t.now.tables.now.source (rows_of t.now.tables.now t.now.i) (fields_of t.now.tables.now t.now.i t.now.n) t.now.options.trailing
        (annotated_at t.now.tables.now t.now.i t.now.n k) (rest_at t.now.tables.now t.now.i t.now.n (k + 1)) other }
{
    match other {
        Other::Silent => EmitAt::Silent,
        Other::Payload(modifier) => trailing::parse_payload_field_lite(t, k, modifier),
        Other::Array(array) => EmitAt::Appends(array_fields::parse_array_field(t, k, array)),
        Other::Typedef(typedef) => trailing::parse_typedef_field(t, k, typedef),
    }
}

// What field k comes to where it is no bit field, on an octet boundary.
pub fn parse_unchecked(t: &Target, k: usize) -> EmitAt
    requires { k < t.now.n }
    ensures { result ≡ parsed_at t.now.tables.now t.now.i t.now.n k t.now.options }
{
    let f = references::field_in(t.tables, t.i, k);
    match f.cond {
        None => parse_other(t, k, other_of(t.options.endianness, f.desc)),
        Some(cond) => parse_optional_field(t.tables, t.i, cond, f.desc),
    }
}
