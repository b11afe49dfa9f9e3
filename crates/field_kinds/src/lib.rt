// What the bits of a bit field are put into, or held against: the arms of the `match` in `parse_bit_field` of cxx.rs. The `if` names of the target's
// fields are those of a table (crate conditions); types are looked up among the i declarations before it.
#![tactic(auto)]

ghost use Rattle.std.specs.Prelude.{◌≡◌};
ghost use Rattle.tables.specs.Tables.{rows_of};
ghost use Rattle.field_kinds.specs.KindOf.{member_kind, enum_kind, scalar_kind, kind_at};

use bit_fields::{End, KindAt};
use definitions::{EnumKind, FieldDesc, Part};
use names::WrittenName;
use tables::Tables;

// `{prefix}{id}_`
fn member_kind(id: Part) -> KindAt
    ensures { result ≡ member_kind id }
{
    KindAt::Number {
        name: WrittenName::Part(id),
        end: End::Member,
    }
}

#[tactic(auto, unfolding(crate::specs::KindOf::scalar_kind))]
fn scalar_kind(rec: &[u8], conds: &[Part], id: Part) -> KindAt
    ensures { result ≡ scalar_kind rec.now conds.now id }
{
    if conditions::is_cond_for(rec, conds, id) {
        KindAt::Condition { id }
    } else {
        member_kind(id)
    }
}

// A closed enum is tested by `IsValid`; `complete` spares the test here.
#[tactic(auto, unfolding(crate::specs::KindOf::enum_kind))]
fn enum_kind(id: Part, type_id: Part, e: Option<EnumKind>) -> KindAt
    ensures { result ≡ enum_kind id type_id e }
{
    match e {
        Some(kind) if kind.is_open || kind.is_complete => KindAt::OpenEnum { id, type_id },
        Some(_) => KindAt::ClosedEnum { id, type_id },
        None => member_kind(id),
    }
}

#[tactic(auto, unfolding(crate::specs::KindOf::kind_at))]
pub fn kind_of(t: &Tables, conds: &[Part], i: usize, desc: FieldDesc) -> KindAt
    ensures { result ≡ kind_at t.now.source (rows_of t.now i) conds.now desc }
{
    match desc {
        FieldDesc::Size { field_id, .. } => KindAt::Number {
            name: names::field_name(t.source, field_id),
            end: End::Size,
        },
        FieldDesc::Count { field_id, .. } => KindAt::Number {
            name: WrittenName::Part(field_id),
            end: End::Count,
        },
        FieldDesc::ElementSize { field_id, .. } => KindAt::Number {
            name: names::field_name(t.source, field_id),
            end: End::ElementSize,
        },
        FieldDesc::FixedScalar { value, .. } => KindAt::FixedScalar { value },
        FieldDesc::FixedEnum { enum_id, tag_id } => KindAt::FixedEnum { enum_id, tag_id },
        FieldDesc::Scalar { id, .. } => scalar_kind(t.source, conds, id),
        FieldDesc::Flag { id } => KindAt::Condition { id },
        FieldDesc::Typedef { id, type_id } => enum_kind(id, type_id, rows::enum_of(t, i, type_id)),
        FieldDesc::Checksum { .. }
        | FieldDesc::Padding { .. }
        | FieldDesc::Body
        | FieldDesc::Payload { .. }
        | FieldDesc::Reserved { .. }
        | FieldDesc::Array { .. } => KindAt::Reserved,
    }
}
