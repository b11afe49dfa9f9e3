// The arm of `parse` in cxx.rs for an array, as a value: what `parse_array_field_lite`, `parse_array_field_full` and `parse_array_element` ask of the
// tables. The array is field k of the target; types are looked up among the declarations before it.
#![tactic(auto)]

ghost use Rattle.std.specs.Prelude.{◌≡◌, ◌<◌};
ghost use Rattle.tables.specs.Tables.{rows_of, fields_of};
ghost use Rattle.emits.specs.Target.{annotated_at};
ghost use Rattle.array_fields.specs.Arrays.{typed_element, element_at, bytes_of, array_at};

use annotate::ArrayParts;
use definitions::{EndiannessValue, EnumKind, Modifier, Part};
use elements::Element;
use emits::{BlockAt, Target};
use tables::Tables;

// `complete` spares no test here.
fn typed_element(endianness: EndiannessValue, e: Option<EnumKind>) -> Element
    ensures { result ≡ typed_element endianness e }
{
    match e {
        Some(
            EnumKind {
                width,
                is_open: true,
                ..
            },
        ) => Element::OpenEnum { endianness, width },
        Some(EnumKind { width, .. }) => Element::ClosedEnum { endianness, width },
        None => Element::Parsed,
    }
}

// How an element is read.
fn element_of(
    t: &Tables,
    i: usize,
    endianness: EndiannessValue,
    width: Option<u64>,
    type_id: Option<Part>,
) -> Element
    ensures { result ≡ element_at t.now.source (rows_of t.now i) endianness width type_id }
{
    match (width, type_id) {
        (Some(width), _) => Element::Scalar { endianness, width },
        (None, Some(name)) => typed_element(endianness, rows::enum_of(t, i, name)),
        (None, None) => Element::Parsed,
    }
}

// `schema.padded_size` of field k, in bytes.
fn padded_bytes(t: &Target, k: usize) -> Option<u64>
    requires { k < t.now.n }
    ensures { result ≡ bytes_of (annotated_at t.now.tables.now t.now.i t.now.n k).padded_size }
{
    annotate::padded_size(t.tables, t.i, t.n, k).map(|bits| bits / 8)
}

// The array as the record has it, and the target's byte order.
#[derive(Clone, Copy, Debug, PartialEq, Eq)]
pub struct ArrayField {
    pub id: Part,
    pub width: Option<u64>,
    pub type_id: Option<Part>,
    pub size_modifier: Modifier,
    pub size: Option<u64>,
    pub endianness: EndiannessValue,
}

pub fn parse_array_field(t: &Target, k: usize, array: ArrayField) -> BlockAt
    requires { k < t.now.n }
    ensures { result ≡ array_at t.now.tables.now.source (rows_of t.now.tables.now t.now.i) (fields_of t.now.tables.now t.now.i t.now.n)
        (annotated_at t.now.tables.now t.now.i t.now.n k).padded_size array }
{
    let ArrayField {
        id,
        width,
        type_id,
        size_modifier,
        size,
        endianness,
    } = array;
    let parts = ArrayParts {
        id,
        width,
        type_id,
        size,
    };
    BlockAt::Array {
        padding: padded_bytes(t, k),
        id,
        type_id,
        element: element_of(t.tables, t.i, endianness, width, type_id),
        modifier: size_modifier,
        element_size: sizes::element_size(t.tables, t.i, t.n, parts),
        array_size: references::array_size(t.tables, t.i, t.n, id, size),
    }
}
