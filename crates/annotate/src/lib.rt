// `annotate_field` and the padded sizes (analyzer.rs), and what the fields of one declaration come to, in one pass over them. The declaration has the
// index i: names are looked up in the i rows before, its fields are the n whose places `fields` has from 64 i on. What is over the limit is capped.
#![tactic(auto)]

ghost use Rattle.std.specs.Prelude.{◌≡◌, false, ◌||◌, ◌+◌, ◌*◌, ◌-◌};
ghost use Rattle.definitions.specs.Bytes.{pick};
ghost use Rattle.definitions.specs.Sizes.{array_bits, desc_size, annotate_field, annotate_fields, padding_bits, padded_by};
ghost use Rattle.definitions.specs.Sizes.{is_payload, outer_size, add_size};
ghost use Rattle.definitions.specs.Refusals.{large_size, too_large, bad_maybe};
ghost use Rattle.tables.specs.Tables.{rows_of, fields_of, fields_from};
ghost use Rattle.bits.specs.Capped.{capped, capped_number};
ghost use Rattle.annotate.specs.Sums.{add_field, next_field, sum_fields, no_fields};

use definitions::{Field, FieldDesc, Part, Size};
use tables::Tables;

// ---- the size of a field

// What the size of an array depends on.
#[derive(Clone, Copy, Debug, PartialEq, Eq)]
pub struct ArrayParts {
    pub id: Part,
    pub width: Option<u64>,
    pub type_id: Option<Part>,
    pub size: Option<u64>,
}

fn array_bits(t: &Tables, i: usize, n: usize, array: ArrayParts) -> Size
    ensures { result ≡ capped (array_bits t.now.source (rows_of t.now i) (fields_of t.now i n) array.id array.width array.type_id array.size) }
{
    match (array.size, array.width, array.type_id) {
        (None, _, _) => bits::given(references::has_array_size(t, i, n, array.id)),
        (Some(count), Some(width), _) => Size::Static(bits::product(count, width)),
        (Some(count), None, Some(name)) => { bits::mul_size(rows::total_of(t, i, name), count) }
        (Some(_), None, None) => Size::Unknown,
    }
}

// A field without a condition.
fn desc_size(t: &Tables, i: usize, n: usize, desc: FieldDesc) -> Size
    ensures { result ≡ capped (desc_size t.now.source (rows_of t.now i) (fields_of t.now i n) desc) }
{
    match desc {
        FieldDesc::Checksum { .. } | FieldDesc::Padding { .. } => Size::Static(0),
        FieldDesc::Size { width, .. }
        | FieldDesc::Count { width, .. }
        | FieldDesc::ElementSize { width, .. }
        | FieldDesc::FixedScalar { width, .. }
        | FieldDesc::Reserved { width }
        | FieldDesc::Scalar { width, .. } => Size::Static(bits::cap(width)),
        FieldDesc::Flag { .. } => Size::Static(1),
        FieldDesc::Body | FieldDesc::Payload { .. } => bits::given(references::has_payload_size(
            t, i, n,
        )),
        FieldDesc::FixedEnum { enum_id: name, .. } | FieldDesc::Typedef { type_id: name, .. } => {
            bits::capped(rows::total_of(t, i, name))
        }
        FieldDesc::Array {
            id,
            width,
            type_id,
            size,
            ..
        } => array_bits(
            t,
            i,
            n,
            ArrayParts {
                id,
                width,
                type_id,
                size,
            },
        ),
    }
}

// `annotate_field`: an optional field is dynamic.
pub fn annotate_field(t: &Tables, i: usize, n: usize, f: Field) -> Size
    ensures { result ≡ capped (annotate_field t.now.source (rows_of t.now i) (fields_of t.now i n) f) }
{
    if f.cond.is_some() {
        return Size::Dynamic;
    }
    desc_size(t, i, n, f.desc)
}

// The same where the size is known not to be over the limit, as behind refusal 7.
pub fn field_size(t: &Tables, i: usize, n: usize, f: Field) -> Size
    requires { large_size (annotate_field t.now.source (rows_of t.now i) (fields_of t.now i n) f) ≡ false }
    ensures { result ≡ annotate_field t.now.source (rows_of t.now i) (fields_of t.now i n) f }
{
    annotate_field(t, i, n, f)
}

// ---- the padded size

fn padding_bits(desc: FieldDesc) -> Option<u64>
    ensures { result ≡ capped_number (padding_bits desc) }
{
    match desc {
        FieldDesc::Padding { size } => Some(bits::product(8, size)),
        FieldDesc::Checksum { .. }
        | FieldDesc::Size { .. }
        | FieldDesc::Count { .. }
        | FieldDesc::ElementSize { .. }
        | FieldDesc::Body
        | FieldDesc::Payload { .. }
        | FieldDesc::FixedScalar { .. }
        | FieldDesc::FixedEnum { .. }
        | FieldDesc::Reserved { .. }
        | FieldDesc::Array { .. }
        | FieldDesc::Scalar { .. }
        | FieldDesc::Flag { .. }
        | FieldDesc::Typedef { .. } => None,
    }
}

// `padded_size` of field k: what the field behind it sets. Only a padding sets one; of others no more than the kind is read.
pub fn padded_size(t: &Tables, i: usize, n: usize, k: usize) -> Option<u64>
    ensures { result ≡ capped_number (padded_by (fields_from t.now.values t.now.fields (i * 64 + (k + 1)) (n - (k + 1)))) }
{
    if n <= k || n <= k + 1 {
        return None;
    }
    let at = references::place_in(t, i, k + 1);
    if tables::kind_here(t.values, at) != tables::KIND_PADDING {
        return None;
    }
    padding_bits(tables::field_here(t.values, at).desc)
}

// ---- what the fields come to

// A field is over the limit, the sum over the fields that are no payload, the size of the last payload, the sum of the static sizes.
#[derive(Clone, Copy, Debug, PartialEq, Eq)]
pub struct FieldSums {
    pub large: bool,
    pub sum: Size,
    pub payload: Size,
    pub bits: u64,
}

fn is_payload(desc: FieldDesc) -> bool
    ensures { result ≡ is_payload desc }
{
    match desc {
        FieldDesc::Body | FieldDesc::Payload { .. } => true,
        FieldDesc::Checksum { .. }
        | FieldDesc::Padding { .. }
        | FieldDesc::Size { .. }
        | FieldDesc::Count { .. }
        | FieldDesc::ElementSize { .. }
        | FieldDesc::FixedScalar { .. }
        | FieldDesc::FixedEnum { .. }
        | FieldDesc::Reserved { .. }
        | FieldDesc::Array { .. }
        | FieldDesc::Scalar { .. }
        | FieldDesc::Flag { .. }
        | FieldDesc::Typedef { .. } => false,
    }
}

fn add_large(large: bool, size: Size, padded: Option<u64>) -> bool
    ensures { result ≡ (large || (large_size size || bad_maybe too_large padded)) }
{
    large
        || bits::large_size(size)
        || matches!(padded, Some(bits) if bits::large_size(Size::Static(bits)))
}

fn add_field(sums: FieldSums, payload: bool, size: Size, padded: Option<u64>) -> FieldSums
    ensures { result ≡ add_field sums payload size padded }
{
    FieldSums {
        large: add_large(sums.large, size, padded),
        sum: if payload {
            sums.sum
        } else {
            bits::add_capped(sums.sum, bits::outer_size(size, padded))
        },
        payload: if payload {
            bits::capped(size)
        } else {
            sums.payload
        },
        bits: bits::add_bits(sums.bits, size),
    }
}

// Field k more.
fn next_field(t: &Tables, i: usize, n: usize, k: usize, sums: FieldSums) -> FieldSums
    ensures { result ≡ next_field t.now.source (rows_of t.now i) t.now.values t.now.fields (i * 64) n k sums }
{
    let f = references::field_in(t, i, k);
    let size = annotate_field(t, i, n, f);
    add_field(sums, is_payload(f.desc), size, padded_size(t, i, n, k))
}

pub fn sum_fields(t: &Tables, i: usize, n: usize) -> FieldSums
    ensures { result ≡ sum_fields no_fields (annotate_fields t.now.source (rows_of t.now i) (fields_of t.now i n) (fields_of t.now i n)) }
{
    let mut sums = FieldSums {
        large: false,
        sum: Size::Static(0),
        payload: Size::Static(0),
        bits: 0,
    };
    for k in 0..n {
        sums = next_field(t, i, n, k, sums);
    }
    sums
}
