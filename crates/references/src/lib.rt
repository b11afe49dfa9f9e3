// Which field names which (analyzer.rs: `has_payload_size`, `has_array_size`, `array_size`), over the tables of a record: the fields of the
// declaration with the index i are the n whose places `fields` has from 64 i on.
#![tactic(auto)]

ghost use Rattle.std.specs.Prelude.{◌≡◌, ◌+◌, ◌*◌, get_or};
ghost use Rattle.definitions.specs.Sizes.{reference, is_payload_size, is_array_size, is_element_size, any_reference};
ghost use Rattle.definitions.specs.Sizes.{has_payload_size, has_array_size, counted_by, first_count, array_size};
ghost use Rattle.definitions.specs.declared.ArraySize.{ArraySize};
ghost use Rattle.tables.specs.Tables.{field_here, fields_of};

use definitions::{ArraySize, Field, Part, Reference};
use tables::{KIND_COUNT, KIND_ELEMENT_SIZE, KIND_SIZE, Tables};

// The place of field k; 0 outside the table.
pub fn place_in(t: &Tables, i: usize, k: usize) -> usize
    ensures { result ≡ get_or t.now.fields (i * 64 + k) 0 }
{
    let n = t.fields.len();
    if n / 64 < i || n <= k {
        return 0;
    }
    tables::get(t.fields, i * 64 + k)
}

// Field k of the declaration with the index i.
pub fn field_in(t: &Tables, i: usize, k: usize) -> Field
    ensures { result ≡ field_here t.now.values (get_or t.now.fields (i * 64 + k) 0) }
{
    tables::field_here(t.values, place_in(t, i, k))
}

// What field k refers to. The table has numbers (fixed memory), so the kind is matched as one; of a field that refers to nothing no more is read. Most
// refer to nothing, and each walk asks all of them: a call for each takes longer than the test.
#[inline(always)]
fn reference_in(t: &Tables, i: usize, k: usize) -> Option<Reference>
    ensures { result ≡ reference (field_here t.now.values (get_or t.now.fields (i * 64 + k) 0)).desc }
{
    let at = place_in(t, i, k);
    match tables::kind_here(t.values, at) {
        KIND_SIZE => Some(Reference::Size {
            field_id: tables::name_here(t.values, at),
            width: tables::number_here(t.values, at, 4),
        }),
        KIND_COUNT => Some(Reference::Count {
            field_id: tables::name_here(t.values, at),
        }),
        KIND_ELEMENT_SIZE => Some(Reference::ElementSize {
            field_id: tables::name_here(t.values, at),
        }),
        _ => None,
    }
}

// ---- a field that gives a size

fn is_payload_size(rec: &[u8], by: Option<Reference>) -> bool
    ensures { result ≡ is_payload_size rec.now «by» }
{
    match by {
        Some(Reference::Size { field_id, .. }) => names::is_payload_id(rec, field_id),
        _ => false,
    }
}

fn is_array_size(rec: &[u8], id: Part, by: Option<Reference>) -> bool
    ensures { result ≡ is_array_size rec.now id «by» }
{
    match by {
        Some(Reference::Size { field_id, .. } | Reference::Count { field_id }) => names::same_name(
            rec, field_id, id,
        ),
        _ => false,
    }
}

fn is_element_size(rec: &[u8], id: Part, by: Option<Reference>) -> bool
    ensures { result ≡ is_element_size rec.now id «by» }
{
    match by {
        Some(Reference::ElementSize { field_id }) => names::same_name(rec, field_id, id),
        _ => false,
    }
}

pub fn has_payload_size(t: &Tables, i: usize, n: usize) -> bool
    ensures { result ≡ has_payload_size t.now.source (fields_of t.now i n) }
{
    (0..n).any(|k| is_payload_size(t.source, reference_in(t, i, k)))
}

pub fn has_array_size(t: &Tables, i: usize, n: usize, id: Part) -> bool
    ensures { result ≡ has_array_size t.now.source (fields_of t.now i n) id }
{
    (0..n).any(|k| is_array_size(t.source, id, reference_in(t, i, k)))
}

pub fn has_element_size(t: &Tables, i: usize, n: usize, id: Part) -> bool
    ensures { result ≡ any_reference (is_element_size t.now.source id) (fields_of t.now i n) }
{
    (0..n).any(|k| is_element_size(t.source, id, reference_in(t, i, k)))
}

// ---- the size of an array

// What one field makes of the size of the array `id`: unknown where it says nothing of it.
fn counted_by(rec: &[u8], id: Part, by: Option<Reference>) -> ArraySize
    ensures { result ≡ counted_by rec.now id «by» ArraySize.Unknown }
{
    match by {
        Some(Reference::Size { field_id, .. }) if names::same_name(rec, field_id, id) =>
            ArraySize::DynamicSize,
        Some(Reference::Count { field_id }) if names::same_name(rec, field_id, id) =>
            ArraySize::DynamicCount,
        _ => ArraySize::Unknown,
    }
}

// The first size or count field of the array decides.
fn first_count(t: &Tables, i: usize, n: usize, id: Part) -> ArraySize
    ensures { result ≡ first_count t.now.source id (fields_of t.now i n) }
{
    for k in 0..n {
        let size = counted_by(t.source, id, reference_in(t, i, k));
        if size != ArraySize::Unknown {
            return size;
        }
    }
    ArraySize::Unknown
}

// `array_size` of the array `id` with that `size`, in the declaration with the index i.
pub fn array_size(t: &Tables, i: usize, n: usize, id: Part, size: Option<u64>) -> ArraySize
    ensures { result ≡ array_size t.now.source (fields_of t.now i n) id size }
{
    match size {
        Some(count) => ArraySize::StaticCount(count),
        None => first_count(t, i, n, id),
    }
}
