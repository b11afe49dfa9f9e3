// Refusals 4 and 5 over the tables of a record (document 01, 'The answer'; `Scope::new` of analyzer.rs refuses duplicates too): two declarations with
// one name, and a type or parent that is no earlier declaration of its kind.
#![tactic(auto)]

ghost use Rattle.std.specs.Prelude.{Bool, ◌≡◌, false, [], ◌+◌, ◌-◌, ◌≤◌};
ghost use Rattle.definitions.specs.Bytes.{any};
ghost use Rattle.definitions.specs.Refusals.{too_many, duplicate_name, find as find_desc, is_there, is_frame, is_enum_desc, lacks as lacks_desc, bad_name};
ghost use Rattle.definitions.specs.Refusals.{bad_type, bad_names, unknown_name};
ghost use Rattle.definitions.specs.declared.DeclDesc.{DeclDesc as D};
ghost use Rattle.tables.specs.Tables.{field_here, fields_from, count_here, declaration_in, declarations_from};
ghost use Rattle.ranges.specs.Ranges.{bare};
ghost use Rattle.scope.specs.Scopes.{has_name, bad_field_type};

use definitions::{DeclDesc, FieldDesc, Part};
use tables::{KIND_FIXED_ENUM, Tables};

// ---- 4: two declarations with one name

// One of the declarations from `first` up to n has the name.
fn is_named(t: &Tables, first: usize, n: usize, name: Part) -> bool
    ensures { result ≡ any (has_name t.now.source name) (declarations_from t.now.rows [] [] first (n - first)) }
{
    (first..n).any(|i| names::same_name(t.source, name, tables::id_here(t.rows, i)))
}

// Two of the first n declarations have one name.
pub fn duplicate_name(t: &Tables, n: usize) -> bool
    ensures { result ≡ duplicate_name t.now.source (bare t.now.rows n) }
{
    (0..n).any(|i| is_named(t, i + 1, n, tables::id_here(t.rows, i)))
}

// ---- 5: a type or parent is not an earlier declaration, a parent is no packet or struct, a fixed enum's type is no enum

// None of the first n declarations has the name, or the first that has it is not what `ok` asks for.
fn lacks<F: Fn(DeclDesc) -> bool>(t: &Tables, n: usize, ok: F, name: Part) -> bool
    requires { (d : D) → F.pre ok d }
    ensures { (g : D → Bool) → ((d : D) (b : Bool) → F.post ok d b → b ≡ g d)
        → result ≡ lacks_desc g (find_desc t.now.source (bare t.now.rows n) name) }
{
    match tables::find(t, n, name) {
        None => true,
        Some(i) => !ok(tables::decl_here(t.rows, i).desc),
    }
}

fn lacks_any(t: &Tables, n: usize, name: Part) -> bool
    ensures { result ≡ lacks_desc is_there (find_desc t.now.source (bare t.now.rows n) name) }
{
    lacks(t, n, |_| true, name)
}

fn lacks_enum(t: &Tables, n: usize, name: Part) -> bool
    ensures { result ≡ lacks_desc is_enum_desc (find_desc t.now.source (bare t.now.rows n) name) }
{
    lacks(t, n, |desc| matches!(desc, DeclDesc::Enum { .. }), name)
}

// The type of a field of the declaration behind the first n.
fn bad_type(t: &Tables, n: usize, desc: FieldDesc) -> bool
    ensures { result ≡ bad_type t.now.source (bare t.now.rows n) desc }
{
    match desc {
        FieldDesc::FixedEnum { enum_id, .. } => lacks_enum(t, n, enum_id),
        FieldDesc::Array {
            type_id: Some(type_id),
            ..
        }
        | FieldDesc::Typedef { type_id, .. } => lacks_any(t, n, type_id),
        FieldDesc::Checksum { .. }
        | FieldDesc::Padding { .. }
        | FieldDesc::Size { .. }
        | FieldDesc::Count { .. }
        | FieldDesc::ElementSize { .. }
        | FieldDesc::Body
        | FieldDesc::Payload { .. }
        | FieldDesc::FixedScalar { .. }
        | FieldDesc::Reserved { .. }
        | FieldDesc::Array { .. }
        | FieldDesc::Scalar { .. }
        | FieldDesc::Flag { .. } => false,
    }
}

// The same of the field whose place is `at`. The table has numbers (fixed memory), so the kind is compared as one: only from a fixed enum on a field has a
// type, and of others no more is read.
fn bad_field_type(t: &Tables, n: usize, at: usize) -> bool
    ensures { result ≡ bad_field_type t.now.source (bare t.now.rows n) (field_here t.now.values at) }
{
    KIND_FIXED_ENUM <= tables::kind_here(t.values, at)
        && bad_type(t, n, tables::field_here(t.values, at).desc)
}

// The types of m fields, whose places the table has from `base` on.
fn bad_types(t: &Tables, n: usize, base: usize, m: usize) -> bool
    requires { base + m ≤ 4096 }
    ensures { result ≡ any (bad_field_type t.now.source (bare t.now.rows n)) (fields_from t.now.values t.now.fields base m) }
{
    (base..base + m).any(|k| bad_field_type(t, n, tables::get(t.fields, k)))
}

fn bad_parent(t: &Tables, n: usize, parent: Option<Part>) -> bool
    ensures { result ≡ bad_name t.now.source (bare t.now.rows n) is_frame parent }
{
    match parent {
        Some(name) => lacks(t, n, tables::is_frame, name),
        None => false,
    }
}

// The parent and the types of the declaration with the index i.
fn bad_names(t: &Tables, i: usize) -> bool
    requires i_bound { i ≤ 32 }
    requires i_bound_2 { count_here t.now.rows i ≤ 64 }
    ensures { result ≡ bad_names t.now.source (bare t.now.rows i) (declaration_in t.now.rows t.now.values t.now.fields i) }
{
    let parent = tables::parent_id(tables::decl_here(t.rows, i).desc);
    bad_parent(t, i, parent) || bad_types(t, i, i * 64, tables::count_here(t.rows, i))
}

// A name of the first n declarations, where 3 is not met.
pub fn unknown_name(t: &Tables, n: usize) -> bool
    requires { too_many (bare t.now.rows n) ≡ false }
    ensures { result ≡ unknown_name t.now.source (declarations_from t.now.rows t.now.values t.now.fields 0 n) }
{
    (0..n).any(|i| bad_names(t, i))
}
