// The record as values: what the reader read, as numbers of two tables, so that no text is read twice. `rows` has 13 numbers for each declaration, `values`
// 17 for each field at 17 * (its place / 16); `fields` (document 01, 'Form') has the places of the fields, 64 for each declaration. Each is written whole
// and read back by one function, or a name, a number or a condition alone; what is read back is what was written (proofs/Again).
#![tactic(auto)]

ghost use Rattle.std.specs.Prelude.{◌≡◌, [], ◌∷◌, ◌++◌, ◌+◌, ◌*◌, ◌/◌, ◌≤◌, ◌<◌, ◌^◌, get_or, set};
ghost use Rattle.std.proofs.lemmas.List.Edits.{sets};
ghost use Rattle.definitions.specs.Record.{part_of};
ghost use Rattle.definitions.specs.Refusals.{is_frame};
ghost use Rattle.definitions.specs.Sizes.{parent_id};
ghost use Rattle.definitions.specs.declared.FieldDesc.{FieldDesc};
ghost use Rattle.tables.specs.Words.{bit_word, part_words, maybe_words, maybe_part_words, modifier_words, plain_words, typed_words, shape_words};
ghost use Rattle.tables.specs.Words.{desc_words, cond_words, field_words, decl_desc_words, stated_words, decl_words};
ghost use Rattle.tables.specs.Words.{bit_of, maybe_of, maybe_part_of, modifier_of, plain_of, desc_of, cond_of, field_of, decl_desc_of, stated_of, decl_of};
ghost use Rattle.tables.specs.Tables.{field_here, decl_here, count_here, decls_from, which};

use definitions::{Condition, Decl, DeclDesc, Field, FieldDesc, Modifier, Part, Size};
use std::marker::Model;

// A record and its tables, lent.
#[derive(Drop)]
pub struct Tables<'a> {
    pub source: &'a [u8],
    pub rows: &'a [u64],
    pub values: &'a [u64],
    pub fields: &'a [u16],
}

impl<'a> Model for Tables<'a> {
    ghost use Rattle.tables.specs.Tables.{Tables as Seen, tables_of};

    ghost Value = { Seen };

    ghost view = { λ t. tables_of t.source.now t.rows.now t.values.now t.fields.now };
}

// The kinds of a field as the table has them. A kind above the last is an array's too.
pub const KIND_BODY: u64 = 0;

pub const KIND_CHECKSUM: u64 = 1;

pub const KIND_PADDING: u64 = 2;

pub const KIND_SIZE: u64 = 3;

pub const KIND_COUNT: u64 = 4;

pub const KIND_ELEMENT_SIZE: u64 = 5;

pub const KIND_FIXED_SCALAR: u64 = 6;

pub const KIND_RESERVED: u64 = 7;

pub const KIND_SCALAR: u64 = 8;

pub const KIND_FLAG: u64 = 9;

pub const KIND_FIXED_ENUM: u64 = 10;

pub const KIND_TYPEDEF: u64 = 11;

pub const KIND_PAYLOAD: u64 = 12;

pub const KIND_ARRAY: u64 = 13;

// ---- the entries of a table

// An entry of the table of places, and 0 outside it. A place is below 16,384, so the table has 16 bits for each.
pub fn get(t: &[u16], i: usize) -> usize
    ensures { result ≡ get_or t.now i 0 }
{
    usize::from(t.get(i).copied().unwrap_or(0))
}

// An entry of a table of numbers, and 0 outside it.
pub fn number(words: &[u64], i: usize) -> u64
    ensures { result ≡ get_or words.now i 0 }
{
    words.get(i).copied().unwrap_or(0)
}

// Sets an entry of a table; nothing is written outside it.
fn set_entry<T: Copy>(t: &mut [T], i: usize, v: T)
    ensures { t.new ≡ set t.old i v }
{
    if i < t.len() {
        t[i] = v;
    }
}

// Sets an entry of the table of places; nothing is written outside it.
pub fn put(t: &mut [u16], i: usize, v: usize)
    requires { v < 2 ^ 16 }
    ensures { t.new ≡ set t.old i v }
{
    set_entry(t, i, v as u16);
}

// Sets an entry of a table of numbers; nothing is written outside it.
pub fn put_number(words: &mut [u64], i: usize, n: u64)
    ensures { words.new ≡ set words.old i n }
{
    set_entry(words, i, n);
}

// ---- reading back from the entry `at` on; what reads one table takes it alone, also while the others are filled

// The number k entries behind `at`.
fn word(t: &[u64], at: usize, k: usize) -> u64
    ensures { result ≡ get_or t.now (at + k) 0 }
{
    if t.len() <= at || t.len() <= k {
        return 0;
    }
    number(t, at + k)
}

fn place_at(t: &[u64], at: usize, k: usize) -> usize
    ensures { result ≡ get_or t.now (at + k) 0 }
{
    word(t, at, k) as usize
}

// The part whose start and end are the numbers k and l entries behind `at`.
fn part_at(t: &[u64], at: usize, k: usize, l: usize) -> Part
    ensures { result ≡ part_of (get_or t.now (at + k) 0) (get_or t.now (at + l) 0) }
{
    Part {
        start: place_at(t, at, k),
        end: place_at(t, at, l),
    }
}

fn bit_of(n: u64) -> bool
    ensures { result ≡ bit_of n }
{
    n != 0
}

#[tactic(auto, unfolding(crate::specs::Words::maybe_of))]
fn maybe_of(tag: u64, n: u64) -> Option<u64>
    ensures { result ≡ maybe_of tag n }
{
    (tag != 0).then_some(n)
}

#[tactic(auto, unfolding(crate::specs::Words::maybe_part_of))]
fn maybe_part_of(tag: u64, from: usize, to: usize) -> Option<Part>
    ensures { result ≡ maybe_part_of tag from to }
{
    (tag != 0).then_some(Part {
        start: from,
        end: to,
    })
}

#[tactic(auto, unfolding(crate::specs::Words::modifier_of))]
fn modifier_of(sign: u64, n: u64) -> Modifier
    ensures { result ≡ modifier_of sign n }
{
    match sign {
        0 => Modifier::None,
        1 => Modifier::Plus(n),
        _ => Modifier::Minus(n),
    }
}

fn maybe_at(t: &[u64], at: usize, k: usize, l: usize) -> Option<u64>
    ensures { result ≡ maybe_of (get_or t.now (at + k) 0) (get_or t.now (at + l) 0) }
{
    maybe_of(word(t, at, k), word(t, at, l))
}

fn modifier_at(t: &[u64], at: usize, k: usize, l: usize) -> Modifier
    ensures { result ≡ modifier_of (get_or t.now (at + k) 0) (get_or t.now (at + l) 0) }
{
    modifier_of(word(t, at, k), word(t, at, l))
}

// ---- a field

// The kinds below 10.
#[tactic(auto, unfolding(crate::specs::Words::plain_of))]
fn plain_of(kind: u64, part: Part, n: u64, m: u64) -> FieldDesc
    ensures { result ≡ plain_of kind part n m }
{
    match kind {
        KIND_BODY => FieldDesc::Body,
        KIND_CHECKSUM => FieldDesc::Checksum { field_id: part },
        KIND_PADDING => FieldDesc::Padding { size: n },
        KIND_SIZE => FieldDesc::Size {
            field_id: part,
            width: n,
        },
        KIND_COUNT => FieldDesc::Count {
            field_id: part,
            width: n,
        },
        KIND_ELEMENT_SIZE => FieldDesc::ElementSize {
            field_id: part,
            width: n,
        },
        KIND_FIXED_SCALAR => FieldDesc::FixedScalar { width: n, value: m },
        KIND_RESERVED => FieldDesc::Reserved { width: n },
        KIND_SCALAR => FieldDesc::Scalar { id: part, width: n },
        _ => FieldDesc::Flag { id: part },
    }
}

fn type_at(t: &[u64], at: usize) -> Option<Part>
    ensures { result ≡ maybe_part_of (get_or t.now (at + 8) 0) (get_or t.now (at + 9) 0) (get_or t.now (at + 10) 0) }
{
    maybe_part_of(word(t, at, 8), place_at(t, at, 9), place_at(t, at, 10))
}

// The kinds from 10 on have more: the second part of two, a modifier, or what an array has.
fn array_at(t: &[u64], at: usize, id: Part) -> FieldDesc
    ensures { result ≡ FieldDesc.Array id
        (maybe_of (get_or t.now (at + 4) 0) (get_or t.now (at + 5) 0))
        (maybe_part_of (get_or t.now (at + 8) 0) (get_or t.now (at + 9) 0) (get_or t.now (at + 10) 0))
        (modifier_of (get_or t.now (at + 11) 0) (get_or t.now (at + 12) 0))
        (maybe_of (get_or t.now (at + 6) 0) (get_or t.now (at + 7) 0)) }
{
    FieldDesc::Array {
        id,
        width: maybe_at(t, at, 4, 5),
        type_id: type_at(t, at),
        size_modifier: modifier_at(t, at, 11, 12),
        size: maybe_at(t, at, 6, 7),
    }
}

#[tactic(auto, unfolding(crate::specs::Words::desc_of))]
fn desc_at(t: &[u64], at: usize) -> FieldDesc
    ensures { result ≡ desc_of t.now at }
{
    let kind = word(t, at, 1);
    let part = part_at(t, at, 2, 3);
    match kind {
        0..=KIND_FLAG => plain_of(kind, part, word(t, at, 4), word(t, at, 5)),
        KIND_FIXED_ENUM => FieldDesc::FixedEnum {
            enum_id: part,
            tag_id: part_at(t, at, 9, 10),
        },
        KIND_TYPEDEF => FieldDesc::Typedef {
            id: part,
            type_id: part_at(t, at, 9, 10),
        },
        KIND_PAYLOAD => FieldDesc::Payload {
            size_modifier: modifier_at(t, at, 11, 12),
        },
        _ => array_at(t, at, part),
    }
}

#[tactic(auto, unfolding(crate::specs::Words::cond_of))]
fn cond_at(t: &[u64], at: usize) -> Option<Condition>
    ensures { result ≡ cond_of t.now at }
{
    if word(t, at, 13) == 0 {
        return None;
    }
    let id = part_at(t, at, 14, 15);
    let value = word(t, at, 16);
    Some(Condition { id, value })
}

fn field_at(t: &[u64], at: usize) -> Field
    ensures { result ≡ field_of t.now at }
{
    Field {
        key: place_at(t, at, 0),
        desc: desc_at(t, at),
        cond: cond_at(t, at),
    }
}

// The field whose place in the record is `at`.
pub fn field_here(values: &[u64], at: usize) -> Field
    ensures { result ≡ field_here values.now at }
{
    let e = at / 16;
    if values.len() / 17 < e {
        return field_at(values, values.len());
    }
    field_at(values, e * 17)
}

// Its number k, of all its numbers the only one that is read: 4 is the width of the kinds 3 to 8.
pub fn number_here(values: &[u64], at: usize, k: usize) -> u64
    requires { k ≤ 16 }
    ensures { result ≡ get_or values.now (at / 16 * 17 + k) 0 }
{
    let e = at / 16;
    if values.len() / 17 < e {
        return 0;
    }
    number(values, e * 17 + k)
}

// Its kind: below 10 it has no type, and every number from 13 on is an array's.
pub fn kind_here(values: &[u64], at: usize) -> u64
    ensures { result ≡ get_or values.now (at / 16 * 17 + 1) 0 }
{
    number_here(values, at, 1)
}

// Its first name, of all its numbers only the two of it.
pub fn name_here(values: &[u64], at: usize) -> Part
    ensures { result ≡ part_of (get_or values.now (at / 16 * 17 + 2) 0) (get_or values.now (at / 16 * 17 + 3) 0) }
{
    let e = at / 16;
    if values.len() / 17 < e {
        return part_at(values, values.len(), 2, 3);
    }
    part_at(values, e * 17, 2, 3)
}

// Its condition.
pub fn cond_here(values: &[u64], at: usize) -> Option<Condition>
    ensures { result ≡ (field_here values.now at).cond }
{
    let e = at / 16;
    if values.len() / 17 < e {
        return cond_at(values, values.len());
    }
    cond_at(values, e * 17)
}

// ---- a declaration

// The kinds of a declaration as the table has them. A kind above the last is a struct's too.
const DECL_CHECKSUM: u64 = 0;

const DECL_CUSTOM_FIELD: u64 = 1;

const DECL_ENUM: u64 = 2;

const DECL_PACKET: u64 = 3;

const DECL_STRUCT: u64 = 4;

#[tactic(auto, unfolding(crate::specs::Words::decl_desc_of))]
fn decl_desc_of(kind: u64, a: u64, b: u64, c: u64) -> DeclDesc
    ensures { result ≡ decl_desc_of kind a b c }
{
    match kind {
        DECL_CHECKSUM => DeclDesc::Checksum { width: a },
        DECL_CUSTOM_FIELD => DeclDesc::CustomField {
            width: maybe_of(a, b),
        },
        DECL_ENUM => DeclDesc::Enum {
            width: a,
            open: bit_of(b),
            complete: bit_of(c),
        },
        DECL_PACKET => DeclDesc::Packet {
            parent_id: maybe_part_of(a, b as usize, c as usize),
        },
        _ => DeclDesc::Struct {
            parent_id: maybe_part_of(a, b as usize, c as usize),
        },
    }
}

fn decl_desc_at(t: &[u64], at: usize) -> DeclDesc
    ensures { result ≡ decl_desc_of (get_or t.now (at + 3) 0) (get_or t.now (at + 4) 0)
        (get_or t.now (at + 5) 0) (get_or t.now (at + 6) 0) }
{
    decl_desc_of(
        word(t, at, 3),
        word(t, at, 4),
        word(t, at, 5),
        word(t, at, 6),
    )
}

// What a `bits` line says.
#[tactic(auto, unfolding(crate::specs::Words::stated_of))]
fn stated_of(tag: u64, n: u64) -> Option<Size>
    ensures { result ≡ stated_of tag n }
{
    match tag {
        0 => None,
        1 => Some(Size::Static(n)),
        2 => Some(Size::Dynamic),
        _ => Some(Size::Unknown),
    }
}

fn stated_at(t: &[u64], at: usize) -> Option<Size>
    ensures { result ≡ stated_of (get_or t.now (at + 7) 0) (get_or t.now (at + 8) 0) }
{
    stated_of(word(t, at, 7), word(t, at, 8))
}

// Most callers ask for one part of it, so it is written where it is called: a call fills all of them.
#[inline(always)]
fn decl_at(t: &[u64], at: usize) -> Decl
    ensures { result ≡ decl_of t.now at }
{
    Decl {
        key: number(t, at) as usize,
        id: part_at(t, at, 1, 2),
        bits: stated_at(t, at),
        desc: decl_desc_at(t, at),
    }
}

// The declaration with the index i.
#[inline(always)]
pub fn decl_here(rows: &[u64], i: usize) -> Decl
    ensures { result ≡ decl_here rows.now i }
{
    if rows.len() / 13 < i {
        return decl_at(rows, rows.len());
    }
    decl_at(rows, i * 13)
}

// Its name.
pub fn id_here(rows: &[u64], i: usize) -> Part
    ensures { result ≡ (decl_here rows.now i).id }
{
    if rows.len() / 13 < i {
        return part_at(rows, rows.len(), 1, 2);
    }
    part_at(rows, i * 13, 1, 2)
}

// What its `bits` line says.
pub fn bits_here(rows: &[u64], i: usize) -> Option<Size>
    ensures { result ≡ (decl_here rows.now i).bits }
{
    if rows.len() / 13 < i {
        return stated_at(rows, rows.len());
    }
    stated_at(rows, i * 13)
}

// The number of its fields.
pub fn count_here(rows: &[u64], i: usize) -> usize
    ensures { result ≡ count_here rows.now i }
{
    if rows.len() / 13 < i {
        return 0;
    }
    place_at(rows, i * 13, 9)
}

// A packet or struct.
pub fn is_frame(desc: DeclDesc) -> bool
    ensures { result ≡ is_frame desc }
{
    matches!(desc, DeclDesc::Packet { .. } | DeclDesc::Struct { .. })
}

// `parent_id` of a packet or struct.
pub fn parent_id(desc: DeclDesc) -> Option<Part>
    ensures { result ≡ parent_id desc }
{
    match desc {
        DeclDesc::Packet { parent_id } | DeclDesc::Struct { parent_id } => parent_id,
        _ => None,
    }
}

// ---- the look-up of a declaration

// The index of the first of n declarations with a name.
pub fn find(t: &Tables, n: usize, name: Part) -> Option<usize>
    ensures { result ≡ which t.now.source name 0 (decls_from t.now.rows 0 n) }
{
    (0..n).find(|&i| names::same_name(t.source, id_here(t.rows, i), name))
}

// ---- writing, from the entry `at` on; what writes takes the one table and no `Tables`, since the others are not filled yet

fn bit_word(b: bool) -> u64
    ensures { result ≡ bit_word b }
{
    u64::from(b)
}

// The numbers in their order; nothing is written outside the table.
fn put_words(t: &mut [u64], at: usize, words: &[u64])
    requires { at < 2 ^ 63 }
    ensures { t.new ≡ sets t.old at words.now }
{
    for k in 0..words.len() {
        put_number(t, at + k, words[k]);
    }
}

fn put_maybe(t: &mut [u64], at: usize, m: Option<u64>)
    requires { at < 2 ^ 63 }
    ensures { t.new ≡ sets t.old at (maybe_words m) }
{
    match m {
        None => put_words(t, at, &[0, 0]),
        Some(n) => put_words(t, at, &[1, n]),
    }
}

fn put_maybe_part(t: &mut [u64], at: usize, m: Option<Part>)
    requires { at < 2 ^ 63 }
    ensures { t.new ≡ sets t.old at (maybe_part_words m) }
{
    match m {
        None => put_words(t, at, &[0, 0, 0]),
        Some(p) => put_words(t, at, &[1, p.start as u64, p.end as u64]),
    }
}

fn put_modifier(t: &mut [u64], at: usize, m: Modifier)
    requires { at < 2 ^ 63 }
    ensures { t.new ≡ sets t.old at (modifier_words m) }
{
    match m {
        Modifier::None => put_words(t, at, &[0, 0]),
        Modifier::Plus(n) => put_words(t, at, &[1, n]),
        Modifier::Minus(n) => put_words(t, at, &[2, n]),
    }
}

// ---- writing a field

// The kinds below 10.
fn put_plain(t: &mut [u64], at: usize, kind: u64, part: Part, n: u64, m: u64)
    requires { at < 2 ^ 63 }
    ensures { t.new ≡ sets t.old at (plain_words kind (part_words part) n m) }
{
    let (start, end) = (part.start as u64, part.end as u64);
    put_words(t, at, &[kind, start, end, n, m, 0, 0, 0, 0, 0, 0, 0]);
}

// The kinds of two parts.
fn put_typed(t: &mut [u64], at: usize, kind: u64, first: Part, second: Part)
    requires { at < 2 ^ 63 }
    ensures { t.new ≡ sets t.old at (typed_words kind first second) }
{
    let (a, b) = (first.start as u64, first.end as u64);
    let (c, d) = (second.start as u64, second.end as u64);
    put_words(t, at, &[kind, a, b, 0, 0, 0, 0, 1, c, d, 0, 0]);
}

fn put_payload(t: &mut [u64], at: usize, size_modifier: Modifier)
    requires { at < 2 ^ 62 }
    ensures { t.new ≡ sets t.old at (desc_words (FieldDesc.Payload size_modifier)) }
{
    put_words(t, at, &[KIND_PAYLOAD, 0, 0, 0, 0, 0, 0, 0, 0, 0]);
    put_modifier(t, at + 10, size_modifier);
}

// What an array has behind its name.
fn put_shape(
    t: &mut [u64],
    at: usize,
    width: Option<u64>,
    type_id: Option<Part>,
    size_modifier: Modifier,
    size: Option<u64>,
)
    requires { at < 2 ^ 62 }
    ensures { t.new ≡ sets t.old at (shape_words width type_id size_modifier size) }
{
    put_maybe(t, at, width);
    put_maybe(t, at + 2, size);
    put_maybe_part(t, at + 4, type_id);
    put_modifier(t, at + 7, size_modifier);
}

fn put_array(
    t: &mut [u64],
    at: usize,
    id: Part,
    width: Option<u64>,
    type_id: Option<Part>,
    size_modifier: Modifier,
    size: Option<u64>,
)
    requires { at < 2 ^ 61 }
    ensures { t.new ≡ sets t.old at (desc_words (FieldDesc.Array id width type_id size_modifier size)) }
{
    put_words(t, at, &[KIND_ARRAY, id.start as u64, id.end as u64]);
    put_shape(t, at + 3, width, type_id, size_modifier, size);
}

fn put_desc(t: &mut [u64], at: usize, desc: FieldDesc)
    requires { at < 2 ^ 61 }
    ensures { t.new ≡ sets t.old at (desc_words desc) }
{
    let nowhere = Part { start: 0, end: 0 };
    match desc {
        FieldDesc::Checksum { field_id } => put_plain(t, at, KIND_CHECKSUM, field_id, 0, 0),
        FieldDesc::Padding { size } => put_plain(t, at, KIND_PADDING, nowhere, size, 0),
        FieldDesc::Size { field_id, width } => put_plain(t, at, KIND_SIZE, field_id, width, 0),
        FieldDesc::Count { field_id, width } => put_plain(t, at, KIND_COUNT, field_id, width, 0),
        FieldDesc::ElementSize { field_id, width } => put_plain(
            t,
            at,
            KIND_ELEMENT_SIZE,
            field_id,
            width,
            0,
        ),
        FieldDesc::Body => put_plain(t, at, KIND_BODY, nowhere, 0, 0),
        FieldDesc::Payload { size_modifier } => put_payload(t, at, size_modifier),
        FieldDesc::FixedScalar { width, value } => put_plain(
            t,
            at,
            KIND_FIXED_SCALAR,
            nowhere,
            width,
            value,
        ),
        FieldDesc::FixedEnum { enum_id, tag_id } => put_typed(
            t,
            at,
            KIND_FIXED_ENUM,
            enum_id,
            tag_id,
        ),
        FieldDesc::Reserved { width } => put_plain(t, at, KIND_RESERVED, nowhere, width, 0),
        FieldDesc::Array {
            id,
            width,
            type_id,
            size_modifier,
            size,
        } => put_array(t, at, id, width, type_id, size_modifier, size),
        FieldDesc::Scalar { id, width } => put_plain(t, at, KIND_SCALAR, id, width, 0),
        FieldDesc::Flag { id } => put_plain(t, at, KIND_FLAG, id, 0, 0),
        FieldDesc::Typedef { id, type_id } => put_typed(t, at, KIND_TYPEDEF, id, type_id),
    }
}

fn put_cond(t: &mut [u64], at: usize, cond: Option<Condition>)
    requires { at < 2 ^ 63 }
    ensures { t.new ≡ sets t.old at (cond_words cond) }
{
    match cond {
        None => put_words(t, at, &[0, 0, 0, 0]),
        Some(Condition { id, value }) => put_words(
            t,
            at,
            &[1, id.start as u64, id.end as u64, value],
        ),
    }
}

// Writes a field whose place in the record is `at`; nothing is written outside the table.
pub fn put_field(values: &mut [u64], at: usize, f: Field)
    ensures { values.new ≡ sets values.old (at / 16 * 17) (field_words f) }
{
    let e = at / 16;
    if values.len() / 17 < e {
        return;
    }
    put_number(values, e * 17, f.key as u64);
    put_desc(values, e * 17 + 1, f.desc);
    put_cond(values, e * 17 + 13, f.cond);
}

// ---- writing a declaration

fn put_parent(t: &mut [u64], at: usize, kind: u64, parent_id: Option<Part>)
    requires { at < 2 ^ 62 }
    ensures { t.new ≡ sets t.old at (kind ∷ maybe_part_words parent_id) }
{
    put_number(t, at, kind);
    put_maybe_part(t, at + 1, parent_id);
}

fn put_decl_desc(t: &mut [u64], at: usize, desc: DeclDesc)
    requires { at < 2 ^ 62 }
    ensures { t.new ≡ sets t.old at (decl_desc_words desc) }
{
    match desc {
        DeclDesc::Checksum { width } => put_words(t, at, &[DECL_CHECKSUM, width, 0, 0]),
        DeclDesc::CustomField { width } => {
            put_number(t, at, DECL_CUSTOM_FIELD);
            put_maybe(t, at + 1, width);
            put_number(t, at + 3, 0);
        }
        DeclDesc::Enum {
            width,
            open,
            complete,
        } => put_words(
            t,
            at,
            &[DECL_ENUM, width, bit_word(open), bit_word(complete)],
        ),
        DeclDesc::Packet { parent_id } => put_parent(t, at, DECL_PACKET, parent_id),
        DeclDesc::Struct { parent_id } => put_parent(t, at, DECL_STRUCT, parent_id),
    }
}

fn put_stated(t: &mut [u64], at: usize, bits: Option<Size>)
    requires { at < 2 ^ 63 }
    ensures { t.new ≡ sets t.old at (stated_words bits) }
{
    match bits {
        None => put_words(t, at, &[0, 0]),
        Some(Size::Static(n)) => put_words(t, at, &[1, n]),
        Some(Size::Dynamic) => put_words(t, at, &[2, 0]),
        Some(Size::Unknown) => put_words(t, at, &[3, 0]),
    }
}

// What a declaration has behind its name.
fn put_behind(t: &mut [u64], at: usize, desc: DeclDesc, bits: Option<Size>)
    requires { at < 2 ^ 62 }
    ensures { t.new ≡ sets t.old at (decl_desc_words desc ++ stated_words bits) }
{
    put_decl_desc(t, at, desc);
    put_stated(t, at + 4, bits);
}

// Writes the declaration with the index i and the number of its fields; nothing is written outside the table.
pub fn put_decl(rows: &mut [u64], i: usize, d: Decl, count: usize)
    ensures { rows.new ≡ sets rows.old (i * 13) (decl_words d ++ (count ∷ [])) }
{
    if rows.len() / 13 < i {
        return;
    }
    put_words(
        rows,
        i * 13,
        &[d.key as u64, d.id.start as u64, d.id.end as u64],
    );
    put_behind(rows, i * 13 + 3, d.desc, d.bits);
    put_number(rows, i * 13 + 9, count as u64);
}
