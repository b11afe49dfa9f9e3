// Counts what a thousand records of the load from start 1 show (document 02, Card 1; docs/LOAD.md): the answers of `lower`, the head's values, the
// declarations, the kinds of fields, in all declarations and in the target, the target's optional fields, and the 24 shapes of its arrays where the record
// is accepted. Prints a line `NAME=COUNT` for each.
#![tactic(auto)]

ghost use Rattle.std.specs.Prelude.{◌≤◌, ◌<◌, IfSome};

use annotate::ArrayParts;
use definitions::{
    ArraySize, Arrays, DeclDesc, ElementSize, EndiannessValue, FieldDesc, Head, Options,
};
use std::io;
use std::io::Write;
use tables::Tables;

// ---- where each count stands

// By the answer's number, 0 to 19.
const ANSWERS: usize = 0;

const ENDIAN: usize = 20;

const ARRAYS: usize = 22;

const DECLS: usize = 24;

const KINDS: usize = 29;

const TARGET_KINDS: usize = 43;

const OPTIONAL_KINDS: usize = 57;
// By mode, element size and array size.
const SHAPES: usize = 71;

// One more at count i; past the last, none.
fn add(counts: &mut [u64; 95], i: usize) {
    if i < 95 {
        counts[i] = console::plus_one(counts[i]);
    }
}

// ---- numbers of cases, in the order of their names below

fn endian_number(e: EndiannessValue) -> usize
    ensures { result < 2 }
{
    match e {
        EndiannessValue::LittleEndian => 0,
        EndiannessValue::BigEndian => 1,
    }
}

fn arrays_number(a: Arrays) -> usize
    ensures { result < 2 }
{
    match a {
        Arrays::Lite => 0,
        Arrays::Full => 1,
    }
}

fn decl_number(d: DeclDesc) -> usize
    ensures { result < 5 }
{
    match d {
        DeclDesc::Packet { .. } => 0,
        DeclDesc::Struct { .. } => 1,
        DeclDesc::Enum { .. } => 2,
        DeclDesc::Checksum { .. } => 3,
        DeclDesc::CustomField { .. } => 4,
    }
}

fn kind_number(d: FieldDesc) -> usize
    ensures { result < 14 }
{
    match d {
        FieldDesc::Scalar { .. } => 0,
        FieldDesc::Size { .. } => 1,
        FieldDesc::Count { .. } => 2,
        FieldDesc::ElementSize { .. } => 3,
        FieldDesc::FixedScalar { .. } => 4,
        FieldDesc::FixedEnum { .. } => 5,
        FieldDesc::Reserved { .. } => 6,
        FieldDesc::Flag { .. } => 7,
        FieldDesc::Typedef { .. } => 8,
        FieldDesc::Array { .. } => 9,
        FieldDesc::Payload { .. } => 10,
        FieldDesc::Body => 11,
        FieldDesc::Padding { .. } => 12,
        FieldDesc::Checksum { .. } => 13,
    }
}

fn element_number(e: ElementSize) -> usize
    ensures { result < 3 }
{
    match e {
        ElementSize::Static(_) => 0,
        ElementSize::Dynamic => 1,
        ElementSize::Unknown => 2,
    }
}

fn size_number(a: ArraySize) -> usize
    ensures { result < 4 }
{
    match a {
        ArraySize::StaticCount(_) => 0,
        ArraySize::DynamicCount => 1,
        ArraySize::DynamicSize => 2,
        ArraySize::Unknown => 3,
    }
}

// ---- one record

fn count_head(counts: &mut [u64; 95], options: Options) {
    add(counts, ENDIAN + endian_number(options.endianness));
    add(counts, ARRAYS + arrays_number(options.arrays));
}

// The kinds of the fields of declaration i, from the count `from` on.
fn count_fields(counts: &mut [u64; 95], t: &Tables, i: usize, from: usize)
    requires { from ≤ 95 }
{
    for k in 0..tables::count_here(t.rows, i) {
        add(
            counts,
            from + kind_number(references::field_in(t, i, k).desc),
        );
    }
}

// The n declarations, and the kinds of their fields.
fn count_declarations(counts: &mut [u64; 95], t: &Tables, n: usize) {
    for i in 0..n {
        add(
            counts,
            DECLS + decl_number(tables::decl_here(t.rows, i).desc),
        );
        count_fields(counts, t, i, KINDS);
    }
}

// The shape of an array of declaration i: its element size and its array size. None of another field.
fn shape_of(t: &Tables, i: usize, n: usize, desc: FieldDesc) -> Option<usize>
    ensures { IfSome result (λ shape. shape < 12) }
{
    let FieldDesc::Array {
        id,
        width,
        type_id,
        size,
        ..
    } = desc
    else {
        return None;
    };
    let parts = ArrayParts {
        id,
        width,
        type_id,
        size,
    };
    let element = sizes::element_size(t, i, n, parts);
    let whole = references::array_size(t, i, n, id, size);
    Some(element_number(element) * 4 + size_number(whole))
}

// The optional fields of the target, and the shapes of its arrays from the count `shapes` on.
fn count_target(counts: &mut [u64; 95], t: &Tables, i: usize, shapes: usize)
    requires { shapes ≤ 95 }
{
    let n = tables::count_here(t.rows, i);
    for k in 0..n {
        let f = references::field_in(t, i, k);
        if f.cond.is_some() {
            add(counts, OPTIONAL_KINDS + kind_number(f.desc));
        }
        if let Some(shape) = shape_of(t, i, n, f.desc) {
            add(counts, shapes + shape);
        }
    }
}

// Where the shapes of a target's arrays are counted. Those of a record that is refused stand behind all counts, where none is kept.
fn shapes_of(arrays: Arrays, accepted: bool) -> usize
    ensures { result ≤ 95 }
{
    if accepted {
        SHAPES + arrays_number(arrays) * 12
    } else {
        95
    }
}

// A record that the reader passes, which has at most 32 declarations. One that is refused behind it, by 7, 8, 9 or 17, is left out.
fn count_read(
    counts: &mut [u64; 95],
    rec: &[u8],
    head: Head,
    rows: &mut [u64; 416],
    values: &[u64],
    fields: &[u16; 2048],
    n: usize,
    accepted: bool,
) {
    if 32 < n {
        return;
    }
    if let Ok(i) = sizes::check_sizes(rec, head, rows, values, fields, n) {
        let t = Tables {
            source: rec,
            rows,
            values,
            fields,
        };
        count_head(counts, head.options);
        count_declarations(counts, &t, n);
        count_fields(counts, &t, i, TARGET_KINDS);
        let shapes = shapes_of(head.options.arrays, accepted);
        count_target(counts, &t, i, shapes);
    }
}

fn count_record(counts: &mut [u64; 95], rec: &[u8]) {
    let mut out = [0u8; 65536];
    let answer = console::answer(lowering::lower(rec, &mut out));
    if answer < 20 {
        add(counts, ANSWERS + answer as usize);
    }
    let mut rows = [0u64; 416];
    let mut values = [0u64; 17408];
    let mut fields = [0u16; 2048];
    if let Ok((head, n)) = record::read_record(rec, &mut rows, &mut values, &mut fields) {
        count_read(
            counts,
            rec,
            head,
            &mut rows,
            &values,
            &fields,
            n,
            answer == 0,
        );
    }
}

// ---- the load, and the table

fn count_load(counts: &mut [u64; 95], start: u32, count: u64) {
    let mut buf = [0u8; 16385];
    let mut state = start;
    for _ in 0..count {
        let drawn = generator::put_record(state, &mut buf);
        state = drawn.state;
        if 0 < drawn.end {
            count_record(counts, console::front(&buf, drawn.end - 1));
        }
    }
}

fn print_count<W: Write>(to: &mut W, group: &[u8], name: &[u8], count: u64) -> io::Result<()> {
    console::print_bytes(to, group)?;
    console::print_bytes(to, b" ")?;
    console::print_number(to, name, count)
}

// A line `GROUP NAME=COUNT` for each of the names, whose counts stand from `from` on.
fn print_counts<W: Write>(
    to: &mut W,
    counts: &[u64; 95],
    from: usize,
    group: &[u8],
    names: &[&str],
) -> io::Result<()> {
    for (name, &count) in names.iter().zip(counts.iter().skip(from)) {
        print_count(to, group, name.as_bytes(), count)?;
    }
    Ok(())
}

// The program, at any output.
fn run<W: Write>(to: &mut W) -> io::Result<()> {
    let mut counts = [0u64; 95];
    count_load(&mut counts, 1, 1000);
    print_counts(
        to,
        &counts,
        ANSWERS,
        b"answer",
        &[
            "0", "1", "2", "3", "4", "5", "6", "7", "8", "9", "10", "11", "12", "13", "14", "15",
            "16", "17", "18", "19",
        ],
    )?;
    print_counts(to, &counts, ENDIAN, b"endian", &["little", "big"])?;
    print_counts(to, &counts, ARRAYS, b"arrays", &["lite", "full"])?;
    print_counts(
        to,
        &counts,
        DECLS,
        b"decl",
        &["packet", "struct", "enum", "checksum", "custom"],
    )?;
    let kinds = [
        "scalar",
        "size",
        "count",
        "elemsize",
        "fixed",
        "fixedenum",
        "reserved",
        "flag",
        "typedef",
        "array",
        "payload",
        "body",
        "padding",
        "checksum",
    ];
    print_counts(to, &counts, KINDS, b"field", &kinds)?;
    print_counts(to, &counts, TARGET_KINDS, b"target", &kinds)?;
    print_counts(to, &counts, OPTIONAL_KINDS, b"optional", &kinds)?;
    let sizes = ["StaticCount", "DynamicCount", "DynamicSize", "Unknown"];
    print_counts(to, &counts, SHAPES, b"lite Static", &sizes)?;
    print_counts(to, &counts, SHAPES + 4, b"lite Dynamic", &sizes)?;
    print_counts(to, &counts, SHAPES + 8, b"lite Unknown", &sizes)?;
    print_counts(to, &counts, SHAPES + 12, b"full Static", &sizes)?;
    print_counts(to, &counts, SHAPES + 16, b"full Dynamic", &sizes)?;
    print_counts(to, &counts, SHAPES + 20, b"full Unknown", &sizes)
}

fn main(rt: HostRuntime) {
    let _ = run(&mut rt.stdout());
}
