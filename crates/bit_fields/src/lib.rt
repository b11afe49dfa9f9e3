// The lines of one bit field, by what its bits are put into or held against: the arms of the `match` in `parse_bit_field` of cxx.rs.
// A kind holds its names as parts of the record.
#![tactic(auto)]

ghost use Rattle.std.specs.Prelude.{◌≡◌, ◌++◌};
ghost use Rattle.text.specs.Wrote.{Wrote};
ghost use Rattle.bit_fields.specs.Kinds.{end_text, source_text, set_text, condition_text, open_enum_text, raw_text, tested_text, closed_enum_text, fixed_scalar_text, fixed_enum_text, kind_text};

use definitions::{Arrays, EndiannessValue, Part, Raw};
use names::WrittenName;
use text::Writer;

// What stands behind the name of a variable: `_`, `_size_`, `_count_`, `_element_size_`.
#[derive(Clone, Copy, Debug, PartialEq, Eq)]
pub enum End {
    Member,
    Size,
    Count,
    ElementSize,
}

// What a bit field's bits are put into, or held against.
#[derive(Clone, Copy)]
pub enum KindAt {
    Reserved,
    Number { name: WrittenName, end: End },
    Condition { id: Part },
    OpenEnum { id: Part, type_id: Part },
    ClosedEnum { id: Part, type_id: Part },
    FixedScalar { value: u64 },
    FixedEnum { enum_id: Part, tag_id: Part },
}

// The variable that a tested enum is held in: what the head says of its name, and how many tested enums the target has before it.
#[derive(Clone, Copy, Debug, PartialEq, Eq)]
pub struct RawValue {
    pub raw: Raw,
    pub nr: u64,
}

// Where the bits come from: a read of so many bits, or a chunk's variable.
#[derive(Clone, Copy, Debug, PartialEq, Eq)]
pub enum Source {
    Read { order: EndiannessValue, width: u64 },
    Bits { nr: u64, shift: u64, mask: u64 },
}

// What the code has for an end.
fn end_name(end: End) -> &'static [u8]
    ensures { result.now ≡ end_text end }
{
    match end {
        End::Member => b"_",
        End::Size => b"_size_",
        End::Count => b"_count_",
        End::ElementSize => b"_element_size_",
    }
}

// The bits, between two pieces.
fn put_source(w: &mut Writer, before: &[u8], v: Source, behind: &[u8])
    ensures { Wrote w.old w.new (before.now ++ source_text v behind.now) }
{
    match v {
        Source::Read { order, width } => {
            expressions::put_read(w, before, b"span", order, width, behind);
        }
        Source::Bits { nr, shift, mask } => {
            w.put(before);
            w.number(b"(chunk", nr, b" >> ");
            w.number(b"", shift, b") & ");
            w.hexadecimal(b"", mask, behind);
        }
    }
}

// `x = v;`
fn put_set(w: &mut Writer, m: Arrays, name: &[u8], end: &[u8], v: Source)
    ensures { Wrote w.old w.new (set_text m name.now end.now v) }
{
    expressions::put_target(w, m, name, end);
    put_source(w, b" = ", v, b";\n");
}

// `uint8_t x = v;`
fn put_condition(w: &mut Writer, name: &[u8], v: Source)
    ensures { Wrote w.old w.new (condition_text name.now v) }
{
    w.name(b"uint8_t ", name, b" = ");
    put_source(w, b"", v, b";\n");
}

// `x = T(v);`
fn put_open_enum(w: &mut Writer, m: Arrays, name: &[u8], ty: &[u8], v: Source)
    ensures { Wrote w.old w.new (open_enum_text m name.now ty.now v) }
{
    expressions::put_target(w, m, name, b"_");
    w.name(b" = ", ty, b"(");
    put_source(w, b"", v, b");\n");
}

// `raw_value`, or `raw_value7`, between two pieces.
fn put_raw(w: &mut Writer, before: &[u8], x: RawValue, behind: &[u8])
    ensures { Wrote w.old w.new (before.now ++ (raw_text x ++ behind.now)) }
{
    match x.raw {
        Raw::Plain => w.name(before, b"raw_value", behind),
        Raw::Numbered => {
            w.put(before);
            w.number(b"raw_value", x.nr, behind);
        }
    }
}

// `auto raw_value = v;`, and the test.
fn put_tested(w: &mut Writer, ty: &[u8], x: RawValue, v: Source)
    ensures { Wrote w.old w.new (tested_text ty.now x v) }
{
    put_raw(w, b"auto ", x, b" = ");
    put_source(w, b"", v, b";\nif (!IsValid");
    w.name(b"", ty, b"(");
    put_raw(w, b"", x, b")) {\n   return false;\n}\n");
}

// These, and `x = T(raw_value);`
fn put_closed_enum(w: &mut Writer, m: Arrays, name: &[u8], ty: &[u8], x: RawValue, v: Source)
    ensures { Wrote w.old w.new (closed_enum_text m name.now ty.now x v) }
{
    put_tested(w, ty, x, v);
    expressions::put_target(w, m, name, b"_");
    w.name(b" = ", ty, b"(");
    put_raw(w, b"", x, b");\n");
}

// `if (static_cast<uint64_t>(v) != 0x1f) {` ..
fn put_fixed_scalar(w: &mut Writer, value: u64, v: Source)
    ensures { Wrote w.old w.new (fixed_scalar_text value v) }
{
    put_source(w, b"if (static_cast<uint64_t>(", v, b") != ");
    w.hexadecimal(b"", value, b") {\n    return false;\n}\n");
}

// `if (T(v) != T::TAG) {` ..
fn put_fixed_enum(w: &mut Writer, ty: &[u8], tag: &[u8], v: Source)
    ensures { Wrote w.old w.new (fixed_enum_text ty.now tag.now v) }
{
    w.name(b"if (", ty, b"(");
    put_source(w, b"", v, b") != ");
    w.name(b"", ty, b"::");
    w.name(b"", tag, b") {\n    return false;\n}\n");
}

// The lines of a bit field whose bits are v; a tested enum is held in x.
pub fn put_kind<'a>(
    rec: &'a [u8],
    word: &'a [u8],
    w: &mut Writer,
    m: Arrays,
    x: RawValue,
    v: Source,
    k: KindAt,
)
    ensures { Wrote w.old w.new (kind_text m rec.now word.now x v k) }
{
    match k {
        KindAt::Reserved => {}
        KindAt::Number { name, end } => {
            put_set(w, m, names::name(rec, word, name), end_name(end), v);
        }
        KindAt::Condition { id } => put_condition(w, names::part(rec, id), v),
        KindAt::OpenEnum { id, type_id } => {
            put_open_enum(w, m, names::part(rec, id), names::part(rec, type_id), v);
        }
        KindAt::ClosedEnum { id, type_id } => {
            put_closed_enum(w, m, names::part(rec, id), names::part(rec, type_id), x, v);
        }
        KindAt::FixedScalar { value } => put_fixed_scalar(w, value, v),
        KindAt::FixedEnum { enum_id, tag_id } => {
            put_fixed_enum(w, names::part(rec, enum_id), names::part(rec, tag_id), v);
        }
    }
}
