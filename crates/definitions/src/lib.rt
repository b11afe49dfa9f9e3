// The types that the definitions and the code share, by value: those of ast.rs, the sizes of analyzer.rs, what the record's reader finds
// at a place, and the refusals of documents 01 and 02. What must be believed about the answer stands in specs/, in the order of document 01:
// Bytes, Record, Sizes, Refusals, Lines, Blocks, FieldParser, Answer, and All (document 02, Card 13: `lower_all`). (Keywords: the words of refusal 16.
// Tables: sizes as numbers of a table.)
#![tactic(auto)]

// ---- ast.rs: a name is a part of the record and is not copied

// The bytes of the record from start up to end.
#[derive(Clone, Copy, Debug, PartialEq, Eq)]
pub struct Part {
    pub start: usize,
    pub end: usize,
}

// `size_modifier`: a sign and a number.
#[derive(Clone, Copy, Debug, PartialEq, Eq)]
pub enum Modifier {
    None,
    Plus(u64),
    Minus(u64),
}

#[derive(Clone, Copy, Debug, PartialEq, Eq)]
pub enum EndiannessValue {
    LittleEndian,
    BigEndian,
}

// `extract_arrays`: lite is false and has an empty target prefix, full is true and has `output->`.
#[derive(Clone, Copy, Debug, PartialEq, Eq)]
pub enum Arrays {
    Lite,
    Full,
}

// What a padded array counts behind a payload: plain as cxx.rs has it, its field size; padded as the language reference has it, its padded size
// (document 02, Card 3).
#[derive(Clone, Copy, Debug, PartialEq, Eq)]
pub enum Trailing {
    Plain,
    Padded,
}

// What the variable of a tested enum bit field is called: plain as in cxx.rs, `raw_value`; numbered with its number among the target's behind it
// (document 02, Card 7).
#[derive(Clone, Copy, Debug, PartialEq, Eq)]
pub enum Raw {
    Plain,
    Numbered,
}

// How an array's check asks whether A * B bytes are there: plain as in cxx.rs, by the product; divide by a division, which no count takes past its type
// (document 02, Card 8).
#[derive(Clone, Copy, Debug, PartialEq, Eq)]
pub enum Products {
    Plain,
    Divide,
}

// What the head chooses beside the target, handed on whole from the reader to the writer.
#[derive(Clone, Copy, Debug, PartialEq, Eq)]
pub struct Options {
    pub endianness: EndiannessValue,
    pub arrays: Arrays,
    pub trailing: Trailing,
    pub raw: Raw,
    pub products: Products,
}

#[derive(Clone, Copy, Debug, PartialEq, Eq)]
pub struct Head {
    pub options: Options,
    pub target: Part,
}

#[derive(Clone, Copy, Debug, PartialEq, Eq)]
pub enum FieldDesc {
    Checksum {
        field_id: Part,
    },
    Padding {
        size: u64,
    },
    Size {
        field_id: Part,
        width: u64,
    },
    Count {
        field_id: Part,
        width: u64,
    },
    ElementSize {
        field_id: Part,
        width: u64,
    },
    Body,
    Payload {
        size_modifier: Modifier,
    },
    FixedScalar {
        width: u64,
        value: u64,
    },
    FixedEnum {
        enum_id: Part,
        tag_id: Part,
    },
    Reserved {
        width: u64,
    },
    Array {
        id: Part,
        width: Option<u64>,
        type_id: Option<Part>,
        size_modifier: Modifier,
        size: Option<u64>,
    },
    Scalar {
        id: Part,
        width: u64,
    },
    Flag {
        id: Part,
    },
    Typedef {
        id: Part,
        type_id: Part,
    },
}

// `if` and `is`.
#[derive(Clone, Copy, Debug, PartialEq, Eq)]
pub struct Condition {
    pub id: Part,
    pub value: u64,
}

// The key of a field is its place in the record.
#[derive(Clone, Copy, Debug, PartialEq, Eq)]
pub struct Field {
    pub key: usize,
    pub desc: FieldDesc,
    pub cond: Option<Condition>,
}

// The marks of an enum stand for `is_open_enum` and `is_complete_enum` of the `common` module.
#[derive(Clone, Copy, Debug, PartialEq, Eq)]
pub enum DeclDesc {
    Checksum {
        width: u64,
    },
    CustomField {
        width: Option<u64>,
    },
    Enum {
        width: u64,
        open: bool,
        complete: bool,
    },
    Packet {
        parent_id: Option<Part>,
    },
    Struct {
        parent_id: Option<Part>,
    },
}

// The key of a declaration is its place in the record. `bits` is what the record says of its own size (document 02, Card 10), in a packet or a struct alone.
#[derive(Clone, Copy, Debug, PartialEq, Eq)]
pub struct Decl {
    pub key: usize,
    pub id: Part,
    pub bits: Option<Size>,
    pub desc: DeclDesc,
}

// ---- analyzer.rs

#[derive(Clone, Copy, Debug, PartialEq, Eq)]
pub enum Size {
    Static(u64),
    Dynamic,
    Unknown,
}

#[derive(Clone, Copy, Debug, PartialEq, Eq)]
pub enum ElementSize {
    Static(u64),
    Dynamic,
    Unknown,
}

#[derive(Clone, Copy, Debug, PartialEq, Eq)]
pub enum ArraySize {
    StaticCount(u64),
    DynamicCount,
    DynamicSize,
    Unknown,
}

// A type that is an enum: its width and its marks, `is_open_enum` and `is_complete_enum` of the `common` module.
#[derive(Clone, Copy, Debug, PartialEq, Eq)]
pub struct EnumKind {
    pub width: u64,
    pub is_open: bool,
    pub is_complete: bool,
}

// What a size, count or element size field names: its `field_id`, and a size field's width.
#[derive(Clone, Copy, Debug, PartialEq, Eq)]
pub enum Reference {
    Size { field_id: Part, width: u64 },
    Count { field_id: Part },
    ElementSize { field_id: Part },
}

// ---- why a record is turned back: the refusals of document 01, in its order, and of document 02 16, which is tested behind 2, 17, behind 8, and 19, behind
// 14 at each target of a file (`lower_all` alone). 10 to 14 are the panics of cxx.rs

#[derive(Clone, Copy, Debug, PartialEq, Eq)]
pub enum Refusal {
    RecordLength,
    RecordForm,
    Keyword,
    TooMany,
    DuplicateName,
    UnknownName,
    OutOfRange,
    TooLarge,
    NotWholeBytes,
    Misstated,
    NoTarget,
    OpenChunk,
    OctetBoundary,
    ScalarTooWide,
    UnsupportedOptional,
    MultipleUnknown,
    SectionTooLong,
    NoRoom,
}

// ---- what stands at a place of the record, and the place behind its newline; None where the form is broken

pub type Read<T> = Option<(T, usize)>;

// The head's lines that may be absent, and the place behind them.
#[derive(Clone, Copy, Debug, PartialEq, Eq)]
pub struct OptionalRead {
    pub trailing: Trailing,
    pub raw: Raw,
    pub products: Products,
    pub next: usize,
}
