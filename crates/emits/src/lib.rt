// What a field that is no bit field comes to, by value: `Emit` of the definitions, with names as parts of the record. `fields` finds it, `field_lines`
// writes its block. specs/BlockOf says what it stands for; specs/Target has the fields of a target by index.
#![tactic(auto)]

ghost use Rattle.emits.specs.Target.{Fine};

use definitions::{ArraySize, ElementSize, Modifier, Options, Part, Refusal};
use elements::Element;
use tables::Tables;

// The target: the declaration with the index i, of n fields, and the options of its parser. It is behind refusals 3 and 7, so that no size is over the limit.
#[derive(Clone, Copy)]
pub struct Target<'a> {
    pub tables: &'a Tables<'a>,
    pub i: usize,
    pub n: usize,
    pub options: Options,
    ghost fine: { Fine tables.now i n },
}

#[derive(Clone, Copy)]
pub enum BlockAt {
    SizedPayload(Modifier),
    PayloadUpTo(u64),
    PayloadToEnd,
    Array {
        padding: Option<u64>,
        id: Part,
        type_id: Option<Part>,
        element: Element,
        modifier: Modifier,
        element_size: ElementSize,
        array_size: ArraySize,
    },
    OptionalScalar {
        cond: Part,
        value: u64,
        width: u64,
        id: Part,
    },
    OptionalOpen {
        cond: Part,
        value: u64,
        width: u64,
        id: Part,
        type_id: Part,
    },
    OptionalClosed {
        cond: Part,
        value: u64,
        width: u64,
        id: Part,
        type_id: Part,
    },
    OptionalNested {
        cond: Part,
        value: u64,
        id: Part,
        type_id: Part,
    },
    Nested {
        id: Part,
        type_id: Part,
    },
    NestedUpTo {
        id: Part,
        bytes: u64,
        type_id: Part,
    },
}

#[derive(Clone, Copy)]
pub enum EmitAt {
    Appends(BlockAt),
    Silent,
    Refuses(Refusal),
}
