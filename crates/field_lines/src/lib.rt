// The bytes of the block that a field which is no bit field appends: `BlockAt` of emits, with its names as parts of the record. They are the arms of
// `parse` of cxx.rs for such fields, and those of `parse_optional_field`.
#![tactic(auto)]

ghost use Rattle.std.specs.Prelude.{◌≡◌, ℕ};
ghost use Rattle.definitions.specs.Bytes.{Text};
ghost use Rattle.definitions.specs.declared.Part.{Part};
ghost use Rattle.text.specs.Wrote.{Wrote};
ghost use Rattle.stream.specs.Stream.{block_text};
ghost use Rattle.arrays.specs.Shapes.{ProductFits};
ghost use Rattle.emits.specs.BlockOf.{type_text, array_block, block_of, BlockFits};

use arrays::ArrayShape;
use definitions::{Options, Part};
use elements::Names;
use emits::BlockAt;
use names::WrittenName;
use text::Writer;

// The name of the elements' type; empty where they have a width.
fn type_name(rec: &[u8], type_id: Option<Part>) -> &[u8]
    ensures { result.now ≡ type_text rec.now type_id }
{
    match type_id {
        None => &rec[..0],
        Some(name) => names::part(rec, name),
    }
}

// An array, and the padding behind it, if there is one. The bits of its size variable are not written.
fn put_array(
    rec: &[u8],
    w: &mut Writer,
    options: Options,
    padding: Option<u64>,
    id: Part,
    type_id: Option<Part>,
    shape: ArrayShape,
)
    requires { ProductFits shape.element_size shape.array_size }
    ensures { (n : ℕ) → Wrote w.old w.new
        (block_text (array_block rec.now options n padding id type_id
        shape.element shape.modifier shape.element_size shape.array_size)) }
{
    let array = Names {
        id: names::part(rec, id),
        type_id: type_name(rec, type_id),
    };
    match padding {
        None => arrays::put_array(w, options, &array, shape),
        Some(bytes) => padding_lines::put_padded_array(w, bytes, options, &array, shape),
    }
}

// The bytes of a block: one arm for each of its cases, so it stays one function.
pub fn put_block<'a>(
    rec: &'a [u8],
    word: &'a [u8],
    w: &mut Writer,
    options: Options,
    block: BlockAt,
)
    requires { BlockFits block }
    ensures { let s : Text = rec.now in
        ((bits : Part → ℕ) → Wrote w.old w.new (block_text (block_of s word.now options bits block))) }
{
    match block {
        BlockAt::SizedPayload(modifier) => {
            let x = names::name(rec, word, WrittenName::Payload);
            payload_lines::put_sized_payload(w, options.arrays, x, modifier);
        }
        BlockAt::PayloadUpTo(bytes) => {
            let x = names::name(rec, word, WrittenName::Payload);
            payload_lines::put_payload_up_to(w, options.arrays, x, bytes);
        }
        BlockAt::PayloadToEnd => {
            let x = names::name(rec, word, WrittenName::Payload);
            payload_lines::put_payload_to_end(w, options.arrays, x);
        }
        BlockAt::Array {
            padding,
            id,
            type_id,
            element,
            modifier,
            element_size,
            array_size,
        } => {
            let shape = ArrayShape {
                element,
                modifier,
                element_size,
                array_size,
            };
            put_array(rec, w, options, padding, id, type_id, shape);
        }
        BlockAt::OptionalScalar {
            cond,
            value,
            width,
            id,
        } => {
            let c = names::part(rec, cond);
            let x = names::part(rec, id);
            optional_lines::put_optional_scalar(w, c, value, width, options, x);
        }
        BlockAt::OptionalOpen {
            cond,
            value,
            width,
            id,
            type_id,
        } => {
            let c = names::part(rec, cond);
            let x = names::part(rec, id);
            let ty = names::part(rec, type_id);
            optional_lines::put_optional_open(w, c, value, width, options, x, ty);
        }
        BlockAt::OptionalClosed {
            cond,
            value,
            width,
            id,
            type_id,
        } => {
            let c = names::part(rec, cond);
            let x = names::part(rec, id);
            let ty = names::part(rec, type_id);
            optional_lines::put_optional_closed(w, c, value, width, options, x, ty);
        }
        BlockAt::OptionalNested {
            cond,
            value,
            id,
            type_id,
        } => {
            let c = names::part(rec, cond);
            let x = names::part(rec, id);
            let ty = names::part(rec, type_id);
            optional_lines::put_optional_nested(w, c, value, options.arrays, x, ty);
        }
        BlockAt::Nested { id, type_id } => {
            let x = names::part(rec, id);
            let ty = names::part(rec, type_id);
            nested_lines::put_nested(w, options.arrays, x, ty);
        }
        BlockAt::NestedUpTo { id, bytes, type_id } => {
            let x = names::part(rec, id);
            let ty = names::part(rec, type_id);
            nested_lines::put_nested_up_to(w, options.arrays, x, bytes, ty);
        }
    }
}
