// A field, a declaration and the head, as they stand at a place of the record, or that a name in them is a keyword of C++.
#![tactic(auto)]

ghost use Rattle.std.specs.Prelude.{◌≡◌, Option, true};
ghost use Rattle.definitions.specs.Record.{cond_at, field_at, parented_at, enum_at, checksum_decl_at, custom_at, decl_at, word_line, trailing_at, raw_at, products_at, optional_at, head_at};
ghost use Rattle.definitions.specs.Refusals.{is_frame};
ghost use Rattle.definitions.specs.Sizes.{parent_id as parent_of};
ghost use Rattle.definitions.specs.declared.Part.{Part as P};
ghost use Rattle.definitions.specs.declared.DeclDesc.{DeclDesc as D};
ghost use Rattle.keywords.specs.Screens.{screen_cond, screen_field, screen_decl, screen_head};
ghost use Rattle.readers.specs.Heads.{choice, target_at};

use definitions::{
    Arrays, Condition, Decl, DeclDesc, EndiannessValue, Field, Head, OptionalRead, Options, Part,
    Products, Raw, Read, Trailing,
};

// `if=-`, or `if=NAME` and `is=NUMBER`.
#[tactic(auto, unfolding(definitions::specs::Record::cond_at, definitions::specs::Refusals::any_keyword))]
fn cond_at(rec: &[u8], at: usize) -> Read<Option<Option<Condition>>>
    ensures { result ≡ screen_cond rec.now (cond_at rec.now at) }
{
    let (name, p) = keys::maybe_name_line(rec, at, b"if=")?;
    if matches!(name, Some(None)) {
        return Some((Some(None), p));
    }
    let (value, q) = keys::number_line(rec, p, b"is=")?;
    let cond = name.flatten().map(|id| Some(Condition { id, value }));
    Some((cond, q))
}

// One field, and the place behind it.
pub fn field_at(rec: &[u8], at: usize) -> Read<Option<Field>>
    ensures { result ≡ screen_field rec.now (field_at rec.now at) }
{
    let (desc, p) = kinds::desc_at(rec, at)?;
    let (cond, q) = cond_at(rec, p)?;
    let field = desc.zip(cond).map(|(desc, cond)| Field {
        key: at,
        desc,
        cond,
    });
    Some((field, q))
}

// `name`, `parent` and `bits` of a declaration that can have a parent, whose `decl` line stands at `at` and ends at `p`.
#[tactic(auto, unfolding(definitions::specs::Refusals::any_keyword))]
fn parented_at<F: FnOnce(Option<Part>) -> DeclDesc>(
    rec: &[u8],
    at: usize,
    p: usize,
    make: F,
) -> Read<Result<Decl, bool>>
    requires { (parent : Option P) → F.pre make parent }
    ensures { (g : Option P → D) → ((parent : Option P) → (is_frame (g parent) ≡ true) × (parent_of (g parent) ≡ parent))
        → ((parent : Option P) (d : D) → F.post make parent d → d ≡ g parent)
        → result ≡ screen_decl rec.now (parented_at g rec.now at p) }
{
    let (name, q) = keys::name_line(rec, p, b"name=")?;
    let (parent, t) = keys::maybe_name_line(rec, q, b"parent=")?;
    let (bits, u) = keys::bits_line(rec, t)?;
    let (Some(id), Some(parent_id)) = (name, parent) else {
        return Some((Err(true), u));
    };
    let desc = make(parent_id);
    Some((
        Ok(Decl {
            key: at,
            id,
            bits,
            desc,
        }),
        u,
    ))
}

// `name`, `width`, `open` and `complete` of an enum.
#[tactic(auto, unfolding(definitions::specs::Record::enum_at, definitions::specs::Refusals::any_keyword))]
fn enum_at(rec: &[u8], at: usize, p: usize) -> Read<Result<Decl, bool>>
    ensures { result ≡ screen_decl rec.now (enum_at rec.now at p) }
{
    let (name, q) = keys::name_line(rec, p, b"name=")?;
    let (width, t) = keys::number_line(rec, q, b"width=")?;
    let (open, u) = keys::bit_line(rec, t, b"open=")?;
    let (complete, v) = keys::bit_line(rec, u, b"complete=")?;
    let Some(id) = name else {
        return Some((Err(false), v));
    };
    let desc = DeclDesc::Enum {
        width,
        open,
        complete,
    };
    Some((
        Ok(Decl {
            key: at,
            id,
            bits: None,
            desc,
        }),
        v,
    ))
}

// `name` and `width` of a checksum.
#[tactic(auto, unfolding(definitions::specs::Record::checksum_decl_at, definitions::specs::Refusals::any_keyword))]
fn checksum_decl_at(rec: &[u8], at: usize, p: usize) -> Read<Result<Decl, bool>>
    ensures { result ≡ screen_decl rec.now (checksum_decl_at rec.now at p) }
{
    let (name, q) = keys::name_line(rec, p, b"name=")?;
    let (width, t) = keys::number_line(rec, q, b"width=")?;
    let Some(id) = name else {
        return Some((Err(false), t));
    };
    let desc = DeclDesc::Checksum { width };
    Some((
        Ok(Decl {
            key: at,
            id,
            bits: None,
            desc,
        }),
        t,
    ))
}

// `name` and `width` (or `-`) of a custom.
#[tactic(auto, unfolding(definitions::specs::Record::custom_at, definitions::specs::Refusals::any_keyword))]
fn custom_at(rec: &[u8], at: usize, p: usize) -> Read<Result<Decl, bool>>
    ensures { result ≡ screen_decl rec.now (custom_at rec.now at p) }
{
    let (name, q) = keys::name_line(rec, p, b"name=")?;
    let (width, t) = keys::maybe_number_line(rec, q, b"width=")?;
    let Some(id) = name else {
        return Some((Err(false), t));
    };
    let desc = DeclDesc::CustomField { width };
    Some((
        Ok(Decl {
            key: at,
            id,
            bits: None,
            desc,
        }),
        t,
    ))
}

// The lines of a declaration before its fields.
pub fn decl_at(rec: &[u8], at: usize) -> Read<Result<Decl, bool>>
    ensures { result ≡ screen_decl rec.now (decl_at rec.now at) }
{
    if let Some(p) = names::key_at(rec, at, b"decl=packet\n") {
        return parented_at(rec, at, p, |parent_id| DeclDesc::Packet { parent_id });
    }
    if let Some(p) = names::key_at(rec, at, b"decl=struct\n") {
        return parented_at(rec, at, p, |parent_id| DeclDesc::Struct { parent_id });
    }
    if let Some(p) = names::key_at(rec, at, b"decl=enum\n") {
        return enum_at(rec, at, p);
    }
    if let Some(p) = names::key_at(rec, at, b"decl=checksum\n") {
        return checksum_decl_at(rec, at, p);
    }
    if let Some(p) = names::key_at(rec, at, b"decl=custom\n") {
        return custom_at(rec, at, p);
    }
    None
}

// A line of two words, and what each says.
fn choice<T: Copy>(rec: &[u8], at: usize, first: &[u8], one: T, second: &[u8], two: T) -> Read<T>
    ensures { result ≡ choice rec.now at (first.now, one) (second.now, two) }
{
    if let Some(p) = names::key_at(rec, at, first) {
        return Some((one, p));
    }
    let p = names::key_at(rec, at, second)?;
    Some((two, p))
}

// The same of a line that may be absent: it says what its first word says then.
fn word_line<T: Copy>(
    rec: &[u8],
    at: usize,
    first: &[u8],
    one: T,
    second: &[u8],
    two: T,
) -> (T, usize)
    ensures { result ≡ word_line rec.now at (first.now, one) (second.now, two) }
{
    choice(rec, at, first, one, second, two).unwrap_or((one, at))
}

// `trailing`; `plain` where the line is absent.
#[tactic(auto, unfolding(definitions::specs::Record::trailing_at))]
fn trailing_at(rec: &[u8], at: usize) -> (Trailing, usize)
    ensures { result ≡ trailing_at rec.now at }
{
    word_line(
        rec,
        at,
        b"trailing=plain\n",
        Trailing::Plain,
        b"trailing=padded\n",
        Trailing::Padded,
    )
}

// `raw`, likewise.
#[tactic(auto, unfolding(definitions::specs::Record::raw_at))]
fn raw_at(rec: &[u8], at: usize) -> (Raw, usize)
    ensures { result ≡ raw_at rec.now at }
{
    word_line(
        rec,
        at,
        b"raw=plain\n",
        Raw::Plain,
        b"raw=numbered\n",
        Raw::Numbered,
    )
}

// `products`, likewise.
#[tactic(auto, unfolding(definitions::specs::Record::products_at))]
fn products_at(rec: &[u8], at: usize) -> (Products, usize)
    ensures { result ≡ products_at rec.now at }
{
    word_line(
        rec,
        at,
        b"products=plain\n",
        Products::Plain,
        b"products=divide\n",
        Products::Divide,
    )
}

// The lines that may be absent, in their order.
#[tactic(auto, unfolding(definitions::specs::Record::optional_at))]
fn optional_at(rec: &[u8], at: usize) -> OptionalRead
    ensures { result ≡ optional_at rec.now at }
{
    let (trailing, p) = trailing_at(rec, at);
    let (raw, q) = raw_at(rec, p);
    let (products, next) = products_at(rec, q);
    OptionalRead {
        trailing,
        raw,
        products,
        next,
    }
}

// The lines of the head behind `endian`.
fn target_at(rec: &[u8], at: usize, endianness: EndiannessValue) -> Read<Option<Head>>
    ensures { result ≡ screen_head rec.now (target_at rec.now at endianness) }
{
    let (target, p) = keys::name_line(rec, at, b"target=")?;
    let (arrays, q) = choice(
        rec,
        p,
        b"arrays=lite\n",
        Arrays::Lite,
        b"arrays=full\n",
        Arrays::Full,
    )?;
    let OptionalRead {
        trailing,
        raw,
        products,
        next,
    } = optional_at(rec, q);
    let options = Options {
        endianness,
        arrays,
        trailing,
        raw,
        products,
    };
    let Some(target) = target else {
        return Some((None, next));
    };
    Some((Some(Head { options, target }), next))
}

// The head: `endian`, `target`, `arrays`, and `trailing`, `raw` and `products` where they are there.
#[tactic(auto, unfolding(definitions::specs::Record::head_at))]
pub fn head_at(rec: &[u8], at: usize) -> Read<Option<Head>>
    ensures { result ≡ screen_head rec.now (head_at rec.now at) }
{
    let (endianness, p) = choice(
        rec,
        at,
        b"endian=little\n",
        EndiannessValue::LittleEndian,
        b"endian=big\n",
        EndiannessValue::BigEndian,
    )?;
    target_at(rec, p, endianness)
}
