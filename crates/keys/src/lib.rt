// The lines `key=value` of the record: a key with its `=`, a value, and its newline. `-` is absent. A name is handed out where it is no keyword of C++.
#![tactic(auto)]

ghost use Rattle.std.specs.Prelude.{◌≡◌};
ghost use Rattle.definitions.specs.Record.{number_line, name_line, bit_line, maybe_number_line, maybe_name_line, modifier_at, modifier_line, stated_at, bits_line};
ghost use Rattle.keywords.specs.Screens.{screen_name, screen_part};

use definitions::{Modifier, Part, Read, Size};

// `key=NUMBER`.
pub fn number_line(rec: &[u8], at: usize, key: &[u8]) -> Read<u64>
    ensures { result ≡ number_line rec.now at key.now }
{
    names::number_at(rec, names::key_at(rec, at, key)?)
}

// `key=NAME`.
#[tactic(auto, unfolding(definitions::specs::Record::name_line))]
pub fn name_line(rec: &[u8], at: usize, key: &[u8]) -> Read<Option<Part>>
    ensures { result ≡ screen_name rec.now (name_line rec.now at key.now) }
{
    keywords::name_at(rec, names::key_at(rec, at, key)?)
}

// `key=0` or `key=1`.
pub fn bit_line(rec: &[u8], at: usize, key: &[u8]) -> Read<bool>
    ensures { result ≡ bit_line rec.now at key.now }
{
    let p = names::key_at(rec, at, key)?;
    if let Some(q) = names::key_at(rec, p, b"0\n") {
        return Some((false, q));
    }
    let q = names::key_at(rec, p, b"1\n")?;
    Some((true, q))
}

// `key=NUMBER` or `key=-`.
pub fn maybe_number_line(rec: &[u8], at: usize, key: &[u8]) -> Read<Option<u64>>
    ensures { result ≡ maybe_number_line rec.now at key.now }
{
    let p = names::key_at(rec, at, key)?;
    if let Some(q) = names::key_at(rec, p, b"-\n") {
        return Some((None, q));
    }
    let (n, q) = names::number_at(rec, p)?;
    Some((Some(n), q))
}

// `key=NAME` or `key=-`.
#[tactic(auto, unfolding(definitions::specs::Record::maybe_name_line))]
pub fn maybe_name_line(rec: &[u8], at: usize, key: &[u8]) -> Read<Option<Option<Part>>>
    ensures { result ≡ screen_part rec.now (maybe_name_line rec.now at key.now) }
{
    let p = names::key_at(rec, at, key)?;
    if let Some(q) = names::key_at(rec, p, b"-\n") {
        return Some((Some(None), q));
    }
    let (name, q) = keywords::name_at(rec, p)?;
    Some((name.map(Some), q))
}

// `-`, or a sign and a number.
fn modifier_at(rec: &[u8], at: usize) -> Read<Modifier>
    ensures { result ≡ modifier_at rec.now at }
{
    if let Some(p) = names::key_at(rec, at, b"-\n") {
        return Some((Modifier::None, p));
    }
    if let Some(p) = names::key_at(rec, at, b"-") {
        let (n, q) = names::number_at(rec, p)?;
        return Some((Modifier::Minus(n), q));
    }
    let p = names::key_at(rec, at, b"+")?;
    let (n, q) = names::number_at(rec, p)?;
    Some((Modifier::Plus(n), q))
}

// `key=-`, `key=+NUMBER` or `key=-NUMBER`.
pub fn modifier_line(rec: &[u8], at: usize, key: &[u8]) -> Read<Modifier>
    ensures { result ≡ modifier_line rec.now at key.now }
{
    modifier_at(rec, names::key_at(rec, at, key)?)
}

// A number of bits, `dynamic` or `unknown`.
fn stated_at(rec: &[u8], at: usize) -> Read<Option<Size>>
    ensures { result ≡ stated_at rec.now at }
{
    if let Some(p) = names::key_at(rec, at, b"dynamic\n") {
        return Some((Some(Size::Dynamic), p));
    }
    if let Some(p) = names::key_at(rec, at, b"unknown\n") {
        return Some((Some(Size::Unknown), p));
    }
    let (n, p) = names::number_at(rec, at)?;
    Some((Some(Size::Static(n)), p))
}

// `bits=`, which may be absent.
pub fn bits_line(rec: &[u8], at: usize) -> Read<Option<Size>>
    ensures { result ≡ bits_line rec.now at }
{
    match names::key_at(rec, at, b"bits=") {
        Some(p) => stated_at(rec, p),
        None => Some((None, at)),
    }
}
