// `Size` of analyzer.rs: its sums and products, tested against 2^31 - 1 bits (refusal 7), and as a number of a table. What is over the limit is
// held as 2^31, so that nothing overflows and the test stays exact.
#![tactic(auto)]

ghost use Rattle.std.specs.Prelude.{◌≡◌, ◌+◌, ◌*◌, ◌<◌, ◌^◌, get_or, set};
ghost use Rattle.definitions.specs.Sizes.{add_size, mul_size, given, outer_size, static_width};
ghost use Rattle.definitions.specs.Refusals.{large_size};
ghost use Rattle.definitions.specs.Tables.{encode, decode};
ghost use Rattle.bits.specs.Capped.{cap, capped};

use definitions::Size;

// 2^31 - 1, and what is held in place of more.
const MOST_BITS: u64 = 2147483647;

const OVER: u64 = 2147483648;

// ---- a size as a number of a table; nothing is written outside the table, and 0 is read there

// The numbers of the two sizes that have no bits, behind those that have.
const DYNAMIC: u64 = 2147483648;

const UNKNOWN: u64 = 2147483649;

// Two functions, since `From` would have to stand in the crate of `Size`.
fn encode(z: Size) -> u64
    ensures { result ≡ encode z }
{
    match z {
        Size::Static(bits) => bits,
        Size::Dynamic => DYNAMIC,
        Size::Unknown => UNKNOWN,
    }
}

fn decode(n: u64) -> Size
    ensures { result ≡ decode n }
{
    match n {
        0..=MOST_BITS => Size::Static(n),
        DYNAMIC => Size::Dynamic,
        _ => Size::Unknown,
    }
}

pub fn put_size(t: &mut [u64], i: usize, z: Size)
    ensures { t.new ≡ set t.old i (encode z) }
{
    if i < t.len() {
        t[i] = encode(z);
    }
}

pub fn get_size(t: &[u64], i: usize) -> Size
    ensures { result ≡ decode (get_or t.now i 0) }
{
    decode(t.get(i).copied().unwrap_or(0))
}

// ---- sums and products

// `impl Add for Size`
pub fn add_size(a: Size, b: Size) -> Size
    requires { static_width a + static_width b < 2 ^ 64 }
    ensures { result ≡ add_size a b }
{
    match (a, b) {
        (Size::Unknown, _) | (_, Size::Unknown) => Size::Unknown,
        (Size::Dynamic, _) | (_, Size::Dynamic) => Size::Dynamic,
        (Size::Static(x), Size::Static(y)) => Size::Static(x + y),
    }
}

pub fn cap(bits: u64) -> u64
    ensures { result ≡ cap bits }
{
    if MOST_BITS < bits {
        return OVER;
    }
    bits
}

pub fn capped(z: Size) -> Size
    ensures { result ≡ capped z }
{
    match z {
        Size::Static(bits) => Size::Static(cap(bits)),
        _ => z,
    }
}

pub fn product(a: u64, b: u64) -> u64
    ensures { result ≡ cap (a * b) }
{
    cap(a.saturating_mul(b))
}

// `impl Mul<usize> for Size`
pub fn mul_size(z: Size, n: u64) -> Size
    ensures { result ≡ capped (mul_size z n) }
{
    match z {
        Size::Static(bits) => Size::Static(product(bits, n)),
        _ => z,
    }
}

pub fn add_capped(a: Size, b: Size) -> Size
    ensures { result ≡ capped (add_size a b) }
{
    capped(add_size(capped(a), capped(b)))
}

pub fn add_bits(bits: u64, z: Size) -> u64
    ensures { result ≡ cap (bits + static_width z) }
{
    cap(bits.saturating_add(static_bits(z)))
}

// ---- what is asked of one size

pub fn large_size(z: Size) -> bool
    ensures { result ≡ large_size z }
{
    matches!(z, Size::Static(bits) if MOST_BITS < bits)
}

pub fn static_bits(z: Size) -> u64
    ensures { result ≡ static_width z }
{
    match z {
        Size::Static(bits) => bits,
        _ => 0,
    }
}

// Dynamic where a field of the declaration gives it, else unknown.
pub fn given(b: bool) -> Size
    ensures { result ≡ given b }
{
    if b { Size::Dynamic } else { Size::Unknown }
}

pub fn outer_size(size: Size, padded: Option<u64>) -> Size
    ensures { result ≡ outer_size size padded }
{
    match padded {
        None => size,
        Some(bits) => Size::Static(bits),
    }
}
