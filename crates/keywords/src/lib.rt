// The leaf that reads a name of the record, and the keywords of C++17. It hands out no name that is a keyword, yet the place
// behind it. A name's length and first byte mostly tell that it is none; else it is compared with the keywords of its length.
#![tactic(auto)]

ghost use Rattle.std.specs.Prelude.{◌≡◌, true, false, ◌≤◌, ◌<◌, length};
ghost use Rattle.definitions.specs.Bytes.{any, same};
ghost use Rattle.definitions.specs.Keywords.{is_keyword};
ghost use Rattle.definitions.specs.Record.{name_at};
ghost use Rattle.keywords.specs.Screens.{screen_name};
ghost use Rattle.keywords.specs.Pieces.{pieces, may_be};

use definitions::{Part, Read};

// Whether a name is one of `count` words of its own length, each with a byte behind it.
fn is_among(words: &[u8], count: usize, name: &[u8]) -> bool
    requires { (count ≤ 84) × (length name.now ≤ 16) }
    ensures { result ≡ any (same name.now) (pieces count (length name.now) words.now) }
{
    let mut p = 0;
    let mut left = count;
    while 0 < left {
        if let Some(_) = names::key_at(words, p, name) {
            return true;
        }
        p += name.len() + 1;
        left -= 1;
    }
    false
}

// Whether a name of 7 to 16 bytes is one of the keywords of its length.
fn is_long_keyword(name: &[u8]) -> bool
    requires { (length name.now ≤ 16) × (6 < length name.now) }
    ensures { result ≡ is_keyword name.now }
{
    let n = name.len();
    if n == 7 {
        return is_among(
            b"alignas alignof default mutable nullptr private typedef virtual wchar_t ",
            9,
            name,
        );
    }
    if n == 8 {
        return is_among(
            b"char16_t char32_t continue decltype explicit noexcept operator register template typename unsigned volatile ",
            12,
            name,
        );
    }
    if n == 9 {
        return is_among(b"constexpr namespace protected ", 3, name);
    }
    if n == 10 {
        return is_among(b"const_cast ", 1, name);
    }
    if n == 11 {
        return is_among(b"static_cast ", 1, name);
    }
    if n == 12 {
        return is_among(b"dynamic_cast thread_local ", 2, name);
    }
    if n == 13 {
        return is_among(b"static_assert ", 1, name);
    }
    if n == 16 {
        return is_among(b"reinterpret_cast ", 1, name);
    }
    false
}

// The same for a name of at most 16 bytes.
fn is_listed(name: &[u8]) -> bool
    requires { length name.now ≤ 16 }
    ensures { result ≡ is_keyword name.now }
{
    let n = name.len();
    if 6 < n {
        return is_long_keyword(name);
    }
    if n == 2 {
        return is_among(b"do if or ", 3, name);
    }
    if n == 3 {
        return is_among(b"asm for int new try and not xor ", 8, name);
    }
    if n == 4 {
        return is_among(
            b"auto bool case char else enum goto long this true void ",
            11,
            name,
        );
    }
    if n == 5 {
        return is_among(
            b"break catch class const false float short throw union using while bitor compl or_eq ",
            14,
            name,
        );
    }
    if n == 6 {
        return is_among(
            b"delete double export extern friend inline public return signed sizeof static struct switch typeid and_eq bitand not_eq xor_eq ",
            18,
            name,
        );
    }
    false
}

// For each length from 0 to 16, the first letters of the keywords that are so long: bit 0 is `a`.
const FIRST_LETTERS: [u32; 17] = [
    0, // 0
    0, // 1
    0x4108, // 2: dio
    0x88_2121, // 3: afintx
    0x28_0857, // 4: abcegltv
    0x5c_4026, // 5: bcfostuw
    0x8e_a13b, // 6: abdefinprstx
    0x68_b009, // 7: admnptvw
    0x3a_601c, // 8: cdenortuv
    0xa004, // 9: cnp
    0x4, // 10: c
    0x4_0000, // 11: s
    0x8_0008, // 12: dt
    0x4_0000, // 13: s
    0, // 14
    0, // 15
    0x2_0000, // 16: r
];

// Whether a keyword of this length begins with this byte.
fn may_be(n: usize, first: u8) -> bool
    requires { n ≤ 16 }
    ensures { result ≡ may_be n first }
{
    if !first.is_ascii_lowercase() {
        return false;
    }
    let letter = u32::from(first - b'a');
    (FIRST_LETTERS[n] >> letter) % 2 == 1
}

// Exactly one of the 84 words.
fn is_keyword(name: &[u8]) -> bool
    ensures { result ≡ is_keyword name.now }
{
    let n = name.len();
    if n == 0 || 16 < n {
        return false;
    }
    may_be(n, name[0]) && is_listed(name)
}

// A name at a place, with its newline.
pub fn name_at(rec: &[u8], at: usize) -> Read<Option<Part>>
    ensures { result ≡ screen_name rec.now (name_at rec.now at) }
{
    let (name, p) = names::name_at(rec, at)?;
    let free = if is_keyword(names::part(rec, name)) {
        None
    } else {
        Some(name)
    };
    Some((free, p))
}
