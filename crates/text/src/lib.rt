// Bytes and numbers written into a lent buffer: fixed C++ pieces, names, decimal and hexadecimal numbers; `mask`, and `get_cxx_scalar_type` by a
// table. Every writer says by `Wrote` which place comes next and what the buffer holds, for every buffer and every place: the pass that only finds
// the length runs on an empty buffer.
#![tactic(auto)]

ghost use Rattle.std.specs.Prelude.{◌≡◌, ◌∷◌, [], ◌++◌, ◌-◌, ◌≤◌, ◌<◌, min};
ghost use Rattle.std.proofs.lemmas.List.Edits.{sets};
ghost use Rattle.definitions.specs.Bytes.{digit, digits, decimal, hexadecimal};
ghost use Rattle.definitions.specs.Blocks.{mask as mask_of};
ghost use Rattle.text.specs.Put.{Put, after};
ghost use Rattle.text.specs.Widths.{scalar_type_of};

// The place n bytes after at, and 2^63 where that is further: no slice is so long.
fn moved(at: usize, n: usize) -> usize
    ensures { result ≡ after at n }
{
    at.max(at.saturating_add(n).min(0x8000_0000_0000_0000))
}

// The bytes of a piece from `at` on, as many as are inside. One by one: pieces are short, and to copy a slice calls `memmove`, which those who link the
// library would have to bring.
fn lay(out: &mut [u8], at: usize, piece: &[u8])
    ensures { out.new ≡ sets out.old at piece.now }
{
    let n = piece.len().min(out.len().saturating_sub(at));
    for i in 0..n {
        out[at + i] = piece[i];
    }
}

// A buffer that is written, and the place that comes next.
#[derive(Drop)]
pub struct Writer<'a> {
    pub out: &'a mut [u8],
    pub at: usize,
}

impl<'a> Writer<'a> {
    ghost use Rattle.text.specs.Wrote.{Wrote};

    // A piece, as far as it is inside the buffer.
    pub fn put(&mut self, piece: &[u8])
        ensures { Wrote self.old self.new piece.now }
    {
        lay(self.out, self.at, piece);
        self.at = moved(self.at, piece.len());
    }

    // One byte. It has a function of its own, since numbers are written byte by byte, and a copy of one byte is a call.
    fn byte(&mut self, b: u8)
        ensures { Wrote self.old self.new (b ∷ []) }
    {
        if self.out.len() <= self.at {
            self.at = moved(self.at, 1);
            return;
        }
        self.out[self.at] = b;
        self.at += 1;
    }

    // A name, or another piece, between two pieces.
    pub fn name(&mut self, before: &[u8], name: &[u8], behind: &[u8])
        ensures { Wrote self.old self.new (before.now ++ (name.now ++ behind.now)) }
    {
        self.put(before);
        self.put(name);
        self.put(behind);
    }

    // The digits of a number, the first one first.
    fn digits(&mut self, n: u64, base: u64)
        requires { (2 ≤ base) × (base ≤ 16) }
        ensures { Wrote self.old self.new (digits base n) }
    {
        if n < base {
            self.byte(digit_of(n));
            return;
        }
        self.digits(n / base, base);
        self.byte(digit_of(n % base));
    }

    // `{}`: a number between two pieces.
    pub fn number(&mut self, before: &[u8], n: u64, behind: &[u8])
        ensures { Wrote self.old self.new (before.now ++ (decimal n ++ behind.now)) }
    {
        self.put(before);
        self.digits(n, 10);
        self.put(behind);
    }

    // `{:#x}`: a number between two pieces.
    pub fn hexadecimal(&mut self, before: &[u8], n: u64, behind: &[u8])
        ensures { Wrote self.old self.new (before.now ++ (hexadecimal n ++ behind.now)) }
    {
        self.put(before);
        self.put(b"0x");
        self.digits(n, 16);
        self.put(behind);
    }
}

fn digit_of(n: u64) -> u8
    requires { n < 16 }
    ensures { result ≡ digit n }
{
    if n < 10 {
        return b'0' + n as u8;
    }
    b'a' + (n - 10) as u8
}

// A piece from at on, as far as it is inside out.
pub fn put(out: &mut [u8], at: usize, piece: &[u8]) -> usize
    ensures { Put out.old at piece.now result out.new }
{
    let mut w = Writer { out, at };
    w.put(piece);
    w.at
}

// A name, or another piece, between two pieces.
pub fn put_name(out: &mut [u8], at: usize, before: &[u8], name: &[u8], behind: &[u8]) -> usize
    ensures { Put out.old at (before.now ++ (name.now ++ behind.now)) result out.new }
{
    let mut w = Writer { out, at };
    w.name(before, name, behind);
    w.at
}

// `{}`: a number between two pieces.
pub fn put_number(out: &mut [u8], at: usize, before: &[u8], n: u64, behind: &[u8]) -> usize
    ensures { Put out.old at (before.now ++ (decimal n ++ behind.now)) result out.new }
{
    let mut w = Writer { out, at };
    w.number(before, n, behind);
    w.at
}

// `{:#x}`: a number between two pieces.
pub fn put_hexadecimal(out: &mut [u8], at: usize, before: &[u8], n: u64, behind: &[u8]) -> usize
    ensures { Put out.old at (before.now ++ (hexadecimal n ++ behind.now)) result out.new }
{
    let mut w = Writer { out, at };
    w.hexadecimal(before, n, behind);
    w.at
}

// `mask`: so many bits, at most 64, all 1.
pub fn mask(width: u64) -> u64
    ensures { result ≡ mask_of (min width 64) }
{
    if 64 <= width {
        return 0xffff_ffff_ffff_ffff;
    }
    (1 << width) - 1
}

// The bits of the backing type of each width from 0 to 64, read by index. Behind an entry: its width, at the borders.
const SCALAR_TYPES: [u8; 65] = [
    8, // 0
    8, 8, 8, 8, 8, 8, 8, 8, // 8
    16, // 9
    16, 16, 16, 16, 16, 16, 16, // 16
    32, // 17
    32, 32, 32, 32, 32, 32, 32, 32, 32, 32, 32, 32, 32, 32, 32, // 32
    64, // 33
    64, 64, 64, 64, 64, 64, 64, 64, 64, 64, 64, 64, 64, 64, 64, 64, 64, 64, 64, 64, 64, 64, 64, 64,
    64, 64, 64, 64, 64, 64, 64, // 64
];

// `get_cxx_scalar_type`: the bits of the backing type of a width. More than 64 bits have none, and are refused.
pub fn get_cxx_scalar_type(width: u64) -> Option<u64>
    ensures { result ≡ scalar_type_of width }
{
    if 64 < width {
        return None;
    }
    Some(SCALAR_TYPES[width as usize] as u64)
}
