// The exported functions: the C build host calls the lowering by them (include/ruphwenqo.h says what the numbers mean).
#![tactic(auto)]

ghost use Rattle.std.specs.Prelude.{◌≡◌, length};
ghost use Rattle.definitions.specs.Answer.{lower as answered, word, buffer_after};
ghost use Rattle.definitions.specs.All.{lower_all};

// The lines of the record's target, at the front of `out`; the number is the answer times 2^32 plus their length.
#[unsafe(no_mangle)]
pub extern "C" fn lower(rec: &[u8], out: &mut [u8]) -> u64
    ensures { (result ≡ word (answered rec.now (length out.old)))
        × (out.new ≡ buffer_after (answered rec.now (length out.old)) out.old) }
{
    lowering::lower(rec, out)
}

// The same, of the sections of every packet and struct, joined.
#[unsafe(no_mangle)]
pub extern "C" fn lower_all(rec: &[u8], out: &mut [u8]) -> u64
    ensures { (result ≡ word (lower_all rec.now (length out.old)))
        × (out.new ≡ buffer_after (lower_all rec.now (length out.old)) out.old) }
{
    lowering::lower_all(rec, out)
}
