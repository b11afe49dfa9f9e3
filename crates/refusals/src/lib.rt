// The number of a refusal, and the 64-bit number that a record comes to which is turned back: its answer times 2^32 plus the length, which is 0.
// Every program and every exported function numbers refusals by these.
#![tactic(auto)]

ghost use Rattle.std.specs.Prelude.{◌≡◌, ◌*◌, ◌≤◌, ◌^◌};
ghost use Rattle.definitions.specs.Refusals.{number};

use definitions::Refusal;

pub fn number_of(why: Refusal) -> u64
    ensures { (result ≡ number why) × (result ≤ 19) }
{
    match why {
        Refusal::RecordLength => 1,
        Refusal::RecordForm => 2,
        Refusal::Keyword => 16,
        Refusal::TooMany => 3,
        Refusal::DuplicateName => 4,
        Refusal::UnknownName => 5,
        Refusal::OutOfRange => 6,
        Refusal::TooLarge => 7,
        Refusal::NotWholeBytes => 8,
        Refusal::Misstated => 17,
        Refusal::NoTarget => 9,
        Refusal::OpenChunk => 10,
        Refusal::OctetBoundary => 11,
        Refusal::ScalarTooWide => 12,
        Refusal::UnsupportedOptional => 13,
        Refusal::MultipleUnknown => 14,
        Refusal::SectionTooLong => 19,
        Refusal::NoRoom => 15,
    }
}

// A refusal: its number times 2^32, and length 0.
pub fn turned_back(why: Refusal) -> u64
    ensures { result ≡ number why * 2 ^ 32 }
{
    number_of(why) << 32
}
