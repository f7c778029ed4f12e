// What every call of the project answers, why it refuses, and the order in which its checks speak.
#![tactic(auto)]

ghost use Rattle.std.specs.Prelude.{◌≡◌};
ghost use Rattle.answer.specs.Answer.{refuse_if, ◌or◌};

// 01, "What comes back": "returns number, channel, place". The layout is C's.
#[repr(C)]
#[derive(Clone, Copy)]
pub struct Answer {
    pub number: u32,
    pub channel: u32,
    pub place: usize,
}

impl Answer {
    ghost use Rattle.answer.specs.Answer.{no};

    // Of what is accepted: 0, and how many words, bytes or others it gives.
    pub fn accepted(place: usize) -> Answer
        ensures { result ≡ no 0 0 place }
    {
        Answer {
            number: 0,
            channel: 0,
            place,
        }
    }
}

// Why a call is refused: a case for each number of the table of answers. A channel is 1 or 2, and a place a bit of it.
#[derive(Clone, Copy)]
pub enum Refusal {
    UnknownBandwidth,
    WrongLength { channel: u32 },
    CommonFieldCut { channel: u32, place: usize },
    WrongCommonCheck { channel: u32, place: usize },
    WrongOverflow { channel: u32, place: usize },
    ValueNotCarried { channel: u32, place: usize },
    NoPlan { segment: usize },
    OverEightFields { segment: usize },
    UserBlocksCut { channel: u32, place: usize },
    WrongUserCheck { channel: u32, place: usize },
    StationTwice { channel: u32, place: usize },
    // of the words that are lent, and that are needed
    TooFewWords { needed: usize },
    NoFrameReads,
    // of the bytes that are lent for a channel
    TooFewBytes { channel: u32, needed: usize },
    NotWholeEntries,
    // of an entry of a Trigger frame; it is its number in a list, from 1, and 0 where there is one alone
    ReservedBitSet { entry: usize },
    NotNamed { entry: usize },
    NoSuchStreams,
    BufferTooShort { needed: usize },
    OtherLayout { entry: usize },
    TooManyEntries,
    TooFewPairs,
}

impl Refusal {
    ghost use Rattle.answer.specs.Answer.{of_entry};

    // The same of an entry with this number in its list.
    pub fn of_entry(self, entry: usize) -> Refusal
        ensures { result ≡ of_entry entry self }
    {
        match self {
            Refusal::ReservedBitSet { .. } => Refusal::ReservedBitSet { entry },
            Refusal::NotNamed { .. } => Refusal::NotNamed { entry },
            Refusal::OtherLayout { .. } => Refusal::OtherLayout { entry },
            other => other,
        }
    }
}

impl From<Refusal> for Answer {
    ghost use Rattle.answer.specs.Answer.{answer_of};

    ghost from_gives = { λ refusal answer. answer ≡ answer_of refusal };

    fn from(refusal: Refusal) -> Answer {
        let answer = |number: u32, channel: u32, place: usize| Answer {
            number,
            channel,
            place,
        };
        match refusal {
            Refusal::UnknownBandwidth => answer(1, 0, 0),
            Refusal::WrongLength { channel } => answer(2, channel, 0),
            Refusal::CommonFieldCut { channel, place } => answer(3, channel, place),
            Refusal::WrongCommonCheck { channel, place } => answer(4, channel, place),
            Refusal::WrongOverflow { channel, place } => answer(5, channel, place),
            Refusal::ValueNotCarried { channel, place } => answer(6, channel, place),
            Refusal::NoPlan { segment } => answer(7, 0, segment),
            Refusal::OverEightFields { segment } => answer(8, 0, segment),
            Refusal::UserBlocksCut { channel, place } => answer(9, channel, place),
            Refusal::WrongUserCheck { channel, place } => answer(10, channel, place),
            Refusal::StationTwice { channel, place } => answer(11, channel, place),
            Refusal::TooFewWords { needed } => answer(12, 0, needed),
            Refusal::NoFrameReads => answer(13, 0, 0),
            Refusal::TooFewBytes { channel, needed } => answer(14, channel, needed),
            Refusal::NotWholeEntries => answer(15, 0, 0),
            Refusal::ReservedBitSet { entry } => answer(16, 0, entry),
            Refusal::NotNamed { entry } => answer(17, 0, entry),
            Refusal::NoSuchStreams => answer(21, 0, 0),
            Refusal::BufferTooShort { needed } => answer(23, 0, needed),
            Refusal::OtherLayout { entry } => answer(24, 0, entry),
            Refusal::TooManyEntries => answer(25, 0, 0),
            Refusal::TooFewPairs => answer(26, 0, 0),
        }
    }
}

// One check: the refusal, told in any form, where the test holds.
#[inline(always)]
pub fn refuse_if<E: Copy>(test: bool, refusal: E) -> Result<(), E>
    ensures { result ≡ refuse_if test refusal }
{
    if test { Err(refusal) } else { Ok(()) }
}

// The first of two that refuses.
#[inline(always)]
pub fn or_else<E: Copy>(a: Result<(), E>, b: Result<(), E>) -> Result<(), E>
    ensures { result ≡ (a or b) }
{
    a.and(b)
}
