// How a call's answer is told to C in one number of 64 bits: the top byte is the refusal's number, 0 where the call was done, and the low
// 56 bits are what is returned. Each type that a call hands back says here what the low bits hold of it.
ghost use Rattle.std.specs.Prelude.{◌≡◌, ◌<◌, ◌^◌, ℕ, Ok};
ghost use Rattle.embed.specs.Returned.{low, refused_as, answer_as, checked_as, whole_as, dug_as};

use fields::{Part, Refusal};

// One more than the greatest number of the low bits.
const LOW_END: u64 = 1 << 56;

// What the low bits hold where no struct is read whole: all of them are set.
const NO_SIZE: u64 = LOW_END - 1;

// What the low bits hold where a path leads nowhere.
const NO_PLACE: u64 = 0;

// What a call hands back where it is done.
pub trait Returned {
    // What the low bits hold of it.
    ghost number: { Self → ℕ };

    // What the low bits hold of it.
    fn low_bits(self) -> u64
        ensures value { result ≡ number self }
        ensures within { result < 2 ^ 56 };
}

// A count, or the bytes of a message.
impl Returned for u64 {
    ghost number = { low };

    #[tactic(auto, unfolding(crate::specs::Returned::low))]
    fn low_bits(self) -> u64 {
        self % LOW_END
    }
}

// The bytes written, or a place.
impl Returned for usize {
    ghost number = { low };

    fn low_bits(self) -> u64 {
        // By `as`: std has no `From` that makes a u64 of it.
        (self as u64).low_bits()
    }
}

// A check that was passed.
impl Returned for () {
    ghost number = { λ passed. checked_as (Ok 0) };

    #[tactic(auto, unfolding(crate::specs::Returned::checked_as))]
    fn low_bits(self) -> u64 {
        0
    }
}

// The bytes of a struct.
impl Returned for Option<u64> {
    ghost number = { λ size. whole_as (Ok size) };

    #[tactic(auto, unfolding(crate::specs::Returned::whole_as))]
    fn low_bits(self) -> u64 {
        self.map_or(NO_SIZE, u64::low_bits)
    }
}

// Where a part starts.
impl Returned for Option<Part> {
    ghost number = { λ part. dug_as (Ok part) };

    #[tactic(auto, unfolding(crate::specs::Returned::dug_as))]
    fn low_bits(self) -> u64 {
        self.map_or(NO_PLACE, |part| part.start.low_bits())
    }
}

// A refusal: its number in the top byte, and what is returned with it.
#[tactic(auto, unfolding(crate::specs::Returned::refused_as))]
fn refusal(r: Refusal) -> u64
    ensures { result ≡ refused_as r }
{
    u64::from(r.number()) * LOW_END + r.returned().low_bits()
}

// A call's answer.
#[tactic(auto, unfolding(crate::specs::Returned::answer_as))]
pub fn encode<T: Returned>(answer: Result<T, Refusal>) -> u64
    ensures { result ≡ answer_as T.number answer }
{
    answer.map_or_else(refusal, T::low_bits)
}
