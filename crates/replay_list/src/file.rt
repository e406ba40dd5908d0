// Places of a list of cases and the numbers there, lowest byte first, and 0 where they would reach
// past the list's end.
ghost use Rattle.std.specs.Prelude.{◌≡◌, ◌+◌, ◌≤◌, ◌<◌, get_or, length, take, drop, MatchOption};
ghost use Rattle.std.specs.Float.{binary64};
ghost use Rattle.std.specs.Float.Ieee.{of_bits};
ghost use Rattle.replay_list.specs.File.{place_after, short_at, long_at, item_at, float_at};

// A place that no list reaches: where a length in the list is too large, places stop here.
const FAR: usize = 16777216;

#[derive(Clone, Copy)]
pub struct Place<'a> {
    pub list: &'a [u8],
    pub at: usize,
}

// The place after n items of `width` bytes each.
#[tactic(auto, unfolding(crate::specs::File::place_after))]
pub fn past(at: usize, n: usize, width: usize) -> usize
    ensures { result ≡ place_after at n width }
{
    if FAR < at {
        return FAR;
    }
    if 65536 < n {
        return FAR;
    }
    if 64 < width {
        return FAR;
    }
    at + n * width
}

pub fn byte_at(s: &[u8], at: usize) -> u8
    ensures { result ≡ get_or s.now at 0 }
{
    numbers::item_or(s, at, 0)
}

// The float that a pattern of bits stands for. Every NaN's pattern is the one NaN.
pub fn float_of(bits: u64) -> f64
    ensures { result ≡ of_bits binary64 bits }
{
    if 9218868437227405312 < bits % 9223372036854775808 {
        f64::NAN
    } else {
        f64::from_bits(bits)
    }
}

impl<'a> Place<'a> {
    // Another place of the same list.
    pub fn to(self, at: usize) -> Place<'a>
        ensures { (result.list.now ≡ self.entry.list.now) × (result.at ≡ at) }
    {
        Place {
            list: self.list,
            at,
        }
    }

    pub fn past(self, n: usize, width: usize) -> Place<'a>
        ensures { (result.list.now ≡ self.entry.list.now) × (result.at ≡ place_after self.entry.at n width) }
    {
        self.to(past(self.at, n, width))
    }

    pub fn byte(self) -> u8
        ensures { result ≡ get_or self.entry.list.now self.entry.at 0 }
    {
        byte_at(self.list, self.at)
    }

    // The N bytes from here on, where the list has them.
    fn bytes<const N: usize>(self) -> Option<[u8; N]>
        ensures { MatchOption result (length self.entry.list.now < self.entry.at + N) (λ y. (self.entry.at + N ≤ length self.entry.list.now) × (y ≡ take N (drop self.entry.at self.entry.list.now))) }
    {
        let rest = self.list.get(self.at..)?;
        rest.first_chunk::<N>().copied()
    }

    // A number of four bytes.
    pub fn short(self) -> u32
        ensures { result ≡ short_at self.entry.list.now self.entry.at }
    {
        self.bytes().map_or(0, u32::from_le_bytes)
    }

    // A number of eight bytes.
    pub fn long(self) -> u64
        ensures { result ≡ long_at self.entry.list.now self.entry.at }
    {
        self.bytes().map_or(0, u64::from_le_bytes)
    }

    pub fn float(self) -> f64
        ensures { result ≡ float_at self.entry.list.now self.entry.at }
    {
        float_of(self.long())
    }

    // Number i of those of four bytes from here on.
    pub fn item(self, i: usize) -> usize
        ensures { result ≡ item_at self.entry.list.now self.entry.at i }
    {
        self.past(i, 4).short() as usize
    }
}
