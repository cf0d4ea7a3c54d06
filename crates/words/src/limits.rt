// Numbers within limits: one type for every kind of thing that has a least and a greatest number.
ghost use Rattle.std.specs.Prelude.{◌≡◌, ℕ};
ghost use Rattle.words.specs.Limited.{limited};

// A number from `LEAST` to `MOST`, ends included.
#[derive(Clone, Copy, Debug, PartialEq, Eq, PartialOrd, Ord, Hash)]
pub struct Limited<const LEAST: usize, const MOST: usize> {
    pub number: usize,
}

// The least and the greatest number of a kind, as constants.
pub trait Limits {
    ghost MIN: { ℕ };

    ghost MAX: { ℕ };

    const MIN: usize;

    const MAX: usize;
}

impl<const LEAST: usize, const MOST: usize> Limits for Limited<LEAST, MOST> {
    ghost MIN = { LEAST };

    ghost MAX = { MOST };

    const MIN: usize = LEAST;

    const MAX: usize = MOST;
}

impl<const LEAST: usize, const MOST: usize> Limited<LEAST, MOST> {
    // The number, if it lies within the limits.
    pub fn new(number: usize) -> Option<Self>
        ensures { result ≡ limited LEAST MOST number }
    {
        if LEAST <= number && number <= MOST {
            Some(Limited { number })
        } else {
            None
        }
    }

    // The greatest number of this kind.
    pub fn max() -> usize
        ensures { result ≡ MOST }
    {
        MOST
    }
}
