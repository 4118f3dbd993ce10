ghost use Rattle.std.specs.Prelude.{◌≡◌, ◌<◌, ◌≤◌, ℕ, false, not, ◌&&◌, ◌||◌, nat_eq};
ghost use Rattle.proof_check.specs.Inner.LineSets.{has_bit, holds};

/// The greatest number that a set can hold: that of a proof's last line.
const MOST: u64 = 256;

/// A set of numbers of lines, from 1 to 256, as a bit for each. `holds` of the specification says which
/// are in it.
#[derive(Clone, Copy, Default)]
pub struct LineSet {
    low: u128,
    high: u128,
}

impl LineSet {
    /// No numbers.
    pub fn empty() -> LineSet
        ensures { (h : ℕ) → holds result h ≡ false }
    {
        LineSet { low: 0, high: 0 }
    }

    /// Whether the number is in the set.
    pub fn holds(self, number: u64) -> bool
        ensures { result ≡ holds self number }
    {
        if number == 0 || number > MOST {
            false
        } else if number <= 128 {
            is_set(self.low, number - 1)
        } else {
            is_set(self.high, number - 129)
        }
    }

    /// The set with the number too.
    pub fn with(self, number: u64) -> LineSet
        requires some { 0 < number }
        requires most { number ≤ 256 }
        ensures { (h : ℕ) → holds result h ≡ (nat_eq number h || holds self h) }
    {
        if number <= 128 {
            LineSet {
                low: with_bit(self.low, number - 1),
                high: self.high,
            }
        } else {
            LineSet {
                low: self.low,
                high: with_bit(self.high, number - 129),
            }
        }
    }

    /// The set without the number.
    pub fn without(self, number: u64) -> LineSet
        ensures { (h : ℕ) → holds result h ≡ (not (nat_eq number h) && holds self h) }
    {
        if number == 0 || number > MOST {
            self
        } else if number <= 128 {
            LineSet {
                low: without_bit(self.low, number - 1),
                high: self.high,
            }
        } else {
            LineSet {
                low: self.low,
                high: without_bit(self.high, number - 129),
            }
        }
    }

    /// The numbers of both sets.
    pub fn joined(self, other: LineSet) -> LineSet
        ensures { (h : ℕ) → holds result h ≡ (holds self h || holds other h) }
    {
        LineSet {
            low: self.low | other.low,
            high: self.high | other.high,
        }
    }
}

fn is_set(word: u128, place: u64) -> bool
    requires { place < 128 }
    ensures { result ≡ has_bit word place }
{
    (word >> place) & 1 == 1
}

fn with_bit(word: u128, place: u64) -> u128
    requires { place < 128 }
    ensures { (i : ℕ) → has_bit result i ≡ (nat_eq place i || has_bit word i) }
{
    word | 1 << place
}

fn without_bit(word: u128, place: u64) -> u128
    requires { place < 128 }
    ensures { (i : ℕ) → i < 128 → has_bit result i ≡ (not (nat_eq place i) && has_bit word i) }
{
    word & !(1 << place)
}
