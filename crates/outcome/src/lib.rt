// What a call gives back (RULES 6): done, or a refusal with its number and place.
#![tactic(auto)]

ghost use Rattle.std.specs.Prelude.{◌≡◌};
ghost use Rattle.outcome.specs.Verdict.{told, checked, outcome_of};

// Number and place as a host reads them. Number 0 at place 0 is done, or accepted; every other number is a refusal.
#[derive(Clone, Copy, Debug, PartialEq, Eq)]
pub struct Outcome {
    pub number: u32,
    pub place: usize,
}

// The refusals in the order of their numbers, each with its place where that is not always 0.
#[derive(Clone, Copy, Debug, PartialEq, Eq)]
pub enum Refusal {
    // 1: the words end before the circuit does, or go on behind it.
    Extent(usize),
    // 2: m, n, q or a number of entries is out of range.
    Limit(usize),
    // 3: an entry's row or column is out of range.
    Position(usize),
    // 4: an entry's value is 0, or no field word.
    Value(usize),
    // 5: an entry is not above the one before it.
    Order(usize),
    // 6: the length of an assignment or public section, or a count in it, is not what the circuit asks for.
    Shape,
    // 7: the first public value is not 1, or a value is no field word.
    Assigned(usize),
    // 8: an output or a candidate does not have exactly the length wanted.
    Length(usize),
    // 9: there is no such matrix or column.
    Column,
    // 10: a row does not hold.
    Row(usize),
    // 11: the point is no field word, or one of the rows' points.
    Point,
    // 12: a blinder, an answer or a candidate's word is no field word.
    Given(usize),
    // 13: a check's equality is false.
    Equality,
    // 14: bytes are not well shaped.
    Bytes,
}

impl From<Refusal> for Outcome {
    ghost from_gives = { λ r o. o ≡ told r };

    fn from(r: Refusal) -> Outcome {
        let (number, place) = match r {
            Refusal::Extent(place) => (1, place),
            Refusal::Limit(place) => (2, place),
            Refusal::Position(place) => (3, place),
            Refusal::Value(place) => (4, place),
            Refusal::Order(place) => (5, place),
            Refusal::Shape => (6, 0),
            Refusal::Assigned(place) => (7, place),
            Refusal::Length(place) => (8, place),
            Refusal::Column => (9, 0),
            Refusal::Row(place) => (10, place),
            Refusal::Point => (11, 0),
            Refusal::Given(place) => (12, place),
            Refusal::Equality => (13, 0),
            Refusal::Bytes => (14, 0),
        };
        Outcome { number, place }
    }
}

impl<T: Drop> From<Result<T, Refusal>> for Outcome {
    ghost from_gives = { λ r o. o ≡ outcome_of r };

    fn from(r: Result<T, Refusal>) -> Outcome {
        match r {
            Ok(_) => Outcome {
                number: 0,
                place: 0,
            },
            Err(refusal) => Outcome::from(refusal),
        }
    }
}

// The refusal where the test fails, else done.
pub fn require<E: Copy>(good: bool, refusal: E) -> Result<(), E>
    ensures { result ≡ checked good refusal }
{
    if good { Ok(()) } else { Err(refusal) }
}

// Low to high, both included.
pub fn within(low: u32, x: u32, high: u32) -> bool
    ensures { result ≡ Rattle.outcome.specs.Verdict.within low x high }
{
    low <= x && x <= high
}
