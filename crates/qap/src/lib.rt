// The calls of the rules over circuits, assignments and points.
// Records and no arrays of 3 and 4: definitions, promises and edits speak of their words by name.
#![tactic(auto)]

// d1, d2, d3
#[derive(Clone, Copy)]
pub struct Blinders {
    pub first: u32,
    pub second: u32,
    pub third: u32,
}

// The four numbers that answer a query.
#[derive(Clone, Copy)]
pub struct FourAnswers {
    pub first: u32,
    pub second: u32,
    pub third: u32,
    pub fourth: u32,
}
