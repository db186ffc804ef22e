// The limits of a circuit: RULES 2. The definitions have them in specs/Limits.antt.

pub const MOST_ROWS: u32 = 256;

pub const MOST_COLUMNS: u32 = 256;

// Of one section.
pub const MOST_ENTRIES: usize = 1024;

// A, B and C. A matrix is a number and no enum: the column calls take any and refuse by 9, `section_start` takes 3 for the end, and the
// definitions speak of 0 to 2.
pub const MATRICES: usize = 3;
