// Words that several groups of examples take: the circuits K and K1 of RULES 9, K's assignment, and the largest word.

// Two rows, two public columns, four columns; then A, B and C, of 2, 3 and 2 entries.
pub const K: [u32; 27] = [
    2, 2, 4, 2, 1, 3, 1, 2, 4, 1, 3, 1, 3, 1, 2, 1, 2, 2, 3, 1, 2, 1, 4, 1, 2, 2, 1,
];

pub const K1: [u32; 15] = [1, 1, 2, 1, 1, 2, 1, 2, 1, 1, 2013265920, 1, 2, 1, 0];

pub const ASSIGNMENT: [u32; 6] = [2, 1, 45, 2, 3, 9];

pub const LARGEST: u32 = 4294967295;
