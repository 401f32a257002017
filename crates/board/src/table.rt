// The table of distances: entry 16a + c is rows plus columns between the cells a and c of a grid four wide.
// Its rule is proved with `distance::distances`, the one function that reads it.
pub const DISTANCES: [u8; 256] = [
    // from cell 0
    0, 1, 2, 3, 1, 2, 3, 4, 2, 3, 4, 5, 3, 4, 5, 6,
    // from cell 1
    1, 0, 1, 2, 2, 1, 2, 3, 3, 2, 3, 4, 4, 3, 4, 5,
    // from cell 2
    2, 1, 0, 1, 3, 2, 1, 2, 4, 3, 2, 3, 5, 4, 3, 4,
    // from cell 3
    3, 2, 1, 0, 4, 3, 2, 1, 5, 4, 3, 2, 6, // to cell 12, the corner across
    5, 4, 3,
    // from cell 4
    1, 2, 3, 4, 0, 1, 2, 3, 1, 2, 3, 4, 2, 3, 4, 5,
    // from cell 5
    2, 1, 2, 3, 1, 0, 1, 2, 2, 1, 2, 3, 3, 2, 3, 4,
    // from cell 6
    3, 2, 1, 2, 2, 1, 0, 1, 3, 2, 1, 2, 4, 3, 2, 3,
    // from cell 7
    4, 3, 2, 1, 3, 2, 1, 0, 4, 3, 2, 1, 5, 4, 3, 2,
    // from cell 8
    2, 3, 4, 5, 1, 2, 3, 4, 0, 1, 2, 3, 1, 2, 3, 4,
    // from cell 9
    3, 2, 3, 4, 2, 1, 2, 3, 1, 0, 1, 2, 2, 1, 2, 3,
    // from cell 10
    4, 3, 2, 3, 3, 2, 1, 2, 2, 1, 0, 1, 3, 2, 1, 2,
    // from cell 11
    5, 4, 3, 2, 4, 3, 2, 1, 3, 2, 1, 0, 4, 3, 2, 1,
    // from cell 12
    3, 4, 5, 6, 2, 3, 4, 5, 1, 2, 3, 4, 0, 1, 2, 3,
    // from cell 13
    4, 3, 4, 5, 3, 2, 3, 4, 2, 1, 2, 3, 1, 0, 1, 2,
    // from cell 14
    5, 4, 3, 4, 4, 3, 2, 3, 3, 2, 1, 2, 2, 1, 0, 1,
    // from cell 15
    6, 5, 4, 3, 5, 4, 3, 2, 4, 3, 2, 1, 3, 2, 1, 0,
];
