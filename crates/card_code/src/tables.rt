// The card code, in four tables: the cell and the pair of a byte, and the byte of a cell and of a pair.

// The entry of a character without a cell: not a good cell.
pub(crate) const NO_CELL: u8 = 0;

// The entry of a character without a pair: past all pairs of cells.
pub(crate) const NO_PAIR: u16 = 4096;

// The entry of a cell or a pair without a character: past all characters.
pub(crate) const NO_CHAR: u8 = 128;

// The cell of each character. `$only` masks the cells of characters that are read numerically but are not object characters.
macro_rules! cells_of_chars {
    ($only:expr) => {
        [
            // The bytes below the blank.
            0, 0, 0, 0, 0, 0, 0, 0, 0, 0, 0, 0, 0, 0, 0, 0,
            0, 0, 0, 0, 0, 0, 0, 0, 0, 0, 0, 0, 0, 0, 0, 0,
            // The blank to `/`.
            32 & $only, 26, 31, 0, 0, 0, 0, 0, 0, 0, 28, 32 & $only, 0, 16 & $only, 0,
            1 & $only,
            // `0` to `?`.
            32, 1, 2, 35, 4, 37, 38, 7, 8, 41, 0, 0, 0, 0, 0, 0,
            // `@` to `O`.
            44, 1 & $only, 2 & $only, 35 & $only, 4 & $only, 37 & $only, 38 & $only, 7 & $only,
            8 & $only, 41 & $only, 49, 50, 19, 52, 21, 22,
            // `P` to `_`.
            55, 56, 25, 2 & $only, 35 & $only, 4 & $only, 37 & $only, 38 & $only, 7 & $only,
            8 & $only, 41 & $only, 0, 0, 16, 0, 0,
            // The small letters, and `|` and `}`.
            0, 0, 0, 0, 0, 0, 0, 0, 0, 0, 0, 0, 0, 0, 0, 0,
            0, 0, 0, 0, 0, 0, 0, 0, 0, 0, 0, 0, 42, 47, 0, 0,
            // The bytes from 128 on.
            0, 0, 0, 0, 0, 0, 0, 0, 0, 0, 0, 0, 0, 0, 0, 0,
            0, 0, 0, 0, 0, 0, 0, 0, 0, 0, 0, 0, 0, 0, 0, 0,
            0, 0, 0, 0, 0, 0, 0, 0, 0, 0, 0, 0, 0, 0, 0, 0,
            0, 0, 0, 0, 0, 0, 0, 0, 0, 0, 0, 0, 0, 0, 0, 0,
            0, 0, 0, 0, 0, 0, 0, 0, 0, 0, 0, 0, 0, 0, 0, 0,
            0, 0, 0, 0, 0, 0, 0, 0, 0, 0, 0, 0, 0, 0, 0, 0,
            0, 0, 0, 0, 0, 0, 0, 0, 0, 0, 0, 0, 0, 0, 0, 0,
            0, 0, 0, 0, 0, 0, 0, 0, 0, 0, 0, 0, 0, 0, 0, 0,
        ]
    };
}

// The character of each cell. `$blank` is the character of an unflagged numerical blank.
macro_rules! chars_of_cells {
    ($blank:expr) => {
        [
            // Unflagged, without the bit C.
            128, 49, 50, 128, 52, 128, 128, 55, 56, 128, 128, 128, 128, 128, 128, 128,
            // Flagged, without it.
            93, 128, 128, 76, 128, 78, 79, 128, 128, 82, 33, 128, 42, 128, 128, 34,
            // Unflagged, with it.
            48, 128, 128, 51, 128, 53, 54, 128, 128, 57, 124, 128, $blank, 128, 128, 125,
            // Flagged, with it.
            128, 74, 75, 128, 77, 128, 128, 80, 81, 128, 128, 128, 128, 128, 128, 128,
        ]
    };
}

// The cell of each object character.
pub(crate) const OBJECT_CELLS: [u8; 256] = cells_of_chars!(0);

// The cell of each character that is read numerically.
pub(crate) const NUM_CELLS: [u8; 256] = cells_of_chars!(63);

// The object character of each cell.
pub(crate) const OBJECT_CHARS: [u8; 64] = chars_of_cells!(b'@');

// The character that each cell's digit is punched as.
pub(crate) const PUNCH_CHARS: [u8; 64] = chars_of_cells!(b' ');

// The two cells of each character's pair, the zone's below the number's.
pub(crate) const PAIR_CELLS: [u16; 256] = [
    // The bytes below the blank.
    4096, 4096, 4096, 4096, 4096, 4096, 4096, 4096, 4096, 4096, 4096, 4096, 4096, 4096, 4096, 4096,
    4096, 4096, 4096, 4096, 4096, 4096, 4096, 4096, 4096, 4096, 4096, 4096, 4096, 4096, 4096, 4096,
    // The blank to `/`.
    2080, 4096, 4096, 4096, 2241, 4096, 4096, 4096, 258, 288, 257, 2049, 2242, 2050, 2272, 66,
    // `0` to `?`.
    2055, 71, 135, 2247, 263, 2375, 2439, 455, 519, 2631, 4096, 4096, 4096, 2275, 4096, 4096,
    // `@` to `O`.
    291, 68, 132, 2244, 260, 2372, 2436, 452, 516, 2628, 101, 165, 2277, 293, 2405, 2469,
    // `P` to `_`.
    485, 549, 2661, 166, 2278, 294, 2406, 2470, 486, 550, 2662, 4096, 4096, 2085, 4096, 4096,
    // The small letters, and `|` and `}`.
    4096, 4096, 4096, 4096, 4096, 4096, 4096, 4096, 4096, 4096, 4096, 4096, 4096, 4096, 4096, 4096,
    4096, 4096, 4096, 4096, 4096, 4096, 4096, 4096, 4096, 4096, 4096, 4096, 2720, 3040, 4096, 4096,
    // The bytes from 128 on.
    4096, 4096, 4096, 4096, 4096, 4096, 4096, 4096, 4096, 4096, 4096, 4096, 4096, 4096, 4096, 4096,
    4096, 4096, 4096, 4096, 4096, 4096, 4096, 4096, 4096, 4096, 4096, 4096, 4096, 4096, 4096, 4096,
    4096, 4096, 4096, 4096, 4096, 4096, 4096, 4096, 4096, 4096, 4096, 4096, 4096, 4096, 4096, 4096,
    4096, 4096, 4096, 4096, 4096, 4096, 4096, 4096, 4096, 4096, 4096, 4096, 4096, 4096, 4096, 4096,
    4096, 4096, 4096, 4096, 4096, 4096, 4096, 4096, 4096, 4096, 4096, 4096, 4096, 4096, 4096, 4096,
    4096, 4096, 4096, 4096, 4096, 4096, 4096, 4096, 4096, 4096, 4096, 4096, 4096, 4096, 4096, 4096,
    4096, 4096, 4096, 4096, 4096, 4096, 4096, 4096, 4096, 4096, 4096, 4096, 4096, 4096, 4096, 4096,
    4096, 4096, 4096, 4096, 4096, 4096, 4096, 4096, 4096, 4096, 4096, 4096, 4096, 4096, 4096, 4096,
];

// The character of each pair: 16 numbers for each zone from 0 to 7.
pub(crate) const PAIR_CHARS: [u8; 128] = [
    32, 128, 128, 46, 41, 128, 128, 128, 128, 128, 124, 128, 128, 128, 128, 125, 43, 128, 128, 36,
    42, 128, 128, 128, 128, 128, 128, 128, 128, 128, 128, 128, 45, 47, 128, 44, 40, 128, 128, 128,
    128, 128, 128, 128, 128, 128, 128, 128, 128, 128, 128, 61, 64, 128, 128, 128, 128, 128, 128,
    128, 128, 128, 128, 128, 128, 65, 66, 67, 68, 69, 70, 71, 72, 73, 128, 128, 128, 128, 128, 128,
    93, 74, 75, 76, 77, 78, 79, 80, 81, 82, 128, 128, 128, 128, 128, 128, 128, 128, 83, 84, 85, 86,
    87, 88, 89, 90, 128, 128, 128, 128, 128, 128, 48, 49, 50, 51, 52, 53, 54, 55, 56, 57, 128, 128,
    128, 128, 128, 128,
];
