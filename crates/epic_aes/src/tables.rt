//! The tables of the look-ups, after Hamburg, "Accelerating AES with vector permute instructions" (CHES 2009).

// The inverse of a nibble. What a nibble 0 would give is a byte from 128 on, at which a look-up gives 0.
pub(crate) const INVERSE: [u8; 16] = [
    0x80, 0x01, 0x08, 0x0d, 0x0f, 0x06, 0x05, 0x0e, 0x02, 0x0c, 0x0b, 0x0a, 0x09, 0x03, 0x07, 0x04,
];

// A constant over a nibble, likewise.
pub(crate) const OVER: [u8; 16] = [
    0x80, 0x07, 0x0b, 0x0f, 0x06, 0x0a, 0x04, 0x01, 0x09, 0x08, 0x05, 0x02, 0x0c, 0x0e, 0x0d, 0x03,
];

// The standard's byte in the basis of the look-ups: what its low nibble adds, and its high one.
pub(crate) const ENTER_LOW: [u8; 16] = [
    0x00, 0x70, 0x2a, 0x5a, 0x98, 0xe8, 0xb2, 0xc2, 0x08, 0x78, 0x22, 0x52, 0x90, 0xe0, 0xba, 0xca,
];

pub(crate) const ENTER_HIGH: [u8; 16] = [
    0x00, 0x4d, 0x7c, 0x31, 0x7d, 0x30, 0x01, 0x4c, 0x81, 0xcc, 0xfd, 0xb0, 0xfc, 0xb1, 0x80, 0xcd,
];

// The way back.
pub(crate) const LEAVE_LOW: [u8; 16] = [
    0x00, 0x60, 0xb6, 0xd6, 0x29, 0x49, 0x9f, 0xff, 0x08, 0x68, 0xbe, 0xde, 0x21, 0x41, 0x97, 0xf7,
];

pub(crate) const LEAVE_HIGH: [u8; 16] = [
    0x00, 0xec, 0xbc, 0x50, 0x51, 0xbd, 0xed, 0x01, 0xe0, 0x0c, 0x5c, 0xb0, 0xb1, 0x5d, 0x0d, 0xe1,
];

// The S-box without its constant 0x63, in that basis: what each half of an inverse adds.
pub(crate) const ONE_FIRST: [u8; 16] = [
    0x00, 0x3e, 0x50, 0xcb, 0x8f, 0xe1, 0x9b, 0xb1, 0x44, 0xf5, 0x2a, 0x14, 0x6e, 0x7a, 0xdf, 0xa5,
];

pub(crate) const ONE_SECOND: [u8; 16] = [
    0x00, 0x23, 0xe2, 0xfa, 0x15, 0xd4, 0x18, 0x36, 0xef, 0xd9, 0x2e, 0x0d, 0xc1, 0xcc, 0xf7, 0x3b,
];

// The same times 2.
pub(crate) const TWO_FIRST: [u8; 16] = [
    0x00, 0x24, 0x71, 0x0b, 0xc6, 0x93, 0x7a, 0xe2, 0xcd, 0x2f, 0x98, 0xbc, 0x55, 0xe9, 0xb7, 0x5e,
];

pub(crate) const TWO_SECOND: [u8; 16] = [
    0x00, 0x29, 0xe1, 0x0a, 0x40, 0x88, 0xeb, 0x69, 0x4a, 0x23, 0x82, 0xab, 0xc8, 0x63, 0xa1, 0xc2,
];

// In the round after n rounds, the lanes of the bytes two rows below each byte, in its column as ShiftRows has it: at n % 2.
pub(crate) const OPPOSITE: [[u8; 16]; 2] = [
    [10, 11, 8, 9, 14, 15, 12, 13, 2, 3, 0, 1, 6, 7, 4, 5],
    [2, 3, 0, 1, 6, 7, 4, 5, 10, 11, 8, 9, 14, 15, 12, 13],
];

// Likewise those one row above: at n % 4.
pub(crate) const ABOVE: [[u8; 16]; 4] = [
    [15, 12, 13, 14, 3, 0, 1, 2, 7, 4, 5, 6, 11, 8, 9, 10],
    [11, 8, 9, 10, 15, 12, 13, 14, 3, 0, 1, 2, 7, 4, 5, 6],
    [7, 4, 5, 6, 11, 8, 9, 10, 15, 12, 13, 14, 3, 0, 1, 2],
    [3, 0, 1, 2, 7, 4, 5, 6, 11, 8, 9, 10, 15, 12, 13, 14],
];

// The bytes that lie in the lanes after n rounds.
pub(crate) const ARRANGED: [[u8; 16]; 10] = [
    [0, 1, 2, 3, 4, 5, 6, 7, 8, 9, 10, 11, 12, 13, 14, 15],
    [3, 12, 9, 6, 7, 0, 13, 10, 11, 4, 1, 14, 15, 8, 5, 2],
    [6, 15, 4, 13, 10, 3, 8, 1, 14, 7, 12, 5, 2, 11, 0, 9],
    [13, 2, 7, 8, 1, 6, 11, 12, 5, 10, 15, 0, 9, 14, 3, 4],
    [8, 9, 10, 11, 12, 13, 14, 15, 0, 1, 2, 3, 4, 5, 6, 7],
    [11, 4, 1, 14, 15, 8, 5, 2, 3, 12, 9, 6, 7, 0, 13, 10],
    [14, 7, 12, 5, 2, 11, 0, 9, 6, 15, 4, 13, 10, 3, 8, 1],
    [5, 10, 15, 0, 9, 14, 3, 4, 13, 2, 7, 8, 1, 6, 11, 12],
    [0, 1, 2, 3, 4, 5, 6, 7, 8, 9, 10, 11, 12, 13, 14, 15],
    [3, 12, 9, 6, 7, 0, 13, 10, 11, 4, 1, 14, 15, 8, 5, 2],
];

// The lanes from which the last round takes its bytes.
pub(crate) const LAST: [u8; 16] = [5, 14, 7, 12, 9, 2, 11, 0, 13, 6, 15, 4, 1, 10, 3, 8];

// The bytes that follow one another in the last column, turned up by one, for each column.
pub(crate) const LAST_WORD: [u8; 16] = [
    13, 14, 15, 12, 13, 14, 15, 12, 13, 14, 15, 12, 13, 14, 15, 12,
];

// The lanes one column on and two columns on, with zeros before them.
pub(crate) const ONE_COLUMN_ON: [u8; 16] = [
    128, 128, 128, 128, 0, 1, 2, 3, 4, 5, 6, 7, 8, 9, 10, 11,
];

pub(crate) const TWO_COLUMNS_ON: [u8; 16] = [
    128, 128, 128, 128, 128, 128, 128, 128, 0, 1, 2, 3, 4, 5, 6, 7,
];
