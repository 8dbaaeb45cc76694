//! What a byte makes of the CRC-64, by the count of bytes 0 behind it.

mod behind_0;
mod behind_1;
mod behind_2;
mod behind_3;
mod behind_4;
mod behind_5;
mod behind_6;
mod behind_7;

/// The tables of eight bytes in a row: the first byte has seven behind it, the last one none.
pub const TABLES: [[u64; 256]; 8] = [
    behind_7::TABLE,
    behind_6::TABLE,
    behind_5::TABLE,
    behind_4::TABLE,
    behind_3::TABLE,
    behind_2::TABLE,
    behind_1::TABLE,
    behind_0::TABLE,
];
