// What is allowed of numbers.

/// The widths that an int may have.
pub const WIDTHS: [u128; 6] = [1, 8, 16, 32, 64, 128];

/// The greatest length of an array.
pub const LONGEST_ARRAY: u128 = 4096;

/// The greatest number of leaves of a type; of a hybrid the fixed ones count.
pub const MOST_LEAVES: usize = 4096;
