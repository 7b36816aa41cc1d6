// The lengths that are tried: none, one, and around each limit of docs/SCOPE.md.
pub const KEYS: [usize; 9] = [0, 1, 15, 16, 17, 24, 31, 32, 33];

pub const SCHEDULES: [usize; 8] = [0, 1, 87, 88, 89, 119, 120, 121];

// Blocks, and what is none.
pub const INPUTS: [usize; 19] = [
    0, 1, 15, 16, 17, 31, 32, 33, 47, 48, 63, 64, 65, 80, 65520, 65535, 65536, 65537, 65552,
];

pub const DIRECTIONS: [u32; 4] = [0, 1, 2, 0xffffffff];
