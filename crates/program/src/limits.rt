// The limits of an accepted program, and the word that stands for no parent.
pub const NODES_MAX: usize = 1024;

pub const EXPRS_MAX: usize = 1024;

pub const VARS_MAX: u16 = 256;

pub const CHANS_MAX: u16 = 256;

// The bits of the widest variable.
pub const WIDTH_MAX: u16 = 16;

// A node and all above it.
pub const DEPTH_MAX: u16 = 32;

// The parent word of node 0. The lists come from C, and have this word where an Option would have None.
pub const NO_PARENT: u16 = 65535;
