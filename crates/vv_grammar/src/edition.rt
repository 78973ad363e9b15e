//! The editions of VHDL.

/// The edition by which a file is read.
#[derive(Clone, Copy, Debug, PartialEq, Eq)]
pub enum Edition {
    /// IEEE 1076-1993
    Vhdl93,
    /// IEEE 1076-1993 with two points of IEEE 1076-2008.
    Vhdl08,
}
