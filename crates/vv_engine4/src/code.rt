//! The code of items and functions.

use vv_vtree::{VBinary, VUnary};

/// A vector in words of its own, from the word `at` on. What is left of its last word is 0.
#[derive(Clone, Copy, Debug, PartialEq, Eq)]
pub struct Slot {
    pub at: u32,
    pub width: u32,
}

/// Bits from the bit `shift` of the word `at` on.
#[derive(Clone, Copy, Debug, PartialEq, Eq)]
pub struct Field {
    pub at: u32,
    pub shift: u32,
    pub width: u32,
}

/// What an assignment does.
#[derive(Clone, Copy, Debug, PartialEq, Eq)]
pub enum How {
    /// It changes bits that nothing waits for.
    Quiet,
    /// It changes bits of the design at once.
    Now,
    /// It lets the bits wait for the updates.
    Later,
}

/// An instruction. Jumps lead forwards.
#[derive(Clone, Copy, Debug, PartialEq, Eq)]
pub enum Instr {
    /// Copies bits to words of their own.
    Take {
        from: Field,
        to: u32,
    },
    /// Copies a vector to bits of words, and zeroes what is left of them.
    Join {
        from: Slot,
        to: Field,
    },
    /// Copies a vector so many times.
    Repeat {
        from: Slot,
        count: u32,
        to: u32,
    },
    Unary {
        op: VUnary,
        operand: Slot,
        to: u32,
    },
    Binary {
        op: VBinary,
        left: u32,
        right: u32,
        width: u32,
        to: u32,
    },
    /// Takes one of two vectors by a condition.
    Choose {
        condition: u32,
        yes: u32,
        no: u32,
        width: u32,
        to: u32,
    },
    /// Takes bits from an index on.
    Pick {
        of: Field,
        index: Slot,
        count: u32,
        to: u32,
    },
    /// Assigns to bits.
    Put {
        from: u32,
        to: Field,
        how: How,
    },
    /// Assigns to bits from an index on.
    PutAt {
        from: Slot,
        of: Field,
        index: Slot,
        how: How,
    },
    /// Gives bits of the design what their drivers give together.
    Resolve(Field),
    /// Makes all bits x.
    Forget(Slot),
    Call(u32),
    Jump(u32),
    /// Jumps where the bit is not 1.
    Unless {
        bit: u32,
        to: u32,
    },
    /// Jumps where the bit is 0.
    Zero {
        bit: u32,
        to: u32,
    },
    /// Jumps where the bit is 1.
    One {
        bit: u32,
        to: u32,
    },
    /// Jumps where two vectors are the same.
    Same {
        left: u32,
        right: u32,
        width: u32,
        to: u32,
    },
    /// Ends an item or a function.
    End,
}
