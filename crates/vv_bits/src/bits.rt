ghost use Rattle.std.specs.Prelude.{◌≡◌, List, [], ◌∷◌, ◌++◌, length, IfOk, OnOk, OnErr, IsTrue, ◌↔◌};
ghost use Rattle.vv_bits.specs.declared.nine.S9.{S9};
ghost use Rattle.vv_bits.specs.declared.four.V4.{V4};

use crate::four::V4;
use crate::nine::S9;
use std::alloc::{AllocError, Global};
use std::marker::Model;

/// A list of nine-valued bits, leftmost first.
#[derive(Debug, Drop)]
pub struct Bits9 {
    bits: Vec<S9>,
}

impl Model for Bits9 {
    ghost Value = { List S9 };

    ghost view = { λ b. b.bits.items };
}

impl Bits9 {
    pub fn new(alloc: Global) -> Self
        ensures { result ≡ [] }
    {
        Bits9 {
            bits: Vec::new(alloc),
        }
    }

    /// A copy of the list.
    pub fn from_slice(alloc: Global, list: &[S9]) -> Result<Self, AllocError>
        ensures { IfOk result (λ b. b ≡ list.now) }
    {
        Ok(Bits9 {
            bits: Vec::from_slice(alloc, list)?,
        })
    }

    pub fn push(&mut self, bit: S9) -> Result<(), AllocError>
        ensures ok { OnOk result (self.new ≡ self.old ++ bit ∷ []) }
        ensures err { OnErr result (self.new ≡ self.old) }
    {
        self.bits.push(bit)?;
        Ok(())
    }

    pub fn as_slice(&self) -> &[S9]
        ensures { result.now ≡ self.now }
    {
        self.bits.as_slice()
    }

    pub fn len(&self) -> usize
        ensures { result ≡ length self.now }
    {
        self.bits.len()
    }

    pub fn is_empty(&self) -> bool
        ensures { IsTrue result ↔ (self.now ≡ []) }
    {
        self.bits.is_empty()
    }
}

/// A list of four-valued bits, leftmost first.
#[derive(Debug, Drop)]
pub struct Bits4 {
    bits: Vec<V4>,
}

impl Model for Bits4 {
    ghost Value = { List V4 };

    ghost view = { λ b. b.bits.items };
}

impl Bits4 {
    pub fn new(alloc: Global) -> Self
        ensures { result ≡ [] }
    {
        Bits4 {
            bits: Vec::new(alloc),
        }
    }

    /// A copy of the list.
    pub fn from_slice(alloc: Global, list: &[V4]) -> Result<Self, AllocError>
        ensures { IfOk result (λ b. b ≡ list.now) }
    {
        Ok(Bits4 {
            bits: Vec::from_slice(alloc, list)?,
        })
    }

    pub fn push(&mut self, bit: V4) -> Result<(), AllocError>
        ensures ok { OnOk result (self.new ≡ self.old ++ bit ∷ []) }
        ensures err { OnErr result (self.new ≡ self.old) }
    {
        self.bits.push(bit)?;
        Ok(())
    }

    pub fn as_slice(&self) -> &[V4]
        ensures { result.now ≡ self.now }
    {
        self.bits.as_slice()
    }

    pub fn len(&self) -> usize
        ensures { result ≡ length self.now }
    {
        self.bits.len()
    }

    pub fn is_empty(&self) -> bool
        ensures { IsTrue result ↔ (self.now ≡ []) }
    {
        self.bits.is_empty()
    }
}
