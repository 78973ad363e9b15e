//! Sets of numbers below a bound, which take all their memory when they are made.

use std::alloc::Global;
use vv_base::fault::Memory;

/// A set that lists its numbers.
#[derive(Drop)]
pub struct Marks {
    marked: Vec<bool>,
    list: Vec<u32>,
    len: usize,
}

impl Marks {
    /// The empty set of numbers below `n`.
    pub fn new(alloc: Global, n: u32) -> Result<Marks, Memory> {
        Ok(Marks {
            marked: vec![in alloc; false; n as usize]?,
            list: vec![in alloc; 0u32; n as usize]?,
            len: 0,
        })
    }

    /// Whether a number is in the set.
    pub fn has(&self, k: u32) -> bool {
        match self.marked.get(k as usize) {
            Some(marked) => *marked,
            None => false,
        }
    }

    /// Puts a number into the set.
    pub fn add(&mut self, k: u32) {
        if self.has(k) {
            return;
        }
        let at = k as usize;
        if at < self.marked.len() && self.len < self.list.len() {
            self.marked[at] = true;
            self.list[self.len] = k;
            self.len += 1;
        }
    }

    /// How many numbers there are.
    pub fn len(&self) -> usize {
        self.len
    }

    /// The number that was put in as the one with this place.
    pub fn get(&self, place: usize) -> u32 {
        match self.list.get(place) {
            Some(k) => *k,
            None => 0,
        }
    }

    /// Takes all numbers out.
    pub fn clear(&mut self) {
        for place in 0..self.len {
            let k = self.get(place) as usize;
            if k < self.marked.len() {
                self.marked[k] = false;
            }
        }
        self.len = 0;
    }
}

/// The ready processes, 64 in a word.
#[derive(Drop)]
pub struct Ready {
    words: Vec<u64>,
    any: bool,
}

impl Ready {
    /// None of `n` processes.
    pub fn new(alloc: Global, n: u32) -> Result<Ready, Memory> {
        let words = (n as usize) / 64 + 1;
        Ok(Ready {
            words: vec![in alloc; 0u64; words]?,
            any: false,
        })
    }

    /// Makes a process ready.
    pub fn add(&mut self, k: u32) {
        let at = (k as usize) / 64;
        if at < self.words.len() {
            self.words[at] |= 1u64.wrapping_shl(k % 64);
            self.any = true;
        }
    }

    /// Whether a process was made ready since all were taken.
    pub fn is_any(&self) -> bool {
        self.any
    }

    /// How many words there are. They are about to be taken.
    pub fn begin(&mut self) -> usize {
        self.any = false;
        self.words.len()
    }

    /// Takes the ready processes of a word.
    pub fn take(&mut self, at: usize) -> u64 {
        match self.words.get_mut(at) {
            Some(word) => {
                let taken = *word;
                *word = 0;
                taken
            }
            None => 0,
        }
    }
}
