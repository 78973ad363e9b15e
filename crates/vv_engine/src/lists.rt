//! Lists for each of some numbers, laid out one behind another.

use std::alloc::Global;
use vv_base::fault::Memory;
use vv_design::Run;

/// A list of numbers for each of the numbers from 0 on.
#[derive(Drop)]
pub struct Lists {
    firsts: Vec<u32>,
    all: Vec<u32>,
}

impl Lists {
    /// The lists of pairs: the second number of each pair stands in the list of the first.
    pub fn of(alloc: Global, n: u32, pairs: &[(u32, u32)]) -> Result<Lists, Memory> {
        let many = (n as usize).checked_add(1).ok_or(Memory)?;
        let mut counts = vec![in alloc; 0u32; many]?;
        for (key, _) in pairs {
            let key = *key as usize;
            if key < counts.len() {
                counts[key] = counts[key].saturating_add(1);
            }
        }
        let mut firsts = Vec::new(alloc);
        let mut sum: u32 = 0;
        for count in counts.as_slice() {
            firsts.push(sum)?;
            sum = sum.checked_add(*count).ok_or(Memory)?;
        }
        let mut all = vec![in alloc; 0u32; sum as usize]?;
        let mut filled = vec![in alloc; 0u32; many]?;
        for (key, value) in pairs {
            let key = *key as usize;
            if key < firsts.len() && key < filled.len() {
                let place = firsts[key].saturating_add(filled[key]) as usize;
                filled[key] = filled[key].saturating_add(1);
                if place < all.len() {
                    all[place] = *value;
                }
            }
        }
        Ok(Lists { firsts, all })
    }

    /// The list of a number.
    pub fn list(&self, key: u32) -> &[u32] {
        let key = key as usize;
        if key.saturating_add(1) >= self.firsts.len() {
            return &[];
        }
        let first = self.firsts[key] as usize;
        let end = self.firsts[key + 1] as usize;
        if first <= end && end <= self.all.len() {
            &self.all[first..end]
        } else {
            &[]
        }
    }
}

/// Numbers cut into segments, so that each of some runs is made of whole ones.
#[derive(Drop)]
pub struct Segments {
    of: Vec<u32>,
    count: u32,
}

impl Segments {
    /// One segment of the numbers below `n`.
    pub fn new(alloc: Global, n: u32) -> Result<Segments, Memory> {
        let many = (n as usize).checked_add(1).ok_or(Memory)?;
        Ok(Segments {
            of: vec![in alloc; 0u32; many]?,
            count: 1,
        })
    }

    /// Cuts round a run. All cuts come before `number`.
    pub fn cut(&mut self, run: Run) {
        for at in [run.first, run.first.saturating_add(run.len)] {
            if let Some(mark) = self.of.get_mut(at as usize) {
                *mark = 1;
            }
        }
    }

    /// Numbers the segments.
    pub fn number(&mut self) {
        let mut count: u32 = 0;
        for mark in self.of.as_mut_slice() {
            count = count.saturating_add(*mark);
            *mark = count;
        }
        self.count = count.saturating_add(1);
    }

    /// How many segments there are.
    pub fn count(&self) -> u32 {
        self.count
    }

    /// The segment of a number.
    pub fn of(&self, k: u32) -> u32 {
        match self.of.get(k as usize) {
            Some(segment) => *segment,
            None => 0,
        }
    }
}
