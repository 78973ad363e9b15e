//! The words that instructions work on, and what takes no heed of events.

use crate::code::{Field, Slot};
use crate::pair::{Pair, ZEROS, bits_in, low, words_of};
use vv_vtree::{VBinary, VUnary};

#[derive(Drop)]
pub struct Store {
    words: Vec<Pair>,
}

/// The bits of a field that stand in its k-th word.
pub fn mask_in(field: Field, word: u32) -> u64 {
    let before = word.saturating_mul(64);
    let end = field.shift.saturating_add(field.width);
    let start = if word == 0 { field.shift } else { 0 };
    low(end.saturating_sub(before)) & !low(start)
}

/// How many words the bits of a field stand in.
pub fn span_of(field: Field) -> u32 {
    words_of(field.shift.saturating_add(field.width))
}

impl Store {
    pub fn new(words: Vec<Pair>) -> Store {
        Store { words }
    }

    pub fn get(&self, at: u32) -> Pair {
        let at = at as usize;
        if at < self.words.len() {
            self.words[at]
        } else {
            ZEROS
        }
    }

    pub fn set(&mut self, at: u32, pair: Pair) {
        let at = at as usize;
        if at < self.words.len() {
            self.words[at] = pair;
        }
    }

    /// Sixty-four bits from the bit `shift` of a word on.
    fn window(&self, at: u32, shift: u32) -> Pair {
        let first = self.get(at);
        if shift == 0 {
            return first;
        }
        let second = self.get(at.saturating_add(1));
        first
            .down(shift)
            .either(second.up(64u32.saturating_sub(shift)))
    }

    /// The k-th word of what a vector gives to a field that begins at the bit `shift`.
    pub fn piece(&self, from: u32, shift: u32, word: u32) -> Pair {
        let here = self.get(from.saturating_add(word)).up(shift);
        match word.checked_sub(1) {
            Some(before) if shift > 0 => {
                let carried = self.get(from.saturating_add(before));
                here.either(carried.down(64u32.saturating_sub(shift)))
            }
            _ => here,
        }
    }

    /// Copies bits to words of their own.
    pub fn take(&mut self, from: Field, to: u32) {
        for word in 0..words_of(from.width) {
            let pair = self.window(from.at.saturating_add(word), from.shift);
            let mask = low(bits_in(from.width, word));
            self.set(to.saturating_add(word), pair.only(mask));
        }
    }

    /// Copies bits over the first ones of some words.
    fn overlay(&mut self, from: Field, to: u32) {
        for word in 0..words_of(from.width) {
            let pair = self.window(from.at.saturating_add(word), from.shift);
            let mask = low(bits_in(from.width, word));
            let at = to.saturating_add(word);
            self.set(at, self.get(at).merged(pair, mask));
        }
    }

    /// Assigns a vector to bits.
    pub fn put(&mut self, from: u32, to: Field) {
        for word in 0..span_of(to) {
            let pair = self.piece(from, to.shift, word);
            let at = to.at.saturating_add(word);
            self.set(at, self.get(at).merged(pair, mask_in(to, word)));
        }
    }

    /// Assigns a vector to bits, and zeroes what is left of their words.
    pub fn join(&mut self, from: u32, to: Field) {
        for word in 0..span_of(to) {
            let start = if word == 0 { to.shift } else { 0 };
            let pair = self.piece(from, to.shift, word);
            let at = to.at.saturating_add(word);
            let kept = self.get(at).only(low(start));
            self.set(at, kept.either(pair.only(mask_in(to, word))));
        }
    }

    pub fn repeat(&mut self, from: Slot, count: u32, to: u32) {
        let mut start: u64 = 0;
        for _ in 0..count {
            self.join(
                from.at,
                Field {
                    at: to.saturating_add(u32::try_from(start / 64).unwrap_or(u32::MAX)),
                    shift: (start % 64) as u32,
                    width: from.width,
                },
            );
            start = start.saturating_add(u64::from(from.width));
        }
    }

    /// Makes all bits x.
    pub fn forget(&mut self, of: Slot) {
        for word in 0..words_of(of.width) {
            let mask = low(bits_in(of.width, word));
            self.set(of.at.saturating_add(word), Pair::unknowns(mask));
        }
    }

    /// The bits from an index on that are there, of those of a field: a field, and nothing where there are none.
    pub fn within(&self, of: Field, index: Slot, count: u32) -> Option<Field> {
        let pair = self.get(index.at);
        if pair.unknown != 0 || pair.value >= u64::from(of.width) {
            return None;
        }
        let index = pair.value as u32;
        let first = of.shift.saturating_add(index);
        Some(Field {
            at: of.at.saturating_add(first / 64),
            shift: first % 64,
            width: count.min(of.width.saturating_sub(index)),
        })
    }

    /// Takes bits from an index on. Those that are not there are x.
    pub fn pick(&mut self, of: Field, index: Slot, count: u32, to: u32) {
        self.forget(Slot {
            at: to,
            width: count,
        });
        if let Some(field) = self.within(of, index, count) {
            self.overlay(field, to);
        }
    }

    pub fn unary(&mut self, op: VUnary, operand: Slot, to: u32) {
        match op {
            VUnary::Not => {
                for word in 0..words_of(operand.width) {
                    let pair = self.get(operand.at.saturating_add(word)).not();
                    let mask = low(bits_in(operand.width, word));
                    self.set(to.saturating_add(word), pair.only(mask));
                }
            }
            VUnary::And => self.set(to, self.all(operand)),
            VUnary::Or => self.set(to, self.any(operand)),
            VUnary::Xor => self.set(to, self.parity(operand)),
        }
    }

    /// The conjunction of all bits.
    fn all(&self, of: Slot) -> Pair {
        let mut unknown = false;
        for word in 0..words_of(of.width) {
            let pair = self.get(of.at.saturating_add(word));
            let mask = low(bits_in(of.width, word));
            if (pair.value | pair.unknown) != mask {
                return ZEROS;
            }
            unknown = unknown || pair.unknown != 0;
        }
        if unknown {
            Pair::unknowns(1)
        } else {
            Pair::of_bool(true)
        }
    }

    /// The disjunction of all bits.
    fn any(&self, of: Slot) -> Pair {
        let mut unknown = false;
        for word in 0..words_of(of.width) {
            let pair = self.get(of.at.saturating_add(word));
            if (pair.value & !pair.unknown) != 0 {
                return Pair::of_bool(true);
            }
            unknown = unknown || pair.unknown != 0;
        }
        if unknown { Pair::unknowns(1) } else { ZEROS }
    }

    /// Whether an odd number of bits is 1.
    fn parity(&self, of: Slot) -> Pair {
        let mut all: u64 = 0;
        for word in 0..words_of(of.width) {
            let pair = self.get(of.at.saturating_add(word));
            if pair.unknown != 0 {
                return Pair::unknowns(1);
            }
            all ^= pair.value;
        }
        Pair::of_bool(all.count_ones() % 2 == 1)
    }

    /// Whether all bits are 0 and 1.
    fn is_known(&self, at: u32, words: u32) -> bool {
        for word in 0..words {
            if self.get(at.saturating_add(word)).unknown != 0 {
                return false;
            }
        }
        true
    }

    pub fn binary(&mut self, op: VBinary, left: u32, right: u32, width: u32, to: u32) {
        match op {
            VBinary::And | VBinary::Or | VBinary::Xor => {
                self.bitwise(op, left, right, width, to);
            }
            VBinary::Add | VBinary::Subtract | VBinary::Multiply => {
                self.arithmetic(op, left, right, width, to);
            }
            _ => {
                let answer = self.relation(op, left, right, width);
                self.set(to, answer);
            }
        }
    }

    fn bitwise(&mut self, op: VBinary, left: u32, right: u32, width: u32, to: u32) {
        for word in 0..words_of(width) {
            let a = self.get(left.saturating_add(word));
            let b = self.get(right.saturating_add(word));
            let pair = match op {
                VBinary::And => a.and(b),
                VBinary::Or => a.or(b),
                _ => a.xor(b),
            };
            let mask = low(bits_in(width, word));
            self.set(to.saturating_add(word), pair.only(mask));
        }
    }

    /// A sum, a difference or a product at this width, which is 128 at most.
    fn arithmetic(&mut self, op: VBinary, left: u32, right: u32, width: u32, to: u32) {
        let words = words_of(width);
        if !self.is_known(left, words) || !self.is_known(right, words) {
            self.forget(Slot { at: to, width });
            return;
        }
        if words <= 1 {
            let a = self.get(left).value;
            let b = self.get(right).value;
            let number = match op {
                VBinary::Add => a.wrapping_add(b),
                VBinary::Subtract => a.wrapping_sub(b),
                _ => a.wrapping_mul(b),
            };
            self.set_known(to, number & low(width));
            return;
        }
        let a = self.number(left);
        let b = self.number(right);
        let number = match op {
            VBinary::Add => a.wrapping_add(b),
            VBinary::Subtract => a.wrapping_sub(b),
            _ => a.wrapping_mul(b),
        };
        let lower = (number & u128::from(u64::MAX)) as u64;
        let upper = (number >> 64) as u64;
        self.set_known(to, lower);
        self.set_known(to.saturating_add(1), upper & low(bits_in(width, 1)));
    }

    /// The number of two words.
    fn number(&self, at: u32) -> u128 {
        let upper = self.get(at.saturating_add(1)).value;
        (u128::from(upper) << 64) | u128::from(self.get(at).value)
    }

    fn set_known(&mut self, at: u32, value: u64) {
        self.set(at, Pair { value, unknown: 0 });
    }

    fn relation(&self, op: VBinary, left: u32, right: u32, width: u32) -> Pair {
        let words = words_of(width);
        match op {
            VBinary::Same => Pair::of_bool(self.is_same(left, right, width)),
            VBinary::NotSame => Pair::of_bool(!self.is_same(left, right, width)),
            VBinary::Equal => self.equal(left, right, words),
            VBinary::NotEqual => {
                let answer = self.equal(left, right, words);
                answer.not().only(1)
            }
            _ => {
                if !self.is_known(left, words) || !self.is_known(right, words) {
                    return Pair::unknowns(1);
                }
                let (less, equal) = self.order(left, right, words);
                Pair::of_bool(match op {
                    VBinary::Less => less,
                    VBinary::LessOrEqual => less || equal,
                    VBinary::Greater => !less && !equal,
                    _ => !less,
                })
            }
        }
    }

    /// Whether two vectors have the same bits.
    pub fn is_same(&self, left: u32, right: u32, width: u32) -> bool {
        for word in 0..words_of(width) {
            let a = self.get(left.saturating_add(word));
            let b = self.get(right.saturating_add(word));
            if a.differs(b) != 0 {
                return false;
            }
        }
        true
    }

    /// 0 where some bits are 0 and 1, else x where a bit is x or z, else 1.
    fn equal(&self, left: u32, right: u32, words: u32) -> Pair {
        let mut unknown = false;
        for word in 0..words {
            let a = self.get(left.saturating_add(word));
            let b = self.get(right.saturating_add(word));
            let known = !(a.unknown | b.unknown);
            if (a.value ^ b.value) & known != 0 {
                return ZEROS;
            }
            unknown = unknown || (a.unknown | b.unknown) != 0;
        }
        if unknown {
            Pair::unknowns(1)
        } else {
            Pair::of_bool(true)
        }
    }

    /// Whether a number is less than the other one, and whether they are equal. All bits are known.
    fn order(&self, left: u32, right: u32, words: u32) -> (bool, bool) {
        for word in (0..words).rev() {
            let a = self.get(left.saturating_add(word)).value;
            let b = self.get(right.saturating_add(word)).value;
            if a != b {
                return (a < b, false);
            }
        }
        (false, true)
    }

    pub fn choose(&mut self, condition: u32, yes: u32, no: u32, width: u32, to: u32) {
        let condition = self.get(condition);
        for word in 0..words_of(width) {
            let a = self.get(yes.saturating_add(word));
            let b = self.get(no.saturating_add(word));
            let pair = if condition.unknown != 0 {
                a.joined(b).only(low(bits_in(width, word)))
            } else if condition.value != 0 {
                a
            } else {
                b
            };
            self.set(to.saturating_add(word), pair);
        }
    }

    /// Whether a bit is 1.
    pub fn is_one(&self, at: u32) -> bool {
        let pair = self.get(at);
        pair.value != 0 && pair.unknown == 0
    }

    /// Whether a bit is 0.
    pub fn is_zero(&self, at: u32) -> bool {
        let pair = self.get(at);
        pair.value == 0 && pair.unknown == 0
    }
}
