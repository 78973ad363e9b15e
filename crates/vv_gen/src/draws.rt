//! Numbers that are drawn.

/// What a stage does with the values of the stage before it.
#[derive(Clone, Copy, Debug, PartialEq, Eq)]
pub enum Step {
    Add,
    Xor,
    Rotate,
    Toward,
}

/// A source of numbers below 256.
#[derive(Clone, Copy, Debug)]
pub struct Draws {
    state: u32,
}

impl Draws {
    /// The numbers that are drawn from a seed on.
    pub fn new(seed: u32) -> Draws {
        Draws { state: seed }
    }

    /// The next number.
    fn draw(&mut self) -> u32 {
        self.state = self.state.wrapping_mul(25173).wrapping_add(13849) % 65536;
        self.state / 256
    }

    /// What the next stage does, and its number.
    pub fn stage(&mut self) -> (Step, u32) {
        let step = match self.draw() % 4 {
            0 => Step::Add,
            1 => Step::Xor,
            2 => Step::Rotate,
            _ => Step::Toward,
        };
        (step, self.draw())
    }
}
