//! What is still to come.

ghost use Rattle.std.specs.Prelude.{◌≡◌, ◌∷◌, ◌++◌, [], OnOk, OnErr, MatchOption};
ghost use Rattle.vv_machine.specs.Machine.{steps_in, as_step};

use std::alloc::Global;
use std::marker::Model;
use vv_base::fault::Memory;
use vv_grammar::step::Step;

/// A step that is still to come.
#[derive(Clone, Copy, Debug)]
pub struct Pending {
    pub step: Step,
    /// How many expressions are round it, counted up to the first that is too deep.
    pub expressions: u32,
    /// How many statements are round it, counted likewise.
    pub statements: u32,
    /// The number of the token at which the production round it started.
    pub began: usize,
}

/// The steps that are still to come. Contracts see them from the next one on.
#[derive(Debug, Drop)]
pub struct Stack {
    steps: Vec<Pending>,
}

impl Model for Stack {
    ghost use Rattle.std.specs.Prelude.{List, reverse};
    ghost use Rattle.vv_machine.specs.declared.stack.Pending.{Pending};

    ghost Value = { List Pending };

    ghost view = { λ stack. reverse stack.steps.items };
}

impl Stack {
    /// Nothing is to come.
    pub fn new(alloc: Global) -> Stack
        ensures { result ≡ [] }
    {
        Stack {
            steps: Vec::new(alloc),
        }
    }

    /// Takes the next step, if there is one.
    pub fn pop(&mut self) -> Option<Pending>
        ensures { MatchOption result ((self.old ≡ []) × (self.new ≡ [])) (λ p. self.old ≡ p ∷ self.new) }
    {
        self.steps.pop()
    }

    /// Puts a step before the others.
    pub fn push(&mut self, pending: Pending) -> Result<(), Memory>
        ensures ok { OnOk result (self.new ≡ pending ∷ self.old) }
        ensures err { OnErr result (self.new ≡ self.old) }
    {
        self.steps.push(pending)?;
        Ok(())
    }

    /// Puts steps before the others. What holds of `around` holds of them.
    pub fn push_steps(&mut self, steps: &[Step], around: Pending) -> Result<(), Memory>
        ensures { OnOk result (self.new ≡ steps_in steps.now around ++ self.old) }
    {
        for i in (0..steps.len()).rev() {
            self.push(Pending {
                step: steps[i],
                expressions: around.expressions,
                statements: around.statements,
                began: around.began,
            })?;
        }
        Ok(())
    }
}
