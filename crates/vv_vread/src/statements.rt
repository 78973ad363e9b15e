//! Reading statements. `room` is how deep a statement may still nest, itself included.

use crate::deep::Goal;
use crate::reader::{DEPTH, Reader};
use sqlite_items::Items;
use vv_vlexer::token::{Kind, Sign, Word};
use vv_vtree::{
    VAlternative, VAlternativeList, VArm, VArmList, VBitsList, VBlock, VExpr, VFault, VSign, VStmt,
    VStmtList,
};

impl<'t> Reader<'t> {
    /// The production `block`.
    #[cycle(statements)]
    pub fn block(&mut self, room: u32) -> Result<VBlock, VFault> {
        let at = self.at();
        self.word(Word::Begin)?;
        let stmts = self.stmts(room)?;
        Ok(VBlock { stmts, at })
    }

    /// Statements, and the `end` behind them.
    #[cycle(statements)]
    pub fn stmts(&mut self, room: u32) -> Result<VStmtList, VFault> {
        let mut stmts = Items::new(self.alloc);
        let tokens = self.tokens;
        for _ in tokens {
            if self.takes_word(Word::End) {
                return Ok(stmts);
            }
            stmts.push(self.stmt(room)?)?;
        }
        Err(self.refusal())
    }

    /// The production `st`.
    #[cycle(statements)]
    fn stmt(&mut self, room: u32) -> Result<VStmt, VFault> {
        let starts = matches!(
            self.token().kind,
            Kind::Name(_) | Kind::Word(Word::If) | Kind::Word(Word::Case)
        );
        if !starts {
            return Err(self.refusal());
        }
        if room == 0 {
            return self.deep_stmt();
        }
        match self.token().kind {
            Kind::Word(Word::If) => self.choice(room - 1),
            Kind::Word(Word::Case) => self.case(room - 1),
            _ => self.assignment(),
        }
    }

    fn assignment(&mut self) -> Result<VStmt, VFault> {
        let at = self.at();
        let name = self.name()?;
        let target = self.reference_behind(name, DEPTH)?;
        let (sign, value) = self.assigned()?;
        Ok(VStmt::Assignment {
            target,
            sign,
            value,
            at,
        })
    }

    /// The sign of an assignment and the rest of it.
    fn assigned(&mut self) -> Result<(VSign, VExpr), VFault> {
        let sign = if self.takes_sign(Sign::Assign) {
            VSign::Blocking
        } else {
            self.sign(Sign::LessOrEqual)?;
            VSign::Nonblocking
        };
        let value = self.expr(DEPTH)?;
        self.sign(Sign::Semicolon)?;
        Ok((sign, value))
    }

    /// An `if` with all its arms. The statements in it have this room, here and below.
    #[cycle(statements)]
    fn choice(&mut self, room: u32) -> Result<VStmt, VFault> {
        let at = self.at();
        let (arms, ended) = self.arms(room)?;
        let otherwise = if ended {
            None
        } else {
            let block = self.block(room)?;
            Some(block)
        };
        Ok(VStmt::If {
            arms,
            otherwise,
            at,
        })
    }

    /// The arms of an `if`, and whether it ends with them. Else the last `else` stands before here.
    #[cycle(statements)]
    fn arms(&mut self, room: u32) -> Result<(VArmList, bool), VFault> {
        let mut arms = Items::new(self.alloc);
        let tokens = self.tokens;
        for _ in tokens {
            arms.push(self.arm(room)?)?;
            if !self.takes_word(Word::Else) {
                return Ok((arms, true));
            }
            if !self.is_word(Word::If) {
                return Ok((arms, false));
            }
        }
        Err(self.refusal())
    }

    #[cycle(statements)]
    fn arm(&mut self, room: u32) -> Result<VArm, VFault> {
        let at = self.at();
        self.word(Word::If)?;
        let condition = self.in_parentheses()?;
        let block = self.block(room)?;
        Ok(VArm {
            condition,
            block,
            at,
        })
    }

    /// An expression of its own between parentheses.
    fn in_parentheses(&mut self) -> Result<VExpr, VFault> {
        self.sign(Sign::Open)?;
        let expr = self.expr(DEPTH)?;
        self.sign(Sign::Close)?;
        Ok(expr)
    }

    #[cycle(statements)]
    fn case(&mut self, room: u32) -> Result<VStmt, VFault> {
        let at = self.at();
        self.pass();
        let selector = self.in_parentheses()?;
        let alternatives = self.alternatives(room)?;
        let default = self.default(room)?;
        Ok(VStmt::Case {
            selector,
            alternatives,
            default,
            at,
        })
    }

    /// The default of a `case`, where there is one, and `endcase`.
    #[cycle(statements)]
    fn default(&mut self, room: u32) -> Result<Option<VBlock>, VFault> {
        if !self.takes_word(Word::Default) {
            self.word(Word::Endcase)?;
            return Ok(None);
        }
        self.sign(Sign::Colon)?;
        let block = self.block(room)?;
        self.word(Word::Endcase)?;
        Ok(Some(block))
    }

    /// The alternatives of a `case`, at least one.
    #[cycle(statements)]
    fn alternatives(&mut self, room: u32) -> Result<VAlternativeList, VFault> {
        let mut alternatives = Items::new(self.alloc);
        let tokens = self.tokens;
        for _ in tokens {
            alternatives.push(self.alternative(room)?)?;
            let Kind::Bits(_) = self.token().kind else {
                return Ok(alternatives);
            };
        }
        Err(self.refusal())
    }

    #[cycle(statements)]
    fn alternative(&mut self, room: u32) -> Result<VAlternative, VFault> {
        let at = self.at();
        let labels = self.labels()?;
        self.sign(Sign::Colon)?;
        let block = self.block(room)?;
        Ok(VAlternative { labels, block, at })
    }

    /// Bits with commas between them.
    fn labels(&mut self) -> Result<VBitsList, VFault> {
        let mut labels = Items::new(self.alloc);
        let tokens = self.tokens;
        for _ in tokens {
            labels.push(self.bits()?)?;
            if !self.takes_sign(Sign::Comma) {
                return Ok(labels);
            }
        }
        Err(self.refusal())
    }

    /// Passes over a statement that nests too deep. No tree is made of the text then, so an `if` without arms stands for it.
    fn deep_stmt(&mut self) -> Result<VStmt, VFault> {
        let at = self.at();
        self.note_depth();
        self.pass_over(Goal::Stmt)?;
        Ok(VStmt::If {
            arms: Items::new(self.alloc),
            otherwise: None,
            at,
        })
    }
}
