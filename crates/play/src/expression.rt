// An expression in infix. Operands are shared, so that an expression written out whole could be very long: it is
// written to a small depth, and what lies deeper by its name, as e7.
ghost use Rattle.std.specs.Prelude.{◌<◌, IfSome};

use super::line::length_of;
use program::{Binary, Expr, Op, Program, UnknownOp};
use std::fmt;

// How deep an expression is written out.
const DEPTH: u16 = 3;

// An expression to a depth. It stands in parentheses where it binds less closely than rank.
#[derive(Clone, Copy)]
pub struct Expression<'a> {
    program: Program<'a>,
    e: u16,
    depth: u16,
    rank: u16,
}

// The sign of an op, how closely it binds, and how closely its operands have to bind to stand without parentheses.
#[derive(Clone, Copy)]
struct Sign {
    sign: &'static str,
    rank: u16,
    left: u16,
    right: u16,
}

// An op between its operands.
#[derive(Clone, Copy)]
struct Step<'a> {
    left: Expression<'a>,
    sign: Sign,
    right: Expression<'a>,
}

impl Sign {
    fn new(sign: &'static str, rank: u16, left: u16, right: u16) -> Sign {
        Sign {
            sign,
            rank,
            left,
            right,
        }
    }
}

impl From<Binary> for Sign {
    fn from(op: Binary) -> Sign {
        match op {
            Binary::Add => Sign::new(" + ", 2, 2, 3),
            Binary::Sub => Sign::new(" - ", 2, 2, 3),
            Binary::Mul => Sign::new(" * ", 3, 3, 4),
            Binary::And => Sign::new(" & ", 1, 4, 4),
            Binary::Equal => Sign::new(" = ", 1, 2, 2),
            Binary::Below => Sign::new(" < ", 1, 2, 2),
        }
    }
}

impl<'a> Expression<'a> {
    // An expression as deep as there is room for it, and no less than 1.
    pub fn fitting(program: Program<'a>, e: u16, room: usize) -> Expression<'a> {
        let shortest = Expression {
            program,
            e,
            depth: 1,
            rank: 0,
        };
        for depth in (2..=DEPTH).rev() {
            let expression = Expression { depth, ..shortest };
            if expression.fits(room) {
                return expression;
            }
        }
        shortest
    }

    // Whether it leaves some of the room.
    fn fits(self, room: usize) -> bool {
        length_of(self).is_ok_and(|length| length < room)
    }

    // Its words, if the program has such an expression.
    fn words(self) -> Option<Expr> {
        self.program
            .has_expr(self.e)
            .then_some(self.program.expr(self.e))
    }

    // The op on its operands, if it has any.
    fn binary(self) -> Option<Binary> {
        match Op::try_from(self.words()?.op) {
            Ok(Op::Binary(op)) => Some(op),
            _ => None,
        }
    }

    fn operand(self, e: u16, rank: u16) -> Expression<'a>
        requires { 0 < self.depth }
        ensures { result.depth < self.entry.depth }
    {
        Expression {
            program: self.program,
            e,
            depth: self.depth - 1,
            rank,
        }
    }

    // How it is written out, unless it is to stand there by its name, or has no operands.
    fn step(self) -> Option<Step<'a>>
        ensures { IfSome result (λ step.
            (step.left.depth < self.entry.depth) × (step.right.depth < self.entry.depth)) }
    {
        let sign = Sign::from(self.binary()?);
        if self.depth == 0 {
            return None;
        }
        let Expr { p, q, .. } = self.program.expr(self.e);
        Some(Step {
            left: self.operand(p, sign.left),
            sign,
            right: self.operand(q, sign.right),
        })
    }

    // Notes the expressions that stand there by their names.
    pub fn note_named(self, named: &mut [bool]) {
        if let Some(step) = self.step() {
            step.left.note_named(named);
            step.right.note_named(named);
        } else if self.binary().is_some() {
            if let Some(is_named) = named.get_mut(usize::from(self.e)) {
                *is_named = true;
            }
        }
    }

    // A number, a variable or a name.
    fn put_atom<W: fmt::Write>(self, f: &mut fmt::Formatter<W>) -> fmt::Result {
        let (before, number) = match self.words() {
            None => ("e", self.e),
            Some(Expr { op, p, .. }) => match Op::try_from(op) {
                Ok(Op::Number) => ("", p),
                Ok(Op::Variable) => ("v", p),
                Ok(Op::Binary(_)) => ("e", self.e),
                Err(UnknownOp) => ("op ", op),
            },
        };
        write!(f, "{before}{number}")
    }

    fn put<W: fmt::Write>(self, f: &mut fmt::Formatter<W>) -> fmt::Result {
        let Some(step) = self.step() else {
            return self.put_atom(f);
        };
        let (open, close) = if step.sign.rank < self.rank {
            ("(", ")")
        } else {
            ("", "")
        };
        f.write_str(open)?;
        step.left.put(f)?;
        f.write_str(step.sign.sign)?;
        step.right.put(f)?;
        f.write_str(close)
    }
}

impl fmt::Display for Expression<'_> {
    fn fmt<W: fmt::Write>(&self, f: &mut fmt::Formatter<W>) -> fmt::Result {
        self.put(f)
    }
}
