// Reading an expression, which calls itself with the remaining depth falling.
ghost use Rattle.std.specs.Prelude.{◌≡◌, ◌<◌};
ghost use Rattle.parser.specs.Body.{expr_in};
ghost use Rattle.program.specs.Answer.{place_limit, end_of};
ghost use Rattle.program.specs.Refused.{Answers};

use super::body::Body;
use program::codes::Expression;
use program::refused::Refused;
use shared::number;

impl<'a> Body<'a> {
    // Too deep is 14 before the code is read.
    #[tactic(auto, using(crate::proofs::ExpressionLaws::expressions))]
    pub fn read_expr(&self, depth: u8, at: usize) -> Result<usize, Refused>
        requires { at < place_limit }
        ensures { Answers result (end_of (expr_in self.now depth at)) }
    {
        let program = self.reader.program;
        if depth == 0 {
            return Err(Refused::new(number::PROGRAM_DEPTH, at));
        }
        if program.len() <= at {
            return Err(Refused::new(number::PROGRAM_LENGTH, program.len()));
        }
        let next = at + 1;
        let Ok(code) = Expression::try_from(program[at]) else {
            return Err(Refused::new(number::PROGRAM_CODE, at));
        };
        match code {
            Expression::Constant => {
                if program.len() - next < 4 {
                    return Err(Refused::new(number::PROGRAM_LENGTH, program.len()));
                }
                Ok(next + 4)
            }
            Expression::Variable => self.reader.read_below(self.variables, next),
            Expression::Binary(_) => {
                let first = self.read_expr(depth - 1, next)?;
                self.read_expr(depth - 1, first)
            }
        }
    }
}
