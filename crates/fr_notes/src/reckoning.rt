// What a `set` computes and an `if` leaves, from what is known of each variable.
ghost use Rattle.std.specs.Prelude.{◌≡◌, ◌⊎◌, IfSome, IfNone};
ghost use Rattle.fr_program.specs.Fault.{IsConstant};
ghost use Rattle.fr_notes.specs.Change.{Turns};
ghost use Rattle.fr_notes.specs.Known.{IsPossible, joint_range};
ghost use Rattle.fr_notes.specs.Reckoning.{operand_in, HasNumbersIn, IsSpanIn, IsBranchIn, NoBranchIn};
ghost use Rattle.fr_notes.specs.View.{ends_of};

use crate::change::comparison_for;
use crate::comparison::narrowed;
use crate::known::Known;
use fr_program::{Comparison, Operand, Operator, Range};
use fr_rules::Way;

impl<'a> Known<'a> {
    /// The numbers that an operand can be.
    pub fn operand(&self, operand: Operand) -> Range
        requires { IsPossible self.now }
        ensures { ends_of result ≡ operand_in (joint_range self.now) operand }
    {
        match operand {
            Operand::Number(number) => Range::only(number),
            Operand::Variable(variable) => self.range(variable.0),
        }
    }

    /// The exact span of the numbers that a `set` can give its target. A product has a number among
    /// its operands.
    pub fn result(&self, operator: Operator, left: Operand, right: Operand) -> Range
        requires possible { IsPossible self.now }
        requires numbers { HasNumbersIn (joint_range self.now) }
        requires product { operator ≡ Operator.Times → IsConstant left ⊎ IsConstant right }
        ensures { IsSpanIn (joint_range self.now) operator left right result }
    {
        let (one, other) = (self.operand(left), self.operand(right));
        match (operator, left, right) {
            (Operator::Plus, _, _) => one.add(other),
            (Operator::Minus, _, _) => one.sub(other),
            (Operator::Times, Operand::Number(by), _) => other.scale(by),
            (Operator::Times, _, Operand::Number(by)) => one.scale(by),
            (Operator::Times, _, _) => one,
        }
    }

    /// What is left of the numbers of an `if`'s two sides on one of its ways; None where it never
    /// goes that way.
    pub fn branch(
        &self,
        comparison: Comparison,
        way: Way,
        left: Operand,
        right: Operand,
    ) -> Option<(Range, Range)>
        requires possible { IsPossible self.now }
        requires numbers { HasNumbersIn (joint_range self.now) }
        ensures some { IfSome result
            (λ new. IsBranchIn (Turns way comparison) (joint_range self.now) left right new.0 new.1) }
        ensures none { IfNone result
            (NoBranchIn (Turns way comparison) (joint_range self.now) left right) }
    {
        let comparison = comparison_for(comparison, way);
        narrowed(comparison, self.operand(left), self.operand(right))
    }
}
