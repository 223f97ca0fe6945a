//! Worked values of the definitions, as theorems.
ghost use Rattle.iv_expr.specs.Worked.{AndWorked, ArithmeticWorked, CheckWorked, ExistsWorked, NotWorked, OrWorked, SuitingWorked};

/// Does nothing. Its contract states worked values of the definitions, which the check computes.
pub fn worked_values()
    ensures arithmetic { ArithmeticWorked }
    ensures not { NotWorked }
    ensures and { AndWorked }
    ensures or { OrWorked }
    ensures exists { ExistsWorked }
    ensures check { CheckWorked }
    ensures suiting { SuitingWorked }
{}
