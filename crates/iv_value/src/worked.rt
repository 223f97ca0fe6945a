//! Worked values of the definitions, as theorems.
ghost use Rattle.iv_value.specs.Worked.{AndTable, ArithmeticEdges, LengthEdges, NotTable, OrTable, OrderEdges};

/// Does nothing. Its contract states worked values of the definitions, which the check computes.
pub fn worked_values()
    ensures not { NotTable }
    ensures and { AndTable }
    ensures or { OrTable }
    ensures arithmetic { ArithmeticEdges }
    ensures order { OrderEdges }
    ensures length { LengthEdges }
{}
