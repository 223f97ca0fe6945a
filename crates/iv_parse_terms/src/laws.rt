//! Laws of the grammar and its readers.
ghost use Rattle.iv_parse_terms.specs.Laws.{ExpressionsSound, ExpressionsComplete, OneExpression, ConditionsSound, ConditionsComplete, OneCondition, FromSound, FromComplete};

/// The reader of expressions finds those of the grammar and no others.
pub fn expression_laws()
    ensures sound { ExpressionsSound }
    ensures complete { ExpressionsComplete }
    ensures one { OneExpression }
{}

/// The reader of conditions finds those of the grammar and no others.
pub fn condition_laws()
    ensures sound { ConditionsSound }
    ensures complete { ConditionsComplete }
    ensures one { OneCondition }
{}

/// The reader of FROM finds those of the grammar and no others.
pub fn from_laws()
    ensures sound { FromSound }
    ensures complete { FromComplete }
{}
