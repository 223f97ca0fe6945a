//! Laws of templates.
ghost use Rattle.iv_template.specs.Grammar.{LiteralsArePrimaries};
ghost use Rattle.iv_template.specs.Laws.{KeepsTheTemplates, NoneThatStops, OneReading, is_name, is_semicolon};
ghost use Rattle.iv_template.specs.ConditionShapes.{ValuesStandInConditions};
ghost use Rattle.iv_template.specs.DataShapes.{ValuesStandInDeletes, ValuesStandInInserts, ValuesStandInSelects, ValuesStandInUpdates};
ghost use Rattle.iv_template.specs.Places.{OwnBytesStay};
ghost use Rattle.iv_template.specs.Shapes.{ValuesStandAtHoles};

/// A template has one list of parts.
pub fn a_template_has_one_reading()
    ensures { OneReading }
{}

/// A text that stops at a place is no template.
pub fn a_text_that_stops_is_no_template()
    ensures { NoneThatStops }
{}

/// Values add no name and no semicolon: a filled template has those of the template, in their order.
pub fn values_add_no_name_and_no_semicolon()
    ensures names { KeepsTheTemplates is_name }
    ensures semicolons { KeepsTheTemplates is_semicolon }
{}

/// A literal is the words of one value expression, which may stand wherever the grammar has an operand.
pub fn literals_are_primaries()
    ensures { LiteralsArePrimaries }
{}

/// The words of a filled value expression are an expression, and its tree is that of the template with the
/// values' expressions at its holes.
pub fn values_stand_at_holes()
    ensures { ValuesStandAtHoles }
{}

/// The words of a filled search condition are a condition, and its tree is that of the template with the values'
/// expressions at its holes.
pub fn values_stand_in_conditions()
    ensures { ValuesStandInConditions }
{}

/// The words of a filled INSERT, UPDATE, DELETE or SELECT are such a statement, and its tree is that of the template
/// with the values' expressions at its holes.
pub fn values_stand_in_statements()
    ensures inserts { ValuesStandInInserts }
    ensures updates { ValuesStandInUpdates }
    ensures deletes { ValuesStandInDeletes }
    ensures selects { ValuesStandInSelects }
{}

/// A byte of the template that stands in the filled text has there the place of which `template_place` tells the one in the
/// template.
pub fn own_bytes_stay()
    ensures { OwnBytesStay }
{}
