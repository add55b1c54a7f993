// What is defined for each listed order is a field.
#![tactic(auto)]

ghost use Rattle.field.specs.Laws.{DefinedFieldsAreLawful};

// The theorem alone: the arithmetic defined for each listed order has the laws of a commutative field.
pub fn defined_fields_are_lawful()
    ensures { DefinedFieldsAreLawful }
{}
