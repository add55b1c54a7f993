// The laws of the component codes, as theorems: at every length, number of checks and radius, and over every field.
#![tactic(auto)]

ghost use Rattle.code_laws.specs.Laws.{BchIsLawful, ReedSolomonIsLawful};

// Two words of a Reed-Solomon code that differ in at most twice its radius are equal, over any field with the laws.
pub fn reed_solomon_is_lawful()
    ensures { ReedSolomonIsLawful }
{}

// Two words of an extended binary BCH code that differ in at most twice its radius are equal.
pub fn bch_is_lawful()
    ensures { BchIsLawful }
{}
