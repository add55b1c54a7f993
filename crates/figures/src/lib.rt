// Worked figures, proved to follow from the definitions.
#![tactic(auto)]

ghost use Rattle.figures.specs.Figures.{Figures};

// The table of figures stands. Nothing is worked out when this is called: the contract is the table.
pub fn figures_stand()
    ensures { Figures }
{}
