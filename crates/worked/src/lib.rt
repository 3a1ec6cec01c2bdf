// Small cases worked through by the rules, with both kinds of cost: see specs/Cases.antt.
#![tactic(auto)]

ghost use Rattle.worked.specs.Cases.{WorkedCases};

// What the rules of the search, the tables and the sums of bounds come to in these cases.
pub fn cases_worked_through()
    ensures { WorkedCases }
{}
