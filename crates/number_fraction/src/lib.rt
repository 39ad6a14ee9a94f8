// Fractions over whole numbers, at least 0 and signed, and their laws: all of it stands in specs/.

#![tactic(auto)]
