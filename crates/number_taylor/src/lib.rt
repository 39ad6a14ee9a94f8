// Taylor sums of the exponential, and the alternating sums of its terms against them: definitions and laws, no code.

#![tactic(auto)]
