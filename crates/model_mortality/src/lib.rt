// One cell of the table: definitions and laws, no code. The code is in `years`, `fitted_ages` and `cells`.

#![tactic(auto)]
