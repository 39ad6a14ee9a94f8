// The starred edges of the request as one proved table: see specs/.

#![tactic(auto)]
