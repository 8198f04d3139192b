// Nothing to run: document 01's bench readings, K1 to K13, as document 02 leaves them, as one tabled fact.
#![tactic(auto)]
