// Nothing to run: with all scales 1, only TOP differs from what was answered before there were scales.
#![tactic(auto)]
