// Nothing to run: the lines of a text, and laws of them that every reader of lines cites.
#![tactic(auto)]
