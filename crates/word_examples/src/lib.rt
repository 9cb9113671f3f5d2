// The table words, line by line with numbers written out, computed by the rules. There is no code here.
#![tactic(auto)]
