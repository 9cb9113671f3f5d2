// Document 01's examples and other lines with numbers written out, computed by the rules. There is no code here.
#![tactic(auto)]
