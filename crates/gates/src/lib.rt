// What the rows of a call say to its code: a gate gives `Ok` where none holds, or the refusal of the first that holds.
#![tactic(auto)]
