// Pod and aircraft at both ends of one exchange: what the aircraft builds the pod obeys, and what the pod means the aircraft reads.
#![tactic(auto)]
