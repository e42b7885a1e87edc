// Adding a delta set to what a job holds: what stands so far are lemmas, in proofs/, that what is added keeps the memory sound.
#![tactic(auto)]
