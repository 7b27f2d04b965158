// No code: stories from fresh that reach the examples of document 01, in proofs/.
#![tactic(auto)]
