// No code: the wrong tables of document 01 are refuted here, in specs/ and proofs/.
#![tactic(auto)]
