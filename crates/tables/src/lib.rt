// Document 01's starred cases stand in specs/ and are proved in proofs/. They speak of the definitions, so there is no code.
#![tactic(auto)]
