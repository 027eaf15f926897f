//! What an opener (evaluator) works out of the files that it is sent: specs/ says it and proofs/ has its laws. The code is still to come.
#![tactic(auto)]
