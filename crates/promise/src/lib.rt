//! The statement on bytes: specs/Promise says it and proofs/Kept proves it. The call that is to carry it is still to come.
#![tactic(auto)]
