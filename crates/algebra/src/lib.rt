// Reed-Solomon decoding over a field of characteristic 2, on `field`: mathematics alone, see proofs/. No code is here.
#![tactic(auto)]
