// The laws of exclusive or, of tests, and of rules that hold over a whole table (see proofs/); they stand on nothing. No code is here.
#![tactic(auto)]
