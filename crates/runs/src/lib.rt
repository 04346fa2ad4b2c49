// Runs of PDUs, some of them lost, by what PDUs say: what a receiver logs of a run is the packets that arrived whole; on `reassembly`. Definitions in specs/,
// the theorem in proofs/. No code is here.
#![tactic(auto)]
