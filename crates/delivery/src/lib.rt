// Demand 3: what the packet log holds after a whole list of calls; on `writer`, `batch`, `pair`, `snapshot`, `runs` and `burst`. Definitions in specs/, the
// theorem in proofs/. No code is here.
#![tactic(auto)]
