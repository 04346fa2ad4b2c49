// The order of refusals (see specs/); it stands on nothing. No code is here.
#![tactic(auto)]
