// Document 02, Ask 11: what receivers logged can be joined; on `join` and `delivery`. No code is here.
#![tactic(auto)]
