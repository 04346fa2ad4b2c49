// Document 02, Ask 14: the loss column that is worked out after each PDU of a batch is the record's; on `loss` and `joinable`. No code is here.
#![tactic(auto)]
