// What `barzhilup latency` is asked for, and the counts of packets that end in each PDU (document 02, Ask 7): from an option, a text, or packets that are
// packed; on `count_list`, `transmission` and `sending`.
#![tactic(auto)]

pub mod arguments;
pub mod input;
