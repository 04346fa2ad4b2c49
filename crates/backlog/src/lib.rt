// A picture of the packets that wait over the ticks of a latency, as SVG; on `latency` and `text`.
//
// Ticks stand in columns from left to right, in each as many as fit: a column shows the most and the fewest packets that wait at one of its ticks,
// and below the columns stands a mark where a tick is dry.
#![tactic(auto)]

pub mod columns;
pub mod drawing;
