#![tactic(auto)]
// The verdict of a program under a policy: what the policy's check, the reader and the flow rules say, in this order.
pub mod verdict;
