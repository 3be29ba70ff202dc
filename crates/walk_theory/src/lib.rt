//! What the walk rests on: where a new node goes in an index, trees that grow alike over two bases, and the index
//! beside a log whose oldest events are closed off.
#![tactic(auto)]

pub mod theorems;
