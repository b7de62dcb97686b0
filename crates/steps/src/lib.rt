// What the network's steps come to: definitions in specs/, their laws in proofs/. There are no functions here.
#![tactic(auto)]

use basics::Refusal;
use events::Answer;
use house::Network;

// The network after a step, and the answer.
#[derive(Clone, Copy)]
pub struct Stepped {
    pub network: Network,
    pub answer: Answer,
}

// The network after a drain, and how many deliveries it made, or why it is refused.
#[derive(Clone, Copy)]
pub struct Drained {
    pub network: Network,
    pub answer: Result<usize, Refusal>,
}
