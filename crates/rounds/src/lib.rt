// Rounds (02, Q-10): many clients, 02's tablets, page through one plan in turns. The type of a round's answer; what a round answers is defined in specs/,
// what is promised of rounds and of lists of rounds is proved in proofs/; the code is in the crate `rounds_code`.
#![tactic(auto)]

use paging::Page;
use plan::Cause;

// What a round answers: what its checks say, the client that the next round starts with, and the page of each of sixteen clients. A refused round has each
// ticket as given, and each stop as its refusal.
#[derive(Clone, Copy)]
pub struct Round {
    pub checks: Result<(), Cause>,
    pub next: u32,
    pub pages: [Page; 16],
}
