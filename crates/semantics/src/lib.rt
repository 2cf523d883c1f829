#![tactic(auto)]

// The rules of the clock-cycle player: definitions in specs/, laws and the order rule in proofs/. There is no code here.
