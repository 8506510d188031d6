#![tactic(auto)]

// What a listing is: its syntax trees, its grammar, and a machine that reads its words one by one. The definitions stand in specs/, their laws in proofs/.
