// What the customer signs: the three demands, the starred soundings, the false bearings and request §6, as theorems over the calls of
// the crates below. There is no code here. The words of demand 3 are in specs/Demand.antt; a page of plain words stands above each
// theorem in proofs/One.antt, proofs/Two.antt, proofs/Three.antt, proofs/Soundings.antt, proofs/Bearings.antt and proofs/Relays.antt.
#![tactic(auto)]
