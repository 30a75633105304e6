// The three demands of document 00, as three theorems about what calls of the entries answer and
// leave, and that no entry answers 12 (document 02, U8). The statements stand in specs/, their
// proofs in proofs/; there is no code.

#![tactic(auto)]
