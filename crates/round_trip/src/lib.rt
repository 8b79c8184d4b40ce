// Theorems about the images that the builder writes; there is no code here. The statements are in specs/, their proofs in proofs/.
#![tactic(auto)]
