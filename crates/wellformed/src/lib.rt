// What the words of a well formed job or mapping hold, and that words which hold it are well formed: laws over the reader's definitions,
// for the proofs of the crates above. There is no code here.
#![tactic(auto)]
