// What a text is, said without a scanner: the bytes of each token, and texts made of tokens and blanks. There is no code here: specs/ has
// the definition and the theorems, proofs/ why reading does what they say.
#![tactic(auto)]
