// What is claimed of texts: that they are read exactly when the grammar has them, what the monitor then does in every conversation, what
// the report says of two of them, and that a device that fits and keeps to its description is never blamed. There is no code here: specs/ has the claims, in terms of
// bytes, session types and messages, proofs/ why they hold.
#![tactic(auto)]
