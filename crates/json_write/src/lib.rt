// The text of a JSON value with no spaces. There is no code here: the message writers put these texts out piece by piece.

#![tactic(auto)]
