// Two well-formed rules of one family and one distinguisher rank equal exactly where the standard writing gives the same octets of them. Proofs alone:
// proofs/EqualRank.antt has the statements, specs/Pairs.antt what they say of two rules.

#![tactic(auto)]
