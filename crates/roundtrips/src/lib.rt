// What the standard writing wrote, the standard reading gives back, and what was read, written again, is one form. Proofs alone:
// proofs/RoundTrips.antt has the statements, specs/Trips.antt what they say of a rule.

#![tactic(auto)]
