// What is promised: the owner's sentences as fields of records in specs/definitions, each proved in proofs/laws. No code.
#![tactic(auto)]
