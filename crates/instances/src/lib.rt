// Document 01's instances: specs/Instances.antt states them over the definitions that the contracts
// cite, and proofs/Instances.antt has antt compute each. There is no code here.
#![tactic(auto)]
