// The computed cases of all layers: 01's starred ones and those of 02's requests. No code: the definitions are computed.
#![tactic(auto)]
