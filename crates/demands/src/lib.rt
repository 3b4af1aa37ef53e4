// The demands on the library restated and proved; no code.
#![tactic(auto)]
