// The writer and the check agree: every written report is accepted. There is no code here; specs/Agreement.antt states it.
#![tactic(auto)]
