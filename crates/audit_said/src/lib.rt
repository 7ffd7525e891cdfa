// What the audit of lent memory answers, as a definition. No code: read specs/.
#![tactic(auto)]
