// What frame labels are, and what reading one answers, with what follows from it. No code: read specs/.
#![tactic(auto)]
