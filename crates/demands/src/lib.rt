// The customer's demands, as theorems about the definitions that the contracts cite. No code: read specs/.
#![tactic(auto)]
