// The lines of the report (01, "The report"): a row's, the total, a refusal. They are defined in specs/; the code is in the crate `printing_code`.
#![tactic(auto)]
