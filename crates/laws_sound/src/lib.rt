// Pure laws: a changed pool passes its check again, after one call and after runs of calls.
#![tactic(auto)]
