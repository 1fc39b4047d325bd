// All that is shown of the definitions, in one place: specs/Promises.antt and the worked table, specs/Worked.antt.
#![tactic(auto)]
