// What the printed words mean. There is no function here: specs/Printed.antt has the theorems that a "yes", a "no" and an "undecided" on a sheet stand
// for; what they rest on stands in specs/Laws. A crate of its own, so that `lines` does not prove them again for each of its wrong variants.

#![tactic(auto)]
