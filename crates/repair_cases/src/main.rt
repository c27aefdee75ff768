// Repairs several image files in place, and prints what each then holds: `repair_cases FILE..`. Its
// stored run is the repair's table of cases.
#![tactic(auto)]

fn main(rt: HostRuntime) {
    tables::repair_all(rt);
}
