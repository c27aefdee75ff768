// Prints what each of several image files holds: `list_cases FILE..`. Its stored run is the
// listing's table of cases.
#![tactic(auto)]

fn main(rt: HostRuntime) {
    tables::list_all(rt);
}
