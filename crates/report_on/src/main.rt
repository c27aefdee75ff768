// Reports on the space of a volume: `report_on IMAGE`.
#![tactic(auto)]

fn main(rt: HostRuntime) {
    views::commands::report_on(rt);
}
