// Says whether the alarm of a volume sounds: `alarm_at IMAGE units COUNT | fraction DECIMAL`.
#![tactic(auto)]

fn main(rt: HostRuntime) {
    views::commands::alarm_at(rt);
}
